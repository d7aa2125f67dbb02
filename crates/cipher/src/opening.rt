// An opening: associated data until close, then a whole box.
ghost use Rattle.std.specs.Prelude.{◌≡◌, ℕ, List, ◌++◌};
ghost use Rattle.engine.specs.Strings.{zeros};
ghost use Rattle.sponge.specs.Steps.{at, standing};
ghost use Rattle.cipher.specs.Keys.{key_bytes};
ghost use Rattle.cipher.specs.Nonces.{box_nonce_bytes};
ghost use Rattle.cipher.specs.Openings.{Opens};

use crate::adding::Adding;
use crate::closed::Closed;
use crate::key::Key;
use crate::nonce::BoxNonce;
use crate::uses::ToOpen;
use crate::whole_box::open_box;
use engine::engine::Engine;
use engine::refusal::Refusal;

pub type Opening<E> = Adding<E, ToOpen>;

pub type ClosedOpening<E> = Closed<E, ToOpen>;

impl<E: Engine> Adding<E, ToOpen> {
    // Starts an opening, whatever the engine meant.
    pub fn start(engine: E, key: &Key, nonce: &BoxNonce) -> Opening<E>
        ensures { standing E.meaning result.sponge ≡ at (E.rule (box_nonce_bytes nonce.now ++ key_bytes key.now)) 0 }
    {
        Adding::begin(engine, key, nonce.bytes())
    }
}

impl<E: Engine> Closed<E, ToOpen> {
    // Opens a box into the first bytes of a buffer, and answers the message's length. The engine comes back cleared.
    // Of a box that is refused for its tag, zeros stand where its message would. Answer and engine are a pair: the engine comes
    // back whatever the answer is.
    pub fn open(self, sealed: &[u8], buffer: &mut [u8]) -> (E, Result<usize, Refusal>)
        ensures opens { (s : List ℕ) → standing E.meaning self.sponge ≡ at s 0 → Opens E.rule s sealed.now buffer.old buffer.new result.1 }
        ensures cleared { E.meaning result.0 ≡ zeros }
    {
        open_box(self, sealed, buffer)
    }
}
