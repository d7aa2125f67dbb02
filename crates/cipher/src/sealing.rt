// A sealing: associated data until close, then the message, and the tag at its end.
ghost use Rattle.std.specs.Prelude.{◌≡◌, ◌++◌};
ghost use Rattle.engine.specs.Strings.{zeros};
ghost use Rattle.sponge.specs.Steps.{at, standing};
ghost use Rattle.cipher.specs.Boxes.{Boxes};
ghost use Rattle.cipher.specs.Ciphering.{Tags};
ghost use Rattle.cipher.specs.Keys.{key_bytes};
ghost use Rattle.cipher.specs.Nonces.{issued_bytes};
ghost use Rattle.cipher.specs.Sealings.{Wrote};

use crate::adding::Adding;
use crate::book::IssuedNonce;
use crate::closed::Closed;
use crate::key::Key;
use crate::uses::ToSeal;
use engine::engine::Engine;
use engine::refusal::Refusal;
use sponge::sponge::RATE;

// The number of bytes in a tag.
pub const TAG_LEN: usize = RATE;

pub type Sealing<E> = Adding<E, ToSeal>;

pub type ClosedSealing<E> = Closed<E, ToSeal>;

impl<E: Engine> Adding<E, ToSeal> {
    // Starts a sealing, whatever the engine meant. The nonce is spent.
    pub fn start(engine: E, key: &Key, nonce: IssuedNonce) -> Sealing<E>
        ensures state { standing E.meaning result.sponge ≡ at (E.rule (issued_bytes nonce ++ key_bytes key.now)) 0 }
        ensures boxes { Boxes E.rule (key_bytes key.now) (issued_bytes nonce) }
    {
        Adding::begin(engine, key, nonce.bytes())
    }
}

impl<E: Engine> Closed<E, ToSeal> {
    // Writes the ciphertext of the message's next piece into the first bytes of a buffer, and answers the piece's length.
    // A buffer that is shorter than the piece is refused. The sealing moves, so it comes back beside the answer.
    pub fn write(
        self,
        piece: &[u8],
        buffer: &mut [u8],
    ) -> (ClosedSealing<E>, Result<usize, Refusal>)
        ensures { Wrote E.meaning E.rule self piece.now buffer.old result.0 result.1 buffer.new }
    {
        if buffer.len() < piece.len() {
            return (self, Err(Refusal::BufferTooShort));
        }
        (self.cipher(piece, buffer), Ok(piece.len()))
    }

    // Ends the message with its tag. The engine comes back cleared.
    pub fn finish(self, tag: &mut [u8; TAG_LEN]) -> E
        ensures tag { Tags E.rule (standing E.meaning self.sponge) tag.new }
        ensures cleared { E.meaning result ≡ zeros }
    {
        self.end(tag)
    }
}
