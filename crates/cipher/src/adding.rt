// A sealing or an opening until close: an engine started under a key and a nonce, and associated data.
ghost use Rattle.std.specs.Prelude.{◌≡◌, ◌++◌};
ghost use Rattle.engine.specs.Strings.{zeros};
ghost use Rattle.sponge.specs.Calls.{Absorbs, Pads};
ghost use Rattle.sponge.specs.Steps.{at, standing};
ghost use Rattle.cipher.specs.Boxes.{Boxes};
ghost use Rattle.cipher.specs.Keys.{key_bytes};

use crate::closed::Closed;
use crate::key::Key;
use crate::nonce::NONCE_LEN;
use engine::engine::Engine;
use engine::strings::xor_string;
use sponge::sponge::Sponge;
use std::marker::PhantomData;

pub struct Adding<E, U> {
    sponge: Sponge<E>,
    // to seal, or to open
    of: PhantomData<U>,
}

impl<E: Engine, U> Adding<E, U> {
    // Loads a cleared engine with the nonce, then the key, and permutes it.
    pub(crate) fn begin(engine: E, key: &Key, nonce: &[u8; NONCE_LEN]) -> Adding<E, U>
        ensures state { standing E.meaning result.sponge ≡ at (E.rule (nonce.now ++ key_bytes key.now)) 0 }
        ensures boxes { Boxes E.rule (key_bytes key.now) nonce.now }
    {
        let mut sponge = Sponge::new(engine);
        load(&mut sponge.engine, key, nonce);
        sponge.engine.permute();
        Adding {
            sponge,
            of: PhantomData,
        }
    }

    // Adds the next piece of associated data.
    pub fn add(self, piece: &[u8]) -> Adding<E, U>
        ensures { Absorbs E.rule (standing E.meaning self.sponge) piece.now (standing E.meaning result.sponge) }
    {
        let Adding { sponge, of } = self;
        Adding {
            sponge: sponge.absorb(piece),
            of,
        }
    }

    // Ends the associated data.
    pub fn close(self) -> Closed<E, U>
        ensures { Pads E.rule (standing E.meaning self.sponge) (standing E.meaning result.sponge) }
    {
        let Adding { sponge, of } = self;
        Closed {
            sponge: sponge.pad(),
            of,
        }
    }

    // Gives the box up. The engine comes back cleared.
    pub fn release(self) -> E
        ensures { E.meaning result ≡ zeros }
    {
        let Adding { sponge, of: _ } = self;
        sponge.into_engine()
    }
}

// Loads an engine of zeros with a nonce, then a key.
fn load<E: Engine>(engine: &mut E, key: &Key, nonce: &[u8; NONCE_LEN])
    requires { E.meaning engine.old ≡ zeros }
    ensures state { E.meaning engine.new ≡ nonce.now ++ key_bytes key.now }
    ensures boxes { Boxes E.rule (key_bytes key.now) nonce.now }
{
    xor_string(engine, 0, nonce);
    xor_string(engine, NONCE_LEN, key.bytes());
}
