// A sponge moves from call to call, and holds its engine by value.
// It is lent to the calls for one byte: moved at each byte, it would be copied at each byte.
ghost use Rattle.std.specs.Prelude.{◌≡◌, ◌<◌};
ghost use Rattle.engine.specs.Strings.{zeros};
ghost use Rattle.sponge.specs.Blocks.{rate};
ghost use Rattle.sponge.specs.Calls.{Absorbs, Pads, Squeezes};
ghost use Rattle.sponge.specs.Steps.{at, standing, byte_of, xored_in, advanced, absorb_byte};

pub use crate::block::RATE;
use crate::block::{absorb_byte, advance, byte_at, xor_in};
use engine::engine::{Engine, WIDTH};

pub struct Sponge<E> {
    pub engine: E,
    // where the next byte goes, or comes from; read modulo the rate, so no place is refused
    pub place: usize,
}

impl<E: Engine> Sponge<E> {
    // A sponge of zeros, whatever the engine meant.
    pub fn new(engine: E) -> Sponge<E>
        ensures { standing E.meaning result ≡ at zeros 0 }
    {
        Sponge {
            engine: cleared(engine),
            place: 0,
        }
    }

    // Takes in the next piece of a string.
    pub fn absorb(mut self, piece: &[u8]) -> Sponge<E>
        ensures { Absorbs E.rule (standing E.meaning self) piece.now (standing E.meaning result) }
    {
        for &b in piece {
            self.absorb_byte(b);
        }
        self
    }

    // Ends the last block of a string.
    pub fn pad(mut self) -> Sponge<E>
        ensures { Pads E.rule (standing E.meaning self) (standing E.meaning result) }
    {
        self.xor_in(1);
        self.engine.xor_byte(WIDTH - 1, 1).unwrap();
        self.engine.permute();
        self.place = 0;
        self
    }

    // Fills a buffer with the next bytes that the state gives.
    pub fn squeeze(mut self, out: &mut [u8]) -> Sponge<E>
        ensures { Squeezes E.rule (standing E.meaning self) out.new (standing E.meaning result) }
    {
        for b in out.iter_mut() {
            *b = self.byte();
            self.advance();
        }
        self
    }

    // The engine, cleared.
    pub fn into_engine(self) -> E
        ensures { E.meaning result ≡ zeros }
    {
        let Sponge { engine, place: _ } = self;
        cleared(engine)
    }

    // Changes the byte at the place by xor with b.
    pub fn xor_in(&mut self, b: u8)
        ensures state { standing E.meaning self.new ≡ xored_in (standing E.meaning self.old) b }
        ensures place { self.new.place ≡ self.old.place }
    {
        xor_in(&mut self.engine, self.place, b);
    }

    // The byte at the place.
    pub fn byte(&self) -> u8
        ensures { result ≡ byte_of (standing E.meaning self.now) }
    {
        byte_at(&self.engine, self.place)
    }

    // Goes past the place. A full block is followed by the permutation.
    pub fn advance(&mut self)
        ensures state { standing E.meaning self.new ≡ advanced E.rule (standing E.meaning self.old) }
        ensures in_block { self.new.place < rate }
    {
        self.place = advance(&mut self.engine, self.place);
    }

    // Takes in one byte.
    pub fn absorb_byte(&mut self, b: u8)
        ensures state { standing E.meaning self.new ≡ absorb_byte E.rule (standing E.meaning self.old) b }
        ensures in_block { self.new.place < rate }
    {
        self.place = absorb_byte(&mut self.engine, self.place, b);
    }
}

fn cleared<E: Engine>(mut engine: E) -> E
    ensures { E.meaning result ≡ zeros }
{
    engine.clear();
    engine
}
