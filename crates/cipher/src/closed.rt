// A sealing or an opening after close: a message's bytes, one after another, and the tag.
ghost use Rattle.std.specs.Prelude.{◌≡◌, ◌≤◌, length};
ghost use Rattle.engine.specs.Strings.{zeros};
ghost use Rattle.sponge.specs.Steps.{standing, absorb_byte};
ghost use Rattle.cipher.specs.Ciphering.{keyed, Ciphers, Deciphers, Tags};

use crate::sealing::TAG_LEN;
use engine::engine::Engine;
use sponge::sponge::Sponge;
use std::marker::PhantomData;

pub struct Closed<E, U> {
    pub(crate) sponge: Sponge<E>,
    // to seal, or to open
    pub(crate) of: PhantomData<U>,
}

impl<E: Engine, U> Closed<E, U> {
    // Ciphers a piece into the first bytes of a buffer. As decipher, with another step: one loop for both would promise what
    // it does by a relation that is passed in.
    pub(crate) fn cipher(mut self, piece: &[u8], buffer: &mut [u8]) -> Closed<E, U>
        requires { length piece.now ≤ length buffer.old }
        ensures { Ciphers E.rule (standing E.meaning self.sponge) piece.now buffer.old buffer.new (standing E.meaning result.sponge) }
    {
        // by places, each written once: in place, plain text would stand in the buffer, and of a zip with the buffer's bytes a
        // proof knows no elements
        for (i, b) in piece.iter().enumerate() {
            buffer[i] = self.cipher_byte(*b);
        }
        self
    }

    // Deciphers a text into the first bytes of a buffer.
    pub(crate) fn decipher(mut self, text: &[u8], buffer: &mut [u8]) -> Closed<E, U>
        requires { length text.now ≤ length buffer.old }
        ensures { Deciphers E.rule (standing E.meaning self.sponge) text.now buffer.old buffer.new (standing E.meaning result.sponge) }
    {
        // by places, as in cipher
        for (i, c) in text.iter().enumerate() {
            buffer[i] = self.decipher_byte(*c);
        }
        self
    }

    // Ends the message. The engine comes back cleared.
    pub(crate) fn end(self, tag: &mut [u8; TAG_LEN]) -> E
        ensures tag { Tags E.rule (standing E.meaning self.sponge) tag.new }
        ensures cleared { E.meaning result ≡ zeros }
    {
        let Closed { sponge, of: _ } = self;
        sponge.pad().squeeze(tag).into_engine()
    }

    // Gives the box up. The engine comes back cleared. Two lines, as Adding's: a trait for both would be longer.
    pub fn release(self) -> E
        ensures { E.meaning result ≡ zeros }
    {
        let Closed { sponge, of: _ } = self;
        sponge.into_engine()
    }

    // The ciphertext's byte for the message's next byte.
    fn cipher_byte(&mut self, b: u8) -> u8
        ensures byte { result ≡ keyed (standing E.meaning self.old.sponge) b }
        ensures state { standing E.meaning self.new.sponge ≡ absorb_byte E.rule (standing E.meaning self.old.sponge) b }
    {
        self.sponge.xor_in(b);
        let c = self.sponge.byte();
        self.sponge.advance();
        c
    }

    // The message's byte for the ciphertext's next byte.
    fn decipher_byte(&mut self, c: u8) -> u8
        ensures byte { result ≡ keyed (standing E.meaning self.old.sponge) c }
        ensures state { standing E.meaning self.new.sponge ≡ absorb_byte E.rule (standing E.meaning self.old.sponge) result }
    {
        let b = self.sponge.byte() ^ c;
        self.sponge.absorb_byte(b);
        b
    }
}
