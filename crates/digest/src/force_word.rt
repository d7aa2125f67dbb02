// A force word: a 32-bit number, written as four bytes.
ghost use Rattle.std.specs.Prelude.{◌≡◌};
ghost use Rattle.digest.specs.ForceWords.{force_bytes};
ghost use Rattle.digest.specs.ForceWordsLemmas.{force_nonempty, force_each_byte, force_prefix_free};

use crate::item::Item;

// The number of bytes in a word.
const SIZE: usize = 4;

#[derive(Clone, Copy)]
pub struct ForceWord {
    word: u32,
}

impl ForceWord {
    // The force word of a number.
    pub fn new(number: u32) -> ForceWord
        ensures { result.word ≡ number }
    {
        ForceWord { word: number }
    }

    // The number of a force word.
    pub fn number(&self) -> u32
        ensures { result ≡ self.now.word }
    {
        self.word
    }
}

impl Item for ForceWord {
    ghost bytes = { force_bytes };

    ghost nonempty = { force_nonempty };

    ghost each_byte = { force_each_byte };

    ghost prefix_free = { force_prefix_free };

    fn len(&self) -> usize {
        SIZE
    }

    fn byte(&self, place: usize) -> Option<u8> {
        self.number().to_le_bytes().get(place).copied()
    }
}
