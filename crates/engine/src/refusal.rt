// Every refusal of the product, by its number.
ghost use Rattle.std.specs.Prelude.{◌≡◌, Some};
ghost use Rattle.engine.specs.Refusals.{number, refused};

use std::error::Error;
use std::fmt;

#[derive(Clone, Copy, PartialEq, Eq, Debug)]
pub enum Refusal {
    // xor_byte, byte: the place is 48 or more
    PlaceOutsideState,
    // a mask of a three-share engine is not 48 bytes
    MaskLength,
    // a key is not 32 bytes
    KeyLength,
    // the name of a nonce book is not 12 bytes
    NameLength,
    // a nonce book has issued its last nonce
    BookUsedUp,
    // a box nonce is not 16 bytes
    NonceLength,
    // a buffer has no room for the bytes that a call writes
    BufferTooShort,
    // a box is shorter than its tag
    BoxTooShort,
    // a box's tag is not that of its message
    TagDiffers,
    // the text of a note is longer than 28 bytes
    NoteLength,
    // the round viewer's input is not a request
    ViewerInput,
}

impl Refusal {
    // The number by which users know the refusal.
    pub fn number(self) -> u8
        ensures { result ≡ number self }
    {
        match self {
            Refusal::PlaceOutsideState => 1,
            Refusal::MaskLength => 2,
            Refusal::KeyLength => 3,
            Refusal::NameLength => 4,
            Refusal::BookUsedUp => 5,
            Refusal::NonceLength => 6,
            Refusal::BufferTooShort => 7,
            Refusal::BoxTooShort => 8,
            Refusal::TagDiffers => 9,
            Refusal::NoteLength => 10,
            Refusal::ViewerInput => 11,
        }
    }
}

// A refusal is printed by its number.
impl fmt::Display for Refusal {
    ghost output = { λ e. Some (refused e) };

    fn fmt<W: fmt::Write>(&self, f: &mut fmt::Formatter<W>) -> fmt::Result {
        write!(f, "refused {}", self.number())
    }
}

impl Error for Refusal {}
