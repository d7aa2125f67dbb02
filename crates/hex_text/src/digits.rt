// Hex digits: 0 to 9 and a to f.
ghost use Rattle.std.specs.Prelude.{◌≡◌, ◌<◌, [], ◌∷◌, Some};
ghost use Rattle.hex_text.specs.Hex.{digit, pair};
ghost use Rattle.hex_text.specs.Readers.{Reads};

use std::fmt;

// The number that a hex digit stands for. A match on the character: the library's `to_digit` takes A to F, too.
pub fn hex_digit(c: char) -> Option<u8>
    ensures { Reads (λ d. d < 16) digit c result }
{
    match c {
        '0'..='9' => Some(c as u8 - b'0'),
        'a'..='f' => Some(c as u8 - b'a' + 10),
        _ => None,
    }
}

// The byte of two hex digits.
pub fn hex_byte(high: char, low: char) -> Option<u8>
    ensures { Reads (λ b. b < 256) pair (high ∷ low ∷ []) result }
{
    Some(16 * hex_digit(high)? + hex_digit(low)?)
}

// A byte that is shown as two hex digits.
#[derive(Clone, Copy)]
pub struct HexByte(pub u8);

impl fmt::Display for HexByte {
    ghost output = { λ b. Some (pair b.0) };

    fn fmt<W: fmt::Write>(&self, f: &mut fmt::Formatter<W>) -> fmt::Result {
        let HexByte(value) = *self;
        write!(f, "{value:02x}")
    }
}
