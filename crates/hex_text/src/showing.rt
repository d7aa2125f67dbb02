// Strings, shown in hex digits.
ghost use Rattle.std.specs.Prelude.{Some};
ghost use Rattle.hex_text.specs.Hex.{hex};

use crate::digits::HexByte;
use std::fmt;

// A string that is shown in hex digits.
#[derive(Drop)]
pub struct Hex<'a>(pub &'a [u8]);

impl fmt::Display for Hex<'_> {
    ghost output = { λ s. Some (hex s.0.now) };

    fn fmt<W: fmt::Write>(&self, f: &mut fmt::Formatter<W>) -> fmt::Result {
        for b in self.0 {
            write!(f, "{}", HexByte(*b))?;
        }
        Ok(())
    }
}
