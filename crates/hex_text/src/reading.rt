// Strings, read from their hex digits.
ghost use Rattle.std.specs.Prelude.{IfOk, length};
ghost use Rattle.hex_text.specs.Hex.{hex};
ghost use Rattle.hex_text.specs.Readers.{ReadsInto, ReadsString};

use crate::digits::hex_byte;
use std::alloc::{AllocError, Global};

// Fills a string of known length with the bytes that are written in these digits.
// Where they are not the digits of such a string, what stands in it is left open.
pub fn fill_string(digits: &[u8], string: &mut [u8]) -> Option<()>
    ensures { ReadsInto hex (length string.old) digits.now result string.new }
{
    // by hand, pair by pair: of a zip with `iter_mut` a proof knows no elements
    let mut rest = digits;
    for b in string.iter_mut() {
        let [high, low, after @ ..] = rest else {
            return None;
        };
        *b = hex_byte(*high as char, *low as char)?;
        rest = after;
    }
    rest.is_empty().then_some(())
}

// The string that is written in these digits. For an odd number of them no memory is asked for, and for a digit that is
// none no more than for the bytes before it; so it is no fill_string of a string made before.
pub fn read_string(heap: Global, digits: &[u8]) -> Result<Option<Vec<u8>>, AllocError>
    ensures { IfOk result (ReadsString hex digits.now) }
{
    if digits.len() % 2 != 0 {
        return Ok(None);
    }
    let mut string = Vec::new(heap);
    let mut rest = digits;
    while let [high, low, after @ ..] = rest {
        // no `?` here: that there is no such string is an answer, and no error
        let Some(b) = hex_byte(*high as char, *low as char) else {
            return Ok(None);
        };
        string.push(b)?;
        rest = after;
    }
    Ok(Some(string))
}
