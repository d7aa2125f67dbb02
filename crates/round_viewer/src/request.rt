// Requests, read from the bytes that they are written in.
ghost use Rattle.std.specs.Prelude.{[], ◌∷◌};
ghost use Rattle.engine.specs.Strings.{Whole};
ghost use Rattle.hex_text.specs.Hex.{hex};
ghost use Rattle.hex_text.specs.Readers.{Reads};
ghost use Rattle.round_viewer.specs.Requests.{Rounds, decimal};
ghost use Rattle.round_viewer.specs.Readers.{Parts, Parses};

use engine::engine::WIDTH;
use hex_text::reading::fill_string;

// The bytes of a request: two decimal digits, a space, two hex digits for each byte of the string, a newline.
pub const LENGTH: usize = 4 + 2 * WIDTH;

// How many rounds to run, and the string of the state to run them on.
#[derive(Clone, Copy)]
pub struct Request {
    pub rounds: u32,
    pub string: [u8; WIDTH],
}

// The string of 96 hex digits.
fn hex_string(digits: &[u8]) -> Option<[u8; WIDTH]>
    ensures { Reads Whole hex digits.now result }
{
    let mut string = [0; WIDTH];
    fill_string(digits, &mut string)?;
    Some(string)
}

// The number of rounds, of two decimal digits.
fn round_count(tens: char, ones: char) -> Option<u32>
    ensures { Reads Rounds decimal (tens ∷ ones ∷ []) result }
{
    let rounds = 10 * tens.to_digit(10)? + ones.to_digit(10)?;
    match rounds {
        1..=24 => Some(rounds),
        _ => None,
    }
}

// The parts of an input that is laid out as a request: the number's two digits, and the string's digits.
fn parts(input: &[u8]) -> Option<(char, char, &[u8])>
    ensures { Parts input.now result }
{
    let [tens, ones, b' ', digits @ .., b'\n'] = input else {
        return None;
    };
    Some((*tens as char, *ones as char, digits))
}

// The request that the input is.
pub fn parse(input: &[u8]) -> Option<Request>
    ensures { Parses input.now result }
{
    let (tens, ones, digits) = parts(input)?;
    let rounds = round_count(tens, ones)?;
    let string = hex_string(digits)?;
    Some(Request { rounds, string })
}
