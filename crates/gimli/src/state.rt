// The state: three rows of four words.
ghost use Rattle.std.specs.Prelude.{◌≡◌, ℕ, ◌+◌, ◌<◌, ◌≤◌, length};
ghost use Rattle.engine.specs.Answers.{Read};
ghost use Rattle.engine.specs.Strings.{zeros};
ghost use Rattle.gimli.specs.Permutation.{Whole, Column as ColumnWords, column, from_columns};
ghost use Rattle.gimli.specs.Shares.{xor_states};
ghost use Rattle.gimli.specs.Strings.{string, word_at, FromBytes, StateXored};

use crate::sp_box::Column;
use engine::engine::WIDTH;
use engine::refusal::Refusal;

// Three arrays in a plain struct, by the names of the rows: rounds take and give it by value.
#[derive(Clone, Copy)]
pub struct State {
    pub top: [u32; 4],
    pub middle: [u32; 4],
    pub bottom: [u32; 4],
}

// The word that begins at a place of a string, its lowest byte first.
// Byte by byte: four bytes taken from a slice as an array are an Option, whose other case would have to be proved away.
fn word_at(string: &[u8], place: usize) -> u32
    requires { place + 4 ≤ length string.now }
    ensures { result ≡ word_at string.now place }
{
    u32::from_le_bytes([
        string[place],
        string[place + 1],
        string[place + 2],
        string[place + 3],
    ])
}

impl State {
    // The state of zeros.
    pub fn zero() -> State
        ensures { string result ≡ zeros }
    {
        State {
            top: [0; 4],
            middle: [0; 4],
            bottom: [0; 4],
        }
    }

    // The state whose columns are the answers of f.
    pub(crate) fn from_columns<F: Fn(usize) -> Column>(f: F) -> State
        requires { (j : ℕ) → j < 4 → F.pre f j }
        ensures { (c : ℕ → ColumnWords) → ((j : ℕ) (r : ColumnWords) → j < 4 → F.post f j r → r ≡ c j) → result ≡ from_columns c }
    {
        // four calls: an array of columns would be taken apart at once
        let (x0, y0, z0) = f(0);
        let (x1, y1, z1) = f(1);
        let (x2, y2, z2) = f(2);
        let (x3, y3, z3) = f(3);
        State {
            top: [x0, x1, x2, x3],
            middle: [y0, y1, y2, y3],
            bottom: [z0, z1, z2, z3],
        }
    }

    // The words of column j.
    pub(crate) fn column(&self, j: usize) -> Column
        requires { j < 4 }
        ensures { result ≡ column self.now j }
    {
        (self.top[j], self.middle[j], self.bottom[j])
    }

    // The state of a string of 48 bytes; none of another length.
    pub fn from_bytes(string: &[u8]) -> Option<State>
        ensures { FromBytes string.now result }
    {
        if string.len() != WIDTH {
            return None;
        }
        Some(State::from_columns(|j| {
            (
                word_at(string, 4 * j),
                word_at(string, 16 + 4 * j),
                word_at(string, 32 + 4 * j),
            )
        }))
    }

    // The same state. A caller learns what its type says of it, which it does not of a state in an array.
    pub(crate) fn known(self) -> State
        ensures same { result ≡ self }
        ensures whole { Whole self }
    {
        self
    }

    // The state of the xors of the words of two.
    pub fn xor(self, other: State) -> State
        ensures { result ≡ xor_states self other }
    {
        State::from_columns(|j| {
            let (x, y, z) = self.column(j);
            let (u, v, w) = other.column(j);
            (x ^ u, y ^ v, z ^ w)
        })
    }

    // The byte at a place of the state's string.
    pub fn byte(&self, place: usize) -> Result<u8, Refusal>
        ensures { Read (string self.now) place result }
    {
        if place >= WIDTH {
            return Err(Refusal::PlaceOutsideState);
        }
        let column = place % 16 / 4;
        // row by row, as in xor_byte: a row lent by number would need a contract of its own
        let word = match place / 16 {
            0 => self.top[column],
            1 => self.middle[column],
            _ => self.bottom[column],
        };
        Ok(word.to_le_bytes()[place % 4])
    }

    // Changes the byte at a place of the state's string by xor with b.
    pub fn xor_byte(&mut self, place: usize, b: u8) -> Result<(), Refusal>
        ensures { StateXored self.old place b result self.new }
    {
        if place >= WIDTH {
            return Err(Refusal::PlaceOutsideState);
        }
        let column = place % 16 / 4;
        // a shift is no longer than an array of four bytes with b in it
        let bits = u32::from(b) << (8 * (place % 4));
        match place / 16 {
            0 => self.top[column] ^= bits,
            1 => self.middle[column] ^= bits,
            _ => self.bottom[column] ^= bits,
        }
        Ok(())
    }
}
