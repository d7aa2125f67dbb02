// An engine: a state of 48 bytes under four calls. Modes of use are proved from these contracts alone.
ghost use Rattle.std.specs.Prelude.{◌≡◌, ℕ, ◌<◌, List, Result};
ghost use Rattle.engine.specs.Strings.{width, Whole, zeros};
ghost use Rattle.engine.specs.Answers.{Xored, Read};

use crate::refusal::Refusal;

// The number of bytes in a state.
pub const WIDTH: usize = 48;

pub trait Engine {
    // the state's string
    ghost meaning: { Self → List ℕ };

    // what permute does to the string
    ghost rule: { List ℕ → List ℕ };

    fn clear(&mut self)
        ensures { meaning self.new ≡ zeros };

    // Changes the byte at a place by xor with b.
    fn xor_byte(&mut self, place: usize, b: u8) -> Result<(), Refusal>
        ensures { Xored (meaning self.old) place b result (meaning self.new) };

    fn byte(&self, place: usize) -> Result<u8, Refusal>
        ensures { Read (meaning self.now) place result };

    fn permute(&mut self)
        ensures { meaning self.new ≡ rule (meaning self.old) };

    ghost whole: { (e : Self) → Whole (meaning e) };

    ghost keeps: { (s : List ℕ) → Whole s → Whole (rule s) };
}
