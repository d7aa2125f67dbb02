// Whole strings at an engine, which has a call for one byte.
ghost use Rattle.std.specs.Prelude.{◌≡◌, ◌↔◌, IsTrue};
ghost use Rattle.engine.specs.Strings.{xored_from, BeginsWith};

use crate::engine::{Engine, WIDTH};

// Changes the bytes from a place on by xor with a string's; what lies past the last place is left out.
pub fn xor_string<E: Engine>(engine: &mut E, place: usize, string: &[u8])
    ensures { E.meaning engine.new ≡ xored_from (E.meaning engine.old) place string.now }
{
    for (p, b) in (place..WIDTH).zip(string) {
        engine.xor_byte(p, *b).unwrap();
    }
}

// Whether the engine's string begins with this one.
pub fn holds<E: Engine>(engine: &E, string: &[u8]) -> bool
    ensures { IsTrue result ↔ BeginsWith string.now (E.meaning engine.now) }
{
    // a loop: of a chain with `all` no short proof was found
    for (place, b) in string.iter().enumerate() {
        if engine.byte(place) != Ok(*b) {
            return false;
        }
    }
    true
}
