// The permutation on any engine.
use engine::engine::{Engine, WIDTH};
use engine::refusal::Refusal;
use engine::strings::{holds, xor_string};

// Whether place 48 is refused with 1.
fn ends<E: Engine>(engine: &mut E) -> bool {
    engine.byte(WIDTH) == Err(Refusal::PlaceOutsideState)
        && engine.xor_byte(WIDTH, 1) == Err(Refusal::PlaceOutsideState)
}

// Whether the engine takes one string in, and permutes it to another.
pub(crate) fn permutes<E: Engine + Copy>(mut engine: E, before: &[u8], after: &[u8]) -> bool {
    engine.clear();
    xor_string(&mut engine, 0, before);
    let loaded = ends(&mut engine) && holds(&engine, before);
    engine.permute();
    loaded && holds(&engine, after)
}
