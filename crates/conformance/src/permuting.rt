// The permutation's vector, on any engine and on the reference.
use crate::difference::Difference;
use crate::vector::PermutationVector;
use engine::engine::Engine;
use engine::strings::{holds, xor_string};
use gimli::rounds::first_rounds;
use gimli::state::State;
use reference::permutation::{permuted, round};

// The top word of column 0 after round 24 of the zero state. The other words are 0.
const FIRST_WORD: u32 = 0x9e37_7918;

pub(crate) fn check_engine<E: Engine + Copy>(
    mut engine: E,
    v: &PermutationVector,
) -> Result<(), Difference> {
    engine.clear();
    xor_string(&mut engine, 0, &v.before);
    Difference::unless(holds(&engine, &v.before), "the loaded state")?;
    engine.permute();
    Difference::unless(holds(&engine, &v.after), "the permuted state")
}

pub(crate) fn check_reference(v: &PermutationVector) -> Result<(), Difference> {
    let agrees = permuted(&v.before) == Some(v.after);
    Difference::unless(agrees, "the permuted state")
}

// Whether round 24 of the zero state is as published, in the library and in the reference.
pub(crate) fn first_round_agrees() -> bool {
    let state = first_rounds(State::zero(), 1);
    let mut words = [0; 12];
    round(&mut words, 24);
    state.top == [FIRST_WORD, 0, 0, 0]
        && state.middle == [0; 4]
        && state.bottom == [0; 4]
        && words == [FIRST_WORD, 0, 0, 0, 0, 0, 0, 0, 0, 0, 0, 0]
}
