// The plain engine: the state as it is defined.
use crate::rounds::permutation;
use crate::state::State;
use crate::state_engine::{Permute, StateEngine};

// The rounds, each on the whole state.
#[derive(Clone, Copy)]
pub struct Plain;

pub type PlainEngine = StateEngine<Plain>;

impl Permute for Plain {
    fn permuted(state: State) -> State {
        permutation(state)
    }
}
