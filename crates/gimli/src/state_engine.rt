// An engine that keeps one state, under any way to compute the permutation.
ghost use Rattle.std.specs.Prelude.{◌≡◌};
ghost use Rattle.engine.specs.Strings.{zeros};
ghost use Rattle.gimli.specs.Strings.{string, gimli};
ghost use Rattle.gimli.specs.StringsLemmas.{string_whole, gimli_whole};

use crate::state::State;
use engine::engine::Engine;
use engine::refusal::Refusal;
use std::marker::PhantomData;

// A way to compute the permutation, as the rule on a state's string.
pub trait Permute {
    fn permuted(state: State) -> State
        ensures { string result ≡ gimli (string state) };
}

#[derive(Clone, Copy)]
pub struct StateEngine<P> {
    state: State,
    way: PhantomData<P>,
}

impl<P: Permute> StateEngine<P> {
    // An engine of zeros.
    pub fn new() -> Self
        ensures { string result.state ≡ zeros }
    {
        StateEngine {
            state: State::zero(),
            way: PhantomData,
        }
    }
}

impl<P: Permute> Engine for StateEngine<P> {
    ghost meaning = { λ e. string e.state };

    ghost rule = { gimli };

    ghost whole = { λ e. string_whole e.state };

    ghost keeps = { λ s whole. gimli_whole s };

    fn clear(&mut self) {
        self.state = State::zero();
    }

    fn xor_byte(&mut self, place: usize, b: u8) -> Result<(), Refusal> {
        self.state.xor_byte(place, b)
    }

    fn byte(&self, place: usize) -> Result<u8, Refusal> {
        self.state.byte(place)
    }

    fn permute(&mut self) {
        self.state = P::permuted(self.state);
    }
}
