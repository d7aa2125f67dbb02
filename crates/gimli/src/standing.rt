// The standing engine: the top row is never moved.
ghost use Rattle.std.specs.Prelude.{◌≡◌, ◌<◌, bit_xor};
ghost use Rattle.gimli.specs.Permutation.{column, columns, small_swap, big_swap, add_constant, round, permutation};

use crate::rounds::CONSTANT;
use crate::sp_box::{Column, sp_box};
use crate::state::State;
use crate::state_engine::{Permute, StateEngine};

// A state in the middle of its rounds: top word j stands at place j ^ k.
#[derive(Clone, Copy)]
pub struct Standing {
    pub stored: State,
    pub k: usize,
    ghost below: { k < 4 },
}

impl Standing {
    ghost use Rattle.gimli.specs.Standing.{meant, next_k};

    // A state before its rounds: each word stands where it is meant.
    fn new(stored: State) -> Standing
        ensures meant { meant result ≡ stored }
        ensures k { result.k ≡ 0 }
    {
        Standing { stored, k: 0 }
    }

    // Where the top word of column j stands.
    fn place(self, j: usize) -> usize
        requires { j < 4 }
        ensures value { result ≡ bit_xor j self.k }
        ensures within { result < 4 }
    {
        j ^ self.k
    }

    // The words of the column that is meant by j.
    fn column(self, j: usize) -> Column
        requires { j < 4 }
        ensures { result ≡ column (meant self) j }
    {
        let State {
            top,
            middle,
            bottom,
        } = self.stored;
        (top[self.place(j)], middle[j], bottom[j])
    }

    // The SP-box on each column.
    fn columns(self) -> Standing
        ensures meant { meant result ≡ columns (meant self) }
        ensures k { result.k ≡ self.k }
    {
        let columns = State::from_columns(|j| sp_box(self.column(j)));
        // four writes, each to the place where the word of its column stands
        let mut top = self.stored.top;
        let [x0, x1, x2, x3] = columns.top;
        top[self.place(0)] = x0;
        top[self.place(1)] = x1;
        top[self.place(2)] = x2;
        top[self.place(3)] = x3;
        Standing {
            stored: State { top, ..columns },
            k: self.k,
        }
    }

    // The constant goes to the top word of column 0, wherever it stands.
    fn add_constant(self, number: u32) -> Standing
        ensures meant { meant result ≡ add_constant number (meant self) }
        ensures k { result.k ≡ self.k }
    {
        let Standing { mut stored, k } = self;
        stored.top[self.place(0)] ^= CONSTANT ^ number;
        Standing { stored, k }
    }

    // Each swap is one bit of k; they stay two, by the names of the rules.
    fn small_swap(self) -> Standing
        ensures meant { meant result ≡ small_swap (meant self) }
        ensures k { result.k ≡ bit_xor self.k 1 }
    {
        let Standing { stored, k } = self;
        Standing { stored, k: k ^ 1 }
    }

    fn big_swap(self) -> Standing
        ensures meant { meant result ≡ big_swap (meant self) }
        ensures k { result.k ≡ bit_xor self.k 2 }
    {
        let Standing { stored, k } = self;
        Standing { stored, k: k ^ 2 }
    }

    fn round(self, number: u32) -> Standing
        ensures meant { meant result ≡ round number (meant self) }
        ensures k { result.k ≡ next_k number self.k }
    {
        let s = self.columns();
        match number % 4 {
            0 => s.small_swap().add_constant(number),
            2 => s.big_swap(),
            _ => s,
        }
    }
}

// The 24 rounds. The top row has not moved, and k is 0 again, so that it stands where it is meant.
pub fn standing_permutation(s: State) -> Standing
    ensures value { result.stored ≡ permutation s }
    ensures k { result.k ≡ 0 }
{
    let mut standing = Standing::new(s);
    for number in (1..25).rev() {
        standing = standing.round(number);
    }
    standing
}

// The rounds, with the top row where it stands.
#[derive(Clone, Copy)]
pub struct TopRowStanding;

pub type StandingEngine = StateEngine<TopRowStanding>;

impl Permute for TopRowStanding {
    fn permuted(state: State) -> State {
        standing_permutation(state).stored
    }
}
