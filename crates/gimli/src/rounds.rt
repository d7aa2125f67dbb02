// Rounds, which take and give a state by value.
ghost use Rattle.std.specs.Prelude.{◌≡◌, min};
ghost use Rattle.gimli.specs.Permutation.{columns, small_swap, big_swap, add_constant, round, first_rounds, permutation};

use crate::sp_box::sp_box;
use crate::state::State;

// The constant of a round is this one xor the round's number.
pub const CONSTANT: u32 = 0x9e37_7900;

// The SP-box on each column.
pub(crate) fn columns(s: State) -> State
    ensures { result ≡ columns s }
{
    State::from_columns(|j| sp_box(s.column(j)))
}

// The two swaps stay two: with the order as a parameter a round would no longer name its rules.
pub(crate) fn small_swap(s: State) -> State
    ensures { result ≡ small_swap s }
{
    let [a, b, c, d] = s.top;
    State {
        top: [b, a, d, c],
        ..s
    }
}

pub(crate) fn big_swap(s: State) -> State
    ensures { result ≡ big_swap s }
{
    let [a, b, c, d] = s.top;
    State {
        top: [c, d, a, b],
        ..s
    }
}

pub(crate) fn add_constant(s: State, number: u32) -> State
    ensures { result ≡ add_constant number s }
{
    let [a, b, c, d] = s.top;
    State {
        top: [a ^ (CONSTANT ^ number), b, c, d],
        ..s
    }
}

// One round, by its number.
pub(crate) fn round(s: State, number: u32) -> State
    ensures { result ≡ round number s }
{
    let s = columns(s);
    match number % 4 {
        0 => add_constant(small_swap(s), number),
        2 => big_swap(s),
        _ => s,
    }
}

// The first n rounds, from 24 on; all of them if n is more than 24.
pub fn first_rounds(mut s: State, n: u32) -> State
    ensures { result ≡ first_rounds (min n 24) s }
{
    for number in (1..25).rev().take(n as usize) {
        s = round(s, number);
    }
    s
}

// Four rounds from a multiple of 4 on, with no test in the middle. Spelled out for a state, for three shares and, round
// by round, for the standing rows: a trait of the four layers for the three would be longer than what it saves.
fn four_rounds(s: State, number: u32) -> State
    ensures { result ≡ columns (big_swap (columns (columns (add_constant number (small_swap (columns s)))))) }
{
    let s = add_constant(small_swap(columns(s)), number);
    let s = big_swap(columns(columns(s)));
    columns(s)
}

// In a loop the words stay in registers from one group of rounds to the next.
pub fn permutation(mut s: State) -> State
    ensures { result ≡ permutation s }
{
    for number in [24, 20, 16, 12, 8, 4] {
        s = four_rounds(s, number);
    }
    s
}
