// Three shares of a state, permuted without being joined.
ghost use Rattle.std.specs.Prelude.{◌≡◌, [], ◌∷◌};
ghost use Rattle.engine.specs.Strings.{zeros};
ghost use Rattle.gimli.specs.Permutation.{permutation};
ghost use Rattle.gimli.specs.Shares.{share_sp_box, share_columns, shared_columns, shared_small_swap, shared_big_swap, shared_constant, shared_permutation, WholeShares, joined, xor_states};
ghost use Rattle.gimli.specs.Strings.{string};

use crate::rounds::{add_constant, big_swap, small_swap};
use crate::sp_box::Column;
use crate::state::State;

// Structs in an array: a share is lent to be changed, and the others stay.
#[derive(Clone, Copy)]
pub struct Shares {
    pub share: [State; 3],
}

// One output share of the SP-box, from the two input shares after it.
fn share_sp_box(a: Column, b: Column) -> Column
    ensures { result ≡ share_sp_box a b }
{
    let (xa, ya, za) = (a.0.rotate_left(24), a.1.rotate_left(9), a.2);
    let (xb, yb, zb) = (b.0.rotate_left(24), b.1.rotate_left(9), b.2);
    let x_and_y = (xa & ya) ^ (xa & yb) ^ (xb & ya);
    let x_or_z = xa ^ za ^ (xa & za) ^ (xa & zb) ^ (xb & za);
    let y_and_z = (ya & za) ^ (ya & zb) ^ (yb & za);
    (
        za ^ ya ^ (x_and_y << 3),
        ya ^ xa ^ (x_or_z << 1),
        xa ^ (za << 1) ^ (y_and_z << 2),
    )
}

fn share_columns(a: State, b: State) -> State
    ensures { result ≡ share_columns a b }
{
    State::from_columns(|j| share_sp_box(a.column(j), b.column(j)))
}

fn columns(s: Shares) -> Shares
    ensures { result.share ≡ shared_columns s.share }
{
    let [s0, s1, s2] = s.share;
    Shares {
        share: [
            share_columns(s1, s2),
            share_columns(s2, s0),
            share_columns(s0, s1),
        ],
    }
}

// Two functions for the two swaps, each by the name of its rule.
fn small_swaps(s: Shares) -> Shares
    ensures { result.share ≡ shared_small_swap s.share }
{
    Shares {
        share: s.share.map(small_swap),
    }
}

fn big_swaps(s: Shares) -> Shares
    ensures { result.share ≡ shared_big_swap s.share }
{
    Shares {
        share: s.share.map(big_swap),
    }
}

fn constant(s: Shares, number: u32) -> Shares
    ensures { result.share ≡ shared_constant number s.share }
{
    let [s0, s1, s2] = s.share;
    Shares {
        share: [add_constant(s0, number), s1, s2],
    }
}

// Four rounds from a multiple of 4 on, spelled out as for one state.
fn four_rounds(s: Shares, number: u32) -> Shares
    ensures { result.share ≡ shared_columns (shared_big_swap (shared_columns (shared_columns (shared_constant number (shared_small_swap (shared_columns s.share)))))) }
{
    let s = constant(small_swaps(columns(s)), number);
    let s = big_swaps(columns(columns(s)));
    columns(s)
}

impl Shares {
    // Shares of the state of zeros: two masks, and their xor.
    pub(crate) fn of_zeros(one: State, two: State) -> Shares
        ensures shares { result.share ≡ xor_states one two ∷ one ∷ two ∷ [] }
        ensures meaning { string (joined result.share) ≡ zeros }
    {
        Shares {
            share: [one.xor(two), one, two],
        }
    }

    // The same shares. A caller learns what their type says of them.
    pub(crate) fn known(self) -> Shares
        ensures same { result ≡ self }
        ensures whole { WholeShares self.share }
    {
        let [s0, s1, s2] = self.share;
        Shares {
            share: [s0.known(), s1.known(), s2.known()],
        }
    }

    // The permutation, share by share.
    pub fn permutation(self) -> Shares
        ensures each { result.share ≡ shared_permutation self.share }
        ensures joined { joined result.share ≡ permutation (joined self.share) }
    {
        let mut s = self;
        for number in [24, 20, 16, 12, 8, 4] {
            s = four_rounds(s, number);
        }
        s
    }
}
