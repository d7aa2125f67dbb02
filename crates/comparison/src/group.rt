// Groups of cases that are made here, each run on the three engines.
use crate::bench::Bench;
use crate::case::{Case, LENGTHS, SIZES, length, size, window};
use crate::damage;
use crate::damage::DAMAGES;
use crate::digests::draws;
use crate::opening::Attempt;
use crate::permuting::permutes;
use crate::sealing::seals;
use crate::tally::Tally;
use engine::engine::{Engine, WIDTH};
use reference::hash::long_output;
use reference::permutation::permuted;
use std::alloc::AllocError;
use std::num::NonZeroUsize;

const STATES: usize = 100;

// An enum and no closure: each group runs on engines of three types.
#[derive(Clone, Copy)]
pub(crate) enum Group {
    Permutations,
    Digests,
    Boxes,
    Damaged,
}

// The shape of case n: two lengths and a size of pieces. Each comes with each of the others.
fn shape(n: usize) -> (usize, usize, NonZeroUsize) {
    let pair = n / SIZES.len();
    (length(pair / LENGTHS.len()), length(pair), size(n))
}

// Whether an engine permutes state n as the reference does.
fn permutation_agrees<E: Engine + Copy>(bench: &Bench<E>, n: usize) -> bool {
    let before = window(bench.pool, n, WIDTH);
    permuted(before).is_some_and(|after| permutes(bench.engine, before, &after))
}

// Whether the long output of string n is the reference's.
fn digest_agrees<E: Engine + Copy>(
    bench: &Bench<E>,
    n: usize,
    tally: &mut Tally,
) -> Result<bool, AllocError> {
    let (fed, drawn, size) = shape(n);
    let string = window(bench.pool, n, fed);
    let mut long = vec![in bench.heap; 0; drawn]?;
    long_output(string, &mut long);
    tally.add_bytes(string);
    tally.add_bytes(&long);
    tally.add_shape([string.len(), long.len(), size.get()]);
    draws(bench, string, size, &long)
}

// Whether case n gives the reference's box, and the box the message, in pieces.
fn box_agrees<E: Engine + Copy>(
    bench: &Bench<E>,
    n: usize,
    tally: &mut Tally,
) -> Result<bool, AllocError> {
    let (sealed, added, size) = shape(n);
    let ad = window(bench.pool, n, added);
    let message = window(bench.pool, 5000 + n % 100, sealed);
    let case = Case::nth(n, ad, message);
    let sealed = case.sealed(bench.heap)?;
    tally.add_bytes(ad);
    tally.add_bytes(&sealed);
    tally.add_shape([ad.len(), message.len(), size.get()]);
    let attempt = Attempt::intact(&sealed, message);
    Ok(
        seals(bench, &case, &sealed, size)?
            && attempt.agrees(bench, &case, size)?
            && attempt.reference_agrees(bench.heap, &case)?,
    )
}

impl Group {
    pub(crate) fn name(self) -> &'static str {
        match self {
            Group::Permutations => "permutations of other states",
            Group::Digests => "digests of other lengths",
            Group::Boxes => "boxes of other lengths",
            Group::Damaged => "damaged boxes",
        }
    }

    fn cases(self) -> usize {
        match self {
            Group::Permutations => STATES,
            Group::Digests | Group::Boxes => LENGTHS.len() * LENGTHS.len() * SIZES.len(),
            // each damage of a box of each length, the empty message last: no buffer is too short for that
            Group::Damaged => DAMAGES.len() * LENGTHS.len() - 2,
        }
    }

    fn agrees<E: Engine + Copy>(
        self,
        bench: &Bench<E>,
        n: usize,
        tally: &mut Tally,
    ) -> Result<bool, AllocError> {
        match self {
            Group::Permutations => Ok(permutation_agrees(bench, n)),
            Group::Digests => digest_agrees(bench, n, tally),
            Group::Boxes => box_agrees(bench, n, tally),
            Group::Damaged => damage::agrees(bench, n, tally),
        }
    }

    // Runs the cases of the group on an engine.
    pub(crate) fn run<E: Engine + Copy>(
        self,
        rt: &HostRuntime,
        bench: &Bench<E>,
        tally: &mut Tally,
    ) -> anyhow::Result<()> {
        // n is the case's number, and no place in a row
        for n in 0..self.cases() {
            let agrees = self.agrees(bench, n, tally)?;
            tally.note(rt, bench.name, n, agrees)?;
        }
        Ok(())
    }
}
