// Comparisons with wrong expectations: none of them may agree. They show that the others can fail.
use crate::bench::Bench;
use crate::case::{Case, size, window};
use crate::damage::change;
use crate::digests::{draws, hashes};
use crate::opening::{Attempt, UNTOUCHED, is_cleared, is_left};
use crate::permuting::permutes;
use crate::sealing::{seals, seals_whole};
use crate::tally::Tally;
use engine::engine::Engine;
use reference::hash::hash;
use reference::permutation::permuted;
use std::alloc::{AllocError, Global};

// A string in which one byte is wrong: a box, a digest or a state.
fn changed(heap: Global, string: &[u8], place: usize) -> Result<Vec<u8>, AllocError> {
    let mut copy = Vec::from_slice(heap, string)?;
    change(copy.as_mut_slice(), place);
    Ok(copy)
}

fn boxes<E: Engine + Copy>(
    bench: &Bench<E>,
    case: &Case,
    place: usize,
    tally: &mut Tally,
) -> Result<(), AllocError> {
    let heap = bench.heap;
    let sealed = case.sealed(heap)?;
    let wrong = changed(heap, &sealed, place)?;
    let intact = Attempt::faulty(&sealed, 64);
    let damaged = Attempt::intact(&wrong, case.message);
    tally.count(seals_whole(bench, case, &wrong)?);
    tally.count(seals(bench, case, &wrong, size(1))?);
    tally.count(intact.agrees(bench, case, size(1))?);
    tally.count(intact.reference_agrees(heap, case)?);
    tally.count(damaged.agrees(bench, case, size(1))?);
    tally.count(damaged.reference_agrees(heap, case)?);
    Ok(())
}

fn digests<E: Engine + Copy>(
    bench: &Bench<E>,
    string: &[u8],
    place: usize,
    tally: &mut Tally,
) -> Result<(), AllocError> {
    let digest = hash(string);
    let wrong = changed(bench.heap, &digest, place)?;
    tally.count(hashes(bench.engine, string, &wrong));
    tally.count(draws(bench, string, size(1), &wrong)?);
    Ok(())
}

fn permutations<E: Engine + Copy>(engine: E, string: &[u8], place: usize, tally: &mut Tally) {
    // no answer counts as agreeing, which a control must not
    let Some(mut after) = permuted(string) else {
        return tally.count(true);
    };
    change(&mut after, place);
    tally.count(permutes(engine, string, &after));
}

fn buffers(tally: &mut Tally) {
    let touched = [0, 0, UNTOUCHED, 0];
    tally.count(is_left(&touched, &[0, 0]));
    tally.count(is_left(&touched, &[0, 1]));
    tally.count(is_cleared(&touched, 2));
    tally.count(is_cleared(&touched, 4));
    tally.count(is_cleared(&touched, 5));
}

// Counts each comparison with the first and with the last byte wrong, strings in pieces of 7 bytes.
pub(crate) fn count<E: Engine + Copy>(
    bench: &Bench<E>,
    tally: &mut Tally,
) -> Result<(), AllocError> {
    let pool = bench.pool;
    let string = window(pool, 0, 48);
    let case = Case::nth(7, window(pool, 60, 20), window(pool, 90, 40));
    boxes(bench, &case, 0, tally)?;
    boxes(bench, &case, 55, tally)?;
    digests(bench, string, 0, tally)?;
    digests(bench, string, 31, tally)?;
    permutations(bench.engine, string, 0, tally);
    permutations(bench.engine, string, 47, tally);
    buffers(tally);
    Ok(())
}
