// Boxes that are cut, lengthened or changed, and boxes with another key, nonce, associated data or buffer.
use crate::bench::Bench;
use crate::case::{Case, length, size, window};
use crate::opening::Attempt;
use crate::tally::Tally;
use cipher::sealing::TAG_LEN;
use engine::engine::Engine;
use std::alloc::AllocError;

#[derive(Clone, Copy)]
pub(crate) enum Damage {
    // So many bytes are left of the box, cut off at its end, added to it.
    Left(usize),
    CutOff(usize),
    Added(usize),
    // The byte so far from the end of the box is changed, or its first one.
    Changed(usize),
    // The byte at a place of the key or the nonce is changed.
    Key(usize),
    Nonce(usize),
    // The associated data lacks its last byte, has one more, or lacks its first byte and has one more.
    AdCut,
    AdAdded,
    AdMoved,
    // The buffer is so much shorter than the message.
    ShortBuffer(usize),
}

pub(crate) const DAMAGES: [Damage; 34] = [
    Damage::Left(0),
    Damage::Left(1),
    Damage::Left(15),
    Damage::CutOff(1),
    Damage::CutOff(16),
    Damage::Added(1),
    Damage::Added(16),
    Damage::Changed(1),
    Damage::Changed(2),
    Damage::Changed(3),
    Damage::Changed(4),
    Damage::Changed(5),
    Damage::Changed(6),
    Damage::Changed(7),
    Damage::Changed(8),
    Damage::Changed(9),
    Damage::Changed(10),
    Damage::Changed(11),
    Damage::Changed(12),
    Damage::Changed(13),
    Damage::Changed(14),
    Damage::Changed(15),
    Damage::Changed(16),
    Damage::Changed(17),
    Damage::Changed(8192),
    Damage::Key(0),
    Damage::Key(31),
    Damage::Nonce(0),
    Damage::Nonce(15),
    Damage::AdCut,
    Damage::AdAdded,
    Damage::AdMoved,
    Damage::ShortBuffer(1),
    Damage::ShortBuffer(8192),
];

pub(crate) fn change(string: &mut [u8], place: usize) {
    if let Some(b) = string.get_mut(place) {
        *b ^= 1 << (place % 8);
    }
}

impl Damage {
    // Damages a box of n bytes, behind which others stand, and answers how many bytes it then has.
    fn of_box(self, n: usize, sealed: &mut [u8]) -> usize {
        match self {
            Damage::Left(left) => left,
            Damage::CutOff(cut) => n.saturating_sub(cut),
            Damage::Added(more) => n.saturating_add(more),
            Damage::Changed(from_end) => {
                change(sealed, n.saturating_sub(from_end));
                n
            }
            _ => n,
        }
    }

    // The case with another key, nonce or associated data; that is taken from a longer string.
    fn of_case<'a>(self, mut case: Case<'a>, longer: &'a [u8]) -> Case<'a> {
        let n = case.ad.len();
        match self {
            Damage::Key(place) => change(&mut case.key, place),
            Damage::Nonce(place) => change(&mut case.nonce, place),
            Damage::AdCut => case.ad = window(longer, 0, n.saturating_sub(1)),
            Damage::AdAdded => case.ad = longer,
            Damage::AdMoved => case.ad = window(longer, 1, n),
            _ => (),
        }
        case
    }

    // The length of the buffer for a message of n bytes, and some to spare.
    fn room(self, n: usize) -> usize {
        match self {
            Damage::ShortBuffer(short) => n.saturating_sub(short),
            _ => n.saturating_add(20),
        }
    }
}

// Whether an engine and the reference refuse case n as they have to.
pub(crate) fn agrees<E: Engine + Copy>(
    bench: &Bench<E>,
    n: usize,
    tally: &mut Tally,
) -> Result<bool, AllocError> {
    let damage = DAMAGES[n % DAMAGES.len()];
    let longer = window(bench.pool, n, 2 + n % 40);
    let message = window(bench.pool, 5000 + n % 100, length(1 + n / DAMAGES.len()));
    let case = Case::nth(n, window(longer, 0, 1 + n % 40), message);
    let mut sealed = case.sealed(bench.heap)?;
    let whole = sealed.len();
    sealed.extend_from_slice(&[0; TAG_LEN])?;
    let left = damage.of_box(whole, &mut sealed);
    let case = damage.of_case(case, longer);
    let sealed = window(&sealed, 0, left);
    let size = size(n);
    tally.add_bytes(case.ad);
    tally.add_bytes(sealed);
    tally.add_shape([case.ad.len(), sealed.len(), size.get()]);
    let attempt = Attempt::faulty(sealed, damage.room(message.len()));
    Ok(attempt.agrees(bench, &case, size)? && attempt.reference_agrees(bench.heap, &case)?)
}
