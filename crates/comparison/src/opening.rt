// Attempts to open a box, on any engine and by the reference.
use crate::bench::Bench;
use crate::case::Case;
use cipher::key::Key;
use cipher::nonce::BoxNonce;
use cipher::opening::Opening;
use cipher::sealing::TAG_LEN;
use engine::engine::Engine;
use engine::refusal::Refusal;
use std::alloc::{AllocError, Global};
use std::num::NonZeroUsize;

// What stands in a buffer before.
pub(crate) const UNTOUCHED: u8 = 0xaa;

fn all_are(string: &[u8], byte: u8) -> bool {
    string.iter().all(|b| *b == byte)
}

// Whether a string is a front, and then untouched.
pub(crate) fn is_left(string: &[u8], front: &[u8]) -> bool {
    string
        .strip_prefix(front)
        .is_some_and(|rest| all_are(rest, UNTOUCHED))
}

// Whether so many zeros come first, and the rest is untouched.
pub(crate) fn is_cleared(string: &[u8], zeros: usize) -> bool {
    string.split_at_checked(zeros).is_some_and(|(first, rest)| all_are(first, 0)
        && all_are(rest, UNTOUCHED))
}

// A box, the length of the buffer that it is opened into, and what has to be answered: the length of the case's message,
// or a refusal with its number.
#[derive(Clone, Copy)]
pub(crate) struct Attempt<'a> {
    sealed: &'a [u8],
    room: usize,
    wanted: Result<usize, (Refusal, u8)>,
}

impl<'a> Attempt<'a> {
    // The box of a message, and a buffer with five bytes to spare.
    pub(crate) fn intact(sealed: &'a [u8], message: &[u8]) -> Attempt<'a> {
        Attempt {
            sealed,
            room: message.len().saturating_add(5),
            wanted: Ok(message.len()),
        }
    }

    // A box that is not the case's, or does not fit the buffer. The first fault is answered.
    pub(crate) fn faulty(sealed: &'a [u8], room: usize) -> Attempt<'a> {
        let refusal = match sealed.len().checked_sub(TAG_LEN) {
            None => (Refusal::BoxTooShort, 8),
            Some(n) if room < n => (Refusal::BufferTooShort, 7),
            Some(_) => (Refusal::TagDiffers, 9),
        };
        Attempt {
            sealed,
            room,
            wanted: Err(refusal),
        }
    }

    // Whether a buffer holds what is wanted.
    fn leaves(&self, buffer: &[u8], message: &[u8]) -> bool {
        match self.wanted {
            Ok(_) => is_left(buffer, message),
            Err((Refusal::TagDiffers, _)) => {
                is_cleared(buffer, self.sealed.len().saturating_sub(TAG_LEN))
            }
            Err(_) => all_are(buffer, UNTOUCHED),
        }
    }

    // Opens the box on an engine, the associated data in pieces of a size. As in `conformance`, which has one key and one nonce
    // for all.
    fn open<E: Engine + Copy>(
        &self,
        engine: E,
        case: &Case,
        size: NonZeroUsize,
        buffer: &mut [u8],
    ) -> Result<usize, Refusal> {
        let key = Key::new(&case.key)?;
        let nonce = BoxNonce::new(&case.nonce)?;
        let mut opening = Opening::start(engine, &key, &nonce);
        for piece in case.ad.chunks(size.get()) {
            opening = opening.add(piece);
        }
        let (_, answer) = opening.close().open(self.sealed, buffer);
        answer
    }

    // Whether an engine does what is wanted, the associated data in pieces of a size.
    pub(crate) fn agrees<E: Engine + Copy>(
        &self,
        bench: &Bench<E>,
        case: &Case,
        size: NonZeroUsize,
    ) -> Result<bool, AllocError> {
        let mut buffer = vec![in bench.heap; UNTOUCHED; self.room]?;
        let answer = self.open(bench.engine, case, size, &mut buffer);
        let answer = answer.map_err(|refusal| (refusal, refusal.number()));
        Ok(answer == self.wanted && self.leaves(&buffer, case.message))
    }

    // Whether the reference does what is wanted. It has no buffer that could be too short.
    pub(crate) fn reference_agrees(&self, heap: Global, case: &Case) -> Result<bool, AllocError> {
        let opened = reference::cipher::open(heap, &case.key, &case.nonce, case.ad, self.sealed)?;
        let opens = matches!(self.wanted, Ok(_) | Err((Refusal::BufferTooShort, _)));
        match opened {
            Some(message) => Ok(opens && message.as_slice() == case.message),
            None => Ok(!opens),
        }
    }
}
