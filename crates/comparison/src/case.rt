// Cases: the strings of a box, and the lengths and pieces that are tried. Case n is always the same.
use cipher::book::{IssuedNonce, NonceBook};
use cipher::key::Key;
use engine::refusal::Refusal;
use std::alloc::{AllocError, Global};
use std::num::NonZeroUsize;

pub(crate) const LENGTHS: [usize; 10] = [0, 1, 15, 16, 17, 31, 32, 33, 255, 4096];

pub(crate) const SIZES: [usize; 4] = [1, 7, 16, 100];

pub(crate) fn length(n: usize) -> usize {
    LENGTHS[n % LENGTHS.len()]
}

// The size of the pieces that strings are cut into. None of the table is 0.
pub(crate) fn size(n: usize) -> NonZeroUsize {
    NonZeroUsize::new(SIZES[n % SIZES.len()]).unwrap_or(NonZeroUsize::MIN)
}

// A small generator of bytes.
#[derive(Clone, Copy)]
pub(crate) struct Source {
    state: u32,
}

impl Source {
    pub(crate) fn new(n: usize) -> Source {
        Source {
            state: (n % 65536) as u32,
        }
    }

    fn byte(&mut self) -> u8 {
        self.state = self
            .state
            .wrapping_mul(1_664_525)
            .wrapping_add(1_013_904_223);
        (self.state >> 24) as u8
    }

    pub(crate) fn fill(&mut self, string: &mut [u8]) {
        for b in string.iter_mut() {
            *b = self.byte();
        }
    }
}

// The bytes that the cases take their strings from.
pub(crate) fn make_pool(heap: Global) -> Result<Vec<u8>, AllocError> {
    let mut pool = vec![in heap; 0; 16384]?;
    Source::new(0).fill(&mut pool);
    Ok(pool)
}

// So many bytes from a place on, or as many as there are.
pub(crate) fn window(string: &[u8], from: usize, n: usize) -> &[u8] {
    let rest = &string[from.min(string.len())..];
    &rest[..n.min(rest.len())]
}

#[derive(Clone, Copy)]
pub(crate) struct Case<'a> {
    pub(crate) key: [u8; 32],
    pub(crate) nonce: [u8; 16],
    pub(crate) ad: &'a [u8],
    pub(crate) message: &'a [u8],
}

impl<'a> Case<'a> {
    // Case n: a key and a nonce of its own.
    pub(crate) fn nth(n: usize, ad: &'a [u8], message: &'a [u8]) -> Case<'a> {
        let mut source = Source::new(n);
        let mut key = [0; 32];
        let mut nonce = [0; 16];
        source.fill(&mut key);
        source.fill(&mut nonce);
        Case {
            key,
            nonce,
            ad,
            message,
        }
    }

    // The key, and the nonce as a book issues it.
    pub(crate) fn key_and_nonce(&self) -> Result<(Key, IssuedNonce), Refusal> {
        let [.., a, b, c, d] = self.nonce;
        let mut book = NonceBook::new(&self.nonce[0..12], u32::from_le_bytes([a, b, c, d]))?;
        Ok((Key::new(&self.key)?, book.issue()?))
    }

    // The reference's box of the case.
    pub(crate) fn sealed(&self, heap: Global) -> Result<Vec<u8>, AllocError> {
        reference::cipher::seal(heap, &self.key, &self.nonce, self.ad, self.message)
    }
}
