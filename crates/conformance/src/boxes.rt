// An aead vector, on any engine and on the reference: sealed and opened, whole and cut, and refused with one bit flipped.
use crate::difference::Difference;
use crate::vector::AeadVector;
use cipher::book::{IssuedNonce, NonceBook};
use cipher::key::Key;
use cipher::nonce::BoxNonce;
use cipher::opening::Opening;
use cipher::record::seal_message;
use cipher::sealing::{ClosedSealing, Sealing, TAG_LEN};
use engine::engine::Engine;
use engine::refusal::Refusal;
use reference::cipher::{open, seal};
use std::alloc::{AllocError, Global};
use std::num::NonZeroUsize;

// The key of every vector.
pub const KEY: [u8; 32] = [
    0, 1, 2, 3, 4, 5, 6, 7, 8, 9, 10, 11, 12, 13, 14, 15, 16, 17, 18, 19, 20, 21, 22, 23, 24, 25,
    26, 27, 28, 29, 30, 31,
];

// The nonce of every vector: a book's name, then its first count.
pub const NONCE: [u8; 16] = [0, 1, 2, 3, 4, 5, 6, 7, 8, 9, 10, 11, 12, 13, 14, 15];

const FIRST_COUNT: u32 = 0x0f0e_0d0c;

// The vectors' nonce, as a book issues it.
pub fn issued_nonce() -> Result<IssuedNonce, Refusal> {
    NonceBook::new(&NONCE[0..12], FIRST_COUNT)?.issue()
}

// An engine with the key of the vectors, and the memory for what comes out.
#[derive(Clone, Copy)]
pub(crate) struct Bench<'a, E> {
    pub(crate) heap: Global,
    pub(crate) engine: E,
    pub(crate) key: &'a Key,
}

impl<E: Engine + Copy> Bench<'_, E> {
    // Whether the message in one piece gives the box.
    fn seals_whole(&self, v: &AeadVector) -> Result<bool, AllocError> {
        let message = v.message.as_slice();
        let mut text = vec![in self.heap; 0; message.len()]?;
        let mut tag = [0; TAG_LEN];
        // a nonce that is refused is a difference like others
        let Ok(nonce) = issued_nonce() else {
            return Ok(false);
        };
        let (_, answer) = seal_message(
            self.engine,
            self.key,
            nonce,
            v.ad.as_slice(),
            message,
            text.as_mut_slice(),
            &mut tag,
        );
        Ok(answer == Ok(message.len()) && v.sealed.strip_prefix(&text) == Some(&tag))
    }

    // A sealing whose associated data comes in pieces of a size.
    fn sealing_cut(&self, nonce: IssuedNonce, ad: &[u8], size: NonZeroUsize) -> ClosedSealing<E> {
        let mut sealing = Sealing::start(self.engine, self.key, nonce);
        for piece in ad.chunks(size.get()) {
            sealing = sealing.add(piece);
        }
        sealing.close()
    }

    // Whether associated data and message, in pieces of a size, give the box.
    fn seals_cut(&self, v: &AeadVector, size: NonZeroUsize) -> Result<bool, AllocError> {
        let message = v.message.as_slice();
        let mut text = vec![in self.heap; 0; message.len()]?;
        let mut tag = [0; TAG_LEN];
        // a nonce that is refused is a difference like others
        let Ok(nonce) = issued_nonce() else {
            return Ok(false);
        };
        // The sealing moves from piece to piece, so what each write answered is gathered beside it.
        let mut wrote = true;
        let mut closed = self.sealing_cut(nonce, v.ad.as_slice(), size);
        let pieces = message.chunks(size.get());
        for (piece, room) in pieces.zip(text.chunks_mut(size.get())) {
            let (next, answer) = closed.write(piece, room);
            closed = next;
            wrote &= answer == Ok(piece.len());
        }
        let _ = closed.finish(&mut tag);
        Ok(wrote && v.sealed.strip_prefix(&text) == Some(&tag))
    }

    // Opens a box whose associated data comes in pieces of a size.
    fn open_cut(
        &self,
        ad: &[u8],
        size: NonZeroUsize,
        sealed: &[u8],
        buffer: &mut [u8],
    ) -> Result<usize, Refusal> {
        let nonce = BoxNonce::new(&NONCE)?;
        let mut opening = Opening::start(self.engine, self.key, &nonce);
        for piece in ad.chunks(size.get()) {
            opening = opening.add(piece);
        }
        let (_, answer) = opening.close().open(sealed, buffer);
        answer
    }

    // Whether the box gives the message, with associated data in pieces of a size.
    fn opens(&self, v: &AeadVector, size: NonZeroUsize) -> Result<bool, AllocError> {
        let mut message = vec![in self.heap; 0xff; v.message.len()]?;
        let answer = self.open_cut(&v.ad, size, &v.sealed, &mut message);
        Ok(answer == Ok(v.message.len()) && message == v.message)
    }

    // Whether a box with one bit flipped is refused for its tag, with zeros in place of its message.
    fn refuses(&self, v: &AeadVector, size: NonZeroUsize) -> Result<bool, AllocError> {
        let sealed = flipped(v)?;
        let mut message = vec![in self.heap; 0xff; v.message.len()]?;
        let answer = self.open_cut(&v.ad, size, &sealed, &mut message);
        Ok(answer == Err(Refusal::TagDiffers) && message.iter().all(|b| *b == 0))
    }

    pub(crate) fn check(&self, v: &AeadVector) -> Result<(), Difference> {
        let large = NonZeroUsize::new(64).unwrap();
        let size = NonZeroUsize::MIN.saturating_add(v.count % 17);
        Difference::unless(self.seals_whole(v)?, "the box of one piece")?;
        Difference::unless(self.seals_cut(v, size)?, "the box of pieces")?;
        Difference::unless(self.opens(v, large)?, "the opened message")?;
        Difference::unless(self.opens(v, size)?, "the message opened with pieces")?;
        Difference::unless(self.refuses(v, large)?, "the refusal of a flipped bit")
    }
}

// The box with one bit flipped, another one from entry to entry.
fn flipped(v: &AeadVector) -> Result<Vec<u8>, AllocError> {
    let mut sealed = v.sealed.clone()?;
    if !sealed.is_empty() {
        let place = v.count / 8 % sealed.len();
        sealed[place] ^= 1 << (v.count % 8);
    }
    Ok(sealed)
}

pub(crate) fn check_reference(heap: Global, v: &AeadVector) -> Result<(), Difference> {
    let ad = v.ad.as_slice();
    let sealed = seal(heap, &KEY, &NONCE, ad, v.message.as_slice())?;
    Difference::unless(sealed == v.sealed, "the box")?;
    let opened = open(heap, &KEY, &NONCE, ad, v.sealed.as_slice())?;
    let opens = opened.is_some_and(|found| found == v.message);
    Difference::unless(opens, "the opened message")?;
    let broken = flipped(v)?;
    let opened = open(heap, &KEY, &NONCE, ad, broken.as_slice())?;
    Difference::unless(opened.is_none(), "the refusal of a flipped bit")
}
