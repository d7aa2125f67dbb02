// Strings in the words of a state: the lowest byte of a word comes first.
use crate::permutation::{Words, permute};

// The number of bytes in a state.
pub(crate) const WIDTH: usize = 48;

// The number of bytes in a full block.
pub(crate) const BLOCK: usize = 16;

// Xors a string into the words from a word on. What lies past the last word is left out.
pub(crate) fn xor_string(s: &mut Words, from: usize, string: &[u8]) {
    for (word, bytes) in s.iter_mut().skip(from).zip(string.chunks(4)) {
        *word ^= bytes.iter().rev().fold(0, |w, b| w << 8 | u32::from(*b));
    }
}

// Fills a string with the first bytes of the state.
pub(crate) fn read_string(s: &Words, string: &mut [u8]) {
    let bytes = s.map(u32::to_le_bytes);
    for (b, of_state) in string.iter_mut().zip(bytes.as_flattened()) {
        *b = *of_state;
    }
}

// The first bytes of the state, as many as are asked for.
pub(crate) fn front<const N: usize>(s: &Words) -> [u8; N] {
    let mut string = [0; N];
    read_string(s, &mut string);
    string
}

// Ends a string of n bytes, of which the last block is taken in.
pub(crate) fn end_string(s: &mut Words, n: usize) {
    // one bit of one word each
    s[n % BLOCK / 4] ^= 1 << (8 * (n % 4));
    s[11] ^= 0x0100_0000;
    permute(s);
}

// Takes in a whole string.
pub(crate) fn absorb(s: &mut Words, string: &[u8]) {
    let (blocks, rest) = string.as_chunks::<BLOCK>();
    for block in blocks {
        xor_string(s, 0, block);
        permute(s);
    }
    xor_string(s, 0, rest);
    end_string(s, rest.len());
}
