// The hash of a whole string, and its long output.
use crate::permutation::permute;
use crate::words::{BLOCK, absorb, read_string};

// Fills a buffer with the long output of a string.
pub fn long_output(string: &[u8], out: &mut [u8]) {
    let mut s = [0; 12];
    absorb(&mut s, string);
    for block in out.chunks_mut(BLOCK) {
        read_string(&s, block);
        permute(&mut s);
    }
}

pub fn hash(string: &[u8]) -> [u8; 32] {
    let mut digest = [0; 32];
    long_output(string, &mut digest);
    digest
}
