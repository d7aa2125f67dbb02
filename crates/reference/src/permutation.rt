// The permutation on twelve words, row after row.
ghost use Rattle.std.specs.Prelude.{◌≡◌, length, is_some, ◌==◌};

use crate::words::{WIDTH, front, xor_string};

// A plain array: the tests write a state down word by word, and read it back so.
pub type Words = [u32; 12];

const ROUNDS: u32 = 24;

// The SP-box on column j, by place: a column is every fourth word.
fn mix_column(s: &mut Words, j: usize) {
    let j = j % 4;
    let x = s[j].rotate_left(24);
    let y = s[4 + j].rotate_left(9);
    let z = s[8 + j];
    s[8 + j] = x ^ (z << 1) ^ ((y & z) << 2);
    s[4 + j] = y ^ x ^ ((x | z) << 1);
    s[j] = z ^ y ^ ((x & y) << 3);
}

// One round, by its number: they are counted down from 24 to 1.
pub fn round(s: &mut Words, number: u32) {
    for j in 0..4 {
        mix_column(s, j);
    }
    let [a, b, c, d, ..] = *s;
    match number % 4 {
        0 => s[..4].copy_from_slice(&[b ^ 0x9e37_7900 ^ number, a, d, c]),
        2 => s[..4].copy_from_slice(&[c, d, a, b]),
        _ => {}
    }
}

pub fn permute(s: &mut Words) {
    for number in (1..=ROUNDS).rev() {
        round(s, number);
    }
}

// The permutation of a state's string; none of a string that is not 48 bytes.
pub fn permuted(string: &[u8]) -> Option<[u8; WIDTH]>
    ensures { is_some result ≡ (length string.now == 48) }
{
    if string.len() != WIDTH {
        return None;
    }
    let mut s = [0; 12];
    xor_string(&mut s, 0, string);
    permute(&mut s);
    Some(front(&s))
}
