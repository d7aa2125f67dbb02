// Whole messages sealed and whole boxes opened. The tests have key, nonce and associated data each by itself: a struct would be no plainer.
ghost use Rattle.std.specs.Prelude.{◌≡◌, ◌+◌, length, IfSome, IfOk, vec_len};

use crate::permutation::{Words, permute};
use crate::words::{BLOCK, absorb, end_string, front, read_string, xor_string};
use std::alloc::{AllocError, Global};

// The state that the message begins with.
fn started(key: &[u8; 32], nonce: &[u8; 16], ad: &[u8]) -> Words {
    let mut s = [0; 12];
    xor_string(&mut s, 0, nonce);
    xor_string(&mut s, 4, key);
    permute(&mut s);
    absorb(&mut s, ad);
    s
}

// Turns a block of plain text into ciphertext, and takes that in.
fn cipher_block(s: &mut Words, block: &mut [u8]) {
    xor_string(s, 0, block);
    read_string(s, block);
}

// Turns a block of ciphertext into plain text, and takes that in.
fn decipher_block(s: &mut Words, block: &mut [u8]) {
    let stream: [u8; BLOCK] = front(s);
    for (b, of_state) in block.iter_mut().zip(stream) {
        *b ^= of_state;
    }
    xor_string(s, 0, block);
}

// Turns a text into the other by a step for each block, and answers the tag.
fn turn_text<F: Fn(&mut Words, &mut [u8])>(
    s: &mut Words,
    text: &mut [u8],
    turn_block: F,
) -> [u8; BLOCK]
    requires { F.IsAlwaysCallable turn_block }
{
    let n = text.len();
    for block in text.chunks_mut(BLOCK) {
        turn_block(s, block);
        if block.len() == BLOCK {
            permute(s);
        }
    }
    end_string(s, n);
    front(s)
}

// The box of a message: its ciphertext, then the tag.
pub fn seal(
    heap: Global,
    key: &[u8; 32],
    nonce: &[u8; 16],
    ad: &[u8],
    message: &[u8],
) -> Result<Vec<u8>, AllocError>
    ensures { IfOk result (λ v. vec_len v ≡ length message.now + 16) }
{
    let mut s = started(key, nonce, ad);
    let mut sealed = Vec::from_slice(heap, message)?;
    let tag = turn_text(&mut s, &mut sealed, cipher_block);
    sealed.extend_from_slice(&tag)?;
    Ok(sealed)
}

// The message of a box; none of a box that is too short or has another tag.
pub fn open(
    heap: Global,
    key: &[u8; 32],
    nonce: &[u8; 16],
    ad: &[u8],
    sealed: &[u8],
) -> Result<Option<Vec<u8>>, AllocError>
    ensures { IfOk result (λ o. IfSome o (λ v. vec_len v + 16 ≡ length sealed.now)) }
{
    // no `?` here: that there is no message is an answer, and no error
    let Some((text, tag)) = sealed.split_last_chunk::<BLOCK>() else {
        return Ok(None);
    };
    let mut s = started(key, nonce, ad);
    let mut message = Vec::from_slice(heap, text)?;
    let same = turn_text(&mut s, &mut message, decipher_block) == *tag;
    Ok(same.then_some(message))
}
