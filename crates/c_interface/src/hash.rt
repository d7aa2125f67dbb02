// A hash in one call.
ghost use Rattle.c_interface.specs.Faults.{answer_of};
ghost use Rattle.c_interface.specs.Hashing.{HashAnswered};

use crate::answer::answer_of;
use digest::record::{HASH_LEN, hash_string};
use engine::refusal::Refusal;
use gimli::plain::PlainEngine;

// The first bytes of `digest` become the hash of the message. A digest of less than 32 bytes is refused.
#[unsafe(no_mangle)]
pub extern "C" fn gimli_hash(message: &[u8], digest: &mut [u8]) -> u8
    ensures { HashAnswered message.now digest.old result digest.new }
{
    answer_of(hash(message, digest))
}

fn hash(message: &[u8], digest: &mut [u8]) -> Result<(), Refusal>
    ensures { HashAnswered message.now digest.old (answer_of result) digest.new }
{
    if digest.len() < HASH_LEN {
        return Err(Refusal::BufferTooShort);
    }
    let (_, hash) = hash_string(PlainEngine::new(), message);
    digest[0..HASH_LEN].copy_from_slice(&hash);
    Ok(())
}
