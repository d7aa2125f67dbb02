// A message sealed in one call. The nonce is issued here, so that none is used twice.
ghost use Rattle.std.specs.Prelude.{◌≡◌, ◌+◌, ◌≤◌, ◌++◌, length, drop};
ghost use Rattle.gimli.specs.Strings.{gimli};
ghost use Rattle.sponge.specs.Blocks.{rate, sealed_box};
ghost use Rattle.cipher.specs.Keys.{key_bytes};
ghost use Rattle.cipher.specs.Nonces.{issued_bytes};
ghost use Rattle.c_interface.specs.Faults.{answer_of};
ghost use Rattle.c_interface.specs.Sealing.{SealAnswered};

use crate::answer::answer_of;
use cipher::book::{IssuedNonce, NonceBook};
use cipher::key::Key;
use cipher::nonce::NONCE_LEN;
use cipher::record::seal_message;
use cipher::sealing::TAG_LEN;
use engine::refusal::Refusal;
use gimli::plain::PlainEngine;

// The first bytes of `sealed` become the box of the message under the next nonce of the book of `name` and `count`.
// The nonce goes to `nonce`, and the count goes up by one. C passes each string by itself, so here they are in no struct.
#[unsafe(no_mangle)]
pub extern "C" fn gimli_seal(
    key: &[u8],
    name: &[u8],
    count: &mut u32,
    ad: &[u8],
    message: &[u8],
    sealed: &mut [u8],
    nonce: &mut [u8],
) -> u8
    ensures { SealAnswered key.now name.now ad.now message.now count.old sealed.old nonce.old count.new sealed.new nonce.new result }
{
    answer_of(seal(key, name, count, ad, message, sealed, nonce))
}

// Nothing is written before the last fault is looked for.
fn seal(
    key: &[u8],
    name: &[u8],
    count: &mut u32,
    ad: &[u8],
    message: &[u8],
    sealed: &mut [u8],
    nonce: &mut [u8],
) -> Result<(), Refusal>
    ensures { SealAnswered key.now name.now ad.now message.now count.old sealed.old nonce.old count.new sealed.new nonce.new (answer_of result) }
{
    let key = Key::new(key)?;
    let mut book = NonceBook::new(name, *count)?;
    let issued = book.issue()?;
    if nonce.len() != NONCE_LEN {
        return Err(Refusal::NonceLength);
    }
    if sealed.len() < TAG_LEN || sealed.len() - TAG_LEN < message.len() {
        return Err(Refusal::BufferTooShort);
    }
    *count = book.count();
    nonce.copy_from_slice(issued.bytes());
    seal_box(&key, issued, ad, message, sealed);
    Ok(())
}

// The first bytes of a buffer that has room become a message's box: its ciphertext, then its tag.
fn seal_box(key: &Key, nonce: IssuedNonce, ad: &[u8], message: &[u8], sealed: &mut [u8])
    requires { length message.now + rate ≤ length sealed.old }
    ensures { sealed.new ≡ sealed_box gimli (key_bytes key.now) (issued_bytes nonce) ad.now message.now ++ drop (length message.now + rate) sealed.old }
{
    let n = message.len();
    let mut tag = [0; TAG_LEN];
    let _ = seal_message(
        PlainEngine::new(),
        key,
        nonce,
        ad,
        message,
        sealed,
        &mut tag,
    );
    sealed[n..n + TAG_LEN].copy_from_slice(&tag);
}
