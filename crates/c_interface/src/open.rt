// A box opened in one call.
ghost use Rattle.std.specs.Prelude.{◌++◌};
ghost use Rattle.gimli.specs.Strings.{gimli};
ghost use Rattle.sponge.specs.Blocks.{absorbed};
ghost use Rattle.cipher.specs.Keys.{key_bytes};
ghost use Rattle.cipher.specs.Nonces.{box_nonce_bytes};
ghost use Rattle.cipher.specs.Openings.{Opens};
ghost use Rattle.c_interface.specs.Faults.{answer_of};
ghost use Rattle.c_interface.specs.Opening.{OpenAnswered};

use crate::answer::answer_of;
use cipher::key::Key;
use cipher::nonce::BoxNonce;
use cipher::opening::Opening;
use engine::refusal::Refusal;
use gimli::plain::PlainEngine;

// The first bytes of `message` become the message of the box, which has 16 bytes less.
// Of a box that is refused for its tag, zeros stand where its message would. C passes each string by itself.
#[unsafe(no_mangle)]
pub extern "C" fn gimli_open(
    key: &[u8],
    nonce: &[u8],
    ad: &[u8],
    sealed: &[u8],
    message: &mut [u8],
) -> u8
    ensures { OpenAnswered key.now nonce.now ad.now sealed.now message.old message.new result }
{
    answer_of(open(key, nonce, ad, sealed, message))
}

fn open(
    key: &[u8],
    nonce: &[u8],
    ad: &[u8],
    sealed: &[u8],
    message: &mut [u8],
) -> Result<usize, Refusal>
    ensures { OpenAnswered key.now nonce.now ad.now sealed.now message.old message.new (answer_of result) }
{
    let key = Key::new(key)?;
    let nonce = BoxNonce::new(nonce)?;
    open_box(&key, &nonce, ad, sealed, message)
}

// A box opened under a key and a nonce, and the length of its message.
fn open_box(
    key: &Key,
    nonce: &BoxNonce,
    ad: &[u8],
    sealed: &[u8],
    message: &mut [u8],
) -> Result<usize, Refusal>
    ensures { Opens gimli (absorbed gimli (gimli (box_nonce_bytes nonce.now ++ key_bytes key.now)) ad.now) sealed.now message.old message.new result }
{
    let opening = Opening::start(PlainEngine::new(), key, nonce).add(ad);
    let (_, answer) = opening.close().open(sealed, message);
    answer
}
