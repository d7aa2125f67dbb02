// Whole records, made of the calls of this crate. Engine, key, nonce and associated data stay apart: a struct of them would be
// made and taken apart in one line.
ghost use Rattle.std.specs.Prelude.{◌≡◌, [], ◌++◌};
ghost use Rattle.engine.specs.Strings.{zeros};
ghost use Rattle.sponge.specs.Blocks.{absorbed, sealed_box};
ghost use Rattle.sponge.specs.Steps.{at, standing};
ghost use Rattle.cipher.specs.Keys.{key_bytes};
ghost use Rattle.cipher.specs.Nonces.{issued_bytes};
ghost use Rattle.cipher.specs.Sealings.{Sealed};

use crate::book::IssuedNonce;
use crate::key::Key;
use crate::sealing::{ClosedSealing, Sealing, TAG_LEN};
use engine::engine::Engine;
use engine::refusal::Refusal;

// Seals one message in one piece. The engine comes back cleared.
pub fn seal_message<E: Engine>(
    engine: E,
    key: &Key,
    nonce: IssuedNonce,
    ad: &[u8],
    message: &[u8],
    buffer: &mut [u8],
    tag: &mut [u8; TAG_LEN],
) -> (E, Result<usize, Refusal>)
    ensures seals { Sealed E.rule (key_bytes key.now) (issued_bytes nonce) ad.now message.now buffer.old buffer.new tag.old tag.new result.1 }
    ensures cleared { E.meaning result.0 ≡ zeros }
{
    let (closed, answer) = closed_sealing(engine, key, nonce, ad).write(message, buffer);
    // a pair in each arm: taken out of the match, the engine costs a line more
    match answer {
        Ok(n) => (closed.finish(tag), Ok(n)),
        Err(e) => (closed.release(), Err(e)),
    }
}

// Tags two strings of associated data, each with an empty message and a nonce of its own, on one engine.
pub fn tag_two<E: Engine>(
    engine: E,
    key: &Key,
    first_nonce: IssuedNonce,
    first: &[u8],
    first_tag: &mut [u8; TAG_LEN],
    second_nonce: IssuedNonce,
    second: &[u8],
    second_tag: &mut [u8; TAG_LEN],
) -> E
    ensures first { first_tag.new ≡ sealed_box E.rule (key_bytes key.now) (issued_bytes first_nonce) first.now [] }
    ensures second { second_tag.new ≡ sealed_box E.rule (key_bytes key.now) (issued_bytes second_nonce) second.now [] }
    ensures cleared { E.meaning result ≡ zeros }
{
    let engine = tag_data(engine, key, first_nonce, first, first_tag);
    tag_data(engine, key, second_nonce, second, second_tag)
}

// The tag of associated data with an empty message.
fn tag_data<E: Engine>(
    engine: E,
    key: &Key,
    nonce: IssuedNonce,
    ad: &[u8],
    tag: &mut [u8; TAG_LEN],
) -> E
    ensures tag { tag.new ≡ sealed_box E.rule (key_bytes key.now) (issued_bytes nonce) ad.now [] }
    ensures cleared { E.meaning result ≡ zeros }
{
    closed_sealing(engine, key, nonce, ad).finish(tag)
}

// A sealing whose associated data came in one piece.
fn closed_sealing<E: Engine>(
    engine: E,
    key: &Key,
    nonce: IssuedNonce,
    ad: &[u8],
) -> ClosedSealing<E>
    ensures { standing E.meaning result.sponge ≡ at (absorbed E.rule (E.rule (issued_bytes nonce ++ key_bytes key.now)) ad.now) 0 }
{
    Sealing::start(engine, key, nonce).add(ad).close()
}
