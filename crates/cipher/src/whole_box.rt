// A whole box opened. Its tag is checked only once its text is deciphered, so the message of a refused box is overwritten.
ghost use Rattle.std.specs.Prelude.{◌≡◌, ℕ, ◌≤◌, List, ◌++◌, ◌↔◌, IsTrue, length, drop, replicate};
ghost use Rattle.engine.specs.Strings.{zeros};
ghost use Rattle.sponge.specs.Steps.{at, standing};
ghost use Rattle.cipher.specs.Openings.{Opens};

use crate::closed::Closed;
use crate::sealing::TAG_LEN;
use crate::uses::ToOpen;
use engine::engine::Engine;
use engine::refusal::Refusal;

// Opens a box into the first bytes of a buffer, and answers the message's length. The engine comes back cleared.
pub(crate) fn open_box<E: Engine>(
    closed: Closed<E, ToOpen>,
    sealed: &[u8],
    buffer: &mut [u8],
) -> (E, Result<usize, Refusal>)
    ensures opens { (s : List ℕ) → standing E.meaning closed.sponge ≡ at s 0 → Opens E.rule s sealed.now buffer.old buffer.new result.1 }
    ensures cleared { E.meaning result.0 ≡ zeros }
{
    let Some((text, sealed_tag)) = sealed.split_last_chunk() else {
        return (closed.release(), Err(Refusal::BoxTooShort));
    };
    if buffer.len() < text.len() {
        return (closed.release(), Err(Refusal::BufferTooShort));
    }
    let mut tag = [0; TAG_LEN];
    let engine = closed.decipher(text, buffer).end(&mut tag);
    if !equal(&tag, sealed_tag) {
        wipe(buffer, text.len());
        return (engine, Err(Refusal::TagDiffers));
    }
    (engine, Ok(text.len()))
}

// Whether two tags are equal. Every byte is looked at, wherever the first difference is.
fn equal(a: &[u8; TAG_LEN], b: &[u8; TAG_LEN]) -> bool
    ensures { IsTrue result ↔ (a.now ≡ b.now) }
{
    let mut differences = 0;
    for (x, y) in a.iter().zip(b) {
        differences |= x ^ y;
    }
    differences == 0
}

// Overwrites the first n bytes of a buffer with zeros.
fn wipe(buffer: &mut [u8], n: usize)
    requires { n ≤ length buffer.old }
    ensures { buffer.new ≡ replicate n 0 ++ drop n buffer.old }
{
    buffer[..n].fill(0);
}
