// A hash vector, on any engine and on the reference: in one piece, cut, and drawn from in parts.
ghost use Rattle.std.specs.Prelude.{◌<◌};

use crate::difference::Difference;
use crate::vector::HashVector;
use digest::feeding::Feeding;
use digest::record::{HASH_LEN, hash_string};
use engine::engine::Engine;
use reference::hash::{hash, long_output};

// The bytes that draws of 1, 15, 16, 17 and 100 bytes give.
const LONG: usize = 149;

// Whether the hash of a string that is fed in pieces of a size is a digest. The sizes are literals: as
// NonZeroUsize each would be made and unwrapped at its call.
fn hashes_cut<E: Engine + Copy>(engine: E, v: &HashVector, size: usize) -> bool
    requires { 0 < size }
{
    let mut feeding = Feeding::begin(engine);
    for piece in v.string.chunks(size) {
        feeding = feeding.feed(piece);
    }
    let mut digest = [0; HASH_LEN];
    let _ = feeding.end_feeding().draw(&mut digest).release();
    digest.as_slice() == v.digest.as_slice()
}

// Whether the draws of a string, one after another, are the reference's long output.
fn draws<E: Engine + Copy>(engine: E, v: &HashVector) -> bool {
    let mut out = [0; LONG];
    let drawing = Feeding::begin(engine)
        .feed(v.string.as_slice())
        .end_feeding()
        .draw(&mut out[0..1])
        .draw(&mut out[1..16])
        .draw(&mut out[16..32])
        .draw(&mut out[32..49])
        .draw(&mut out[49..149]);
    let _ = drawing.release();
    let mut long = [0; LONG];
    long_output(v.string.as_slice(), &mut long);
    out == long
}

pub(crate) fn check_engine<E: Engine + Copy>(engine: E, v: &HashVector) -> Result<(), Difference> {
    let (_, digest) = hash_string(engine, v.string.as_slice());
    let agrees = digest.as_slice() == v.digest.as_slice();
    Difference::unless(agrees, "the hash of one piece")?;
    Difference::unless(hashes_cut(engine, v, 1), "the hash of pieces of 1 byte")?;
    Difference::unless(hashes_cut(engine, v, 7), "the hash of pieces of 7 bytes")?;
    Difference::unless(hashes_cut(engine, v, 16), "the hash of pieces of 16 bytes")?;
    Difference::unless(
        hashes_cut(engine, v, 100),
        "the hash of pieces of 100 bytes",
    )?;
    Difference::unless(draws(engine, v), "the long output")
}

pub(crate) fn check_reference(v: &HashVector) -> Result<(), Difference> {
    let digest = hash(v.string.as_slice());
    Difference::unless(digest.as_slice() == v.digest.as_slice(), "the hash")
}
