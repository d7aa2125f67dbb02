// Digests on any engine, fed and drawn in pieces.
use crate::bench::Bench;
use digest::feeding::Feeding;
use digest::record::hash_string;
use engine::engine::Engine;
use std::alloc::AllocError;
use std::num::NonZeroUsize;

// Fills a buffer with the long output of a string, both in pieces of a size.
fn draw_pieces<E: Engine + Copy>(engine: E, string: &[u8], size: NonZeroUsize, out: &mut [u8]) {
    let mut feeding = Feeding::begin(engine);
    for piece in string.chunks(size.get()) {
        feeding = feeding.feed(piece);
    }
    let mut drawing = feeding.end_feeding();
    for piece in out.chunks_mut(size.get()) {
        drawing = drawing.draw(piece);
    }
    let _ = drawing.release();
}

// Whether the long output of a string, fed and drawn in pieces of a size, begins with another.
pub(crate) fn draws<E: Engine + Copy>(
    bench: &Bench<E>,
    string: &[u8],
    size: NonZeroUsize,
    long: &[u8],
) -> Result<bool, AllocError> {
    let mut out = vec![in bench.heap; 0; long.len()]?;
    draw_pieces(bench.engine, string, size, &mut out);
    Ok(out.as_slice() == long)
}

// Whether the hash of a string in one piece is a digest.
pub(crate) fn hashes<E: Engine + Copy>(engine: E, string: &[u8], digest: &[u8]) -> bool {
    let (_, found) = hash_string(engine, string);
    found.as_slice() == digest
}
