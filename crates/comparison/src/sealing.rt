// Boxes that the library seals, on any engine.
use crate::bench::Bench;
use crate::case::Case;
use crate::opening::{UNTOUCHED, is_left};
use cipher::record::seal_message;
use cipher::sealing::{ClosedSealing, Sealing, TAG_LEN};
use engine::engine::Engine;
use engine::refusal::Refusal;
use std::alloc::AllocError;
use std::num::NonZeroUsize;

// Whether a case in one piece gives a box. As in `conformance`, which has one key and one nonce for all.
pub(crate) fn seals_whole<E: Engine + Copy>(
    bench: &Bench<E>,
    case: &Case,
    sealed: &[u8],
) -> Result<bool, AllocError> {
    let mut text = vec![in bench.heap; 0; case.message.len()]?;
    let mut tag = [0; TAG_LEN];
    // a refusal here is a difference like others
    let Ok((key, nonce)) = case.key_and_nonce() else {
        return Ok(false);
    };
    let (_, answer) = seal_message(
        bench.engine,
        &key,
        nonce,
        case.ad,
        case.message,
        &mut text,
        &mut tag,
    );
    Ok(answer == Ok(case.message.len()) && sealed.strip_prefix(&text) == Some(&tag))
}

// A sealing that has taken in a case's associated data, in pieces of a size.
fn closed_sealing<E: Engine + Copy>(
    engine: E,
    case: &Case,
    size: NonZeroUsize,
) -> Result<ClosedSealing<E>, Refusal> {
    let (key, nonce) = case.key_and_nonce()?;
    let mut sealing = Sealing::start(engine, &key, nonce);
    for piece in case.ad.chunks(size.get()) {
        sealing = sealing.add(piece);
    }
    Ok(sealing.close())
}

// Writes a piece, first into a buffer that is a byte too short: that is refused with 7, and leaves buffer and sealing as they were.
fn write_piece<E: Engine + Copy>(
    closed: ClosedSealing<E>,
    piece: &[u8],
    room: &mut [u8],
) -> (ClosedSealing<E>, bool) {
    let short = room.len().saturating_sub(1);
    let (closed, refused) = closed.write(piece, &mut room[0..short]);
    let left = refused == Err(Refusal::BufferTooShort) && is_left(room, b"");
    let (closed, answer) = closed.write(piece, room);
    (closed, left && answer == Ok(piece.len()))
}

// Whether a case in pieces of a size gives a box.
pub(crate) fn seals<E: Engine + Copy>(
    bench: &Bench<E>,
    case: &Case,
    sealed: &[u8],
    size: NonZeroUsize,
) -> Result<bool, AllocError> {
    let mut text = vec![in bench.heap; UNTOUCHED; case.message.len()]?;
    let mut tag = [0; TAG_LEN];
    // a refusal here is a difference like others
    let Ok(mut closed) = closed_sealing(bench.engine, case, size) else {
        return Ok(false);
    };
    // The sealing moves from piece to piece, so what each write answered is gathered beside it.
    let mut wrote = true;
    let pieces = case.message.chunks(size.get());
    for (piece, room) in pieces.zip(text.chunks_mut(size.get())) {
        let (next, written) = write_piece(closed, piece, room);
        closed = next;
        wrote &= written;
    }
    let _ = closed.finish(&mut tag);
    Ok(wrote && sealed.strip_prefix(&text) == Some(&tag))
}
