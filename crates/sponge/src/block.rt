// One byte at a place of a block, over an engine that is lent. Places are read modulo the rate, so no place is refused.
// A sponge's calls for one byte are made of these.
ghost use Rattle.std.specs.Prelude.{◌≡◌, ◌%◌, ◌<◌, slice_index};
ghost use Rattle.engine.specs.Strings.{xored};
ghost use Rattle.sponge.specs.Blocks.{rate};
ghost use Rattle.sponge.specs.Steps.{at, advanced, absorb_byte};

use engine::engine::Engine;

// The number of bytes in a full block.
pub const RATE: usize = 16;

// Changes the byte at a place of the block by xor with b.
pub fn xor_in<E: Engine>(engine: &mut E, place: usize, b: u8)
    ensures { E.meaning engine.new ≡ xored (E.meaning engine.old) (place % rate) b }
{
    engine.xor_byte(place % RATE, b).unwrap();
}

// The byte at a place of the block.
pub fn byte_at<E: Engine>(engine: &E, place: usize) -> u8
    ensures { result ≡ slice_index (E.meaning engine.now) (place % rate) }
{
    engine.byte(place % RATE).unwrap()
}

// Goes past a place of the block, and answers the next one. A full block is followed by the permutation.
pub fn advance<E: Engine>(engine: &mut E, place: usize) -> usize
    ensures state { at (E.meaning engine.new) result ≡ advanced E.rule (at (E.meaning engine.old) (place % rate)) }
    ensures in_block { result < rate }
{
    let next = place % RATE + 1;
    if next == RATE {
        engine.permute();
        0
    } else {
        next
    }
}

// Takes in one byte, and answers the next place.
pub fn absorb_byte<E: Engine>(engine: &mut E, place: usize, b: u8) -> usize
    ensures state { at (E.meaning engine.new) result ≡ absorb_byte E.rule (at (E.meaning engine.old) (place % rate)) b }
    ensures in_block { result < rate }
{
    xor_in(engine, place, b);
    advance(engine, place)
}
