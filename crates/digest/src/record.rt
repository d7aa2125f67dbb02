// Whole records, made of the calls of this crate.
ghost use Rattle.std.specs.Prelude.{◌≡◌, length};
ghost use Rattle.engine.specs.Strings.{zeros};
ghost use Rattle.sponge.specs.Blocks.{output, hash};

use crate::feeding::Feeding;
use engine::engine::Engine;

// The number of bytes in a hash.
pub const HASH_LEN: usize = 32;

// Fills a buffer with the long output of a string. The engine comes back cleared.
pub fn digest_string<E: Engine>(engine: E, string: &[u8], out: &mut [u8]) -> E
    ensures bytes { out.new ≡ output E.rule string.now (length out.new) }
    ensures cleared { E.meaning result ≡ zeros }
{
    Feeding::begin(engine)
        .feed(string)
        .end_feeding()
        .draw(out)
        .release()
}

// The hash of a string. The engine comes back cleared.
pub fn hash_string<E: Engine>(engine: E, string: &[u8]) -> (E, [u8; HASH_LEN])
    ensures bytes { result.1 ≡ hash E.rule string.now }
    ensures cleared { E.meaning result.0 ≡ zeros }
{
    let mut out = [0; HASH_LEN];
    let engine = digest_string(engine, string, &mut out);
    (engine, out)
}

// The long outputs of two records, one after the other, on one engine.
pub fn digest_two<E: Engine>(
    engine: E,
    first: &[u8],
    first_out: &mut [u8],
    second: &[u8],
    second_out: &mut [u8],
) -> E
    ensures first_bytes { first_out.new ≡ output E.rule first.now (length first_out.new) }
    ensures second_bytes { second_out.new ≡ output E.rule second.now (length second_out.new) }
    ensures cleared { E.meaning result ≡ zeros }
{
    let engine = digest_string(engine, first, first_out);
    digest_string(engine, second, second_out)
}
