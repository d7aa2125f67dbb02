// The second part of a digest: the long output is drawn, in buffers of any lengths.
ghost use Rattle.std.specs.Prelude.{◌≡◌, ℕ, ◌+◌, List, ◌++◌, length};
ghost use Rattle.engine.specs.Strings.{zeros};
ghost use Rattle.sponge.specs.Blocks.{output};
ghost use Rattle.sponge.specs.Steps.{standing, squeeze_bytes, squeeze_state};
ghost use Rattle.digest.specs.Digests.{Drawn};

use engine::engine::Engine;
use sponge::sponge::Sponge;

pub struct Drawing<E> {
    pub(crate) sponge: Sponge<E>,
}

impl<E: Engine> Drawing<E> {
    // Fills a buffer with the next bytes of the long output.
    pub fn draw(self, out: &mut [u8]) -> Drawing<E>
        ensures bytes { out.new ≡ squeeze_bytes E.rule (length out.new) (standing E.meaning self.sponge) }
        ensures state { standing E.meaning result.sponge ≡ squeeze_state E.rule (length out.new) (standing E.meaning self.sponge) }
        ensures first { (m : List ℕ) → Drawn E.meaning E.rule self m 0 → out.new ≡ output E.rule m (length out.new) }
        ensures next { (m : List ℕ) (n : ℕ) → Drawn E.meaning E.rule self m n → output E.rule m (n + length out.new) ≡ output E.rule m n ++ out.new }
        ensures drawn { (m : List ℕ) (n : ℕ) → Drawn E.meaning E.rule self m n → Drawn E.meaning E.rule result m (n + length out.new) }
    {
        let Drawing { sponge } = self;
        Drawing {
            sponge: sponge.squeeze(out),
        }
    }

    // Gives the digest up. The engine comes back cleared. Two lines, as Feeding's: a trait for both would be longer.
    pub fn release(self) -> E
        ensures { E.meaning result ≡ zeros }
    {
        let Drawing { sponge } = self;
        sponge.into_engine()
    }
}
