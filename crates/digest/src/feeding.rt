// The first part of a digest: a string is fed, in pieces and in lists of items.
ghost use Rattle.std.specs.Prelude.{◌≡◌, ℕ, List, [], ◌++◌};
ghost use Rattle.std.specs.List.{flat_map};
ghost use Rattle.engine.specs.Strings.{zeros};
ghost use Rattle.sponge.specs.Steps.{standing, absorb_piece, padded};
ghost use Rattle.digest.specs.Digests.{Fed, Drawn};
ghost use Rattle.digest.specs.Items.{Told};

use crate::drawing::Drawing;
use crate::item::Item;
use engine::engine::Engine;
use sponge::sponge::Sponge;

// What was fed is said by `Fed` and is no ghost field, so that the contracts of feeding hold of a digest in any state.
pub struct Feeding<E> {
    sponge: Sponge<E>,
}

impl<E: Engine> Feeding<E> {
    // Begins a digest, whatever the engine meant.
    pub fn begin(engine: E) -> Feeding<E>
        ensures { Fed E.meaning E.rule result [] }
    {
        Feeding {
            sponge: Sponge::new(engine),
        }
    }

    // Feeds the next piece of the string.
    pub fn feed(self, piece: &[u8]) -> Feeding<E>
        ensures state { standing E.meaning result.sponge ≡ absorb_piece E.rule (standing E.meaning self.sponge) piece.now }
        ensures fed { (m : List ℕ) → Fed E.meaning E.rule self m → Fed E.meaning E.rule result (m ++ piece.now) }
    {
        let Feeding { sponge } = self;
        Feeding {
            sponge: sponge.absorb(piece),
        }
    }

    // Feeds the strings of items of one kind, one after another.
    pub fn feed_list<I: Item>(mut self, items: &[I]) -> Feeding<E>
        ensures state { standing E.meaning result.sponge ≡ absorb_piece E.rule (standing E.meaning self.sponge) (flat_map I.bytes items.now) }
        ensures fed { (m : List ℕ) → Fed E.meaning E.rule self m → Fed E.meaning E.rule result (m ++ flat_map I.bytes items.now) }
        ensures told { Told I.bytes items.now }
    {
        for item in items {
            self.feed_item(item);
        }
        self
    }

    // Ends the string.
    pub fn end_feeding(self) -> Drawing<E>
        ensures state { standing E.meaning result.sponge ≡ padded E.rule (standing E.meaning self.sponge) }
        ensures fed { (m : List ℕ) → Fed E.meaning E.rule self m → Drawn E.meaning E.rule result m 0 }
    {
        let Feeding { sponge } = self;
        Drawing {
            sponge: sponge.pad(),
        }
    }

    // Gives the digest up. The engine comes back cleared. Two lines, as Drawing's: a trait for both would be longer.
    pub fn release(self) -> E
        ensures { E.meaning result ≡ zeros }
    {
        let Feeding { sponge } = self;
        sponge.into_engine()
    }

    // Feeds the string of one item. Lent, since a digest that moves at each item would be copied at each item.
    fn feed_item<I: Item>(&mut self, item: &I)
        ensures { standing E.meaning self.new.sponge ≡ absorb_piece E.rule (standing E.meaning self.old.sponge) (I.bytes item.now) }
    {
        // an item gives its bytes by their places
        for place in 0..item.len() {
            self.sponge.absorb_byte(item.byte(place).unwrap());
        }
    }
}
