// Lists of items that a run can feed. A list is of one kind of items, and the kind is chosen list by list.
ghost use Rattle.std.specs.Prelude.{ℕ, List, ◌++◌};
ghost use Rattle.std.specs.List.{flat_map};
ghost use Rattle.digest.specs.Digests.{Fed};
ghost use Rattle.runs.specs.Lists.{either};

use digest::feeding::Feeding;
use digest::item::Item;
pub use either::Either;
use engine::engine::Engine;

pub trait ItemList {
    // the strings of the list's items, one after another
    ghost string: { Self → List ℕ };

    fn feed_into<E: Engine>(&self, feeding: Feeding<E>) -> Feeding<E>
        ensures { (m : List ℕ) → Fed E.meaning E.rule feeding m → Fed E.meaning E.rule result (m ++ string self.now) };
}

impl<I: Item> ItemList for Vec<I> {
    ghost string = { λ v. flat_map I.Item.bytes v.items };

    fn feed_into<E: Engine>(&self, feeding: Feeding<E>) -> Feeding<E> {
        feeding.feed_list(self.as_slice())
    }
}

// One of two kinds of lists. Nested, it is one of any number.
impl<A: ItemList, B: ItemList> ItemList for Either<A, B> {
    ghost string = { either A.ItemList.string B.ItemList.string };

    fn feed_into<E: Engine>(&self, feeding: Feeding<E>) -> Feeding<E> {
        match self {
            Either::Left(list) => list.feed_into(feeding),
            Either::Right(list) => list.feed_into(feeding),
        }
    }
}
