// Two scripts, on two books and on engines of any two kinds.
ghost use Rattle.runs.specs.Laws.{Silent};
ghost use Rattle.runs.specs.Runs.{Runs};
ghost use Rattle.runs.specs.Scripts.{history};

use crate::list::ItemList;
use crate::run::{Ended, run};
use crate::script::Step;
use cipher::book::NonceBook;
use engine::engine::Engine;

// Runs one script, then the other. Two openings that were refused for their tags, one in each, tell nothing apart
// but the box's length and the buffer.
pub fn run_both<D: Engine, E: Engine, K: ItemList, L: ItemList>(
    book: &mut NonceBook,
    engine: D,
    script: &mut [Step<K>],
    other: &mut NonceBook,
    spare: E,
    second: &mut [Step<L>],
) -> (Ended<D>, Ended<E>)
    ensures one { Runs D.Engine.meaning D.Engine.rule K.ItemList.string book.old engine script.old result.0 book.new script.new }
    ensures two { Runs E.Engine.meaning E.Engine.rule L.ItemList.string other.old spare second.old result.1 other.new second.new }
    ensures silent { Silent (history K.ItemList.string result.0.ran script.old script.new) (history L.ItemList.string result.1.ran second.old second.new) }
{
    let first = run(book, engine, script);
    let last = run(other, spare, second);
    (first, last)
}
