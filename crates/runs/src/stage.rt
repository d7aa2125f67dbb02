// Where a run stands: what the engine is taken by. An enum, matched on: each stage is moved out of by calls of its own.
use cipher::opening::{ClosedOpening, Opening};
use cipher::sealing::{ClosedSealing, Sealing};
use digest::drawing::Drawing;
use digest::feeding::Feeding;
use engine::engine::Engine;

pub(crate) enum Stage<E> {
    Free(E),
    AddingSealing(Sealing<E>),
    Writing(ClosedSealing<E>),
    AddingOpening(Opening<E>),
    ReadyToOpen(ClosedOpening<E>),
    Fed(Feeding<E>),
    Drawn(Drawing<E>),
}

// A call that may not stand where it does: the stage, as it was.
pub(crate) struct Misplaced<E>(pub(crate) Stage<E>);

impl<E: Engine> Stage<E> {
    ghost use Rattle.runs.specs.Stages.{Released};

    // The engine, whatever is open given up.
    pub(crate) fn release(self) -> E
        ensures { Released E.meaning self result }
    {
        match self {
            Stage::Free(engine) => engine,
            Stage::AddingSealing(sealing) => sealing.release(),
            Stage::Writing(sealing) => sealing.release(),
            Stage::AddingOpening(opening) => opening.release(),
            Stage::ReadyToOpen(opening) => opening.release(),
            Stage::Fed(feeding) => feeding.release(),
            Stage::Drawn(drawing) => drawing.release(),
        }
    }
}
