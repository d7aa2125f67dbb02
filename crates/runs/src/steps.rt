// One call of a run, by the stage in which it stands: the stage that comes, and the reply. Release is an arm of each stage:
// taken out of them, no stage's contract would hold of every call.
ghost use Rattle.runs.specs.Stages.{CallTaken, Moved};

use crate::list::ItemList;
use crate::script::{Call, Reply};
use crate::stage::{Misplaced, Stage};
use cipher::book::IssuedNonce;
use cipher::opening::{ClosedOpening, Opening};
use cipher::sealing::{ClosedSealing, Sealing, TAG_LEN};
use digest::drawing::Drawing;
use digest::feeding::Feeding;
use engine::engine::Engine;

// Any call but issue, which is the book's. The nonce is for a sealing that starts.
pub(crate) fn take_call<E: Engine, L: ItemList>(
    stage: Stage<E>,
    nonce: Option<IssuedNonce>,
    call: &mut Call<L>,
) -> Result<(Stage<E>, Reply), Misplaced<E>>
    ensures { CallTaken E.meaning E.rule L.string stage nonce call.old result call.new }
{
    match stage {
        Stage::Free(engine) => from_free(engine, nonce, call),
        Stage::AddingSealing(sealing) => from_adding_sealing(sealing, call),
        Stage::Writing(sealing) => from_writing(sealing, call),
        Stage::AddingOpening(opening) => from_adding_opening(opening, call),
        Stage::ReadyToOpen(opening) => from_ready_to_open(opening, call),
        Stage::Fed(feeding) => from_fed(feeding, call),
        Stage::Drawn(drawing) => from_drawn(drawing, call),
    }
}

fn from_free<E: Engine, L: ItemList>(
    engine: E,
    nonce: Option<IssuedNonce>,
    call: &Call<L>,
) -> Result<(Stage<E>, Reply), Misplaced<E>>
    ensures { CallTaken E.meaning E.rule L.string (Stage.Free engine) nonce call.now result call.now }
{
    match (call, nonce) {
        (Call::StartSealing { key, .. }, Some(nonce)) => {
            let reply = Reply::Nonce(*nonce.bytes());
            let sealing = Sealing::start(engine, key, nonce);
            Ok((Stage::AddingSealing(sealing), reply))
        }
        (Call::StartOpening { key, nonce: from }, _) => {
            let opening = Opening::start(engine, key, from);
            Ok((Stage::AddingOpening(opening), Reply::Done))
        }
        (Call::BeginDigest, _) => Ok((Stage::Fed(Feeding::begin(engine)), Reply::Done)),
        (_, _) => Err(Misplaced(Stage::Free(engine))),
    }
}

// As from_adding_opening, arm by arm: one function for both would take the stages before and behind close as closures, and
// its contract would have to say of each what such a stage holds.
fn from_adding_sealing<E: Engine, L: ItemList>(
    sealing: Sealing<E>,
    call: &Call<L>,
) -> Result<(Stage<E>, Reply), Misplaced<E>>
    ensures { Moved E.meaning E.rule L.string (Stage.AddingSealing sealing) call.now result call.now }
{
    match call {
        Call::Add { piece } => {
            let sealing = sealing.add(piece.as_slice());
            Ok((Stage::AddingSealing(sealing), Reply::Done))
        }
        Call::Close => Ok((Stage::Writing(sealing.close()), Reply::Done)),
        Call::Release => Ok((Stage::Free(sealing.release()), Reply::Done)),
        _ => Err(Misplaced(Stage::AddingSealing(sealing))),
    }
}

fn from_writing<E: Engine, L: ItemList>(
    sealing: ClosedSealing<E>,
    call: &mut Call<L>,
) -> Result<(Stage<E>, Reply), Misplaced<E>>
    ensures { Moved E.meaning E.rule L.string (Stage.Writing sealing) call.old result call.new }
{
    match call {
        Call::Write { piece, buffer } => {
            let (sealing, answer) = sealing.write(piece.as_slice(), buffer.as_mut_slice());
            Ok((Stage::Writing(sealing), Reply::from(answer)))
        }
        Call::Finish => {
            let mut tag = [0; TAG_LEN];
            let engine = sealing.finish(&mut tag);
            Ok((Stage::Free(engine), Reply::Tag(tag)))
        }
        Call::Release => Ok((Stage::Free(sealing.release()), Reply::Done)),
        _ => Err(Misplaced(Stage::Writing(sealing))),
    }
}

fn from_adding_opening<E: Engine, L: ItemList>(
    opening: Opening<E>,
    call: &Call<L>,
) -> Result<(Stage<E>, Reply), Misplaced<E>>
    ensures { Moved E.meaning E.rule L.string (Stage.AddingOpening opening) call.now result call.now }
{
    match call {
        Call::Add { piece } => {
            let opening = opening.add(piece.as_slice());
            Ok((Stage::AddingOpening(opening), Reply::Done))
        }
        Call::Close => Ok((Stage::ReadyToOpen(opening.close()), Reply::Done)),
        Call::Release => Ok((Stage::Free(opening.release()), Reply::Done)),
        _ => Err(Misplaced(Stage::AddingOpening(opening))),
    }
}

fn from_ready_to_open<E: Engine, L: ItemList>(
    opening: ClosedOpening<E>,
    call: &mut Call<L>,
) -> Result<(Stage<E>, Reply), Misplaced<E>>
    ensures { Moved E.meaning E.rule L.string (Stage.ReadyToOpen opening) call.old result call.new }
{
    match call {
        Call::Open { sealed, buffer } => {
            let (engine, answer) = opening.open(sealed.as_slice(), buffer.as_mut_slice());
            Ok((Stage::Free(engine), Reply::from(answer)))
        }
        Call::Release => Ok((Stage::Free(opening.release()), Reply::Done)),
        _ => Err(Misplaced(Stage::ReadyToOpen(opening))),
    }
}

fn from_fed<E: Engine, L: ItemList>(
    feeding: Feeding<E>,
    call: &Call<L>,
) -> Result<(Stage<E>, Reply), Misplaced<E>>
    ensures { Moved E.meaning E.rule L.string (Stage.Fed feeding) call.now result call.now }
{
    match call {
        Call::Feed { piece } => {
            let feeding = feeding.feed(piece.as_slice());
            Ok((Stage::Fed(feeding), Reply::Done))
        }
        Call::FeedList { list } => {
            let feeding = list.feed_into(feeding);
            Ok((Stage::Fed(feeding), Reply::Done))
        }
        Call::EndFeeding => Ok((Stage::Drawn(feeding.end_feeding()), Reply::Done)),
        Call::Release => Ok((Stage::Free(feeding.release()), Reply::Done)),
        _ => Err(Misplaced(Stage::Fed(feeding))),
    }
}

fn from_drawn<E: Engine, L: ItemList>(
    drawing: Drawing<E>,
    call: &mut Call<L>,
) -> Result<(Stage<E>, Reply), Misplaced<E>>
    ensures { Moved E.meaning E.rule L.string (Stage.Drawn drawing) call.old result call.new }
{
    match call {
        Call::Draw { buffer } => {
            let drawing = drawing.draw(buffer.as_mut_slice());
            Ok((Stage::Drawn(drawing), Reply::Done))
        }
        Call::Release => Ok((Stage::Free(drawing.release()), Reply::Done)),
        _ => Err(Misplaced(Stage::Drawn(drawing))),
    }
}
