// Runs a script.
ghost use Rattle.std.specs.Prelude.{◌<◌, ◌≤◌, length, slice_index_or};
ghost use Rattle.runs.specs.Allowed.{use_of};
ghost use Rattle.runs.specs.Runs.{RanCalls, Runs};
ghost use Rattle.runs.specs.Stages.{point_of, Spends, Readied, Advanced, Stepped};
ghost use Rattle.runs.specs.declared.script.Step.{Step};

use crate::list::ItemList;
use crate::script::{Call, Step};
use crate::stage::{Misplaced, Stage};
use crate::steps::take_call;
use cipher::book::{IssuedNonce, NonceBook};
use engine::engine::Engine;

// How a run ended: its engine, and how many calls ran.
pub struct Ended<E> {
    pub engine: E,
    pub ran: usize,
}

// How far the calls of a script came: the stage, and how many ran.
struct Reached<E> {
    stage: Stage<E>,
    ran: usize,
}

// The nonce of an earlier step, if that step issued one and no sealing took it yet. Script and place are no struct: the
// script is lent anew for each call.
fn spend<L>(script: &mut [Step<L>], issue: usize, at: usize) -> Option<IssuedNonce>
    requires { at ≤ length script.old }
    ensures { (d : Step L) → Spends script.old issue at d result script.new }
{
    if issue < at {
        script[issue].take_nonce()
    } else {
        None
    }
}

// The nonce that the call at a step starts a sealing with, if the engine is free.
fn nonce_for<E, L>(stage: &Stage<E>, script: &mut [Step<L>], at: usize) -> Option<IssuedNonce>
    requires { at < length script.old }
    ensures { (d : Step L) → Readied (point_of stage.now) (use_of (slice_index_or script.old at d).call) script.old at d result script.new }
{
    match (stage, &script[at].call) {
        (Stage::Free(_), &Call::StartSealing { issue, .. }) => spend(script, issue, at),
        (_, _) => None,
    }
}

// One call of the engine, with the reply shown in its step.
fn advance<E: Engine, L: ItemList>(
    stage: Stage<E>,
    nonce: Option<IssuedNonce>,
    step: &mut Step<L>,
) -> Result<Stage<E>, Misplaced<E>>
    ensures { Advanced E.meaning E.rule L.string stage nonce step.old result step.new }
{
    let (stage, reply) = take_call(stage, nonce, &mut step.call)?;
    step.reply = reply;
    Ok(stage)
}

// One call of a script.
fn step<E: Engine, L: ItemList>(
    book: &mut NonceBook,
    stage: Stage<E>,
    script: &mut [Step<L>],
    at: usize,
) -> Result<Stage<E>, Misplaced<E>>
    requires { at < length script.old }
    ensures { (d : Step L) → Stepped E.meaning E.rule L.string stage book.old script.old at d result book.new script.new }
{
    match &script[at].call {
        Call::Issue => {
            script[at].issue(book);
            Ok(stage)
        }
        _ => {
            let nonce = nonce_for(&stage, script, at);
            advance(stage, nonce, &mut script[at])
        }
    }
}

// Runs the calls of a script on a free engine, up to the first that may not stand where it does.
fn run_calls<E: Engine, L: ItemList>(
    book: &mut NonceBook,
    engine: E,
    script: &mut [Step<L>],
) -> Reached<E>
    ensures { RanCalls E.meaning E.rule L.string book.old engine script.old result.stage result.ran book.new script.new }
{
    let mut stage = Stage::Free(engine);
    // by number: a sealing takes its nonce out of an earlier step, so each call needs the whole script
    for at in 0..script.len() {
        stage = match step(book, stage, script, at) {
            Ok(next) => next,
            Err(Misplaced(stage)) => return Reached { stage, ran: at },
        };
    }
    Reached {
        stage,
        ran: script.len(),
    }
}

// Runs a script on a book and a free engine. An allowed list runs to its end; one with a misplaced call stops there,
// with everything before it run. Whatever is open then is given up, so that the engine comes back.
pub fn run<E: Engine, L: ItemList>(
    book: &mut NonceBook,
    engine: E,
    script: &mut [Step<L>],
) -> Ended<E>
    ensures { Runs E.meaning E.rule L.string book.old engine script.old result book.new script.new }
{
    let Reached { stage, ran } = run_calls(book, engine, script);
    Ended {
        engine: stage.release(),
        ran,
    }
}
