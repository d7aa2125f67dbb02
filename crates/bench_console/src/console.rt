// What the console answers to an input.
ghost use Rattle.std.specs.Prelude.{IfOk};
ghost use Rattle.gimli.specs.Strings.{gimli};
ghost use Rattle.bench_console.specs.Consoles.{ShowsRun, ConsoleShows};

use crate::calls::Lists;
use crate::faults::Fault;
use crate::run::Run;
use crate::screen::Screen;
use crate::script::{Chosen, Faulty, Script, read_script};
use crate::words::lines;
use cipher::book::NonceBook;
use engine::engine::Engine;
use runs::run::{Ended, run};
use runs::script::Step;
use std::alloc::{AllocError, Global};

fn run_on<E: Engine>(mut book: NonceBook, engine: E, mut steps: Vec<Step<Lists>>) -> Screen
where
    E: Drop,
    ensures { ShowsRun E.rule book steps.items result }
{
    let Ended { engine: _, ran } = run(&mut book, engine, steps.as_mut_slice());
    Screen::Ran(Run { steps, ran })
}

fn run_script(script: Script) -> Screen
    ensures { ShowsRun gimli script.book script.steps.items result }
{
    let Script {
        engine,
        book,
        steps,
    } = script;
    match engine {
        Chosen::Plain(engine) => run_on(book, engine, steps),
        Chosen::Standing(engine) => run_on(book, engine, steps),
        Chosen::ThreeShare(engine) => run_on(book, engine, steps),
    }
}

// What to show for an input, whatever it is; displayed, it is every byte of the output.
pub fn console(heap: Global, input: &[u8]) -> Result<Screen, AllocError>
    ensures { IfOk result ConsoleShows }
{
    let lines = lines(heap, input)?;
    match read_script(heap, lines.as_slice()) {
        Ok(script) => Ok(run_script(script)),
        Err(Faulty { line, fault }) => match fault {
            Fault::NotUnderstood => Ok(Screen::NotUnderstood(line)),
            Fault::Refused(e) => Ok(Screen::Refused(line, e)),
            Fault::NoMemory(e) => Err(e),
        },
    }
}
