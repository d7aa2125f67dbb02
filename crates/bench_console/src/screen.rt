// What is shown for an input.
ghost use Rattle.std.specs.Prelude.{Some};
ghost use Rattle.bench_console.specs.Screens.{text};

use crate::run::Run;
use engine::refusal::Refusal;
use std::fmt;

// A first line that is not taken, or a run. No Result with a fault: a want of memory is a fault that is not shown.
#[derive(Drop)]
pub enum Screen {
    NotUnderstood(usize),
    Refused(usize, Refusal),
    Ran(Run),
}

impl fmt::Display for Screen {
    ghost output = { λ s. Some (text s) };

    fn fmt<W: fmt::Write>(&self, f: &mut fmt::Formatter<W>) -> fmt::Result {
        match self {
            Screen::NotUnderstood(line) => writeln!(f, "line {line}: not understood"),
            Screen::Refused(line, refusal) => writeln!(f, "line {line}: {refusal}"),
            Screen::Ran(run) => write!(f, "{run}"),
        }
    }
}
