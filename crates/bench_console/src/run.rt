// A run of the console, as it is shown.
ghost use Rattle.std.specs.Prelude.{◌≡◌, ◌≤◌, take, drop, Some, vec_len};
ghost use Rattle.bench_console.specs.Runs.{refusals, misplaced, totals, run_text};

use crate::answers::Lines;
use crate::calls::Lists;
use runs::script::{Reply, Step};
use std::fmt;

// A script of which the first calls ran.
#[derive(Drop)]
pub struct Run {
    pub steps: Vec<Step<Lists>>,
    pub ran: usize,
    ghost within: { ran ≤ vec_len steps },
}

// How many of these calls were refused.
fn count_refusals(steps: &[Step<Lists>]) -> usize
    ensures { result ≡ refusals steps.now }
{
    steps
        .iter()
        .filter(|step| matches!(step.reply, Reply::Refused(_)))
        .count()
}

// The line of a call that may not stand where it is. It begins as a Line does, and has another end.
#[derive(Drop)]
struct Misplaced<'a> {
    number: usize,
    step: &'a Step<Lists>,
}

impl fmt::Display for Misplaced<'_> {
    ghost output = { λ m. Some (misplaced m.number m.step.now) };

    fn fmt<W: fmt::Write>(&self, f: &mut fmt::Formatter<W>) -> fmt::Result {
        let number = self.number;
        let name = self.step.call.name();
        writeln!(f, "{number} {name}: not allowed here")
    }
}

// The last line: how many calls ran, and how many of them were refused.
#[derive(Drop)]
struct Totals<'a>(&'a [Step<Lists>]);

impl fmt::Display for Totals<'_> {
    ghost output = { λ t. Some (totals t.0.now) };

    fn fmt<W: fmt::Write>(&self, f: &mut fmt::Formatter<W>) -> fmt::Result {
        let calls = self.0.len();
        let refused = count_refusals(self.0);
        writeln!(f, "{calls} calls, {refused} refused")
    }
}

impl fmt::Display for Run {
    ghost output = { λ r. Some (run_text (take r.ran r.steps.items) (drop r.ran r.steps.items)) };

    fn fmt<W: fmt::Write>(&self, f: &mut fmt::Formatter<W>) -> fmt::Result {
        match self.steps.as_slice().split_at(self.ran) {
            (ran, []) => write!(f, "{}{}", Lines(ran), Totals(ran)),
            (ran, [step, ..]) => {
                let number = self.ran + 1;
                let misplaced = Misplaced { number, step };
                write!(f, "{}{}{}", Lines(ran), misplaced, Totals(ran))
            }
        }
    }
}
