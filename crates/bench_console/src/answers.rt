// A call that ran, as a line.
ghost use Rattle.std.specs.Prelude.{Some};
ghost use Rattle.bench_console.specs.Answers.{shown as string_text, told, answer, line, lines};

use crate::calls::Lists;
use hex_text::showing::Hex;
use runs::script::{Call, Reply, Step};
use std::fmt;

// A string that is shown in hex digits, the empty one as `-`.
#[derive(Drop)]
struct Shown<'a>(&'a [u8]);

impl fmt::Display for Shown<'_> {
    ghost output = { λ s. Some (string_text s.0.now) };

    fn fmt<W: fmt::Write>(&self, f: &mut fmt::Formatter<W>) -> fmt::Result {
        match self.0 {
            [] => write!(f, "-"),
            string => write!(f, "{}", Hex(string)),
        }
    }
}

// A reply without a buffer.
#[derive(Drop)]
struct Told<'a>(&'a Reply);

impl fmt::Display for Told<'_> {
    ghost output = { λ r. Some (told r.0.now) };

    fn fmt<W: fmt::Write>(&self, f: &mut fmt::Formatter<W>) -> fmt::Result {
        match self.0 {
            Reply::NotRun => write!(f, "not run"),
            Reply::Done => write!(f, "done"),
            Reply::Nonce(nonce) => write!(f, "{}", Hex(nonce)),
            Reply::Length(n) => write!(f, "{n}"),
            Reply::Tag(tag) => write!(f, "{}", Hex(tag)),
            Reply::Refused(e) => write!(f, "{e}"),
        }
    }
}

// What a call that ran is answered.
#[derive(Drop)]
struct Answer<'a>(&'a Step<Lists>);

impl fmt::Display for Answer<'_> {
    ghost output = { λ a. Some (answer a.0.now.call a.0.now.reply) };

    fn fmt<W: fmt::Write>(&self, f: &mut fmt::Formatter<W>) -> fmt::Result {
        let reply = &self.0.reply;
        match &self.0.call {
            Call::StartSealing { .. } => write!(f, "done"),
            Call::Draw { buffer } => write!(f, "{}", Shown(buffer.as_slice())),
            Call::Write { buffer, .. } | Call::Open { buffer, .. } => {
                write!(f, "{} {}", Told(reply), Shown(buffer.as_slice()))
            }
            _ => write!(f, "{}", Told(reply)),
        }
    }
}

// The line of a call that ran.
#[derive(Drop)]
struct Line<'a> {
    number: usize,
    step: &'a Step<Lists>,
}

impl fmt::Display for Line<'_> {
    ghost output = { λ l. Some (line l.number l.step.now) };

    fn fmt<W: fmt::Write>(&self, f: &mut fmt::Formatter<W>) -> fmt::Result {
        let number = self.number;
        let name = self.step.call.name();
        writeln!(f, "{number} {name}: {}", Answer(self.step))
    }
}

// The lines of calls that ran, numbered from 1.
#[derive(Drop)]
pub(crate) struct Lines<'a>(pub &'a [Step<Lists>]);

impl fmt::Display for Lines<'_> {
    ghost output = { λ l. Some (lines 1 l.0.now) };

    fn fmt<W: fmt::Write>(&self, f: &mut fmt::Formatter<W>) -> fmt::Result {
        for (before, step) in self.0.iter().enumerate() {
            let number = before + 1;
            write!(f, "{}", Line { number, step })?;
        }
        Ok(())
    }
}
