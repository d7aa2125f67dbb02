// A script: the lines that set up, then the calls.
use crate::calls::{Calls, Lists};
use crate::faults::Fault;
use crate::making;
use crate::words::words;
use cipher::book::NonceBook;
use gimli::plain::PlainEngine;
use gimli::standing::StandingEngine;
use gimli::three_share::ThreeShareEngine;
use runs::script::Step;
use std::alloc::Global;

// The engine that a script asks for; a run takes it by value, so that the three are one type here.
#[derive(Drop)]
pub enum Chosen {
    Plain(PlainEngine),
    Standing(StandingEngine),
    ThreeShare(ThreeShareEngine),
}

// What has been read of a script.
#[derive(Drop)]
struct Reading {
    heap: Global,
    engine: Option<Chosen>,
    book: Option<NonceBook>,
    calls: Calls,
}

// A script that can be run.
#[derive(Drop)]
pub struct Script {
    pub engine: Chosen,
    pub book: NonceBook,
    pub steps: Vec<Step<Lists>>,
}

// A line that is not taken, counted from 1, and why.
#[derive(Clone, Copy)]
pub struct Faulty {
    pub line: usize,
    pub fault: Fault,
}

fn masked_engine(heap: Global, first: &[u8], second: &[u8]) -> Result<Chosen, Fault> {
    let first = making::string(heap, first)?;
    let second = making::string(heap, second)?;
    let engine = ThreeShareEngine::new(first.as_slice(), second.as_slice())?;
    Ok(Chosen::ThreeShare(engine))
}

fn choose_engine(heap: Global, words: &[&[u8]]) -> Result<Chosen, Fault> {
    match words {
        [b"plain"] => Ok(Chosen::Plain(PlainEngine::new())),
        [b"standing"] => Ok(Chosen::Standing(StandingEngine::new())),
        [b"three-share", first, second] => masked_engine(heap, first, second),
        _ => Err(Fault::NotUnderstood),
    }
}

fn make_book(heap: Global, name: &[u8], count: &[u8]) -> Result<NonceBook, Fault> {
    let name = making::string(heap, name)?;
    let count = making::word_number(count)?;
    Ok(NonceBook::new(name.as_slice(), count)?)
}

impl Reading {
    fn new(heap: Global) -> Reading {
        Reading {
            heap,
            engine: None,
            book: None,
            calls: Calls::new(heap),
        }
    }

    // The engine is chosen once, and before the first call.
    fn set_engine(&mut self, words: &[&[u8]]) -> Result<(), Fault> {
        if self.engine.is_some() {
            return Err(Fault::NotUnderstood);
        }
        self.engine = Some(choose_engine(self.heap, words)?);
        Ok(())
    }

    // The book is made once, and before the first call. As the engine, with another field: one function for both would take
    // the field and the making as parameters.
    fn set_book(&mut self, name: &[u8], count: &[u8]) -> Result<(), Fault> {
        if self.book.is_some() {
            return Err(Fault::NotUnderstood);
        }
        self.book = Some(make_book(self.heap, name, count)?);
        Ok(())
    }

    // A call comes when engine and book are there.
    fn add_call(&mut self, words: &[&[u8]]) -> Result<(), Fault> {
        if self.engine.is_none() || self.book.is_none() {
            return Err(Fault::NotUnderstood);
        }
        self.calls.add(words)
    }

    fn take_words(&mut self, words: &[&[u8]]) -> Result<(), Fault> {
        match words {
            [] => Ok(()),
            [b"engine", rest @ ..] => self.set_engine(rest),
            [b"book", name, count] => self.set_book(name, count),
            call => self.add_call(call),
        }
    }

    fn take_line(&mut self, line: &[u8]) -> Result<(), Fault> {
        if line.starts_with(b"#") {
            return Ok(());
        }
        self.take_words(words(self.heap, line)?.as_slice())
    }

    // All lines are read: engine and book have to be there.
    fn end(self) -> Result<Script, Fault> {
        let Reading {
            engine,
            book,
            calls,
            ..
        } = self;
        Ok(Script {
            engine: engine.ok_or(Fault::NotUnderstood)?,
            book: book.ok_or(Fault::NotUnderstood)?,
            steps: calls.steps,
        })
    }
}

// The script that these lines are; or the first of them that is not taken.
pub(crate) fn read_script(heap: Global, lines: &[&[u8]]) -> Result<Script, Faulty> {
    let mut reading = Reading::new(heap);
    for (before, line) in lines.iter().enumerate() {
        reading.take_line(line).map_err(|fault| Faulty {
            line: before + 1,
            fault,
        })?;
    }
    reading.end().map_err(|fault| Faulty {
        line: lines.len(),
        fault,
    })
}
