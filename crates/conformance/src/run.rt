// One run over the vectors: each on the three engines and the reference, then a line for each kind.
use crate::boxes::{Bench, KEY};
use crate::difference::Difference;
use crate::vector::{Vector, parse};
use crate::{boxes, hashing, permuting};
use cipher::key::Key;
use engine::engine::{Engine, WIDTH};
use engine::refusal::Refusal;
use gimli::plain::PlainEngine;
use gimli::standing::StandingEngine;
use gimli::three_share::ThreeShareEngine;
use std::alloc::{AllocError, Global};
use std::io::{BufRead, BufReader};
use std::{array, io};

// How many vectors of a kind were run, and how many runs differed.
#[derive(Clone, Copy, Default)]
struct Tally {
    vectors: u32,
    differences: u32,
}

impl Tally {
    fn count(&mut self, differences: u32) {
        self.vectors = self.vectors.saturating_add(1);
        self.differences = self.differences.saturating_add(differences);
    }
}

#[derive(Clone, Copy, Default)]
struct Tallies {
    permutation: Tally,
    hash: Tally,
    aead: Tally,
}

// What every vector is run with.
#[derive(Drop)]
struct Equipment {
    three_share: ThreeShareEngine,
    key: Key,
}

// One line, as in `comparison`: no crate stands below the two programs alone.
fn mask(step: u8) -> [u8; WIDTH] {
    array::from_fn(|place| step.wrapping_mul(1 + place as u8))
}

fn equip() -> Result<Equipment, Refusal> {
    Ok(Equipment {
        three_share: ThreeShareEngine::new(&mask(0x35), &mask(0xc9))?,
        key: Key::new(&KEY)?,
    })
}

fn check_engine<E: Engine + Copy>(
    heap: Global,
    engine: E,
    key: &Key,
    vector: &Vector,
) -> Result<(), Difference> {
    match vector {
        Vector::Permutation(v) => permuting::check_engine(engine, v),
        Vector::Hash(v) => hashing::check_engine(engine, v),
        Vector::Aead(v) => Bench { heap, engine, key }.check(v),
    }
}

// As check_engine, by kinds: the second implementation has no engine to be a parameter.
fn check_reference(heap: Global, vector: &Vector) -> Result<(), Difference> {
    match vector {
        Vector::Permutation(v) => permuting::check_reference(v),
        Vector::Hash(v) => hashing::check_reference(v),
        Vector::Aead(v) => boxes::check_reference(heap, v),
    }
}

// What differs, if anything does. Where there was no memory to tell, no more is run.
fn found(run: Result<(), Difference>) -> Result<Option<&'static str>, AllocError> {
    match run {
        Ok(()) => Ok(None),
        Err(Difference::In(what)) => Ok(Some(what)),
        Err(Difference::NoMemory(error)) => Err(error),
    }
}

// Prints the differences that a vector shows, each with its line, and counts them.
fn differences(
    rt: &HostRuntime,
    equipment: &Equipment,
    line: &str,
    vector: &Vector,
) -> anyhow::Result<u32> {
    let heap = rt.alloc();
    let Equipment { three_share, key } = equipment;
    let plain = found(check_engine(heap, PlainEngine::new(), key, vector))?;
    let standing = found(check_engine(heap, StandingEngine::new(), key, vector))?;
    let three_share = found(check_engine(heap, *three_share, key, vector))?;
    let reference = found(check_reference(heap, vector))?;
    let runs = [
        ("the plain engine", plain),
        ("the standing engine", standing),
        ("the three-share engine", three_share),
        ("the reference", reference),
    ];
    let mut count = 0u32;
    for (name, difference) in runs {
        if let Some(what) = difference {
            println!(rt; "{name} differs in {what}: {line}")?;
            count = count.saturating_add(1);
        }
    }
    Ok(count)
}

fn summary(rt: &HostRuntime, kind: &str, ways: &str, tally: Tally) -> io::Result<()> {
    let Tally {
        vectors,
        differences,
    } = tally;
    print!(rt; "{kind}: {vectors} vectors, 3 engines and the reference{ways}: ")?;
    match differences {
        0 => println!(rt; "all agree"),
        n => println!(rt; "{n} differ"),
    }
}

fn run_line(
    rt: &HostRuntime,
    equipment: &Equipment,
    line: &str,
    tallies: &mut Tallies,
) -> anyhow::Result<()> {
    if line.starts_with("#") {
        return Ok(());
    }
    let vector = parse(rt.alloc(), line)?;
    let count = differences(rt, equipment, line, &vector)?;
    match &vector {
        Vector::Permutation(_) => tallies.permutation.count(count),
        Vector::Hash(_) => tallies.hash.count(count),
        Vector::Aead(_) => tallies.aead.count(count),
    }
    Ok(())
}

fn first_round(rt: &HostRuntime) -> io::Result<()> {
    if permuting::first_round_agrees() {
        println!(rt; "round 24 of the zero state: library and reference agree")
    } else {
        println!(rt; "round 24 of the zero state: NOT as published")
    }
}

pub fn run(rt: &HostRuntime) -> anyhow::Result<()> {
    let equipment = equip()?;
    let mut tallies = Tallies::default();
    for line in BufReader::new(rt.alloc(), rt.stdin())?.lines(rt.alloc()) {
        run_line(rt, &equipment, line?.as_str(), &mut tallies)?;
    }
    first_round(rt)?;
    summary(rt, "permutation", "", tallies.permutation)?;
    summary(rt, "hash", ", one piece, cut and drawn", tallies.hash)?;
    summary(
        rt,
        "aead",
        ", sealed and opened, whole and cut, one bit flipped",
        tallies.aead,
    )?;
    Ok(())
}
