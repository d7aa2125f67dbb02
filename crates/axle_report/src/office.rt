// The inspection office: opens the box on a plain engine, and refuses one with a single bit changed.
use crate::bench::{HEADER, KEY, Sealed};
use crate::show::Said;
use anyhow::anyhow;
use cipher::book::NonceBook;
use cipher::key::Key;
use cipher::nonce::BoxNonce;
use digest::force_word::ForceWord;
use digest::item::Item;
use engine::refusal::Refusal;
use gimli::plain::PlainEngine;
use hex_text::showing::Hex;
use runs::run::{Ended, run};
use runs::script::{Call, Reply, Step};
use std::alloc::{AllocError, Global};
use std::io;

type Script = Vec<Step<Vec<ForceWord>>>;

// What the office opens a box with. It issues no nonce, but a run always has a book.
struct Office {
    key: Key,
    nonce: BoxNonce,
    book: NonceBook,
}

fn set_up(nonce: &[u8]) -> Result<Office, Refusal> {
    Ok(Office {
        key: Key::new(&KEY)?,
        nonce: BoxNonce::new(nonce)?,
        book: NonceBook::new(b"OFFICE-00001", 0)?,
    })
}

fn open_calls(
    heap: Global,
    key: Key,
    nonce: BoxNonce,
    sealed: Vec<u8>,
) -> Result<Script, AllocError> {
    Ok(vec![in heap;
        Step::new(Call::StartOpening { key, nonce }),
        Step::new(Call::Add {
            piece: HEADER.to_vec(heap)?,
        }),
        Step::new(Call::Close),
        Step::new(Call::Open {
            sealed,
            buffer: vec![in heap; 0xaa; 20]?,
        }),
    ]?)
}

// Prints the forces of a message, two to an axle, each lowest byte first.
fn show_forces(rt: &HostRuntime, message: &[u8]) -> io::Result<()> {
    let (forces, _) = message.as_chunks::<4>();
    let (axles, _) = forces.as_chunks::<2>();
    for (before, axle) in axles.iter().enumerate() {
        let [left, right] = axle.map(|force| u32::from_le_bytes(force));
        println!(rt; "  axle {}: left {left} N, right {right} N", before + 1)?;
    }
    Ok(())
}

fn show_answer(rt: &HostRuntime, step: &Step<Vec<ForceWord>>) -> io::Result<()> {
    let Call::Open { buffer, .. } = &step.call else {
        return Ok(());
    };
    let said = Said(&step.reply);
    println!(rt;
        "  open: {said}; the buffer of 20 bytes holds {}",
        Hex(buffer)
    )?;
    match step.reply {
        Reply::Length(n) => show_forces(rt, &buffer[..n.min(buffer.len())]),
        _ => Ok(()),
    }
}

fn open(rt: &HostRuntime, nonce: &[u8], sealed: Vec<u8>) -> anyhow::Result<()> {
    let Office {
        key,
        nonce,
        mut book,
    } = set_up(nonce).map_err(|_| anyhow!("the office cannot be set up"))?;
    let mut script = open_calls(rt.alloc(), key, nonce, sealed)?;
    let Ended { engine: _, ran: _ } = run(&mut book, PlainEngine::new(), &mut script);
    if let Some(step) = script.last() {
        show_answer(rt, step)?;
    }
    Ok(())
}

pub(crate) fn report(rt: &HostRuntime, sealed: Sealed) -> anyhow::Result<()> {
    let Sealed { nonce, sealed } = sealed;
    let mut damaged = sealed.clone()?;
    println!(rt; "The office opens the box on a plain engine.")?;
    open(rt, nonce.as_slice(), sealed)?;
    println!(rt; "The same box with one bit changed.")?;
    if let Some(b) = damaged.first_mut() {
        *b ^= 1;
    }
    open(rt, nonce.as_slice(), damaged)
}
