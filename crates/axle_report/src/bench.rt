// The bench: seals a record of two axles, axle by axle, on three shares, and prints its slip.
use crate::show::Said;
use cipher::book::NonceBook;
use cipher::key::Key;
use digest::force_word::ForceWord;
use digest::item::Item;
use digest::note::Note;
use engine::engine::WIDTH;
use engine::refusal::Refusal;
use gimli::three_share::ThreeShareEngine;
use hex_text::showing::Hex;
use runs::list::Either;
use runs::run::{Ended, run};
use runs::script::{Call, Reply, Step};
use std::alloc::{AllocError, Global};

pub const KEY: [u8; 32] = [
    0x10, 0x32, 0x54, 0x76, 0x98, 0xba, 0xdc, 0xfe, 0x01, 0x23, 0x45, 0x67, 0x89, 0xab, 0xcd, 0xef,
    0x0f, 0x1e, 0x2d, 0x3c, 0x4b, 0x5a, 0x69, 0x78, 0x87, 0x96, 0xa5, 0xb4, 0xc3, 0xd2, 0xe1, 0xf0,
];

pub const BENCH: &[u8; 12] = b"BENCH-000017";

pub const HEADER: &[u8; 24] = b"brake test, 2 axles, UTC";

// newtons, left and right, axle by axle
const FORCES: [[u32; 2]; 2] = [[4123, 3987], [2870, 2911]];

// the lists that the slip's digest is fed
type Lists = Either<Vec<ForceWord>, Vec<Note>>;

// The box as it travels, with its nonce.
#[derive(Drop)]
pub struct Sealed {
    pub nonce: Vec<u8>,
    pub sealed: Vec<u8>,
}

// Writes the eight bytes of an axle: its two forces, each lowest byte first.
fn write(heap: Global, forces: [u32; 2]) -> Result<Call<Lists>, AllocError> {
    let bytes = forces.map(|force| force.to_le_bytes());
    Ok(Call::Write {
        piece: bytes.as_flattened().to_vec(heap)?,
        buffer: vec![in heap; 0; 8]?,
    })
}

fn feed_forces(heap: Global, forces: [u32; 2]) -> Result<Call<Lists>, AllocError> {
    let list = forces
        .iter()
        .map(|force| ForceWord::new(*force))
        .collect(heap)?;
    Ok(Call::FeedList {
        list: Either::Left(list),
    })
}

fn feed_note(heap: Global, note: Note) -> Result<Call<Lists>, AllocError> {
    let list = vec![in heap; note]?;
    Ok(Call::FeedList {
        list: Either::Right(list),
    })
}

fn seal_calls(heap: Global, key: Key) -> Result<[Call<Lists>; 7], AllocError> {
    let [first, second] = FORCES;
    Ok([
        Call::Issue,
        Call::StartSealing { key, issue: 0 },
        Call::Add {
            piece: HEADER.to_vec(heap)?,
        },
        Call::Close,
        write(heap, first)?,
        write(heap, second)?,
        Call::Finish,
    ])
}

fn slip_calls(heap: Global, note: Note) -> Result<[Call<Lists>; 7], AllocError> {
    let [first, second] = FORCES;
    Ok([
        Call::BeginDigest,
        feed_forces(heap, first)?,
        feed_forces(heap, second)?,
        feed_note(heap, note)?,
        Call::EndFeeding,
        Call::Draw {
            buffer: vec![in heap; 0; 32]?,
        },
        Call::Release,
    ])
}

// Prints a step that ran, and adds to the box what it gave.
fn show_step(
    rt: &HostRuntime,
    at: usize,
    step: &Step<Lists>,
    sealed: &mut Sealed,
) -> anyhow::Result<()> {
    let said = Said(&step.reply);
    match (&step.call, &step.reply) {
        (Call::StartSealing { .. }, Reply::Nonce(nonce)) => {
            sealed.nonce.extend_from_slice(nonce)?;
            println!(rt; "  {at} start sealing: {said}")?;
        }
        (Call::Write { piece, buffer }, _) => {
            sealed.sealed.extend_from_slice(buffer)?;
            println!(rt; "  {at} write {}: {said}, {}", Hex(piece), Hex(buffer))?;
        }
        (Call::Finish, Reply::Tag(tag)) => {
            sealed.sealed.extend_from_slice(tag)?;
            println!(rt; "  {at} finish: {said}")?;
        }
        (Call::FeedList { .. }, _) => println!(rt; "  {at} feed list: {said}")?,
        (Call::Draw { buffer }, _) => {
            println!(rt; "  {at} draw: the slip shows {}", Hex(buffer))?;
        }
        (call, _) => println!(rt; "  {at} {}: {said}", call.name())?,
    }
    Ok(())
}

// What the bench works with: its key, its book, and a three-share engine under two masks.
struct Bench {
    key: Key,
    book: NonceBook,
    engine: ThreeShareEngine,
    note: Note,
}

fn set_up() -> Result<Bench, Refusal> {
    Ok(Bench {
        key: Key::new(&KEY)?,
        book: NonceBook::new(BENCH, 258)?,
        engine: ThreeShareEngine::new(&[0x5a; WIDTH], &[0xc3; WIDTH])?,
        note: Note::new(b"handbrake 1620 N")?,
    })
}

pub(crate) fn report(rt: &HostRuntime) -> anyhow::Result<Sealed> {
    println!(rt;
        "The bench BENCH-000017 seals a record of two axles on three shares, axle by axle."
    )?;
    let Bench {
        key,
        mut book,
        engine,
        note,
    } = set_up()?;
    let heap = rt.alloc();
    let mut script = Vec::new(heap);
    let sealing = seal_calls(heap, key)?;
    let slip = slip_calls(heap, note)?;
    for call in sealing.into_iter().chain(slip) {
        script.push(Step::new(call))?;
    }
    let Ended { engine: _, ran } = run(&mut book, engine, &mut script);
    show_run(rt, ran, &script, book.count())
}

fn show_run(
    rt: &HostRuntime,
    ran: usize,
    script: &[Step<Lists>],
    count: u32,
) -> anyhow::Result<Sealed> {
    let heap = rt.alloc();
    let mut sealed = Sealed {
        nonce: Vec::new(heap),
        sealed: Vec::new(heap),
    };
    for (at, step) in script.iter().enumerate() {
        show_step(rt, at, step, &mut sealed)?;
    }
    println!(rt;
        "  {ran} of {} calls ran; the book's next count is {count}.",
        script.len()
    )?;
    println!(rt; "  the box: {}", Hex(&sealed.sealed))?;
    Ok(sealed)
}
