// The published test state, permuted by the three engines.
use engine::engine::{Engine, WIDTH};
use engine::strings::{holds, xor_string};
use gimli::plain::PlainEngine;
use gimli::standing::StandingEngine;
use gimli::state::State;
use gimli::three_share::ThreeShareEngine;
use std::{array, io};

// The published result, row by row.
const RESULT: [u32; 12] = [
    0xba11c85a, 0x91bad119, 0x380ce880, 0xd24c2c68, 0x3eceffea, 0x277a921c, 0x4f73a0bd, 0xda5a9cd8,
    0x84b673f0, 0x34e52ff7, 0x9e2bef49, 0xf41bb8d6,
];

// Word i of the published test state.
fn test_word(i: u32) -> u32 {
    i.wrapping_mul(i)
        .wrapping_mul(i)
        .wrapping_add(i.wrapping_mul(0x9e37_79b9))
}

fn show_row(rt: &HostRuntime, name: &str, row: [u32; 4]) -> io::Result<()> {
    let [a, b, c, d] = row;
    println!(rt; "    {name} {a:08x} {b:08x} {c:08x} {d:08x}")
}

fn show_state(rt: &HostRuntime, title: &str, state: State) -> io::Result<()> {
    println!(rt; "  {title}")?;
    show_row(rt, "top   ", state.top)?;
    show_row(rt, "middle", state.middle)?;
    show_row(rt, "bottom", state.bottom)
}

fn show_shares(rt: &HostRuntime, when: &str, engine: &ThreeShareEngine) -> io::Result<()> {
    let shares = engine.shares();
    let [zeroth, first, second] = shares.share;
    println!(rt; "  {when}:")?;
    show_state(rt, "share 0", zeroth)?;
    show_state(rt, "share 1", first)?;
    show_state(rt, "share 2", second)?;
    show_state(rt, "their xor", zeroth.xor(first).xor(second))
}

fn verdict(agrees: bool) -> &'static str {
    if agrees {
        "the published result"
    } else {
        "NOT the published result"
    }
}

// Loads the test state, permutes it, and says whether the published result came out.
fn show_engine<E: Engine + Copy>(
    rt: &HostRuntime,
    name: &str,
    mut engine: E,
    string: &[u8],
    published: &[u8],
) -> io::Result<()> {
    xor_string(&mut engine, 0, string);
    engine.permute();
    let said = verdict(holds(&engine, published));
    println!(rt; "{name} engine: 24 rounds give {said}.")
}

fn show_three_shares(rt: &HostRuntime, string: &[u8], published: &[u8]) -> anyhow::Result<()> {
    let mut engine = ThreeShareEngine::new(&[0x5a; WIDTH], &[0xc3; WIDTH])?;
    println!(rt; "three-share engine: made from two masks; the test state is xored into share 0.")?;
    xor_string(&mut engine, 0, string);
    show_shares(rt, "before", &engine)?;
    engine.permute();
    show_shares(rt, "after 24 rounds on each share by itself", &engine)?;
    let said = verdict(holds(&engine, published));
    println!(rt; "three-share engine: the xor of its shares is {said}.")?;
    Ok(())
}

pub(crate) fn report(rt: &HostRuntime) -> anyhow::Result<()> {
    let words: [u32; 12] = array::from_fn(|i| test_word(i as u32));
    let string = words.map(|word| word.to_le_bytes());
    let string = string.as_flattened();
    let published = RESULT.map(|word| word.to_le_bytes());
    let published = published.as_flattened();
    println!(rt; "The published test state of the Gimli permutation, on three engines.")?;
    show_engine(rt, "plain", PlainEngine::new(), string, published)?;
    show_engine(rt, "standing", StandingEngine::new(), string, published)?;
    show_three_shares(rt, string, published)
}
