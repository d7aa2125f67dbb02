// One run over the groups of cases, with a line for each.
use crate::bench::Bench;
use crate::case::make_pool;
use crate::controls;
use crate::group::Group;
use crate::tally::Tally;
use engine::engine::WIDTH;
use engine::refusal::Refusal;
use gimli::plain::PlainEngine;
use gimli::standing::StandingEngine;
use gimli::three_share::ThreeShareEngine;
use std::alloc::Global;
use std::array;

const GROUPS: [Group; 4] = [
    Group::Permutations,
    Group::Digests,
    Group::Boxes,
    Group::Damaged,
];

#[derive(Clone, Copy)]
struct Benches<'a> {
    plain: Bench<'a, PlainEngine>,
    standing: Bench<'a, StandingEngine>,
    three_share: Bench<'a, ThreeShareEngine>,
}

// One line, as in `conformance`: no crate stands below the two programs alone.
fn mask(step: u8) -> [u8; WIDTH] {
    array::from_fn(|place| step.wrapping_mul(1 + place as u8))
}

fn set_up(heap: Global, pool: &[u8]) -> Result<Benches<'_>, Refusal> {
    Ok(Benches {
        plain: Bench {
            name: "the plain engine",
            engine: PlainEngine::new(),
            heap,
            pool,
        },
        standing: Bench {
            name: "the standing engine",
            engine: StandingEngine::new(),
            heap,
            pool,
        },
        three_share: Bench {
            name: "the three-share engine",
            engine: ThreeShareEngine::new(&mask(0x35), &mask(0xc9))?,
            heap,
            pool,
        },
    })
}

fn run_group(rt: &HostRuntime, benches: &Benches, group: Group) -> anyhow::Result<()> {
    let mut tally = Tally::new(group.name());
    group.run(rt, &benches.plain, &mut tally)?;
    group.run(rt, &benches.standing, &mut tally)?;
    group.run(rt, &benches.three_share, &mut tally)?;
    tally.print(rt)?;
    Ok(())
}

fn run_controls(rt: &HostRuntime, bench: &Bench<PlainEngine>) -> anyhow::Result<()> {
    let mut tally = Tally::new("wrong expectations");
    controls::count(bench, &mut tally)?;
    tally.print(rt)?;
    Ok(())
}

pub(crate) fn run(rt: &HostRuntime) -> anyhow::Result<()> {
    let pool = make_pool(rt.alloc())?;
    let benches = set_up(rt.alloc(), &pool)?;
    for group in GROUPS {
        run_group(rt, &benches, group)?;
    }
    run_controls(rt, &benches.plain)
}
