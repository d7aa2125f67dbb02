// What the library does, step by step, for one real task: an axle record from the bench to the inspection office.
#![tactic(auto)]

mod bench;
mod office;
mod permuting;
mod show;

fn report(rt: &HostRuntime) -> anyhow::Result<()> {
    permuting::report(rt)?;
    println!(rt; "")?;
    let sealed = bench::report(rt)?;
    println!(rt; "")?;
    office::report(rt, sealed)
}

fn main(rt: HostRuntime) -> anyhow::Result<()> {
    report(&rt)
}
