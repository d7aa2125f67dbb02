// The library on its three engines against the reference, on cases of many lengths, keys, cuts and damages. Prints what
// agrees, and what does not.
#![tactic(auto)]

mod bench;
mod case;
mod controls;
mod damage;
mod digests;
mod group;
mod opening;
mod permuting;
mod run;
mod sealing;
mod tally;

fn main(rt: HostRuntime) -> anyhow::Result<()> {
    run::run(&rt)
}
