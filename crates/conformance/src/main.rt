// The vectors on standard input, on the three engines and the reference: what agrees, and what does not.
#![tactic(auto)]

mod boxes;
mod difference;
mod hashing;
mod permuting;
mod run;
#[cfg(test)]
mod tests;
mod vector;

fn main(rt: HostRuntime) -> anyhow::Result<()> {
    run::run(&rt)
}
