// The console: a script of calls on standard input, what each is answered on standard output.
#![tactic(auto)]

mod answers;
mod calls;
mod console;
mod faults;
mod making;
mod run;
mod screen;
mod script;
mod words;

use std::io::Read;

fn show(rt: &HostRuntime) -> anyhow::Result<()> {
    let heap = rt.alloc();
    let mut input = Vec::new(heap);
    rt.stdin().read_to_end(&mut input)?;
    let screen = console::console(heap, input.as_slice())?;
    rt.print(screen)?;
    Ok(())
}

fn main(rt: HostRuntime) -> anyhow::Result<()> {
    show(&rt)
}
