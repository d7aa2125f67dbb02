// The round viewer: a request on standard input, the state after its rounds on standard output.
#![tactic(auto)]

ghost use Rattle.std.specs.Prelude.{◌≡◌, ℕ, ◌≤◌, take, IfOk, IfSome};
ghost use Rattle.std.specs.Io.KnownBytes.{Consumes};
ghost use Rattle.round_viewer.specs.Lines.{text};
ghost use Rattle.round_viewer.specs.Views.{Views};

mod lines;
mod request;
#[cfg(test)]
mod tests;
mod view;

use request::LENGTH;
use std::io;
use std::io::Read;
use view::{Screen, view};

// 101, a byte more than a request has: an input of so many bytes is too long.
const LIMIT: usize = LENGTH + 1;

// Reads an input up to its end or the buffer's, and gives the number of bytes read. Read after read into a buffer, with a
// count: `read_to_end` would ask for memory.
fn read_input<R: Read>(input: &mut R, buffer: &mut [u8; LIMIT]) -> io::Result<usize>
    ensures within { IfOk result (λ filled. filled ≤ 101) }
    ensures bytes { IfOk result (λ filled. IfSome (R.remaining input.old) (λ all. take filled buffer.new ≡ take 101 all)) }
    ensures no_more { IfOk result (λ filled. Consumes (R.remaining input.old) (R.remaining input.new) (take filled buffer.new)) }
{
    let mut filled = 0;
    while filled < LIMIT {
        let got = input.read(&mut buffer[filled..])?;
        if got == 0 {
            break;
        }
        filled += got;
    }
    Ok(filled)
}

// What to show for the bytes that were read.
fn shown(buffer: &[u8; LIMIT], filled: usize) -> Screen
    requires { filled ≤ 101 }
    ensures { Views (take filled buffer.now) (text result) }
{
    view(&buffer[..filled])
}

// What to show for an input, read into a buffer: the answer to the bytes that were read, and so to the whole input where
// it is known what the reader holds.
fn screen_of<R: Read + Drop>(mut input: R, buffer: &mut [u8; LIMIT]) -> io::Result<Screen>
    ensures some { IfOk result (λ screen. (filled : ℕ) × (filled ≤ 101) × Views (take filled buffer.new) (text screen)) }
    ensures whole { IfOk result (λ screen. IfSome (R.remaining input) (λ all. Views all (text screen))) }
{
    let filled = read_input(&mut input, buffer)?;
    Ok(shown(buffer, filled))
}

fn main(rt: HostRuntime) -> io::Result<()> {
    let mut buffer = [0; LIMIT];
    let screen = screen_of(rt.stdin(), &mut buffer)?;
    rt.print(screen)
}
