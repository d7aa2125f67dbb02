// A text cut at its marks: a script into lines, a line into words.
ghost use Rattle.std.specs.Prelude.{◌≡◌, IfOk};
ghost use Rattle.bench_console.specs.Words as spec;

use std::alloc::{AllocError, Global};

// The lines of a script; there is one more than there are newlines.
pub(crate) fn lines(heap: Global, input: &[u8]) -> Result<Vec<&[u8]>, AllocError>
    ensures { IfOk result (λ v. spec.texts v.items ≡ spec.lines input.now) }
{
    input.split(|b| *b == b'\n').collect(heap)
}

// The words of a line; any number of spaces stands between two, before the first and behind the last.
pub(crate) fn words(heap: Global, line: &[u8]) -> Result<Vec<&[u8]>, AllocError>
    ensures { IfOk result (λ v. spec.texts v.items ≡ spec.words line.now) }
{
    line.split(|b| *b == b' ')
        .filter(|word| !word.is_empty())
        .collect(heap)
}
