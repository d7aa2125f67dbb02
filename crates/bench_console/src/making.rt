// What the words of a line stand for: strings, numbers, and what is made of them.
use crate::faults::Fault;
use digest::force_word::ForceWord;
use digest::note::Note;
use hex_text::reading::read_string;
use std::alloc::Global;

// What a buffer holds before its call.
const UNTOUCHED: u8 = 0xaa;

// A string in hex digits; `-` is the empty one.
pub(crate) fn string(heap: Global, word: &[u8]) -> Result<Vec<u8>, Fault> {
    match word {
        b"-" => Ok(Vec::new(heap)),
        digits => read_string(heap, digits)?.ok_or(Fault::NotUnderstood),
    }
}

// A number with one decimal digit more, if that is one and there is room for it.
fn with_digit(number: usize, c: u8) -> Option<usize> {
    let digit = (c as char).to_digit(10)?;
    number.checked_mul(10)?.checked_add(digit as usize)
}

// A number in decimal digits. `parse` would take a sign too, and read on where there is no room for more digits.
pub(crate) fn number(word: &[u8]) -> Result<usize, Fault> {
    if word.is_empty() {
        return Err(Fault::NotUnderstood);
    }
    word.iter()
        .try_fold(0, |number, c| with_digit(number, *c))
        .ok_or(Fault::NotUnderstood)
}

// A number of 32 bits.
pub(crate) fn word_number(word: &[u8]) -> Result<u32, Fault> {
    u32::try_from(number(word)?).map_err(|_| Fault::NotUnderstood)
}

// A buffer of so many bytes.
pub(crate) fn buffer(heap: Global, word: &[u8]) -> Result<Vec<u8>, Fault> {
    Ok(vec![in heap; UNTOUCHED; number(word)?]?)
}

pub(crate) fn forces(heap: Global, words: &[&[u8]]) -> Result<Vec<ForceWord>, Fault> {
    words
        .iter()
        .map(|word| word_number(word).map(ForceWord::new))
        .try_collect(heap)
}

// Notes. A text that is too long is refused only if every text can be read.
pub(crate) fn notes(heap: Global, words: &[&[u8]]) -> Result<Vec<Note>, Fault> {
    let texts: Vec<Vec<u8>> = words
        .iter()
        .map(|word| string(heap, word))
        .try_collect(heap)?;
    texts
        .iter()
        .map(|text| Note::new(text.as_slice()).map_err(Fault::from))
        .try_collect(heap)
}
