// How a screen is written: a line for each row, or one line for a refusal.
ghost use Rattle.std.specs.Prelude.{Some};
ghost use Rattle.round_viewer.specs.Lines.{word, line, text};

use crate::view::Screen;
use hex_text::showing::Hex;
use std::fmt;

// A word that is shown as eight hex digits.
#[derive(Clone, Copy)]
struct HexWord(u32);

impl fmt::Display for HexWord {
    ghost output = { λ w. Some (word w.0) };

    fn fmt<W: fmt::Write>(&self, f: &mut fmt::Formatter<W>) -> fmt::Result {
        write!(f, "{}", Hex(&self.0.to_be_bytes()))
    }
}

// A row that is shown as a line.
#[derive(Clone, Copy)]
struct Line([u32; 4]);

impl fmt::Display for Line {
    ghost output = { λ r. Some (line r.0) };

    fn fmt<W: fmt::Write>(&self, f: &mut fmt::Formatter<W>) -> fmt::Result {
        let [a, b, c, d] = self.0.map(HexWord);
        writeln!(f, "{a} {b} {c} {d}")
    }
}

impl fmt::Display for Screen {
    ghost output = { λ s. Some (text s) };

    fn fmt<W: fmt::Write>(&self, f: &mut fmt::Formatter<W>) -> fmt::Result {
        match self.0 {
            Ok(s) => write!(f, "{}{}{}", Line(s.top), Line(s.middle), Line(s.bottom)),
            Err(refusal) => writeln!(f, "{refusal}"),
        }
    }
}
