// A note: a length byte, and a text of that many bytes.
ghost use Rattle.std.specs.Prelude.{◌≡◌, take};
ghost use Rattle.digest.specs.Notes.{text_len, note_bytes, Noted};
ghost use Rattle.digest.specs.NotesLemmas.{note_nonempty, note_each_byte, note_prefix_free};

use crate::item::Item;
use engine::refusal::Refusal;

// The longest text of a note.
pub const LONGEST: usize = 28;

// Any numbers make a note: its length is read as at most 28. A plain row with the length beside the text: no heap is needed,
// and the row is copied as it stands.
#[derive(Clone, Copy)]
pub struct Note {
    len: u8,
    text: [u8; LONGEST],
}

impl Note {
    // A note of a text; one longer than 28 bytes is refused. `new` and no TryFrom, for which an array is no slice.
    pub fn new(text: &[u8]) -> Result<Note, Refusal>
        ensures { Noted text.now result }
    {
        if text.len() > LONGEST {
            return Err(Refusal::NoteLength);
        }
        let mut all = [0; LONGEST];
        all[..text.len()].copy_from_slice(text);
        Ok(Note {
            len: text.len() as u8,
            text: all,
        })
    }

    // The text: its length is read as at most 28.
    fn text(&self) -> &[u8]
        ensures { result.now ≡ take (text_len self.now) self.now.text }
    {
        &self.text[..LONGEST.min(self.len as usize)]
    }
}

impl Item for Note {
    ghost bytes = { note_bytes };

    ghost nonempty = { note_nonempty };

    ghost each_byte = { note_each_byte };

    ghost prefix_free = { note_prefix_free };

    fn len(&self) -> usize {
        1 + self.text().len()
    }

    fn byte(&self, place: usize) -> Option<u8> {
        let text = self.text();
        match place.checked_sub(1) {
            None => Some(text.len() as u8),
            Some(i) => text.get(i).copied(),
        }
    }
}
