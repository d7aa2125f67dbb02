// Replies as a person reads them. The console shows them in other words, of its own.
use hex_text::showing::Hex;
use runs::script::Reply;
use std::fmt;

// What a call was answered.
#[derive(Drop)]
pub struct Said<'a>(pub &'a Reply);

impl fmt::Display for Said<'_> {
    fn fmt<W: fmt::Write>(&self, f: &mut fmt::Formatter<W>) -> fmt::Result {
        match self.0 {
            Reply::NotRun => write!(f, "not run"),
            Reply::Done => write!(f, "done"),
            Reply::Nonce(nonce) => write!(f, "nonce {}", Hex(nonce)),
            Reply::Length(n) => write!(f, "{n} bytes"),
            Reply::Tag(tag) => write!(f, "tag {}", Hex(tag)),
            Reply::Refused(refusal) => write!(f, "{refusal}"),
        }
    }
}
