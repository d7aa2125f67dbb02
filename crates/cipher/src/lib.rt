// Sealed boxes over any engine: a message and associated data under a key and a nonce of a book.
#![tactic(auto)]

pub mod adding;
pub mod book;
pub mod closed;
pub mod key;
pub mod nonce;
pub mod opening;
pub mod record;
pub mod sealing;
pub mod uses;
mod whole_box;
