// Digests with long output: a record is fed in pieces and lists of items, ended, and drawn from.
#![tactic(auto)]

pub mod drawing;
pub mod feeding;
pub mod force_word;
pub mod item;
pub mod note;
pub mod record;
