// The library as C calls it: byte strings in and out, and numbers for answers.
#![tactic(auto)]

mod answer;
pub mod hash;
pub mod open;
pub mod permute;
pub mod seal;
