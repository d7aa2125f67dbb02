// Strings of bytes as text: two hex digits to a byte.
#![tactic(auto)]

pub mod digits;
pub mod reading;
pub mod showing;
