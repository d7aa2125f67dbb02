// What a permutation-based mode needs of a state of 48 bytes, and the refusals of the whole product.
#![tactic(auto)]

pub mod engine;
pub mod refusal;
pub mod strings;
