// A second implementation, which the tests compare the library with: whole strings in, whole strings out, on twelve words.
// It shares no code and no definitions with the library. Its contracts speak of lengths and refusals alone;
// that its bytes are right is only tested, by `conformance`.
#![tactic(auto)]

pub mod cipher;
pub mod hash;
pub mod permutation;
mod words;
