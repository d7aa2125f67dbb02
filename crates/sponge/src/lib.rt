// A sponge over any engine: strings in, in pieces of any lengths, and bytes out.
#![tactic(auto)]

pub mod block;
pub mod sponge;
