// A bench: an engine, and what its cases are made of.
use std::alloc::Global;

// The tally and a case's number are no part of it, since they change from case to case.
#[derive(Clone, Copy)]
pub(crate) struct Bench<'a, E> {
    // the engine, as the lines about it name it
    pub(crate) name: &'static str,
    pub(crate) engine: E,
    pub(crate) heap: Global,
    // the bytes that the cases take their strings from
    pub(crate) pool: &'a [u8],
}
