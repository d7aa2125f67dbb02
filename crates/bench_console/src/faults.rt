// Why a line is not taken.
use engine::refusal::Refusal;
use std::alloc::{AllocError, AllocFailed};

#[derive(Clone, Copy)]
pub enum Fault {
    NotUnderstood,
    Refused(Refusal),
    // not a fault of the line: the machine has no memory for it
    NoMemory(AllocError),
}

impl From<Refusal> for Fault {
    fn from(e: Refusal) -> Fault {
        Fault::Refused(e)
    }
}

impl From<AllocError> for Fault {
    fn from(e: AllocError) -> Fault {
        Fault::NoMemory(e)
    }
}

// what found no place in a Vec
impl<T: Drop> From<AllocFailed<T>> for Fault {
    fn from(e: AllocFailed<T>) -> Fault {
        Fault::NoMemory(e.into())
    }
}
