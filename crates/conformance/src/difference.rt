// What comes out otherwise than a vector says.
ghost use Rattle.std.specs.Prelude.{◌↔◌, IsTrue, IsOk};

use std::alloc::AllocError;

// Why a run of a vector does not show that it agrees.
#[derive(Clone, Copy)]
pub(crate) enum Difference {
    // this came out otherwise
    In(&'static str),
    // there was no memory to tell
    NoMemory(AllocError),
}

impl From<AllocError> for Difference {
    fn from(error: AllocError) -> Difference {
        Difference::NoMemory(error)
    }
}

impl Difference {
    // No error where the two agree, and else one that names what differs.
    pub(crate) fn unless(agree: bool, what: &'static str) -> Result<(), Difference>
        ensures { IsOk result ↔ IsTrue agree }
    {
        if agree {
            Ok(())
        } else {
            Err(Difference::In(what))
        }
    }
}
