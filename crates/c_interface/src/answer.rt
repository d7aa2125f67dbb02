// What C is answered: a number, since C has no Result.
ghost use Rattle.std.specs.Prelude.{◌≡◌};
ghost use Rattle.c_interface.specs.Faults.{answer_of};

use engine::refusal::Refusal;

// 0 where a call of the library did what it is for, and otherwise the number of its refusal.
pub(crate) fn answer_of<T: Drop>(answer: Result<T, Refusal>) -> u8
    ensures { result ≡ answer_of answer }
{
    match answer {
        Ok(_) => 0,
        Err(refusal) => refusal.number(),
    }
}
