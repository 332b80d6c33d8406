//! Answers about an entry point.

ghost use Rattle.std.specs.Prelude.{◌≡◌};
ghost use Rattle.ir_arena.specs.Points.{within};
ghost use Rattle.ir_facts.specs.Answers.{Answers, Finds, FirstOf, read_by};
ghost use Rattle.check_entry.specs.EntryFaults.{fault_of};
ghost use Rattle.check_entry.specs.EntryAnswers.{EntryPoints};

use check_faults::entry::EntryPointError;
use ir_arena::Refused;
use ir_arena::span::{Refusal, WithSpan};
use std::alloc::Global;

/// The refusal for a fault before the function, which stands at no place of its own. It takes no memory.
#[cold]
#[inline(never)]
pub fn refusal_at_start(alloc: Global, fault: EntryPointError) -> Refusal<EntryPointError>
    ensures { result ≡ Refusal.Fault fault }
{
    Refusal::Fault(WithSpan::new(alloc, fault))
}

/// The answer of a check of an entry point: in the errors of the code, and in the faults that contracts see.
pub(crate) fn answer(
    alloc: Global,
    checked: Result<(), EntryPointError>,
) -> Result<(), Refused<EntryPointError>>
    ensures meets { (points : EntryPoints) → Finds (FirstOf points) checked → Answers (FirstOf points) result }
    ensures judges { (points : EntryPoints) → Finds (FirstOf points) checked → Answers
        (FirstOf (within fault_of points)) (read_by fault_of result) }
{
    match checked {
        Ok(()) => Ok(()),
        Err(fault) => Err(Refused::unplaced(alloc, fault)),
    }
}
