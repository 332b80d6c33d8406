//! Whether a handle that stands at a place names something there.

ghost use Rattle.std.specs.Prelude.{◌≡◌, ◌<◌, ◌↔◌, IsTrue, IfSome, [], ◌∷◌};
ghost use Rattle.ir_misfits.specs.MisfitPoints.{named, named_if, counted};
ghost use Rattle.ir_facts.specs.Answers.{Finds, FirstOf};

use crate::misfit::{HandleOf, Misfit, Place, Problem};
use ir_arena::handle::Handle;

/// Whether the handle, where one is given, is one of so many.
pub fn is_below_if_any<T>(handle: Option<Handle<T>>, count: usize) -> bool
    ensures { IsTrue result ↔ IfSome handle (λ h. h < count) }
{
    match handle {
        Some(handle) => handle.index() < count,
        None => true,
    }
}

impl Place {
    /// What is wrong at this place.
    pub fn fails(self, problem: Problem) -> Result<(), Misfit>
        ensures { result ≡ Err (record { place = self; problem = problem }) }
    {
        Err(Misfit {
            place: self,
            problem,
        })
    }

    /// The handle with this index stands here, and only those below `below` may.
    pub fn names(self, of: HandleOf, index: usize, below: usize) -> Result<(), Misfit>
        ensures { Finds (FirstOf (named self of below index ∷ [])) result }
    {
        if index < below {
            return Ok(());
        }
        self.fails(Problem::Handle { of, index, below })
    }

    /// The same of a handle that may be left out.
    pub fn names_if_any<T>(
        self,
        of: HandleOf,
        handle: Option<Handle<T>>,
        below: usize,
    ) -> Result<(), Misfit>
        ensures { Finds (FirstOf (named_if self of below handle)) result }
    {
        match handle {
            Some(handle) => self.names(of, handle.index(), below),
            None => Ok(()),
        }
    }

    /// A list of this length stands here, and 32 bits have to count its items.
    pub fn counts(self, found: usize) -> Result<(), Misfit>
        ensures { Finds (FirstOf (counted self found ∷ [])) result }
    {
        if found <= u32::MAX as usize {
            return Ok(());
        }
        self.fails(Problem::TooMany { found })
    }
}
