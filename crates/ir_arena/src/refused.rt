//! Refusals on their way through the steps of a check.

use crate::span::{Refusal, Span, WithSpan};
use std::alloc::{AllocError, AllocFailed, Global};
use std::marker::Model;

/// A refusal on its way through the steps of a check. The fault lies on the heap, so that what each step answers is small.
#[derive(Drop)]
pub struct Refused<E> {
    // none if it is out of memory
    fault: Option<Box<WithSpan<E>>>,
}

impl<E> Model for Refused<E> {
    ghost use Rattle.ir_arena.specs.declared.span.Refusal.{Refusal};

    ghost Value = { Refusal E };

    ghost use Rattle.ir_arena.specs.Refusals.{refusal_in};

    ghost view = { λ r. refusal_in r.fault };
}

impl<E: Drop> Refused<E> {
    ghost use Rattle.std.specs.Prelude.{◌≡◌};
    ghost use Rattle.ir_arena.specs.Refusals.{IsRefusalFor};

    /// For a fault, which has its places.
    #[cold]
    #[inline(never)]
    pub fn new(alloc: Global, fault: WithSpan<E>) -> Refused<E>
        ensures { IsRefusalFor fault result }
    {
        match Box::new(alloc, fault) {
            Ok(fault) => Refused { fault: Some(fault) },
            Err(_) => Refused { fault: None },
        }
    }

    /// For a fault at a place.
    #[cold]
    #[inline(never)]
    pub fn placed(alloc: Global, fault: E, span: Span) -> Refused<E>
        ensures { IsRefusalFor fault result }
    {
        match WithSpan::new(alloc, fault).with_span(span) {
            Ok(fault) => Refused::new(alloc, fault),
            Err(_) => Refused { fault: None },
        }
    }

    /// For a fault without a place.
    #[cold]
    #[inline(never)]
    pub fn unplaced(alloc: Global, fault: E) -> Refused<E>
        ensures { IsRefusalFor fault result }
    {
        Refused::new(alloc, WithSpan::new(alloc, fault))
    }

    /// The refusal.
    pub fn into_refusal(self) -> Refusal<E>
        ensures { result ≡ self }
    {
        let Refused { fault } = self;
        match fault {
            Some(fault) => Refusal::Fault(Box::into_inner(fault)),
            None => Refusal::Memory,
        }
    }
}

impl<E> From<AllocError> for Refused<E> {
    ghost use Rattle.std.specs.Prelude.{◌≡◌};
    ghost use Rattle.ir_arena.specs.declared.span.Refusal.TheVariants.{Memory};

    ghost from_gives = { λ _ e. e ≡ Memory };

    fn from(_e: AllocError) -> Refused<E> {
        Refused { fault: None }
    }
}

impl<E, T: Drop> From<AllocFailed<T>> for Refused<E> {
    ghost use Rattle.std.specs.Prelude.{◌≡◌};
    ghost use Rattle.ir_arena.specs.declared.span.Refusal.TheVariants.{Memory};

    ghost from_gives = { λ _ e. e ≡ Memory };

    fn from(_e: AllocFailed<T>) -> Refused<E> {
        Refused { fault: None }
    }
}
