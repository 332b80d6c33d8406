//! Places in a source text, and faults with such places.

ghost use Rattle.std.specs.Prelude.{◌≡◌, IfOk};
ghost use Rattle.ir_arena.specs.declared.span.Refusal.TheVariants.{Memory};

use std::alloc::{AllocError, AllocFailed, Global};
use std::error::Error;
use std::fmt;
use std::marker::Model;

/// A part of the source: two byte offsets, without `end`. No check reads them.
#[derive(Clone, Copy, PartialEq, Eq, Hash, Debug)]
pub struct Span {
    pub start: u32,
    pub end: u32,
}

impl Span {
    /// The span of what has no place in the source: 0..0.
    pub const UNDEFINED: Span = Span { start: 0, end: 0 };
}

/// A fault with its spans. Contracts see the fault alone, and `==` compares it alone.
#[derive(Debug, Drop)]
pub struct WithSpan<E> {
    inner: E,
    spans: Vec<Span>,
}

impl<E> Model for WithSpan<E> {
    ghost use Rattle.std.specs.Prelude.{List};

    ghost Value = { E };

    ghost view = { λ w. w.inner };
}

impl<E> WithSpan<E> {
    /// A fault without spans, which keeps the allocator.
    pub fn new(alloc: Global, inner: E) -> Self
        ensures { result ≡ inner }
    {
        WithSpan {
            inner,
            spans: Vec::new(alloc),
        }
    }

    /// Adds a span at the end. An Err is out of memory.
    pub fn with_span(mut self, span: Span) -> Result<Self, AllocError>
    where
        E: Drop,
        ensures { IfOk result (λ w. w ≡ self) }
    {
        self.spans.push(span)?;
        Ok(self)
    }

    /// The fault, without its spans.
    pub fn as_inner(&self) -> &E
        ensures { result.now ≡ self.now }
    {
        &self.inner
    }

    /// The fault. Its spans are dropped.
    pub fn into_inner(self) -> E
        ensures { result ≡ self }
    {
        self.inner
    }

    /// Another fault, with the same spans.
    pub fn with_fault<T>(self, fault: T) -> WithSpan<T>
    where
        E: Drop,
        ensures { result ≡ fault }
    {
        WithSpan {
            inner: fault,
            spans: self.spans,
        }
    }

    /// The fault as one of another type, with the same spans.
    pub fn into_other<T: From<E>>(self) -> WithSpan<T>
        ensures { T.from_gives self result }
    {
        WithSpan {
            inner: T::from(self.inner),
            spans: self.spans,
        }
    }

    /// The spans, in the order in which they were added.
    pub fn spans(&self) -> &[Span] {
        self.spans.as_slice()
    }
}

impl<E: PartialEq> PartialEq for WithSpan<E> {
    ghost eq = { λ a b. E.eq a b };

    ghost laws = { E.laws };

    fn eq(&self, other: &Self) -> bool {
        self.inner == other.inner
    }
}

/// Writes what the fault writes, without its spans.
impl<E: fmt::Display> fmt::Display for WithSpan<E> {
    ghost output = { λ w. E.output w };

    fn fmt<W: fmt::Write>(&self, f: &mut fmt::Formatter<W>) -> fmt::Result {
        self.inner.fmt(f)
    }
}

impl<E: Error> Error for WithSpan<E> {}

/// Why a call failed: a fault in its input, or out of memory.
#[derive(PartialEq, Debug, Drop)]
pub enum Refusal<E> {
    Fault(WithSpan<E>),
    Memory,
}

impl<E> From<AllocError> for Refusal<E> {
    ghost from_gives = { λ _ e. e ≡ Memory };

    fn from(_e: AllocError) -> Refusal<E> {
        Refusal::Memory
    }
}

impl<E, T: Drop> From<AllocFailed<T>> for Refusal<E> {
    ghost from_gives = { λ _ e. e ≡ Memory };

    fn from(_e: AllocFailed<T>) -> Refusal<E> {
        Refusal::Memory
    }
}

/// Writes what the fault writes, or `Memory`.
impl<E: fmt::Display> fmt::Display for Refusal<E> {
    fn fmt<W: fmt::Write>(&self, f: &mut fmt::Formatter<W>) -> fmt::Result {
        match self {
            Refusal::Fault(fault) => fault.fmt(f),
            Refusal::Memory => f.write_str("Memory"),
        }
    }
}

impl<E: Error> Error for Refusal<E> {}
