//! Ranges of expression handles.

ghost use Rattle.std.specs.Prelude.{◌≡◌, ◌+◌, ◌<◌};
ghost use Rattle.ir_arena.specs.Limits.{max_len};

use crate::handle::Handle;
use crate::tag;

/// The expressions with the indices from `start` to `end`, without `end`.
///
/// A range need not be in order. In an accepted module it is, and ends within the function's expressions.
#[derive(Clone, Copy, PartialEq, Eq, Hash, Debug)]
pub struct Range {
    pub start: u32,
    pub end: u32,
}

impl Range {
    /// The expressions from `first` to `last`, both included.
    ///
    /// Each handle of an arena meets the condition on `last`. There is none on `first`. If it is the one after `last`,
    /// the range is empty. If it is later still, the range is out of order.
    pub fn new(first: Handle<tag::Expression>, last: Handle<tag::Expression>) -> Self
        requires { last < max_len }
        ensures { result ≡ record { start = first; end = last + 1 } }
    {
        Range {
            start: first.index() as u32,
            end: last.index() as u32 + 1,
        }
    }
}
