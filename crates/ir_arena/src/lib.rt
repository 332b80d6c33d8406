//! Handles, arenas, spans, and lists that contracts compare: naga 30.0.1's `arena` and `span`.
//! Users import these from `naga_below`.
#![tactic(auto)]

pub mod arena;
pub mod duplicate;
pub mod handle;
pub mod positions;
pub mod range;
mod refused;
pub mod sequence;
pub mod span;
pub mod tag;

pub use crate::arena::{Arena, MAX_LEN};
pub use crate::duplicate::Duplicate;
pub use crate::handle::{Handle, Tagged};
pub use crate::range::Range;
pub use crate::refused::Refused;
pub use crate::sequence::Sequence;
pub use crate::span::{Refusal, Span, WithSpan};
