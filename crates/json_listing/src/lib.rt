//! Listings of what was refused, for people: its declarations, expressions and statements, with the reason of the fault.
//! Part of `naga_judge`; no promise to users.
#![tactic(auto)]

mod body;
mod declarations;
mod kept;
pub mod listing;
mod marks;
mod why;
mod words;
