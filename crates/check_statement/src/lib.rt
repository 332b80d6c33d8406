//! One statement of any kind: its check list, its stages and what it leaves; and the definition of a function's judgement.
//! Part of the validator; no promise to users.
#![tactic(auto)]

pub mod rarer;
pub mod results;
mod stages;
pub mod state;
pub mod statement;
