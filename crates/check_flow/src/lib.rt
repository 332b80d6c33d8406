//! The check lists of Emit, If, Switch, Break, Continue, Return and Call, and of a Loop's break condition.
//! Part of the validator; no promise to users.
#![tactic(auto)]

pub mod call;
pub mod control;
pub mod emit;
pub mod switch;
mod value_set;
