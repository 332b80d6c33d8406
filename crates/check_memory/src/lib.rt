//! The check lists of Store, Atomic, WorkGroupUniformLoad and CooperativeStore.
//! Part of the validator; no promise to users.
#![tactic(auto)]

pub mod atomic;
pub mod cooperative;
pub mod load;
pub mod store;
