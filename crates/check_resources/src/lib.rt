//! The check lists of ImageStore, ImageAtomic, RayQuery and TraceRay, and the state that ray traces leave.
//! Part of the validator; no promise to users.
#![tactic(auto)]

pub mod image;
pub mod image_atomic;
pub mod image_store;
pub mod ray_query;
pub mod ray_trace;
