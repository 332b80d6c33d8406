//! Shapes: the scalars, vectors and matrices that operators compute with, the products of two, and types by their handles.
//! Part of `naga_layers`; no promise to users.
#![tactic(auto)]

pub mod products;
pub mod resolutions;
pub mod shapes;
