//! Reads a JSON text as a flat list of nodes, whose values are read where they lie.
//! Part of `naga_judge`; no promise to users.
#![tactic(auto)]

mod check;
mod fields;
mod items;
mod node;
mod number;
mod step;
mod tree;

pub use crate::items::Items;
pub use crate::node::Node;
pub use crate::step::Step;
pub use crate::tree::{TextError, Tree, read_tree};
