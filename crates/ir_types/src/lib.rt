//! The types of the IR, the arena that holds each type once, questions about types, and infos of types (naga 30.0.1's `ir`).
//! Users import these from `naga_below`.
#![tactic(auto)]

pub mod type_info;
pub mod type_methods;
pub mod types;
pub mod typifier;
pub mod unique_arena;

pub use crate::type_info::{Disalignment, ImmediateError, TypeInfo};
pub use crate::type_methods::{compare_types, type_tests_law};
pub use crate::types::{
    AddressSpace, ArraySize, ImageClass, Members, StructMember, Type, TypeInner,
};
pub use crate::typifier::TypeResolution;
pub use crate::unique_arena::{Identical, UniqueArena};
