//! The parts of types that hold no handle: scalars, formats of images, bindings, built-ins, stages and names (naga 30.0.1's
//! `ir`). Users import these from `naga_below`.
#![tactic(auto)]

pub mod bindings;
pub mod built_in;
pub mod images;
pub mod name;
pub mod scalars;
pub mod stage;

pub use crate::bindings::{Binding, Interpolation, Sampling};
pub use crate::built_in::BuiltIn;
pub use crate::images::{ImageDimension, StorageFormat};
pub use crate::name::{Name, clone_name};
pub use crate::scalars::{Scalar, ScalarKind, VectorSize};
pub use crate::stage::ShaderStage;
