//! Questions about expressions, and about the outputs of mesh shaders.

pub mod expression_kinds;
pub mod mesh;
