//! What the analysis of uniformity found. No check here reads it.

/// What needs uniform control flow: a number that no check reads.
#[derive(Clone, Copy, PartialEq, Eq, Debug)]
pub struct UniformityRequirements(pub u32);

/// What makes control flow non-uniform: a number that no check reads.
#[derive(Clone, Copy, PartialEq, Eq, Debug)]
pub struct UniformityDisruptor(pub u32);
