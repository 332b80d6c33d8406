//! Bindings of inputs and outputs.

use crate::built_in::BuiltIn;

/// How a value is interpolated over a primitive.
#[derive(Clone, Copy, PartialEq, Eq, Hash, Debug)]
pub enum Interpolation {
    Perspective,
    Linear,
    Flat,
    PerVertex,
}

/// Where within a pixel an interpolated value is taken.
#[derive(Clone, Copy, PartialEq, Eq, Hash, Debug)]
pub enum Sampling {
    Center,
    Centroid,
    Sample,
    First,
    Either,
}

/// What an input or output of an entry point is bound to: an argument, a result, or a member of a struct.
///
/// `location` counts from 0. `blend_src` is the blend source, 0 or 1.
#[derive(Clone, Copy, PartialEq, Eq, Hash, Debug)]
pub enum Binding {
    BuiltIn(BuiltIn),
    Location {
        location: u32,
        interpolation: Option<Interpolation>,
        sampling: Option<Sampling>,
        blend_src: Option<u32>,
        per_primitive: bool,
    },
}
