//! What an analysis of a mesh shader's output variable may find.

use std::fmt;

/// What is wrong with the output variable of a mesh shader.
#[derive(Clone, Copy, PartialEq, Eq, Debug)]
pub enum MeshFault {
    /// The type can't be that of a mesh shader's output.
    OutputType,
    /// A member of the type can't be an output of a mesh shader.
    OutputField,
}

/// Writes the variant's name.
impl fmt::Display for MeshFault {
    fn fmt<W: fmt::Write>(&self, f: &mut fmt::Formatter<W>) -> fmt::Result {
        f.write_str(match self {
            MeshFault::OutputType => "OutputType",
            MeshFault::OutputField => "OutputField",
        })
    }
}

impl std::error::Error for MeshFault {}
