//! The analysis of the output variable of a mesh shader, by a lower layer.

ghost use Rattle.std.specs.Prelude.{◌≡◌, IfOk};

use ir_arena::handle::Handle;
use ir_arena::span::WithSpan;
use ir_arena::tag;
use ir_errors::mesh::MeshFault;
use ir_module::module::MeshStageInfo;
use std::alloc::{AllocError, Global};

/// What the type of a mesh shader's output variable implies. `overrides` are those of the maximum number of vertices
/// and of primitives.
#[derive(PartialEq, Debug, Drop)]
pub struct MeshAnalysis {
    pub implied: MeshStageInfo,
    pub overrides: [Option<Handle<tag::Override>>; 2],
    pub fault: Option<WithSpan<MeshFault>>,
}

impl MeshAnalysis {
    /// Clones the analysis, its fault with the same spans. An Err is out of memory.
    pub fn clone(&self, alloc: Global) -> Result<Self, AllocError>
        ensures { IfOk result (λ made. made ≡ self.now) }
    {
        Ok(MeshAnalysis {
            implied: self.implied,
            overrides: [self.overrides[0], self.overrides[1]],
            fault: clone_fault(alloc, &self.fault)?,
        })
    }
}

/// An equal fault with the same spans, if there is one.
fn clone_fault(
    alloc: Global,
    fault: &Option<WithSpan<MeshFault>>,
) -> Result<Option<WithSpan<MeshFault>>, AllocError>
    ensures { IfOk result (λ made. made ≡ fault.now) }
{
    match fault {
        Some(fault) => Ok(Some(clone_spans(alloc, fault)?)),
        None => Ok(None),
    }
}

/// An equal fault with the same spans.
fn clone_spans(
    alloc: Global,
    fault: &WithSpan<MeshFault>,
) -> Result<WithSpan<MeshFault>, AllocError>
    ensures { IfOk result (λ made. made ≡ fault.now) }
{
    let mut made = WithSpan::new(alloc, *fault.as_inner());
    for span in fault.spans() {
        made = made.with_span(*span)?;
    }
    Ok(made)
}
