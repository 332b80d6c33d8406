//! The sentences that no verdict has: of errors that are never made, and of the faults of a mesh. All others stand in
//! tools/documents/sentences.py.

use check_faults::Explain;
use ir_arena::Handle;
use ir_errors::{GlobalVariableError, MeshFault, VaryingError};
use std::process::Abort;

/// An error has this sentence.
fn expect_sentence<E: Explain + Drop>(rt: &impl Abort, error: E, sentence: &str) {
    holds!(rt; error.sentence() == sentence);
    drop(error);
}

/// An error of the two sources of a blend.
fn blend_error(index: usize) -> VaryingError {
    let ty = Handle::new(2);
    match index {
        0 => VaryingError::BindingCollisionBlendSrc { blend_src: 1 },
        1 => VaryingError::InvalidBlendSrcIndex {
            location: 1,
            blend_src: 1,
        },
        2 => VaryingError::IncompleteBlendSrcUsage {
            present_blend_src: 1,
        },
        3 => VaryingError::InvalidBlendSrcWithOtherBindings { location: 1 },
        _ => VaryingError::BlendSrcOutputTypeMismatch {
            blend_src_0_type: ty,
            blend_src_1_type: ty,
        },
    }
}

/// Their sentences.
static BLENDS: [&str; 5] = [
    "two members have this blend source",
    "a blend source must be at location 0, and must be 0 or 1",
    "only one of the two blend sources is there",
    "blend sources can't be combined with other locations",
    "the two blend sources are of different types",
];

#[test]
fn sentences_that_no_verdict_has(rt: HostRuntime) {
    let of_global = GlobalVariableError::InvalidBindingArray(Handle::new(2));
    expect_sentence(&rt, of_global, "the type can't be in a binding array");
    for (index, sentence) in BLENDS.iter().enumerate() {
        expect_sentence(&rt, blend_error(index), sentence);
    }
    let sentence = "the type can't be that of a mesh shader's output";
    expect_sentence(&rt, MeshFault::OutputType, sentence);
    let sentence = "a member of the type can't be an output of a mesh shader";
    expect_sentence(&rt, MeshFault::OutputField, sentence);
}
