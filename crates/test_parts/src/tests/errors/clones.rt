//! The clone of an analysis keeps the place of its fault. (That it is equal is a clause.)

use crate::tests::made;
use ir_arena::{Handle, Span, WithSpan};
use ir_errors::MeshFault;
use ir_facts::MeshAnalysis;
use ir_module::{MeshOutputTopology, MeshStageInfo};
use std::process::Abort;

const PLACE: Span = Span { start: 3, end: 5 };

/// An analysis with a fault at a place.
fn faulty_analysis(rt: &(impl Abort + AllocGlobal)) -> MeshAnalysis {
    let fault = WithSpan::new(rt.alloc(), MeshFault::OutputField);
    MeshAnalysis {
        implied: MeshStageInfo {
            topology: MeshOutputTopology::Lines,
            max_vertices: 4,
            max_vertices_override: None,
            max_primitives: 2,
            max_primitives_override: Some(Handle::new(1)),
            vertex_output_type: Handle::new(2),
            primitive_output_type: Handle::new(3),
            output_variable: Handle::new(0),
        },
        overrides: [None, Some(Handle::new(6))],
        fault: Some(made(rt, fault.with_span(PLACE))),
    }
}

/// The fault is at the place.
fn expect_place(rt: &impl Abort, analysis: &MeshAnalysis) {
    let is_there = match &analysis.fault {
        Some(fault) => fault.spans() == [PLACE].as_slice(),
        None => false,
    };
    holds!(rt; is_there);
}

#[test]
fn an_analysis(rt: HostRuntime) {
    let analysis = faulty_analysis(&rt);
    let copy = made(&rt, analysis.clone(rt.alloc()));
    drop(analysis);
    expect_place(&rt, &copy);
    drop(copy);
}
