//! What a function's ray traces leave for those of later functions.

use ir_arena::handle::Handle;
use ir_arena::span::Span;
use ir_arena::tag;

/// How the acceleration structures of the ray traces so far return vertices.
#[derive(Clone, Copy, PartialEq, Eq, Debug)]
pub enum TraceRayVertexReturnState {
    /// No ray was traced.
    NoTraceRays,
    /// Each had the flag.
    VertexReturn,
    /// One lacked it; where the last of these stood.
    NoVertexReturn(Span),
}

/// What the ray traces so far leave: the type of the payload that all must have, and whether vertices can be
/// returned.
#[derive(Clone, Copy, PartialEq, Eq, Debug)]
pub struct TraceState {
    pub payload: Option<Handle<tag::Type>>,
    pub vertex_return: TraceRayVertexReturnState,
}
