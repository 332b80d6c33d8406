//! What the type of a mesh shader's output variable implies.

ghost use Rattle.std.specs.Prelude.{◌≡◌, option_and_then};
ghost use Rattle.ir_types.specs.Types.{inner_at};
ghost use Rattle.std.specs.Option.{option_copied};
ghost use Rattle.naga_layers.specs.Typed.Mesh.{no_outputs, is_u32, items_of, role_of, role_of_binding, with_vertex_count, with_primitive_count, with_vertices, with_primitives, with_output, outputs_from, topology_role, topology_of_binding, topology_among, topology_in, implied_of, wrong, right, analysis_of, analysis_in, type_of_global, mesh_analysis};

use ir_arena::handle::Handle;
use ir_arena::span::WithSpan;
use ir_arena::tag;
use ir_errors::mesh::MeshFault;
use ir_facts::proc::mesh::MeshAnalysis;
use ir_leaves::bindings::Binding;
use ir_leaves::built_in::BuiltIn;
use ir_leaves::scalars::Scalar;
use ir_module::module::{MeshOutputTopology, MeshStageInfo, Module};
use ir_types::type_methods::inner_at;
use ir_types::types::{ArraySize, StructMember, Type, TypeInner};
use layer_shapes::shapes::is_same_scalar;
use std::alloc::Global;

/// What a member of the output variable's struct is.
#[derive(Clone, Copy)]
pub(crate) enum Role {
    VertexCount,
    PrimitiveCount,
    Vertices,
    Primitives,
}

/// An array of vertices or of primitives: of this type, and at most so many; an override stands in for the number.
#[derive(Clone, Copy)]
pub(crate) struct MeshItems {
    pub base: Handle<tag::Type>,
    pub max: u32,
    pub max_override: Option<Handle<tag::Override>>,
}

/// What is found among the members.
#[derive(Clone, Copy)]
pub(crate) struct Outputs {
    pub has_vertex_count: bool,
    pub has_primitive_count: bool,
    pub vertices: Option<MeshItems>,
    pub primitives: Option<MeshItems>,
}

/// Before the first member.
fn no_outputs() -> Outputs
    ensures { result ≡ no_outputs }
{
    Outputs {
        has_vertex_count: false,
        has_primitive_count: false,
        vertices: None,
        primitives: None,
    }
}

/// Whether the type of a member is u32.
fn is_u32(inner: Option<&TypeInner>) -> bool
    ensures { result ≡ is_u32 (option_copied inner.entry) }
{
    match inner {
        Some(TypeInner::Scalar(scalar)) => is_same_scalar(*scalar, Scalar::U32),
        _ => false,
    }
}

/// The items of an array of a size that is known when the pipeline is made.
fn items_of(inner: &TypeInner) -> Option<MeshItems>
    ensures { result ≡ items_of inner.now }
{
    match inner {
        TypeInner::Array { base, size, .. } => match size {
            ArraySize::Constant(count) => Some(MeshItems {
                base: *base,
                max: count.get(),
                max_override: None,
            }),
            ArraySize::Pending(handle) => Some(MeshItems {
                base: *base,
                max: 0,
                max_override: Some(*handle),
            }),
            ArraySize::Dynamic => None,
        },
        _ => None,
    }
}

/// What a member with this built-in is.
fn role_of(built_in: BuiltIn) -> Option<Role>
    ensures { result ≡ role_of built_in }
{
    match built_in {
        BuiltIn::VertexCount => Some(Role::VertexCount),
        BuiltIn::PrimitiveCount => Some(Role::PrimitiveCount),
        BuiltIn::Vertices => Some(Role::Vertices),
        BuiltIn::Primitives => Some(Role::Primitives),
        _ => None,
    }
}

/// What a member with this binding is.
fn role_of_binding(binding: Option<Binding>) -> Option<Role>
    ensures { result ≡ role_of_binding binding }
{
    match binding {
        Some(Binding::BuiltIn(built_in)) => role_of(built_in),
        _ => None,
    }
}

/// The items of the type that a member has.
fn items_at(types: &[Type], ty: Handle<tag::Type>) -> Option<MeshItems>
    ensures { result ≡ option_and_then items_of (inner_at types.now ty) }
{
    match inner_at(types, ty) {
        Some(inner) => items_of(inner),
        None => None,
    }
}

/// With a number of vertices, of this type.
fn with_vertex_count(outputs: Outputs, fits: bool) -> Option<Outputs>
    ensures { result ≡ with_vertex_count outputs fits }
{
    if fits && !outputs.has_vertex_count {
        Some(Outputs {
            has_vertex_count: true,
            ..outputs
        })
    } else {
        None
    }
}

/// With a number of primitives, of this type.
fn with_primitive_count(outputs: Outputs, fits: bool) -> Option<Outputs>
    ensures { result ≡ with_primitive_count outputs fits }
{
    if fits && !outputs.has_primitive_count {
        Some(Outputs {
            has_primitive_count: true,
            ..outputs
        })
    } else {
        None
    }
}

/// With vertices.
fn with_vertices(outputs: Outputs, items: Option<MeshItems>) -> Option<Outputs>
    ensures { result ≡ with_vertices outputs items }
{
    if items.is_some() && outputs.vertices.is_none() {
        Some(Outputs {
            vertices: items,
            ..outputs
        })
    } else {
        None
    }
}

/// With primitives.
fn with_primitives(outputs: Outputs, items: Option<MeshItems>) -> Option<Outputs>
    ensures { result ≡ with_primitives outputs items }
{
    if items.is_some() && outputs.primitives.is_none() {
        Some(Outputs {
            primitives: items,
            ..outputs
        })
    } else {
        None
    }
}

/// With one member more; `None` where it isn't one of a mesh's output, or there already.
fn with_output(types: &[Type], outputs: Outputs, member: &StructMember) -> Option<Outputs>
    ensures { result ≡ with_output types.now outputs member.now }
{
    match role_of_binding(member.binding) {
        Some(Role::VertexCount) => with_vertex_count(outputs, is_u32(inner_at(types, member.ty))),
        Some(Role::PrimitiveCount) => with_primitive_count(
            outputs,
            is_u32(inner_at(types, member.ty)),
        ),
        Some(Role::Vertices) => with_vertices(outputs, items_at(types, member.ty)),
        Some(Role::Primitives) => with_primitives(outputs, items_at(types, member.ty)),
        None => None,
    }
}

/// What all members are.
#[tactic(auto, unfolding(crate::specs::Typed::Mesh::outputs_from))]
fn outputs_of(types: &[Type], members: &[StructMember]) -> Option<Outputs>
    ensures { result ≡ outputs_from types.now no_outputs members.now }
{
    let mut outputs = no_outputs();
    for member in members {
        outputs = with_output(types, outputs, member)?;
    }
    Some(outputs)
}

/// The topology that a built-in of a primitive says.
fn topology_role(built_in: BuiltIn) -> Option<MeshOutputTopology>
    ensures { result ≡ topology_role built_in }
{
    match built_in {
        BuiltIn::PointIndex => Some(MeshOutputTopology::Points),
        BuiltIn::LineIndices => Some(MeshOutputTopology::Lines),
        BuiltIn::TriangleIndices => Some(MeshOutputTopology::Triangles),
        _ => None,
    }
}

/// The topology that a binding says.
fn topology_of_binding(binding: Option<Binding>) -> Option<MeshOutputTopology>
    ensures { result ≡ topology_of_binding binding }
{
    match binding {
        Some(Binding::BuiltIn(built_in)) => topology_role(built_in),
        _ => None,
    }
}

/// The topology that the first of the members says which says one.
#[tactic(auto, unfolding(crate::specs::Typed::Mesh::topology_among))]
fn topology_among(members: &[StructMember]) -> Option<MeshOutputTopology>
    ensures { result ≡ topology_among members.now }
{
    for member in members {
        if let Some(topology) = topology_of_binding(member.binding) {
            return Some(topology);
        }
    }
    None
}

/// The topology of primitives of a type.
fn topology_of(types: &[Type], ty: Handle<tag::Type>) -> Option<MeshOutputTopology>
    ensures { result ≡ topology_in (inner_at types.now ty) }
{
    match inner_at(types, ty) {
        Some(TypeInner::Struct { members, .. }) => topology_among(members.as_slice()),
        _ => None,
    }
}

/// What is implied by the members and the topology of the primitives.
fn implied_of(
    output: Handle<tag::GlobalVariable>,
    topology: MeshOutputTopology,
    vertices: &MeshItems,
    primitives: &MeshItems,
) -> MeshStageInfo
    ensures { result ≡ implied_of output topology vertices.now primitives.now }
{
    MeshStageInfo {
        topology,
        max_vertices: vertices.max,
        max_vertices_override: None,
        max_primitives: primitives.max,
        max_primitives_override: None,
        vertex_output_type: vertices.base,
        primitive_output_type: primitives.base,
        output_variable: output,
    }
}

/// The analysis of a type that is wrong: nothing is implied.
fn wrong(alloc: Global, output: Handle<tag::GlobalVariable>, fault: MeshFault) -> MeshAnalysis
    ensures { result ≡ wrong output fault }
{
    let nothing = MeshItems {
        base: Handle::new(0),
        max: 0,
        max_override: None,
    };
    MeshAnalysis {
        implied: implied_of(output, MeshOutputTopology::Points, &nothing, &nothing),
        overrides: [None, None],
        fault: Some(WithSpan::new(alloc, fault)),
    }
}

/// The analysis where vertices and primitives are there, and both numbers.
fn right(
    output: Handle<tag::GlobalVariable>,
    topology: MeshOutputTopology,
    vertices: &MeshItems,
    primitives: &MeshItems,
) -> MeshAnalysis
    ensures { result ≡ right output topology vertices.now primitives.now }
{
    MeshAnalysis {
        implied: implied_of(output, topology, vertices, primitives),
        overrides: [vertices.max_override, primitives.max_override],
        fault: None,
    }
}

/// The analysis of what all members are.
fn analysis_of(
    alloc: Global,
    types: &[Type],
    output: Handle<tag::GlobalVariable>,
    outputs: &Outputs,
) -> MeshAnalysis
    ensures { result ≡ analysis_of types.now output outputs.now }
{
    if !outputs.has_vertex_count || !outputs.has_primitive_count {
        return wrong(alloc, output, MeshFault::OutputType);
    }
    let Some(vertices) = &outputs.vertices else {
        return wrong(alloc, output, MeshFault::OutputType);
    };
    let Some(primitives) = &outputs.primitives else {
        return wrong(alloc, output, MeshFault::OutputType);
    };
    match topology_of(types, primitives.base) {
        Some(topology) => right(output, topology, vertices, primitives),
        None => wrong(alloc, output, MeshFault::OutputType),
    }
}

/// The analysis of an output variable of this type.
fn analysis_in(
    alloc: Global,
    types: &[Type],
    output: Handle<tag::GlobalVariable>,
    inner: Option<&TypeInner>,
) -> MeshAnalysis
    ensures { result ≡ analysis_in types.now output (option_copied inner.entry) }
{
    match inner {
        Some(TypeInner::Struct { members, .. }) => match outputs_of(types, members.as_slice()) {
            Some(outputs) => analysis_of(alloc, types, output, &outputs),
            None => wrong(alloc, output, MeshFault::OutputField),
        },
        _ => wrong(alloc, output, MeshFault::OutputType),
    }
}

/// The type of a global.
fn type_of_global(module: &Module, output: Handle<tag::GlobalVariable>) -> Option<&TypeInner>
    ensures { option_copied result ≡ type_of_global «module».now output }
{
    match module.global_variables.as_slice().get(output.index()) {
        Some(global) => inner_at(module.types.as_slice(), global.ty),
        None => None,
    }
}

/// What the type of a global implies as the output variable of a mesh shader.
pub(crate) fn mesh_analysis(
    alloc: Global,
    module: &Module,
    output: Handle<tag::GlobalVariable>,
) -> MeshAnalysis
    ensures { result ≡ mesh_analysis «module».now output }
{
    analysis_in(
        alloc,
        module.types.as_slice(),
        output,
        type_of_global(module, output),
    )
}
