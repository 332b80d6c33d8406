//! One module for all rows, and what is known of it. All that its handles name is there, and it is accepted.

use crate::tests::parts::{NOWHERE, add_type, drop_module, made};
use crate::tests::rows::{KILLING, RESTING, Row, function};
use bitflags::Flags;
use naga_below::{
    AddressSpace, Arena, Binding, BuiltIn, EntryPoint, Function, FunctionInfo, GlobalVariable,
    Handle, MemoryDecorations, MeshOutputTopology, MeshStageInfo, Module, ModuleInfo,
    ResourceBinding, Scalar, Sequence, ShaderStages, SpecialTypes, StructMember, Type, TypeInfo,
    TypeInner, UniqueArena, VectorSize,
};
use std::process::Abort;

// The types of the module.
pub(crate) const U32: u32 = 0;

/// A vector of three u32.
const COUNTS: u32 = 1;

/// A vector of four f32, which ray descriptors are.
pub(crate) const COLOR: u32 = 2;

/// Acceleration structures that return vertices, and that don't.
const RETURNING: u32 = 3;

const SILENT: u32 = 4;

/// What is put out of a vertex, Position, and of a primitive, the indices of a triangle.
const VERTEX: u32 = 5;

const FACE: u32 = 6;

pub(crate) const TYPES: usize = 7;

// Its globals.
/// A u32 in the memory of a work group.
const OUTPUT: u32 = 0;

/// A task payload of four bytes.
pub(crate) const PAYLOAD: u32 = 1;

pub(crate) const IMMEDIATE: u32 = 2;

pub(crate) const OTHER_IMMEDIATE: u32 = 3;

/// Two uniforms with one binding.
pub(crate) const UNIFORM: u32 = 4;

pub(crate) const TWIN: u32 = 5;

pub(crate) const STRUCTURE: u32 = 6;

pub(crate) const SILENT_STRUCTURE: u32 = 7;

/// Ray payloads of u32 and of four f32.
pub(crate) const RAY_PAYLOAD: u32 = 8;

pub(crate) const OTHER_RAY_PAYLOAD: u32 = 9;

pub(crate) const GLOBALS: usize = 10;

// Its functions: one whose body is a Kill, and one whose body is empty.
pub(crate) const KILLS: u32 = 0;

pub(crate) const RESTS: u32 = 1;

/// The space, the type and the binding of each global.
static VARIABLES: [(AddressSpace, u32, Option<u32>); GLOBALS] = [
    (AddressSpace::WorkGroup, U32, None),
    (AddressSpace::TaskPayload, U32, None),
    (AddressSpace::Immediate, U32, None),
    (AddressSpace::Immediate, U32, None),
    (AddressSpace::Uniform, U32, Some(0)),
    (AddressSpace::Uniform, U32, Some(0)),
    (AddressSpace::Handle, RETURNING, Some(1)),
    (AddressSpace::Handle, SILENT, Some(2)),
    (AddressSpace::RayPayload, U32, None),
    (AddressSpace::RayPayload, COLOR, None),
];

/// A struct of one member, which is this built-in.
fn structure(rt: &(impl Abort + AllocGlobal), ty: u32, built_in: BuiltIn) -> TypeInner {
    let mut members = Sequence::new(rt.alloc());
    let member = StructMember {
        name: None,
        ty: Handle::new(ty),
        binding: Some(Binding::BuiltIn(built_in)),
        offset: 0,
    };
    made(rt, members.push(member));
    TypeInner::Struct { members, span: 16 }
}

fn vector(size: VectorSize, scalar: Scalar) -> TypeInner {
    TypeInner::Vector { size, scalar }
}

/// The type with this number.
fn type_at(rt: &(impl Abort + AllocGlobal), index: u32) -> TypeInner {
    match index {
        U32 => TypeInner::Scalar(Scalar::U32),
        COUNTS => vector(VectorSize::Tri, Scalar::U32),
        COLOR => vector(VectorSize::Quad, Scalar::F32),
        RETURNING | SILENT => TypeInner::AccelerationStructure {
            vertex_return: index == RETURNING,
        },
        VERTEX => structure(rt, COLOR, BuiltIn::Position { invariant: false }),
        _ => structure(rt, COUNTS, BuiltIn::TriangleIndices),
    }
}

fn types_of(rt: &(impl Abort + AllocGlobal)) -> UniqueArena<Type> {
    let mut types = UniqueArena::new(rt.alloc());
    for index in 0..=FACE {
        add_type(rt, &mut types, type_at(rt, index));
    }
    types
}

/// A global in a space, of a type, with a binding in group 0 or none.
pub(crate) fn global(space: AddressSpace, ty: u32, binding: Option<u32>) -> GlobalVariable {
    GlobalVariable {
        space,
        binding: match binding {
            Some(binding) => Some(ResourceBinding { group: 0, binding }),
            None => None,
        },
        ty: Handle::new(ty),
        init: None,
        memory_decorations: MemoryDecorations::empty(),
    }
}

fn globals_of(rt: &(impl Abort + AllocGlobal)) -> Arena<GlobalVariable> {
    let mut globals = Arena::new(rt.alloc());
    for (space, ty, binding) in &VARIABLES {
        holds!(rt; !globals.is_full());
        made(rt, globals.append(global(*space, *ty, *binding), NOWHERE));
    }
    globals
}

fn add_function(rt: &(impl Abort + AllocGlobal), functions: &mut Arena<Function>, row: &Row) {
    holds!(rt; !functions.is_full());
    made(rt, functions.append(function(rt, row), NOWHERE));
}

fn functions_of(rt: &(impl Abort + AllocGlobal)) -> Arena<Function> {
    let mut functions = Arena::new(rt.alloc());
    add_function(rt, &mut functions, &KILLING);
    add_function(rt, &mut functions, &RESTING);
    functions
}

/// The module, with these entry points.
pub(crate) fn module(
    rt: &(impl Abort + AllocGlobal),
    entry_points: Sequence<EntryPoint>,
) -> Module {
    let alloc = rt.alloc();
    Module {
        types: types_of(rt),
        special_types: SpecialTypes {
            ray_desc: Some(Handle::new(COLOR)),
        },
        constants: Arena::new(alloc),
        overrides: Arena::new(alloc),
        global_variables: globals_of(rt),
        global_expressions: Arena::new(alloc),
        functions: functions_of(rt),
        entry_points,
    }
}

/// The infos of the functions, which may run at these stages.
pub(crate) fn infos_of(rt: &(impl Abort + AllocGlobal), stages: [ShaderStages; 2]) -> ModuleInfo {
    let mut infos = ModuleInfo::new(rt.alloc());
    for available_stages in stages {
        let info = FunctionInfo {
            expression_types: Sequence::new(rt.alloc()),
            global_uses: Sequence::new(rt.alloc()),
            available_stages,
            dual_source_blending: false,
        };
        made(rt, infos.functions.push(info));
    }
    infos
}

/// The module and the infos of its functions, with the stages with which these are judged.
#[derive(Drop)]
pub(crate) struct Bench {
    pub module: Module,
    pub infos: ModuleInfo,
}

/// Drops a bench, as [`drop_module`] does a module.
pub(crate) fn drop_bench(bench: Bench) {
    let Bench { module, infos } = bench;
    drop_module(module);
    drop(infos);
}

pub(crate) fn make_bench(rt: &(impl Abort + AllocGlobal)) -> Bench {
    Bench {
        module: module(rt, Sequence::new(rt.alloc())),
        infos: infos_of(rt, [ShaderStages::FRAGMENT, ShaderStages::ALL]),
    }
}

/// An info for each type of the module.
pub(crate) fn infos_of_types(rt: &(impl Abort + AllocGlobal), info: TypeInfo) -> Vec<TypeInfo> {
    made(rt, vec![in rt.alloc(); info; TYPES])
}

/// Triangles of three vertices, which is what the type of their output implies too.
pub(crate) fn triangles() -> MeshStageInfo {
    MeshStageInfo {
        topology: MeshOutputTopology::Triangles,
        max_vertices: 3,
        max_vertices_override: None,
        max_primitives: 1,
        max_primitives_override: None,
        vertex_output_type: Handle::new(VERTEX),
        primitive_output_type: Handle::new(FACE),
        output_variable: Handle::new(OUTPUT),
    }
}
