//! The layer of recorded facts, asked as `check_module` doesn't: of an expression of a function that has an error, and where an
//! analysis or a size is missing.

use crate::tests::layers::plain::settings;
use crate::tests::layers::{LITERAL, expect_kinds, function_of};
use crate::tests::{made, module_of};
use bitflags::Flags;
use ir_arena::{Handle, Refusal, Sequence};
use ir_errors::{ExpressionError, MeshFault};
use ir_facts::{Below, FunctionInfo, MeshAnalysis, ModuleInfo};
use ir_flags::ShaderStages;
use ir_leaves::Scalar;
use ir_module::module::drop_module;
use ir_module::{Function, MeshOutputTopology, MeshStageInfo, Module};
use ir_types::TypeInner;
use naga_layers::{Facts, FunctionFact, LowerFunctionError, MeshAnalysisFact, Recorded};
use std::alloc::Global;
use std::process::Abort;

/// What is known of a mesh shader's output variable, with this fault.
fn analysis(fault: Option<MeshFault>) -> MeshAnalysisFact {
    MeshAnalysisFact {
        implied: MeshStageInfo {
            topology: MeshOutputTopology::Lines,
            max_vertices: 4,
            max_vertices_override: None,
            max_primitives: 2,
            max_primitives_override: None,
            vertex_output_type: Handle::new(0),
            primitive_output_type: Handle::new(0),
            output_variable: Handle::new(0),
        },
        overrides: [None, Some(Handle::new(6))],
        fault,
    }
}

/// The third global's output has a member of a wrong type; nothing is known of the second. The second type's size is known. The
/// first entry point has an error.
fn fill(rt: &impl Abort, facts: &mut Facts) {
    made(rt, facts.mesh_analyses.push(Some(analysis(None))));
    made(rt, facts.mesh_analyses.push(None));
    let fault = Some(MeshFault::OutputField);
    made(rt, facts.mesh_analyses.push(Some(analysis(fault))));
    made(rt, facts.sizes.push(None));
    made(rt, facts.sizes.push(Some(12)));
    let error = LowerFunctionError::InvalidMeshFunctionCall(Handle::new(0));
    made(rt, facts.entry_points.push(FunctionFact::Error(error)));
}

/// What is answered of a global: the fault, and the second override.
#[derive(Clone, Copy)]
struct Mesh {
    global: u32,
    fault: Option<MeshFault>,
    primitives: Option<u32>,
}

/// Whether an answer is that.
fn is_found(found: &MeshAnalysis, mesh: &Mesh) -> bool {
    let fault = match &found.fault {
        Some(fault) => Some(*fault.as_inner()),
        None => None,
    };
    let primitives = match found.overrides[1] {
        Some(handle) => Some(handle.index() as u32),
        None => None,
    };
    fault == mesh.fault && primitives == mesh.primitives
}

/// A global has this answer.
fn expect_mesh(rt: &(impl Abort + AllocGlobal), recorded: &Recorded, module: &Module, mesh: &Mesh) {
    let output = Handle::new(mesh.global);
    let answer = recorded.analyze_mesh_shader_info(rt.alloc(), module, output);
    let found = made(rt, answer);
    let is_found = is_found(&found, mesh);
    drop(found);
    holds!(rt; is_found);
}

/// The answers where those are the facts.
static MESHES: [Mesh; 4] = [
    Mesh {
        global: 0,
        fault: None,
        primitives: Some(6),
    },
    Mesh {
        global: 1,
        fault: Some(MeshFault::OutputType),
        primitives: None,
    },
    Mesh {
        global: 2,
        fault: Some(MeshFault::OutputField),
        primitives: Some(6),
    },
    Mesh {
        global: 3,
        fault: Some(MeshFault::OutputType),
        primitives: None,
    },
];

/// The sizes there.
static SIZES: [(u32, Option<u32>); 3] = [(0, None), (1, Some(12)), (2, None)];

/// The answers and the sizes are those.
fn expect_meshes(rt: &(impl Abort + AllocGlobal), recorded: &Recorded, module: &Module) {
    for mesh in &MESHES {
        expect_mesh(rt, recorded, module, mesh);
    }
    for &(ty, size) in &SIZES {
        holds!(rt; recorded.type_size(module, Handle::new(ty)) == size);
    }
}

/// The info of a function of nothing.
fn empty_info(alloc: Global) -> FunctionInfo {
    FunctionInfo {
        expression_types: Sequence::new(alloc),
        global_uses: Sequence::new(alloc),
        available_stages: ShaderStages::ALL,
        dual_source_blending: false,
    }
}

/// What is answered of the first expression.
fn stages_of(
    rt: &(impl Abort + AllocGlobal),
    recorded: &Recorded,
    fun: &Function,
    module: &Module,
) -> Result<ShaderStages, Refusal<ExpressionError>> {
    let kinds = made(rt, recorded.kinds(rt.alloc(), &fun.expressions));
    let info = empty_info(rt.alloc());
    let infos = ModuleInfo::new(rt.alloc());
    let first = Handle::new(0);
    let answer = recorded.validate_expression(
        rt.alloc(),
        settings(),
        first,
        fun,
        module,
        &info,
        &infos,
        &kinds,
    );
    drop(infos);
    drop(info);
    drop(kinds);
    answer
}

/// Of an expression of a function that has an error it is said that it has none.
fn has_no_stages(answer: &Result<ShaderStages, Refusal<ExpressionError>>) -> bool {
    match answer {
        Err(Refusal::Fault(fault)) => matches!(fault.as_inner(), ExpressionError::Lower(0)),
        _ => false,
    }
}

/// Asks of a function of one literal.
fn ask(rt: &(impl Abort + AllocGlobal), recorded: &Recorded, module: &Module) {
    let fun = function_of(rt, LITERAL);
    let answer = stages_of(rt, recorded, &fun, module);
    drop(fun);
    let has_none = has_no_stages(&answer);
    drop(answer);
    holds!(rt; has_none);
}

/// The module is of one type, without functions, so that the fact of the first entry point is asked for.
#[test]
fn facts(rt: HostRuntime) {
    let module = module_of(&rt, TypeInner::Scalar(Scalar::U32));
    let mut facts = Facts::new(rt.alloc());
    fill(&rt, &mut facts);
    let recorded = Recorded { facts };
    expect_meshes(&rt, &recorded, &module);
    ask(&rt, &recorded, &module);
    drop(recorded);
    drop_module(module);
}

#[test]
fn kinds(rt: HostRuntime) {
    let facts = Facts::new(rt.alloc());
    let recorded = Recorded { facts };
    expect_kinds(&rt, &recorded);
    drop(recorded);
}
