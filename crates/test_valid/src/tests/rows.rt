//! Rows: an entry point of the module of `bench`, or a function after its own, what is reported of it, and what its ray traces
//! leave.

use crate::tests::bench::{
    COLOR, IMMEDIATE, KILLS, OTHER_IMMEDIATE, OTHER_RAY_PAYLOAD, PAYLOAD, RAY_PAYLOAD, RESTS,
    SILENT_STRUCTURE, STRUCTURE, TWIN, U32, UNIFORM, triangles,
};
use crate::tests::parts::{NOWHERE, made};
use naga_below::{
    Arena, Barrier, Block, EntryPoint, Expression, Function, FunctionArgument, Handle,
    LocalVariable, RayPipelineFunction, Sequence, ShaderStage, Span, Statement,
};
use naga_valid::{TraceRayVertexReturnState, TraceState};
use std::alloc::Global;
use std::process::Abort;

/// A statement of a function's body.
#[derive(Clone, Copy)]
pub(crate) enum Step {
    /// A break, which no loop is there for.
    Break,
    Kill,
    Call(u32),
    /// A barrier of the subgroup.
    Barrier,
    /// A ray: the expressions of its structure, its descriptor and its payload.
    Ray(u32, u32, u32),
}

/// What is judged. Its function names globals, which are its first expressions, and after them is a ray descriptor, as which
/// its local begins.
#[derive(Clone, Copy)]
pub(crate) struct Row {
    /// Whether it is the function alone, as one of the module.
    pub is_alone: bool,
    pub stage: ShaderStage,
    pub workgroup_size: [u32; 3],
    /// Whether triangles are put out.
    pub is_mesh: bool,
    pub payload: Option<u32>,
    pub names: &'static [u32],
    pub steps: &'static [Step],
    /// The type of its argument, which has no binding.
    pub takes: Option<u32>,
    /// What is reported of its refusal, or nothing where it is accepted.
    pub told: &'static str,
    /// The type of the payload that its ray traces leave.
    pub leaves: Option<u32>,
    /// How often the lower layer is asked for what may find no memory.
    pub calls: u32,
}

/// An entry point that does nothing, at a stage without work groups. The layer is asked of its function as a whole, of the kinds,
/// and of its one expression.
const AT_FRAGMENT: Row = Row {
    is_alone: false,
    stage: ShaderStage::Fragment,
    workgroup_size: [0, 0, 0],
    is_mesh: false,
    payload: None,
    names: &[],
    steps: &[],
    takes: None,
    told: "",
    leaves: None,
    calls: 3,
};

/// An entry point that does nothing, in groups of one invocation.
pub(crate) const AT_COMPUTE: Row = Row {
    stage: ShaderStage::Compute,
    workgroup_size: [1, 1, 1],
    ..AT_FRAGMENT
};

/// Its output variable is asked of too.
const AT_MESH: Row = Row {
    stage: ShaderStage::Mesh,
    is_mesh: true,
    calls: 4,
    ..AT_COMPUTE
};

/// An entry point that traces a ray, with three expressions.
pub(crate) const TRACING: Row = Row {
    stage: ShaderStage::RayGeneration,
    names: &[STRUCTURE, RAY_PAYLOAD],
    steps: &[Step::Ray(0, 2, 1), Step::Call(RESTS)],
    leaves: Some(U32),
    calls: 5,
    ..AT_FRAGMENT
};

/// The same by itself.
const TRACING_ALONE: Row = Row {
    is_alone: true,
    ..TRACING
};

/// The functions of the module.
pub(crate) const KILLING: Row = Row {
    steps: &[Step::Kill],
    ..AT_FRAGMENT
};

pub(crate) const RESTING: Row = AT_FRAGMENT;

/// A function whose second ray goes through a structure that returns no vertices.
const SILENCED: Row = Row {
    names: &[STRUCTURE, RAY_PAYLOAD, SILENT_STRUCTURE],
    steps: &[Step::Ray(0, 3, 1), Step::Ray(2, 3, 1), Step::Ray(0, 3, 1)],
    calls: 6,
    ..TRACING_ALONE
};

/// A function with a barrier of the subgroup, on a target that has none.
pub(crate) const WITH_BARRIER: Row = Row {
    is_alone: true,
    steps: &[Step::Barrier],
    told: "function [2]: 3..7: InvalidSubgroup(UnsupportedOperation(SubgroupOperationSet(BASIC))): a subgroup operation or a subgroup barrier is invalid: the target doesn't support these subgroup operations",
    ..AT_FRAGMENT
};

/// The entry points of the tests of whole modules.
pub(crate) const CALLING_KILL: Row = Row {
    steps: &[Step::Call(KILLS)],
    ..AT_FRAGMENT
};

pub(crate) const FORBIDDEN: Row = Row {
    steps: &[Step::Call(KILLS)],
    told: "entry point 0: ForbiddenStageOperations: the function, or one that it calls, does what this stage doesn't allow",
    ..AT_COMPUTE
};

/// The entry point that traces a ray, with a payload.
pub(crate) const REFUSED_TRACING: Row = Row {
    payload: Some(PAYLOAD),
    told: "entry point 0: UnexpectedTaskPayload: an entry point at this stage can't have a task payload",
    leaves: None,
    ..TRACING
};

/// A ray whose payload is its descriptor too.
pub(crate) const MISLED: Row = Row {
    steps: &[Step::Ray(0, 1, 1)],
    told: "function [2]: 3..7: InvalidRayDescriptor([1]): the expression is not of the module's ray descriptor type",
    leaves: None,
    ..TRACING_ALONE
};

/// All rows.
pub(crate) fn rows() -> &'static [Row] {
    &ROWS
}

/// What is refused before its function is judged, in it, and after it, by one step after the other; and what is accepted.
static ROWS: [Row; 16] = [
    Row {
        workgroup_size: [1, 0, 1],
        told: "entry point 0: OutOfRangeWorkgroupSize: a dimension of the workgroup size is 0, or more than 16384",
        calls: 0,
        ..AT_COMPUTE
    },
    Row {
        steps: &[Step::Ray(0, 2, 1), Step::Break],
        told: "function [2]: 4..8: BreakOutsideOfLoopOrSwitch: a break must be inside a loop body or a switch case, with no continuing block between",
        leaves: None,
        ..TRACING_ALONE
    },
    MISLED,
    Row {
        steps: &[Step::Ray(0, 2, 1), Step::Ray(0, 1, 1)],
        told: "entry point 0: 4..8: Function(InvalidRayDescriptor([1])): the function is invalid: the expression is not of the module's ray descriptor type",
        leaves: None,
        ..TRACING
    },
    REFUSED_TRACING,
    FORBIDDEN,
    Row {
        takes: Some(COLOR),
        told: "entry point 0: Argument(0, MissingBinding): an argument, counted from 0, is invalid: an argument or a result that is not a struct must have a binding",
        ..AT_FRAGMENT
    },
    Row {
        names: &[UNIFORM, TWIN],
        told: "entry point 0: BindingCollision([5]): the entry point uses an earlier global that has the binding of this one",
        calls: 5,
        ..AT_COMPUTE
    },
    Row {
        names: &[IMMEDIATE, OTHER_IMMEDIATE],
        told: "entry point 0: MoreThanOneImmediateUsed: the entry point uses two globals in `Immediate`",
        calls: 5,
        ..AT_MESH
    },
    AT_COMPUTE,
    AT_MESH,
    CALLING_KILL,
    TRACING,
    TRACING_ALONE,
    Row {
        names: &[STRUCTURE, OTHER_RAY_PAYLOAD],
        steps: &[Step::Ray(0, 2, 1)],
        leaves: Some(COLOR),
        ..TRACING_ALONE
    },
    SILENCED,
];

/// Where the statement with this number is.
fn place_of(number: u32) -> Span {
    Span {
        start: number.saturating_add(3),
        end: number.saturating_add(7),
    }
}

/// What no ray leaves.
pub(crate) const NOTHING: TraceState = TraceState {
    payload: None,
    vertex_return: TraceRayVertexReturnState::NoTraceRays,
};

/// What the ray traces of a row leave. Of three rays the second is the one that returns no vertices.
pub(crate) fn left_by(row: &Row) -> TraceState {
    let Some(payload) = row.leaves else {
        return NOTHING;
    };
    TraceState {
        payload: Some(Handle::new(payload)),
        vertex_return: if row.steps.len() == 3 {
            TraceRayVertexReturnState::NoVertexReturn(place_of(1))
        } else {
            TraceRayVertexReturnState::VertexReturn
        },
    }
}

fn statement(alloc: Global, step: Step) -> Statement {
    match step {
        Step::Break => Statement::Break,
        Step::Kill => Statement::Kill,
        Step::Barrier => Statement::ControlBarrier(Barrier::SUB_GROUP),
        Step::Call(function) => Statement::Call {
            function: Handle::new(function),
            arguments: Sequence::new(alloc),
            result: None,
        },
        Step::Ray(structure, descriptor, payload) => {
            Statement::RayPipelineFunction(RayPipelineFunction::TraceRay {
                acceleration_structure: Handle::new(structure),
                descriptor: Handle::new(descriptor),
                payload: Handle::new(payload),
            })
        }
    }
}

fn body_of(rt: &(impl Abort + AllocGlobal), steps: &[Step]) -> Block {
    let mut body = Block::new(rt.alloc());
    let mut number: u32 = 0;
    for step in steps {
        made(
            rt,
            body.push(statement(rt.alloc(), *step), place_of(number)),
        );
        number = number.saturating_add(1);
    }
    body
}

/// Appends an expression.
fn add(rt: &impl Abort, expressions: &mut Arena<Expression>, expression: Expression) {
    holds!(rt; !expressions.is_full());
    made(rt, expressions.append(expression, NOWHERE));
}

fn expressions_of(rt: &(impl Abort + AllocGlobal), names: &[u32]) -> Arena<Expression> {
    let mut expressions = Arena::new(rt.alloc());
    for name in names {
        let named = Expression::GlobalVariable(Handle::new(*name));
        add(rt, &mut expressions, named);
    }
    add(
        rt,
        &mut expressions,
        Expression::ZeroValue(Handle::new(COLOR)),
    );
    expressions
}

/// A local that begins as this expression.
fn locals_of(rt: &(impl Abort + AllocGlobal), init: u32) -> Arena<LocalVariable> {
    let mut locals = Arena::new(rt.alloc());
    let local = LocalVariable {
        name: None,
        ty: Handle::new(COLOR),
        init: Some(Handle::new(init)),
    };
    made(rt, locals.append(local, NOWHERE));
    locals
}

/// An argument of this type without a binding, if there is one.
fn arguments_of(rt: &(impl Abort + AllocGlobal), takes: Option<u32>) -> Sequence<FunctionArgument> {
    let mut arguments = Sequence::new(rt.alloc());
    if let Some(ty) = takes {
        let argument = FunctionArgument {
            name: None,
            ty: Handle::new(ty),
            binding: None,
        };
        made(rt, arguments.push(argument));
    }
    arguments
}

/// The function of a row.
pub(crate) fn function(rt: &(impl Abort + AllocGlobal), row: &Row) -> Function {
    let count = row.names.len();
    holds!(rt; count < 4);
    Function {
        arguments: arguments_of(rt, row.takes),
        result: None,
        local_variables: locals_of(rt, count as u32),
        expressions: expressions_of(rt, row.names),
        body: body_of(rt, row.steps),
    }
}

/// The entry point of a row.
pub(crate) fn entry_point(rt: &(impl Abort + AllocGlobal), row: &Row) -> EntryPoint {
    let mesh_info = if row.is_mesh { Some(triangles()) } else { None };
    let task_payload = match row.payload {
        Some(payload) => Some(Handle::new(payload)),
        None => None,
    };
    EntryPoint {
        stage: row.stage,
        early_depth_test: None,
        workgroup_size: row.workgroup_size,
        function: function(rt, row),
        mesh_info,
        task_payload,
    }
}
