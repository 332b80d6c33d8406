//! What of a function or of an entry point has a fault.

use crate::parts::{BoundSpot, Group, bounds_of, first_of, members_of, second_of};
use crate::statements::{ListedPosition, ListedStatement};
use check_faults::EntryPointError;
use ir_misfits::Shortage;
use ir_types::type_methods::{inner_at, is_struct};
use naga_below::{
    Capabilities, EntryPoint, Function, Handle, MeshStageInfo, Module, ShaderStage, Span,
    Statement, tag,
};
use naga_rules::{FunctionError, VaryingError};
use std::alloc::{AllocError, Global};

/// A field of an entry point.
#[derive(Clone, Copy, PartialEq)]
pub enum EntryPart {
    Stage,
    EarlyDepthTest,
    WorkgroupSize,
    MeshInfo,
    TaskPayload,
}

impl EntryPart {
    /// Its name in a document.
    pub fn name(self) -> &'static str {
        match self {
            EntryPart::Stage => "stage",
            EntryPart::EarlyDepthTest => "early_depth_test",
            EntryPart::WorkgroupSize => "workgroup_size",
            EntryPart::MeshInfo => "mesh_info",
            EntryPart::TaskPayload => "task_payload",
        }
    }
}

/// A field of what an entry point declares of a mesh.
#[derive(Clone, Copy)]
pub enum MeshField {
    Topology,
    VertexOutputType,
    PrimitiveOutputType,
    OutputVariable,
}

impl MeshField {
    /// Its name in a document.
    pub fn name(self) -> &'static str {
        match self {
            MeshField::Topology => "topology",
            MeshField::VertexOutputType => "vertex_output_type",
            MeshField::PrimitiveOutputType => "primitive_output_type",
            MeshField::OutputVariable => "output_variable",
        }
    }
}

/// What of a function, of an entry point or of the module has a fault.
#[derive(Clone, Copy)]
pub enum Spot {
    /// A statement of the body, or the break condition of a Loop.
    At(ListedPosition),
    Expression(Handle<tag::Expression>),
    Local(Handle<tag::LocalVariable>),
    /// An argument, counted from 0.
    Argument(usize),
    /// The function's result.
    Returned,
    /// A member of a struct, counted from 0.
    Member { ty: Handle<tag::Type>, index: usize },
    Global(Handle<tag::GlobalVariable>),
    /// A field of the entry point.
    Field(EntryPart),
    /// A field of the entry point's `mesh_info`.
    MeshField(MeshField),
    /// The facts about the function.
    Facts(Shortage),
    /// What doesn't fit.
    Misfit,
    /// The function or the entry point as a whole.
    Whole,
}

/// What of a function has a fault. `number` is that of the statement that has it, where one has.
pub(crate) fn spot_in_function(
    function: &Function,
    listed: &[ListedStatement<'_>],
    fault: &FunctionError,
    number: Option<usize>,
) -> Spot {
    match number {
        Some(number) => match listed.get(number) {
            Some(node) => Spot::At(position_of(&node.located.statement, number)),
            None => Spot::Whole,
        },
        None => declared_spot(function, fault),
    }
}

/// A fault of a Loop itself is one of its break condition, since a Loop has no other check of its own.
fn position_of(statement: &Statement, number: usize) -> ListedPosition {
    match statement {
        Statement::Loop { .. } => ListedPosition::BreakIf(number),
        _ => ListedPosition::Statement(number),
    }
}

/// What has a fault that no statement has.
fn declared_spot(function: &Function, fault: &FunctionError) -> Spot {
    match fault {
        FunctionError::Expression { handle, .. }
        | FunctionError::UnvisitedExpression(handle)
        | FunctionError::MissingRayQueryVertexReturn(handle)
        | FunctionError::NonUniformControlFlow(_, handle, _)
        | FunctionError::InvalidMeshFunctionCall(handle)
        | FunctionError::ConflictingMeshOutputTypes(_, handle)
        | FunctionError::ConflictingTaskPayloadVariables(_, handle)
        | FunctionError::InvalidMeshShaderOutputType(handle) => expression_spot(function, *handle),
        FunctionError::LocalVariable { handle, .. } => Spot::Local(*handle),
        FunctionError::InvalidArgumentType { index, .. }
        | FunctionError::InvalidArgumentPointerSpace { index, .. } => Spot::Argument(*index),
        FunctionError::PipelineInputRegularFunction { .. } => bound_argument(function),
        FunctionError::NonConstructibleReturnType | FunctionError::PipelineOutputRegularFunction =>
            Spot::Returned,
        _ => Spot::Whole,
    }
}

/// An expression, if the function has it. Facts may blame one that it lacks.
fn expression_spot(function: &Function, handle: Handle<tag::Expression>) -> Spot {
    if handle.index() < function.expressions.len() {
        Spot::Expression(handle)
    } else {
        Spot::Whole
    }
}

/// The first argument that has a binding.
fn bound_argument(function: &Function) -> Spot {
    for (index, argument) in function.arguments.as_slice().iter().enumerate() {
        if argument.binding.is_some() {
            return Spot::Argument(index);
        }
    }
    Spot::Whole
}

/// What of an entry point has a fault that its function doesn't have. An Err is out of memory.
pub(crate) fn spot_in_entry(
    alloc: Global,
    module: &Module,
    ep: &EntryPoint,
    fault: &EntryPointError,
) -> Result<Spot, AllocError> {
    match fault {
        EntryPointError::Argument(index, error) => argument_spot(
            alloc,
            module,
            ep,
            *index as usize,
            error,
        ),
        EntryPointError::Result(error) => returned_spot(alloc, module, ep, error),
        _ => Ok(field_spot(module, ep, fault)),
    }
}

/// What of an argument has a fault.
fn argument_spot(
    alloc: Global,
    module: &Module,
    ep: &EntryPoint,
    index: usize,
    fault: &VaryingError,
) -> Result<Spot, AllocError> {
    let own = Spot::Argument(index);
    let Some(argument) = ep.function.arguments.as_slice().get(index) else {
        return Ok(Spot::Whole);
    };
    if let VaryingError::MemberMissingBinding(member) = fault {
        return Ok(Spot::Member {
            ty: argument.ty,
            index: *member as usize,
        });
    }
    let group = bounds_of(alloc, module, ep, Group::Arguments(index))?;
    let bounds = bounds_of(alloc, module, ep, Group::Argument(index))?;
    Ok(bound_spot(group.as_slice(), bounds.as_slice(), fault).unwrap_or(own))
}

/// Of a group of inputs or outputs, what has a fault that says its location or its built-in: the second of two that have
/// the same, else the first of those that are checked.
fn bound_spot(group: &[BoundSpot], checked: &[BoundSpot], fault: &VaryingError) -> Option<Spot> {
    match fault {
        VaryingError::BindingCollision { .. } | VaryingError::DuplicateBuiltIn(_) => {
            second_of(group, fault)
        }
        _ => first_of(checked, fault),
    }
}

/// What of the result, of a mesh's outputs or of the early depth test has a fault.
fn returned_spot(
    alloc: Global,
    module: &Module,
    ep: &EntryPoint,
    fault: &VaryingError,
) -> Result<Spot, AllocError> {
    if is_early_test(ep, fault) {
        return Ok(Spot::Field(EntryPart::EarlyDepthTest));
    }
    if let Some(mesh) = &ep.mesh_info {
        let bounds = bounds_of(alloc, module, ep, Group::Mesh)?;
        let found = bound_spot(bounds.as_slice(), bounds.as_slice(), fault);
        return Ok(found.unwrap_or(mesh_spot(module, mesh, fault)));
    }
    let Some(returned) = &ep.function.result else {
        return Ok(Spot::Returned);
    };
    if let VaryingError::MemberMissingBinding(member) = fault {
        return Ok(Spot::Member {
            ty: returned.ty,
            index: *member as usize,
        });
    }
    let bounds = bounds_of(alloc, module, ep, Group::Returned)?;
    Ok(bound_spot(bounds.as_slice(), bounds.as_slice(), fault).unwrap_or(Spot::Returned))
}

/// Whether a fault is that an early depth test is asked for, and the target has none.
fn is_early_test(ep: &EntryPoint, fault: &VaryingError) -> bool {
    match fault {
        VaryingError::UnsupportedCapability(missing) => {
            ep.early_depth_test.is_some() && *missing == Capabilities::EARLY_DEPTH_TEST
        }
        _ => false,
    }
}

/// What of a mesh's outputs has a fault that says no location and no built-in.
fn mesh_spot(module: &Module, mesh: &MeshStageInfo, fault: &VaryingError) -> Spot {
    match fault {
        VaryingError::MissingPerPrimitive => Spot::MeshField(MeshField::PrimitiveOutputType),
        VaryingError::MemberMissingBinding(member) => {
            let index = *member as usize;
            let ty = match members_of(module, mesh.vertex_output_type).get(index) {
                Some(member) if member.binding.is_none() => mesh.vertex_output_type,
                _ => mesh.primitive_output_type,
            };
            Spot::Member { ty, index }
        }
        _ => Spot::Field(EntryPart::MeshInfo),
    }
}

/// What of an entry point has a fault of its own.
fn field_spot(module: &Module, ep: &EntryPoint, fault: &EntryPointError) -> Spot {
    match fault {
        EntryPointError::MissingVertexOutputPosition => match ep.stage {
            ShaderStage::Mesh => Spot::MeshField(MeshField::VertexOutputType),
            _ => Spot::Returned,
        },
        EntryPointError::UnexpectedEarlyDepthTest => Spot::Field(EntryPart::EarlyDepthTest),
        EntryPointError::UnexpectedWorkgroupSize | EntryPointError::OutOfRangeWorkgroupSize => {
            Spot::Field(EntryPart::WorkgroupSize)
        }
        EntryPointError::ForbiddenStageOperations
        | EntryPointError::RayPayloadInInvalidStage(_)
        | EntryPointError::IncomingRayPayloadInInvalidStage(_) => Spot::Field(EntryPart::Stage),
        EntryPointError::UnsupportedCapability(missing) => {
            if *missing == Capabilities::MESH_SHADER_POINT_TOPOLOGY {
                Spot::MeshField(MeshField::Topology)
            } else {
                Spot::Field(EntryPart::Stage)
            }
        }
        EntryPointError::InvalidGlobalUsage(global, _)
        | EntryPointError::BindingCollision(global) => Spot::Global(*global),
        EntryPointError::UnexpectedTaskPayload
        | EntryPointError::TaskPayloadWrongAddressSpace
        | EntryPointError::ExpectedTaskPayload
        | EntryPointError::WrongTaskPayloadUsed
        | EntryPointError::TaskPayloadTooSmall(_) => Spot::Field(EntryPart::TaskPayload),
        EntryPointError::WrongTaskShaderEntryResult
        | EntryPointError::UnexpectedMeshShaderEntryResult => Spot::Returned,
        _ => mesh_field_spot(module, ep, fault),
    }
}

/// What of a mesh's declaration has a fault.
fn mesh_field_spot(module: &Module, ep: &EntryPoint, fault: &EntryPointError) -> Spot {
    match fault {
        EntryPointError::ExpectedMeshShaderAttributes
        | EntryPointError::UnexpectedMeshShaderAttributes
        | EntryPointError::BadMeshOutputVariableType
        | EntryPointError::BadMeshOutputVariableField => Spot::Field(EntryPart::MeshInfo),
        EntryPointError::WrongMeshOutputAddressSpace => Spot::MeshField(MeshField::OutputVariable),
        EntryPointError::InvalidMeshPrimitiveOutputType => Spot::MeshField(
            MeshField::PrimitiveOutputType,
        ),
        EntryPointError::InvalidMeshOutputType => match &ep.mesh_info {
            Some(mesh) if is_struct(inner_at(module.types.as_slice(), mesh.vertex_output_type)) => {
                Spot::MeshField(MeshField::PrimitiveOutputType)
            }
            _ => Spot::MeshField(MeshField::VertexOutputType),
        },
        _ => Spot::Whole,
    }
}

/// The number that the first span of a fault is, in a module whose spans are numbers.
pub fn number_in(spans: &[Span]) -> Option<usize> {
    match spans.first() {
        Some(span) => Some(span.start as usize),
        None => None,
    }
}
