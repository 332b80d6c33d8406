//! Facts: what a lower layer knows of one module, in plain lists. `Recorded` of `naga_layers` answers them.

ghost use Rattle.std.specs.Prelude.{◌≡◌};
ghost use Rattle.ir_facts.specs.Facts.{no_facts, fault_of, analysis_of};

use crate::proc::mesh::MeshAnalysis;
use ir_arena::handle::Handle;
use ir_arena::sequence::Sequence;
use ir_arena::span::WithSpan;
use ir_arena::tag;
use ir_errors::analyzer::{UniformityDisruptor, UniformityRequirements};
use ir_errors::expression::ExpressionError;
use ir_errors::function::FunctionError;
use ir_errors::mesh::MeshFault;
use ir_flags::valid::{GlobalUse, ShaderStages};
use ir_module::module::MeshStageInfo;
use ir_types::typifier::TypeResolution;
use std::alloc::Global;

/// What a lower layer knows of a module. They are believed.
///
/// A list may have any length. `Recorded` of `naga_layers` says what a missing fact means. Surplus facts
/// aren't read.
#[derive(PartialEq, Debug, Drop)]
pub struct Facts {
    /// The size of each type in bytes, by its handle. None if it isn't known.
    pub sizes: Sequence<Option<u32>>,
    /// What each global variable implies as the output variable of a mesh shader, by its handle.
    pub mesh_analyses: Sequence<Option<MeshAnalysisFact>>,
    /// What is known of each function, by its handle.
    pub functions: Sequence<FunctionFact>,
    /// What is known of the function of each entry point, in their order.
    pub entry_points: Sequence<FunctionFact>,
}

impl Facts {
    /// No facts. It keeps the allocator.
    pub fn new(alloc: Global) -> Facts
        ensures { result ≡ no_facts }
    {
        Facts {
            sizes: Sequence::new(alloc),
            mesh_analyses: Sequence::new(alloc),
            functions: Sequence::new(alloc),
            entry_points: Sequence::new(alloc),
        }
    }
}

/// What is known of a function, or what is wrong with it.
#[derive(PartialEq, Debug, Drop)]
pub enum FunctionFact {
    Info(InfoFact),
    Error(LowerFunctionError),
}

/// What is known of a function: one type for each of its expressions, and one use for each global of the module.
#[derive(PartialEq, Debug, Drop)]
pub struct InfoFact {
    /// The type of each expression, by its handle. A struct is named by its handle and never given as a value.
    pub types: Sequence<TypeResolution>,
    /// How the function uses each global, by its handle.
    pub uses: Sequence<GlobalUse>,
    /// The stages in which the function may run, before its statements and expressions are counted.
    pub stages: ShaderStages,
    /// Whether the function outputs two blend sources.
    pub dual_source_blending: bool,
    /// The answer of the check of each expression, by its handle. It is read with EXPRESSIONS.
    pub expressions: Sequence<ExpressionFact>,
}

/// The stages that an expression may run in, or what is wrong with it.
#[derive(Clone, Copy, PartialEq, Debug)]
pub enum ExpressionFact {
    Stages(ShaderStages),
    Error(ExpressionError),
}

/// The errors of functions that a lower layer can report. Variants and fields are those of [`FunctionError`].
#[derive(Clone, Copy, PartialEq, Debug)]
pub enum LowerFunctionError {
    Expression {
        handle: Handle<tag::Expression>,
        source: ExpressionError,
    },
    MissingRayQueryVertexReturn(Handle<tag::Expression>),
    NonUniformControlFlow(UniformityRequirements, Handle<tag::Expression>, UniformityDisruptor),
    NonUniformWorkgroupUniformLoad(UniformityDisruptor),
    InvalidMeshFunctionCall(Handle<tag::Expression>),
    ConflictingMeshOutputTypes(Handle<tag::Expression>, Handle<tag::Expression>),
    ConflictingTaskPayloadVariables(Handle<tag::Expression>, Handle<tag::Expression>),
    InvalidMeshShaderOutputType(Handle<tag::Expression>),
}

impl From<LowerFunctionError> for FunctionError {
    ghost from_gives = { λ error fault. fault ≡ fault_of error };

    fn from(error: LowerFunctionError) -> FunctionError {
        match error {
            LowerFunctionError::Expression { handle, source } => {
                FunctionError::Expression { handle, source }
            }
            LowerFunctionError::MissingRayQueryVertexReturn(query) => {
                FunctionError::MissingRayQueryVertexReturn(query)
            }
            LowerFunctionError::NonUniformControlFlow(requirements, at, disruptor) => {
                FunctionError::NonUniformControlFlow(requirements, at, disruptor)
            }
            LowerFunctionError::NonUniformWorkgroupUniformLoad(disruptor) => {
                FunctionError::NonUniformWorkgroupUniformLoad(disruptor)
            }
            LowerFunctionError::InvalidMeshFunctionCall(call) => {
                FunctionError::InvalidMeshFunctionCall(call)
            }
            LowerFunctionError::ConflictingMeshOutputTypes(one, other) => {
                FunctionError::ConflictingMeshOutputTypes(one, other)
            }
            LowerFunctionError::ConflictingTaskPayloadVariables(one, other) => {
                FunctionError::ConflictingTaskPayloadVariables(one, other)
            }
            LowerFunctionError::InvalidMeshShaderOutputType(output) => {
                FunctionError::InvalidMeshShaderOutputType(output)
            }
        }
    }
}

/// What a global variable implies as the output variable of a mesh shader, and what is wrong with it.
///
/// `overrides` are those of the maximum number of vertices and of primitives.
#[derive(Clone, Copy, PartialEq, Debug)]
pub struct MeshAnalysisFact {
    pub implied: MeshStageInfo,
    pub overrides: [Option<Handle<tag::Override>>; 2],
    pub fault: Option<MeshFault>,
}

impl MeshAnalysisFact {
    /// The analysis as a lower layer answers it, its fault without spans.
    pub fn analysis(&self, alloc: Global) -> MeshAnalysis
        ensures { result ≡ analysis_of self.now }
    {
        let fault = match self.fault {
            Some(fault) => Some(WithSpan::new(alloc, fault)),
            None => None,
        };
        MeshAnalysis {
            implied: self.implied,
            overrides: [self.overrides[0], self.overrides[1]],
            fault,
        }
    }
}
