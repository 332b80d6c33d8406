//! A lower layer that answers recorded facts.

ghost use Rattle.std.specs.Prelude.{◌≡◌, IfOk};
ghost use Rattle.std.specs.List.{list_all};
ghost use Rattle.std.specs.Option.{option_copied};
ghost use Rattle.ir_facts.specs.Answers.{Answers, Exactly};
ghost use Rattle.ir_facts.specs.Facts.{info_of, unknown_analysis, analysis_at};
ghost use Rattle.naga_layers.specs.Recorded.Asked.{fact_asked};
ghost use Rattle.naga_layers.specs.Recorded.Infos.{is_lawful_type, is_lawful_info, USELESS, recorded_info, recorded_stages};

use crate::kinds::kinds_of;
use ir_arena::arena::Arena;
use ir_arena::duplicate::duplicates;
use ir_arena::handle::Handle;
use ir_arena::sequence::Sequence;
use ir_arena::span::{Refusal, WithSpan};
use ir_arena::tag;
use ir_errors::expression::ExpressionError;
use ir_errors::function::FunctionError;
use ir_errors::mesh::MeshFault;
use ir_facts::below::Below;
use ir_facts::facts::{ExpressionFact, Facts, FunctionFact, InfoFact, MeshAnalysisFact};
use ir_facts::proc::expression_kinds::ExpressionKindTracker;
use ir_facts::proc::mesh::MeshAnalysis;
use ir_facts::valid::info::{FunctionInfo, ModuleInfo};
use ir_facts::valid::settings::Settings;
use ir_flags::capabilities::Capabilities;
use ir_flags::valid::{ShaderStages, ValidationFlags};
use ir_module::expressions::Expression;
use ir_module::functions::Function;
use ir_module::module::{MeshOutputTopology, MeshStageInfo, Module};
use ir_types::types::TypeInner;
use ir_types::typifier::TypeResolution;
use std::alloc::{AllocError, Global};

/// A lower layer that answers recorded facts. It keeps the laws of lower layers, whatever the facts and the module are.
///
/// - `process_function`: a recorded error, without spans; or a recorded info, if it keeps the laws. It does with one type for
///   each expression, one use for each global, only types of the module, also inside a value, and no struct as a value.
///   Otherwise the fault is `Expression { handle: 0, source: Lower(0) }`.
/// - `validate_expression`: what the info has for the expression; otherwise `Lower(0)`.
/// - `analyze_mesh_shader_info`: what is recorded of the global; otherwise an analysis with the fault `OutputType`.
/// - `kinds`: computed from the expressions alone, and not recorded. Literals, constants and zero values are const. Overrides
///   are override. A `Unary` or `Compose` is the latest of its operands, and runtime if one is no earlier expression. All
///   others are runtime.
/// - `type_size`: what is recorded of the type; otherwise None.
///
/// The first two calls are given the infos so far, and no handle of the function. If fewer functions have infos than
/// the module has functions, the fact is that of the next function. Otherwise it is that of the next entry point. So
/// judge functions and entry points in their order, as `check_module` does.
///
/// A call that allocates may be out of memory.
#[derive(Drop)]
pub struct Recorded {
    pub facts: Facts,
}

/// The fact of the function that is asked about.
fn fact_asked<'a>(
    facts: &'a Facts,
    module: &Module,
    mod_info: &ModuleInfo,
) -> Option<&'a FunctionFact>
    ensures { option_copied result ≡ fact_asked facts.now «module».now mod_info.now }
{
    let done = mod_info.functions.len();
    if done < module.functions.len() {
        facts.functions.as_slice().get(done)
    } else {
        facts
            .entry_points
            .as_slice()
            .get(mod_info.entry_points.len())
    }
}

/// Whether what a type names is one of so many types, also inside a value, and it is no struct as a value.
fn is_lawful_type(resolution: &TypeResolution, count: usize) -> bool
    ensures { result ≡ is_lawful_type count resolution.now }
{
    match resolution {
        TypeResolution::Handle(ty) => ty.index() < count,
        TypeResolution::Value(
            TypeInner::Pointer { base, .. }
            | TypeInner::Array { base, .. }
            | TypeInner::BindingArray { base, .. },
        ) => base.index() < count,
        TypeResolution::Value(TypeInner::Struct { .. }) => false,
        TypeResolution::Value(_) => true,
    }
}

/// The same of each type.
fn are_lawful_types(types: &[TypeResolution], count: usize) -> bool
    ensures { result ≡ list_all (is_lawful_type count) types.now }
{
    types
        .iter()
        .all(|resolution| is_lawful_type(resolution, count))
}

/// Whether an info keeps the laws of a lower layer for a function of a module.
fn is_lawful_info(info: &InfoFact, fun: &Function, module: &Module) -> bool
    ensures { result ≡ is_lawful_info info.now fun.now «module».now }
{
    info.types.len() == fun.expressions.len()
        && info.uses.len() == module.global_variables.len()
        && are_lawful_types(info.types.as_slice(), module.types.len())
}

/// A recorded info as a lower layer answers it.
fn info_of(alloc: Global, info: &InfoFact) -> Result<FunctionInfo, AllocError>
    ensures { IfOk result (λ made. made ≡ info_of info.now) }
{
    let expression_types = Sequence::from(duplicates(alloc, info.types.as_slice())?);
    let global_uses = info.uses.clone(alloc)?;
    Ok(FunctionInfo {
        expression_types,
        global_uses,
        available_stages: info.stages,
        dual_source_blending: info.dual_source_blending,
    })
}

/// The refusal of a function of which nothing useful is recorded.
fn useless() -> FunctionError
    ensures { result ≡ USELESS }
{
    FunctionError::Expression {
        handle: Handle::new(0),
        source: ExpressionError::Lower(0),
    }
}

/// What is answered of a function, of the fact that is recorded of it.
fn answer_of(
    alloc: Global,
    fact: Option<&FunctionFact>,
    fun: &Function,
    module: &Module,
) -> Result<FunctionInfo, Refusal<FunctionError>>
    ensures { Answers (Exactly (recorded_info (option_copied fact.entry) fun.now «module».now)) result }
{
    let fault = match fact {
        Some(FunctionFact::Info(info)) => {
            if is_lawful_info(info, fun, module) {
                return Ok(info_of(alloc, info)?);
            }
            useless()
        }
        Some(FunctionFact::Error(error)) => FunctionError::from(*error),
        None => useless(),
    };
    Err(Refusal::Fault(WithSpan::new(alloc, fault)))
}

/// What is answered of an expression, of the fact that is recorded of its function.
fn recorded_stages(
    fact: Option<&FunctionFact>,
    handle: Handle<tag::Expression>,
) -> Result<ShaderStages, ExpressionError>
    ensures { result ≡ recorded_stages (option_copied fact.entry) handle }
{
    let Some(FunctionFact::Info(info)) = fact else {
        return Err(ExpressionError::Lower(0));
    };
    match info.expressions.as_slice().get(handle.index()) {
        Some(ExpressionFact::Stages(stages)) => Ok(*stages),
        Some(ExpressionFact::Error(error)) => Err(*error),
        None => Err(ExpressionError::Lower(0)),
    }
}

/// The analysis of a global of which none is recorded.
fn unknown_analysis() -> MeshAnalysisFact
    ensures { result ≡ unknown_analysis }
{
    MeshAnalysisFact {
        implied: MeshStageInfo {
            topology: MeshOutputTopology::Points,
            max_vertices: 0,
            max_vertices_override: None,
            max_primitives: 0,
            max_primitives_override: None,
            vertex_output_type: Handle::new(0),
            primitive_output_type: Handle::new(0),
            output_variable: Handle::new(0),
        },
        overrides: [None, None],
        fault: Some(MeshFault::OutputType),
    }
}

/// What is recorded of a global as the output of a mesh shader.
fn analysis_at(facts: &Facts, output: Handle<tag::GlobalVariable>) -> MeshAnalysisFact
    ensures { result ≡ analysis_at facts.now output }
{
    match facts.mesh_analyses.as_slice().get(output.index()) {
        Some(Some(analysis)) => *analysis,
        _ => unknown_analysis(),
    }
}

impl Below for Recorded {
    ghost use Rattle.naga_layers.specs.Recorded.Meaning.{recorded_meaning};
    ghost use Rattle.naga_layers.specs.Recorded.Laws.{one_type_each, one_use_each, types_in_range, no_struct_values};
    ghost use Rattle.naga_layers.specs.Kinds.{kinds_one_each};

    ghost meaning = { recorded_meaning };

    fn process_function(
        &self,
        alloc: Global,
        fun: &Function,
        module: &Module,
        mod_info: &ModuleInfo,
        _flags: ValidationFlags,
        _capabilities: Capabilities,
    ) -> Result<FunctionInfo, Refusal<FunctionError>> {
        let fact = fact_asked(&self.facts, module, mod_info);
        answer_of(alloc, fact, fun, module)
    }

    fn validate_expression(
        &self,
        alloc: Global,
        _settings: Settings,
        handle: Handle<tag::Expression>,
        _fun: &Function,
        module: &Module,
        _info: &FunctionInfo,
        mod_info: &ModuleInfo,
        _kinds: &ExpressionKindTracker,
    ) -> Result<ShaderStages, Refusal<ExpressionError>> {
        let fact = fact_asked(&self.facts, module, mod_info);
        match recorded_stages(fact, handle) {
            Ok(stages) => Ok(stages),
            Err(error) => Err(Refusal::Fault(WithSpan::new(alloc, error))),
        }
    }

    fn analyze_mesh_shader_info(
        &self,
        alloc: Global,
        _module: &Module,
        output: Handle<tag::GlobalVariable>,
    ) -> Result<MeshAnalysis, AllocError> {
        Ok(analysis_at(&self.facts, output).analysis(alloc))
    }

    fn kinds(
        &self,
        alloc: Global,
        expressions: &Arena<Expression>,
    ) -> Result<ExpressionKindTracker, AllocError> {
        kinds_of(alloc, expressions)
    }

    fn type_size(&self, _module: &Module, ty: Handle<tag::Type>) -> Option<u32> {
        *self.facts.sizes.as_slice().get(ty.index())?
    }

    ghost one_type_each = { λ recorded f m i _ _ info h. one_type_each recorded f m i info h };

    ghost one_use_each = { λ recorded f m i _ _ info h. one_use_each recorded f m i info h };

    ghost types_in_range = { λ recorded f m i _ _ info h. types_in_range recorded f m i info h };

    ghost no_struct_values = { λ recorded f m i _ _ info h. no_struct_values recorded f m i info h };

    ghost one_kind_each = { λ _ es. kinds_one_each es };
}
