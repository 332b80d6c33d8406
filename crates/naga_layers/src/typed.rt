//! The lower layer that computes what it answers from the module alone.

ghost use Rattle.std.specs.Prelude.{◌≡◌};
ghost use Rattle.ir_facts.specs.Answers.{Answers, Exactly};
ghost use Rattle.ir_arena.specs.declared.span.Refusal.TheVariants.{Fault};
ghost use Rattle.naga_layers.specs.Typed.Meaning.{fault_of, computed_info, stages_at};

mod mesh;

use crate::kinds::kinds_of;
use crate::stages::stages_of;
use crate::typed::mesh::mesh_analysis;
use ir_arena::arena::Arena;
use ir_arena::handle::Handle;
use ir_arena::span::{Refusal, WithSpan};
use ir_arena::tag;
use ir_errors::expression::ExpressionError;
use ir_errors::function::FunctionError;
use ir_facts::below::Below;
use ir_facts::proc::expression_kinds::ExpressionKindTracker;
use ir_facts::proc::mesh::MeshAnalysis;
use ir_facts::valid::info::{FunctionInfo, ModuleInfo};
use ir_facts::valid::settings::Settings;
use ir_flags::capabilities::Capabilities;
use ir_flags::valid::{ShaderStages, ValidationFlags};
use ir_module::expressions::Expression;
use ir_module::functions::Function;
use ir_module::module::Module;
use layer_expressions::types::{Untyped, types_of};
use layer_types::size_at;
use layer_uses::uses::uses_of;
use std::alloc::{AllocError, Global};

/// The lower layer that needs no facts: it computes types, uses, stages, kinds, sizes and the outputs of mesh shaders from the
/// module. An expression that has no type is refused as `Lower(n)`, where n is the number of the rule that it breaks.
///
/// `check_module` over it takes the infos of `type_infos` and the types of `global_types`.
#[derive(Clone, Copy)]
pub struct Typed;

/// The fault of an expression that has no type.
fn fault_of(untyped: Untyped) -> FunctionError
    ensures { result ≡ fault_of untyped }
{
    FunctionError::Expression {
        handle: untyped.handle,
        source: ExpressionError::Lower(untyped.rule.number()),
    }
}

/// The refusal of such an expression.
fn refusal_of(alloc: Global, untyped: Untyped) -> Refusal<FunctionError>
    ensures { result ≡ Fault (fault_of untyped) }
{
    Refusal::Fault(WithSpan::new(alloc, fault_of(untyped)))
}

/// What is known of a function, computed.
fn info_of(
    alloc: Global,
    fun: &Function,
    module: &Module,
    infos: &ModuleInfo,
) -> Result<FunctionInfo, Refusal<FunctionError>>
    ensures { Answers (Exactly (computed_info fun.now «module».now infos.now)) result }
{
    let arguments = fun.arguments.as_slice();
    let locals = fun.local_variables.as_slice();
    let found = types_of(alloc, module, arguments, locals, &fun.expressions)?;
    let expression_types = match found {
        Ok(types) => types,
        Err(untyped) => return Err(refusal_of(alloc, untyped)),
    };
    let global_uses = uses_of(alloc, module, fun, infos)?;
    Ok(FunctionInfo {
        expression_types,
        global_uses,
        available_stages: ShaderStages::ALL,
        dual_source_blending: false,
    })
}

/// The stages of an expression, or its fault without spans.
fn stages_at(
    alloc: Global,
    settings: Settings,
    handle: Handle<tag::Expression>,
    fun: &Function,
    infos: &ModuleInfo,
) -> Result<ShaderStages, Refusal<ExpressionError>>
    ensures { Answers (Exactly (stages_at settings handle fun.now infos.now)) result }
{
    match stages_of(
        settings,
        infos,
        fun.expressions.as_slice().get(handle.index()),
    ) {
        Ok(stages) => Ok(stages),
        Err(error) => Err(Refusal::Fault(WithSpan::new(alloc, error))),
    }
}

impl Below for Typed {
    ghost use Rattle.naga_layers.specs.Typed.Meaning.{typed_meaning};
    ghost use Rattle.naga_layers.specs.Typed.Laws.{one_type_each, one_use_each, types_in_range, no_struct_values};
    ghost use Rattle.naga_layers.specs.Kinds.{kinds_one_each};

    ghost meaning = { λ typed. typed_meaning };

    fn process_function(
        &self,
        alloc: Global,
        fun: &Function,
        module: &Module,
        mod_info: &ModuleInfo,
        _flags: ValidationFlags,
        _capabilities: Capabilities,
    ) -> Result<FunctionInfo, Refusal<FunctionError>> {
        info_of(alloc, fun, module, mod_info)
    }

    fn validate_expression(
        &self,
        alloc: Global,
        settings: Settings,
        handle: Handle<tag::Expression>,
        fun: &Function,
        _module: &Module,
        _info: &FunctionInfo,
        mod_info: &ModuleInfo,
        _kinds: &ExpressionKindTracker,
    ) -> Result<ShaderStages, Refusal<ExpressionError>> {
        stages_at(alloc, settings, handle, fun, mod_info)
    }

    fn analyze_mesh_shader_info(
        &self,
        alloc: Global,
        module: &Module,
        output: Handle<tag::GlobalVariable>,
    ) -> Result<MeshAnalysis, AllocError> {
        Ok(mesh_analysis(alloc, module, output))
    }

    fn kinds(
        &self,
        alloc: Global,
        expressions: &Arena<Expression>,
    ) -> Result<ExpressionKindTracker, AllocError> {
        kinds_of(alloc, expressions)
    }

    fn type_size(&self, module: &Module, ty: Handle<tag::Type>) -> Option<u32> {
        size_at(module.types.as_slice(), ty)
    }

    ghost one_type_each = { λ _ f m i _ _ info h. one_type_each f m i info h };

    ghost one_use_each = { λ _ f m i _ _ info h. one_use_each f m i info h };

    ghost types_in_range = { λ _ f m i _ _ info h. types_in_range f m i info h };

    ghost no_struct_values = { λ _ f m i _ _ info h. no_struct_values f m i info h };

    ghost one_kind_each = { λ _ es. kinds_one_each es };
}
