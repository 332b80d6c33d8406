//! The lower layer that a validator depends on: types, uses, checks of expressions, mesh analyses, kinds and sizes.

ghost use Rattle.std.specs.Prelude.{◌≡◌, IfOk};
ghost use Rattle.ir_facts.specs.Answers.{Answers, Exactly};
ghost use Rattle.ir_facts.specs.Meaning.{Meaning, HasOneTypeEach, HasOneUseEach, HasTypesInRange, HasNoStructValues, HasOneKindEach};

use crate::proc::expression_kinds::ExpressionKindTracker;
use crate::proc::mesh::MeshAnalysis;
use crate::valid::info::{FunctionInfo, ModuleInfo};
use crate::valid::settings::Settings;
use ir_arena::arena::Arena;
use ir_arena::handle::Handle;
use ir_arena::span::Refusal;
use ir_arena::tag;
use ir_errors::expression::ExpressionError;
use ir_errors::function::FunctionError;
use ir_flags::capabilities::Capabilities;
use ir_flags::valid::{ShaderStages, ValidationFlags};
use ir_module::expressions::Expression;
use ir_module::functions::Function;
use ir_module::module::Module;
use std::alloc::{AllocError, Global};

/// A lower layer: what naga 30.0.1's validation of functions and entry points asks of naga's other layers.
///
/// Each call answers what the `meaning` gives for its arguments. A call that is passed an allocator may be out of
/// memory instead. No call has a condition: an implementation answers for every module, and refuses what it can't
/// read.
///
/// The last five items are the laws that an implementation keeps. They make no claim about the truth of types.
pub trait Below {
    /// The right answers of the five calls.
    ghost meaning: { Self → Meaning };

    /// Types the expressions of a function, and finds its uses of globals and its stages: naga's
    /// `ModuleInfo::process_function`.
    ///
    /// An Err is why the function is refused, or out of memory. `mod_info` has the infos of earlier functions.
    fn process_function(
        &self,
        alloc: Global,
        fun: &Function,
        module: &Module,
        mod_info: &ModuleInfo,
        flags: ValidationFlags,
        capabilities: Capabilities,
    ) -> Result<FunctionInfo, Refusal<FunctionError>>
        ensures { Answers (Exactly ((meaning self.now).function_info fun.now «module».now mod_info.now flags
            capabilities)) result };

    /// Checks an expression of a function by itself, and answers the stages in which it may run: naga's
    /// `Validator::validate_expression`.
    ///
    /// An Err is what is wrong with the expression, or out of memory. The stages of `info` are those that earlier
    /// expressions leave.
    fn validate_expression(
        &self,
        alloc: Global,
        settings: Settings,
        handle: Handle<tag::Expression>,
        fun: &Function,
        module: &Module,
        info: &FunctionInfo,
        mod_info: &ModuleInfo,
        kinds: &ExpressionKindTracker,
    ) -> Result<ShaderStages, Refusal<ExpressionError>>
        ensures { Answers (Exactly ((meaning self.now).expression_stages settings handle fun.now «module».now info.now
            mod_info.now kinds.now)) result };

    /// Finds what the type of a mesh shader's output variable implies of its outputs: naga's
    /// `Module::analyze_mesh_shader_info`.
    ///
    /// An Err is out of memory. What is wrong with the type stands in the analysis.
    fn analyze_mesh_shader_info(
        &self,
        alloc: Global,
        module: &Module,
        output: Handle<tag::GlobalVariable>,
    ) -> Result<MeshAnalysis, AllocError>
        ensures { IfOk result (λ analysis. analysis ≡ (meaning self.now).mesh_analysis «module».now output) };

    /// Finds when the value of each expression is known: naga's `ExpressionKindTracker::from_arena`.
    ///
    /// An Err is out of memory. The expressions are those of a function, or the module's global ones.
    fn kinds(
        &self,
        alloc: Global,
        expressions: &Arena<Expression>,
    ) -> Result<ExpressionKindTracker, AllocError>
        ensures { IfOk result (λ kinds. kinds ≡ (meaning self.now).kinds_of expressions.now) };

    /// The size of a type in bytes, if it is known and fits 32 bits: naga's `TypeInner::size`. None if not.
    fn type_size(&self, module: &Module, ty: Handle<tag::Type>) -> Option<u32>
        ensures { result ≡ (meaning self.now).size_of «module».now ty };

    /// Law: an info has one type for each expression of its function.
    ghost one_type_each: { (below : Self) → HasOneTypeEach (meaning below) };

    /// Law: an info has one use for each global of the module.
    ghost one_use_each: { (below : Self) → HasOneUseEach (meaning below) };

    /// Law: the types of an info name types of the module alone.
    ghost types_in_range: { (below : Self) → HasTypesInRange (meaning below) };

    /// Law: a type that an info gives as a value is not a struct.
    ghost no_struct_values: { (below : Self) → HasNoStructValues (meaning below) };

    /// Law: there is one kind for each expression.
    ghost one_kind_each: { (below : Self) → HasOneKindEach (meaning below) };
}
