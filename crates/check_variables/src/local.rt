//! The check of a local variable: naga 30.0.1's `validate_local_var`.

ghost use Rattle.std.specs.Prelude.{◌≡◌, ◌<◌, IfSome, Some, All, length};
ghost use Rattle.ir_types.specs.Types.{NameEachOther, ResolutionFits};
ghost use Rattle.check_variables.specs.Locals.{local_points, initializer_points};
ghost use Rattle.ir_facts.specs.Answers.{Finds, FirstOf};

use ir_arena::handle::Handle;
use ir_arena::tag;
use ir_errors::function::LocalVariableError;
use ir_facts::proc::expression_kinds::ExpressionKindTracker;
use ir_facts::valid::info::FunctionInfo;
use ir_flags::valid::TypeFlags;
use ir_module::functions::LocalVariable;
use ir_types::type_info::TypeInfo;
use ir_types::type_methods::compare_types;
use ir_types::types::Type;
use ir_types::typifier::TypeResolution;
use ir_types::unique_arena::UniqueArena;

/// Checks a local variable of a function, and answers the first fault. It allocates nothing.
///
/// Its type is constructible (`InvalidType`). Its initializer is of that type (`InitializerType`), and is a constant
/// or an override expression (`NonConstOrOverrideInitializer`).
///
/// `infos` is indexed by the types of the module, `kinds` and the types in `fun_info` by the expressions of the
/// function.
pub fn check_local(
    var: &LocalVariable,
    types: &UniqueArena<Type>,
    infos: &[TypeInfo],
    fun_info: &FunctionInfo,
    kinds: &ExpressionKindTracker,
) -> Result<(), LocalVariableError>
    requires one_info_each { length infos.now ≡ length types.now }
    requires ty { var.now.ty < length types.now }
    requires init { IfSome var.now.init (λ h. h < length kinds.now) }
    requires one_type_each { length fun_info.now.expression_types ≡ length kinds.now }
    requires types { NameEachOther types.now }
    requires resolved { All (ResolutionFits (length types.now)) fun_info.now.expression_types }
    ensures { Finds (FirstOf (local_points types.now infos.now fun_info.now.expression_types kinds.now var.now)) result }
{
    if !infos[var.ty.index()]
        .flags
        .contains(TypeFlags::CONSTRUCTIBLE)
    {
        return Err(LocalVariableError::InvalidType(var.ty));
    }
    match var.init {
        Some(init) => check_initializer(var.ty, init, types, fun_info, kinds),
        None => Ok(()),
    }
}

/// An initializer has the type of its variable and is known before the pipeline runs.
fn check_initializer(
    declared: Handle<tag::Type>,
    init: Handle<tag::Expression>,
    types: &UniqueArena<Type>,
    fun_info: &FunctionInfo,
    kinds: &ExpressionKindTracker,
) -> Result<(), LocalVariableError>
    requires ty { declared < length types.now }
    requires init { init < length kinds.now }
    requires one_type_each { length fun_info.now.expression_types ≡ length kinds.now }
    requires types { NameEachOther types.now }
    requires resolved { All (ResolutionFits (length types.now)) fun_info.now.expression_types }
    ensures { Finds (FirstOf (initializer_points types.now fun_info.now.expression_types kinds.now declared (Some init))) result }
{
    let given = &fun_info.expression_types[init.index()];
    if !compare_types(&TypeResolution::Handle(declared), given, types) {
        return Err(LocalVariableError::InitializerType);
    }
    if !kinds.is_const_or_override(init) {
        return Err(LocalVariableError::NonConstOrOverrideInitializer);
    }
    Ok(())
}
