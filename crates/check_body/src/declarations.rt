//! The checks of what a function declares: naga's `validate_function` up to its expressions.

ghost use Rattle.std.specs.Prelude.{◌≡◌, ◌<◌, IfOk, IfSome, Some, length};
ghost use Rattle.ir_facts.specs.Answers.{Answers, Finds, FirstOf};
ghost use Rattle.check_scope.specs.Context.{ContextFits};
ghost use Rattle.check_statement.specs.Declarations.{name_or_empty, variable_points, variables_points, takes_arguments, argument_points, arguments_points, result_points, declaration_points};
ghost use Rattle.check_scope.specs.walk.SeenContext.{context_of};

use check_scope::context::BlockContext;
use check_variables::local::check_local;
use ir_arena::handle::Handle;
use ir_arena::span::{Refusal, WithSpan};
use ir_arena::tag;
use ir_errors::function::FunctionError;
use ir_flags::valid::TypeFlags;
use ir_leaves::name::Name;
use ir_module::functions::{FunctionArgument, FunctionResult, LocalVariable};
use ir_types::type_info::TypeInfo;
use ir_types::types::AddressSpace;
use std::alloc::{AllocError, Global};

/// What the checks of declarations read: the function and its module, the infos of the module's types, and whether the
/// function is an entry point's.
#[derive(Drop)]
struct DeclarationContext<'a> {
    alloc: Global,
    block: &'a BlockContext<'a>,
    infos: &'a [TypeInfo],
    entry_point: bool,
}

/// The local variables, the arguments, and the result of a function.
pub fn check_declarations(
    alloc: Global,
    context: &BlockContext,
    infos: &[TypeInfo],
    entry_point: bool,
) -> Result<(), Refusal<FunctionError>>
    requires context { ContextFits (context_of context.now) }
    requires one_info_each { length infos.now ≡ length (context_of context.now).program.types }
    ensures { Answers (FirstOf (declaration_points (context_of context.now) infos.now entry_point)) result }
{
    let declared = DeclarationContext {
        alloc,
        block: context,
        infos,
        entry_point,
    };
    check_locals(&declared)?;
    check_arguments(&declared)?;
    match check_result(infos, entry_point, context.fun.result) {
        Ok(()) => Ok(()),
        Err(fault) => Err(Refusal::Fault(WithSpan::new(alloc, fault))),
    }
}

/// An equal name, or the empty text.
fn name_or_empty(alloc: Global, name: &Option<Name>) -> Result<Name, AllocError>
    ensures { IfOk result (λ made. made ≡ name_or_empty name.now) }
{
    match name {
        Some(name) => name.clone(alloc),
        None => Ok(Name::from(String::new(alloc))),
    }
}

/// The local variables, in order.
fn check_locals(context: &DeclarationContext) -> Result<(), Refusal<FunctionError>>
    requires context { ContextFits (context_of context.now.block.now) }
    requires one_info_each { length context.now.infos.now ≡ length (context_of context.now.block.now).program.types }
    ensures { Answers (FirstOf (variables_points (context_of context.now.block.now) context.now.infos.now)) result }
{
    let count = context.block.fun.local_variables.len() as u32;
    for index in 0..count {
        let handle = Handle::new(index);
        let var = &context.block.fun.local_variables[handle];
        check_variable(context, handle, var)?;
    }
    Ok(())
}

/// A local variable.
fn check_variable(
    context: &DeclarationContext,
    handle: Handle<tag::LocalVariable>,
    var: &LocalVariable,
) -> Result<(), Refusal<FunctionError>>
    requires context { ContextFits (context_of context.now.block.now) }
    requires one_info_each { length context.now.infos.now ≡ length (context_of context.now.block.now).program.types }
    requires ty { var.now.ty < length (context_of context.now.block.now).program.types }
    requires init { IfSome var.now.init (λ h. h < length (context_of context.now.block.now).fun.expressions) }
    ensures { Answers (FirstOf (variable_points (context_of context.now.block.now) context.now.infos.now handle
        var.now)) result }
{
    match check_local(
        var,
        &context.block.program.types,
        context.infos,
        context.block.info,
        context.block.kinds,
    ) {
        Ok(()) => Ok(()),
        Err(source) => {
            let name = name_or_empty(context.alloc, &var.name)?;
            let fault = FunctionError::LocalVariable {
                handle,
                name,
                source,
            };
            Err(Refusal::Fault(WithSpan::new(context.alloc, fault)))
        }
    }
}

/// The arguments, in order.
fn check_arguments(context: &DeclarationContext) -> Result<(), Refusal<FunctionError>>
    requires context { ContextFits (context_of context.now.block.now) }
    requires one_info_each { length context.now.infos.now ≡ length (context_of context.now.block.now).program.types }
    ensures { Answers (FirstOf (arguments_points (context_of context.now.block.now) context.now.infos.now
        context.now.entry_point)) result }
{
    let arguments = context.block.fun.arguments.as_slice();
    for index in 0..arguments.len() {
        let argument = &arguments[index];
        check_argument(context, index, argument)?;
    }
    Ok(())
}

/// Whether an argument may point into a space.
fn takes_arguments(space: AddressSpace) -> bool
    ensures { result ≡ takes_arguments space }
{
    match space {
        AddressSpace::Function | AddressSpace::Private => true,
        AddressSpace::WorkGroup
        | AddressSpace::Uniform
        | AddressSpace::Storage { .. }
        | AddressSpace::Handle
        | AddressSpace::Immediate
        | AddressSpace::TaskPayload
        | AddressSpace::RayPayload
        | AddressSpace::IncomingRayPayload => false,
    }
}

/// An argument.
fn check_argument(
    context: &DeclarationContext,
    index: usize,
    argument: &FunctionArgument,
) -> Result<(), Refusal<FunctionError>>
    requires one_info_each { length context.now.infos.now ≡ length (context_of context.now.block.now).program.types }
    requires ty { argument.now.ty < length (context_of context.now.block.now).program.types }
    ensures { Answers (FirstOf (argument_points (context_of context.now.block.now) context.now.infos.now
        context.now.entry_point index argument.now)) result }
{
    let inner = &context.block.program.types[argument.ty].inner;
    if let Some(space) = inner.pointer_space() {
        if !takes_arguments(space) {
            let name = name_or_empty(context.alloc, &argument.name)?;
            let fault = FunctionError::InvalidArgumentPointerSpace { index, name, space };
            return Err(Refusal::Fault(WithSpan::new(context.alloc, fault)));
        }
    }
    if !context.infos[argument.ty.index()]
        .flags
        .contains(TypeFlags::ARGUMENT)
    {
        let name = name_or_empty(context.alloc, &argument.name)?;
        let fault = FunctionError::InvalidArgumentType { index, name };
        return Err(Refusal::Fault(WithSpan::new(context.alloc, fault)));
    }
    if !context.entry_point && argument.binding.is_some() {
        let name = name_or_empty(context.alloc, &argument.name)?;
        let fault = FunctionError::PipelineInputRegularFunction { name };
        return Err(Refusal::Fault(WithSpan::new(context.alloc, fault)));
    }
    Ok(())
}

/// The result, if there is one.
fn check_result(
    infos: &[TypeInfo],
    entry_point: bool,
    declared: Option<FunctionResult>,
) -> Result<(), FunctionError>
    requires { IfSome declared (λ d. d.ty < length infos.now) }
    ensures { Finds (FirstOf (result_points infos.now entry_point declared)) result }
{
    let Some(declared) = declared else {
        return Ok(());
    };
    if !infos[declared.ty.index()]
        .flags
        .contains(TypeFlags::CONSTRUCTIBLE)
    {
        return Err(FunctionError::NonConstructibleReturnType);
    }
    if !entry_point && declared.binding.is_some() {
        return Err(FunctionError::PipelineOutputRegularFunction);
    }
    Ok(())
}
