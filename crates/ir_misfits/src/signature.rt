//! Whether the signature of a function fits, and what doesn't fit of it.

ghost use Rattle.std.specs.Prelude.{◌<◌, ◌↔◌, ◌≡◌, ◌⊎◌, IsTrue, IfSome, IfOk, All, [], false, slice_get, unwrap_or};
ghost use Rattle.ir_arena.specs.Points.{points_of_each};
ghost use Rattle.ir_facts.specs.FitsBody.{SignatureFits, CalleeFits};
ghost use Rattle.ir_misfits.specs.OfSignatures.{argument_points, outcome_points, signature_points, callee_points};
ghost use Rattle.ir_misfits.specs.FittingSignatures.{AreFittingMarks, MarkFitting};
ghost use Rattle.ir_facts.specs.Answers.{Finds, FirstOf};

use crate::misfit::{HandleOf, Misfit, Owner, Place};
use ir_arena::handle::Handle;
use ir_arena::tag;
use ir_module::functions::{Function, FunctionArgument, FunctionResult};
use ir_module::module::Module;
use std::alloc::{AllocError, Global};

/// Of so many types: whether that of each argument is there.
fn arguments_fit(arguments: &[FunctionArgument], types: usize) -> bool
    ensures { IsTrue result ↔ All (λ a. a.ty < types) arguments.now }
{
    arguments.iter().all(|argument| argument.ty.index() < types)
}

/// And whether that of the result is.
fn outcome_fits(outcome: Option<FunctionResult>, types: usize) -> bool
    ensures { IsTrue result ↔ IfSome outcome (λ r. r.ty < types) }
{
    match outcome {
        Some(outcome) => outcome.ty.index() < types,
        None => true,
    }
}

/// Whether the signature of a function fits.
pub fn signature_fits(fun: &Function, module: &Module) -> bool
    ensures { IsTrue result ↔ SignatureFits «module».now fun.now }
{
    let types = module.types.len();
    fun.arguments.len() <= u32::MAX as usize
        && arguments_fit(fun.arguments.as_slice(), types)
        && outcome_fits(fun.result, types)
}

/// Of so many types: that of each argument is there.
fn check_arguments(owner: Owner, arguments: &[FunctionArgument], types: usize) -> Result<(), Misfit>
    ensures { Finds (FirstOf (points_of_each (argument_points owner types) arguments.now)) result }
{
    for (place, argument) in arguments.iter().enumerate() {
        Place::ArgumentType(owner, place).names(HandleOf::Types, argument.ty.index(), types)?;
    }
    Ok(())
}

/// And that of the result.
fn check_outcome(owner: Owner, outcome: Option<FunctionResult>, types: usize) -> Result<(), Misfit>
    ensures { Finds (FirstOf (outcome_points owner types outcome)) result }
{
    match outcome {
        Some(outcome) => Place::ResultType(owner).names(HandleOf::Types, outcome.ty.index(), types),
        None => Ok(()),
    }
}

/// 32 bits count the arguments; their types are there, and that of the result.
#[tactic(auto, using(ir_arena::proofs::Points::first_of_both))]
pub fn check_signature(owner: Owner, fun: &Function, module: &Module) -> Result<(), Misfit>
    ensures { Finds (FirstOf (signature_points «module».now owner fun.now)) result }
{
    Place::Arguments(owner).counts(fun.arguments.len())?;
    check_arguments(owner, fun.arguments.as_slice(), module.types.len())?;
    check_outcome(owner, fun.result, module.types.len())
}

/// A mark for each function of the module, by its handle: whether its signature fits. An Err is out of memory.
///
/// A function that many Calls and results of calls name is then checked once.
fn fitting_signatures(alloc: Global, module: &Module) -> Result<Vec<bool>, AllocError>
    ensures { IfOk result (λ marks. AreFittingMarks «module».now marks.items) }
{
    let mut marks = Vec::new(alloc);
    for fun in module.functions.as_slice() {
        marks.push(signature_fits(fun, module))?;
    }
    Ok(marks)
}

/// The marks of the functions whose signatures fit, or no mark where there is no memory for all.
pub fn known_fitting(alloc: Global, module: &Module) -> Vec<bool>
    ensures fitting { MarkFitting «module».now result.items }
    ensures all { (result.items ≡ []) ⊎ AreFittingMarks «module».now result.items }
{
    match fitting_signatures(alloc, module) {
        Ok(marks) => marks,
        Err(_) => Vec::new(alloc),
    }
}

/// Whether the signature of a function is among those that are known to fit.
fn is_marked(fitting: &[bool], function: Handle<tag::Function>) -> bool
    ensures { result ≡ unwrap_or (slice_get fitting.now function) false }
{
    match fitting.get(function.index()) {
        Some(mark) => *mark,
        None => false,
    }
}

/// A function that is named at this place is there, and its signature fits. What doesn't fit of this has its own place.
pub(crate) fn check_callee(
    place: Place,
    function: Handle<tag::Function>,
    module: &Module,
    fitting: &[bool],
) -> Result<(), Misfit>
    requires fitting { MarkFitting «module».now fitting.now }
    ensures { Finds (FirstOf (callee_points «module».now place function)) result }
{
    if is_marked(fitting, function) {
        return Ok(());
    }
    place.names(
        HandleOf::Functions,
        function.index(),
        module.functions.len(),
    )?;
    let callee = &module.functions[function];
    check_signature(Owner::Function(function.index()), callee, module)
}

/// Whether a function is there, with a signature that fits.
pub(crate) fn callee_fits(
    function: Handle<tag::Function>,
    module: &Module,
    fitting: &[bool],
) -> bool
    requires fitting { MarkFitting «module».now fitting.now }
    ensures { IsTrue result ↔ CalleeFits «module».now function }
{
    is_marked(fitting, function)
        || function.index() < module.functions.len()
            && signature_fits(&module.functions[function], module)
}
