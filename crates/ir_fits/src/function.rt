//! Whether a function fits, and what doesn't fit of it.

ghost use Rattle.std.specs.Prelude.{◌↔◌, IsTrue, All};
ghost use Rattle.ir_arena.specs.Points.{points_of_each};
ghost use Rattle.ir_facts.specs.Fits.{LocalFits, FitsFunction};
ghost use Rattle.ir_misfits.specs.FittingSignatures.{MarkFitting};
ghost use Rattle.ir_fits.specs.OfFunctions.{local_points, function_points};
ghost use Rattle.ir_facts.specs.Answers.{Finds, FirstOf};

use ir_misfits::expressions::{
    check_expressions, check_references, name_earlier_expressions, references_fit,
};
use ir_misfits::misfit::{HandleOf, Misfit, Owner, Place, VariableField};
use ir_misfits::naming::is_below_if_any;
use ir_misfits::signature::{check_signature, signature_fits};
use ir_misfits::statements::{body_fits, check_body};
use ir_module::functions::{Function, LocalVariable};
use ir_module::module::Module;

/// Whether the type and the initializer of a local are there.
fn local_fits(local: &LocalVariable, fun: &Function, module: &Module) -> bool
    ensures { IsTrue result ↔ LocalFits «module».now fun.now local.now }
{
    local.ty.index() < module.types.len() && is_below_if_any(local.init, fun.expressions.len())
}

/// Whether those of each local are.
fn locals_fit(locals: &[LocalVariable], fun: &Function, module: &Module) -> bool
    ensures { IsTrue result ↔ All (LocalFits «module».now fun.now) locals.now }
{
    locals.iter().all(|local| local_fits(local, fun, module))
}

/// `fits_function`, where the signatures of some functions are known to fit: those with a true mark in `fitting`, which is
/// indexed by their handles. They are not checked again wherever they are named.
pub fn fits_function_with(fun: &Function, module: &Module, fitting: &[bool], earlier: usize) -> bool
    requires fitting { MarkFitting «module».now fitting.now }
    ensures { IsTrue result ↔ FitsFunction fun.now «module».now earlier }
{
    let expressions = fun.expressions.as_slice();
    signature_fits(fun, module)
        && locals_fit(fun.local_variables.as_slice(), fun, module)
        && name_earlier_expressions(expressions)
        && references_fit(expressions, fun, module, fitting)
        && body_fits(fun, module, fitting, earlier)
}

/// The first misfit of a function, which is that of `owner`: Ok exactly where `fits_function` is true. `fitting` is as for
/// `fits_function_with`.
///
/// In this order: the number of arguments, their types and that of the result; of each local the type and the initializer;
/// the operands of the expressions, which are earlier ones; what else each expression names; the statements, in visit order.
/// Where a function is named whose signature doesn't fit, the misfit is that signature's.
pub fn check_function_fits(
    owner: Owner,
    fun: &Function,
    module: &Module,
    fitting: &[bool],
    earlier: usize,
) -> Result<(), Misfit>
    requires fitting { MarkFitting «module».now fitting.now }
    ensures { Finds (FirstOf (function_points owner fun.now «module».now earlier)) result }
{
    // (asked first for its time: room for a misfit costs more than to see that there is none)
    if fits_function_with(fun, module, fitting, earlier) {
        return Ok(());
    }
    first_misfit_of_function(owner, fun, module, fitting, earlier)
}

#[cold]
#[inline(never)]
#[tactic(auto, using(ir_arena::proofs::Points::first_of_both))]
fn first_misfit_of_function(
    owner: Owner,
    fun: &Function,
    module: &Module,
    fitting: &[bool],
    earlier: usize,
) -> Result<(), Misfit>
    requires fitting { MarkFitting «module».now fitting.now }
    ensures { Finds (FirstOf (function_points owner fun.now «module».now earlier)) result }
{
    let expressions = fun.expressions.as_slice();
    check_signature(owner, fun, module)?;
    check_locals(owner, fun.local_variables.as_slice(), fun, module)?;
    check_expressions(owner, expressions)?;
    check_references(owner, expressions, fun, module, fitting)?;
    check_body(owner, fun, module, fitting, earlier)
}

/// The type and the initializer of a local are there.
fn check_local(
    owner: Owner,
    place: usize,
    local: &LocalVariable,
    fun: &Function,
    module: &Module,
) -> Result<(), Misfit>
    ensures { Finds (FirstOf (local_points «module».now fun.now owner place local.now)) result }
{
    Place::InLocal(owner, place, VariableField::Ty).names(
        HandleOf::Types,
        local.ty.index(),
        module.types.len(),
    )?;
    Place::InLocal(owner, place, VariableField::Init).names_if_any(
        HandleOf::Expressions,
        local.init,
        fun.expressions.len(),
    )
}

fn check_locals(
    owner: Owner,
    locals: &[LocalVariable],
    fun: &Function,
    module: &Module,
) -> Result<(), Misfit>
    ensures { Finds (FirstOf (points_of_each (local_points «module».now fun.now owner) locals.now)) result }
{
    for (place, local) in locals.iter().enumerate() {
        check_local(owner, place, local, fun, module)?;
    }
    Ok(())
}
