//! Which of the recorded facts about a function is short, or breaks a law of lower layers.

ghost use Rattle.std.specs.Prelude.{◌≡◌, ◌∷◌, ◌==◌, [], nat_lt, nat_le, slice_get};
ghost use Rattle.std.specs.Option.{option_copied};
ghost use Rattle.ir_arena.specs.Points.{first_fault, points_of_each};
ghost use Rattle.ir_misfits.specs.declared.shortage.Shortage.TheVariants.{Types, Uses, UnknownType, Expressions};
ghost use Rattle.ir_misfits.specs.ShortFacts.{type_points, info_points, fact_points, function_shortages, entry_shortages, shortages};
ghost use Rattle.ir_facts.specs.Answers.{Finds, FirstOf};

use crate::misfit::Owner;
use crate::shortage::Shortage;
use ir_facts::{Facts, FunctionFact, InfoFact};
use ir_module::functions::Function;
use ir_module::module::Module;
use ir_types::types::TypeInner;
use ir_types::typifier::TypeResolution;

/// What is missing in the facts about a function, or about the function of an entry point, or breaks a law: the first in the
/// order of [`Shortage`], but that `expressions` is last. It takes no memory.
///
/// None where the fact is an error; where it is an info that `Recorded` of `naga_layers` answers and that has a fact
/// for each expression; and where the module has no such function. With `Some`, and not `Expressions`, `Recorded` refuses
/// the function with `Expression { handle: 0, source: Lower(0) }`.
pub fn find_short_fact(facts: &Facts, module: &Module, owner: Owner) -> Option<Shortage>
    ensures { result ≡ first_fault (shortages facts.now «module».now owner) }
{
    match owner {
        Owner::Module => None,
        Owner::Function(index) => check_function(facts, module, index).err(),
        Owner::EntryPoint(index) => check_entry_point(facts, module, index).err(),
    }
}

fn check_function(facts: &Facts, module: &Module, index: usize) -> Result<(), Shortage>
    ensures { Finds (FirstOf (function_shortages facts.now «module».now index (slice_get «module».now.functions index))) result }
{
    match module.functions.as_slice().get(index) {
        Some(fun) => check_fact(
            facts.functions.as_slice().get(index),
            fun,
            module,
            facts.functions.len(),
            module.functions.len(),
        ),
        None => Ok(()),
    }
}

fn check_entry_point(facts: &Facts, module: &Module, index: usize) -> Result<(), Shortage>
    ensures { Finds (FirstOf (entry_shortages facts.now «module».now index (slice_get «module».now.entry_points index))) result }
{
    match module.entry_points.as_slice().get(index) {
        Some(ep) => check_fact(
            facts.entry_points.as_slice().get(index),
            &ep.function,
            module,
            facts.entry_points.len(),
            module.entry_points.len(),
        ),
        None => Ok(()),
    }
}

/// A fact of a function. Where there is none, its list has `found` items, and `wanted` are wanted.
fn check_fact(
    fact: Option<&FunctionFact>,
    fun: &Function,
    module: &Module,
    found: usize,
    wanted: usize,
) -> Result<(), Shortage>
    ensures { Finds (FirstOf (fact_points «module».now fun.now found wanted (option_copied fact.entry))) result }
{
    match fact {
        Some(FunctionFact::Info(info)) => check_info(info, fun, module),
        Some(FunctionFact::Error(_)) => Ok(()),
        None => Err(Shortage::NoFact { found, wanted }),
    }
}

/// An info has as many types, uses and facts of expressions as it needs, and its types keep the laws.
#[tactic(auto, using(ir_arena::proofs::Points::first_of_both))]
fn check_info(info: &InfoFact, fun: &Function, module: &Module) -> Result<(), Shortage>
    ensures { Finds (FirstOf (info_points «module».now fun.now info.now)) result }
{
    let wanted = fun.expressions.len();
    check_count(info.types.len(), wanted)?;
    check_uses(info.uses.len(), module.global_variables.len())?;
    check_types(info.types.as_slice(), module.types.len())?;
    check_enough(info.expressions.len(), wanted)
}

fn check_count(found: usize, wanted: usize) -> Result<(), Shortage>
    ensures { Finds (FirstOf ((found == wanted, Types found wanted) ∷ [])) result }
{
    if found == wanted {
        return Ok(());
    }
    Err(Shortage::Types { found, wanted })
}

fn check_enough(found: usize, wanted: usize) -> Result<(), Shortage>
    ensures { Finds (FirstOf ((nat_le wanted found, Expressions found wanted) ∷ [])) result }
{
    if wanted <= found {
        return Ok(());
    }
    Err(Shortage::Expressions { found, wanted })
}

fn check_uses(found: usize, wanted: usize) -> Result<(), Shortage>
    ensures { Finds (FirstOf ((found == wanted, Uses found wanted) ∷ [])) result }
{
    if found == wanted {
        return Ok(());
    }
    Err(Shortage::Uses { found, wanted })
}

/// The type of each expression names types that are there, and is no struct as a value.
fn check_types(types: &[TypeResolution], below: usize) -> Result<(), Shortage>
    ensures { Finds (FirstOf (points_of_each (type_points below) types.now)) result }
{
    for (place, resolution) in types.iter().enumerate() {
        check_type(place, resolution, below)?;
    }
    Ok(())
}

fn check_type(expression: usize, resolution: &TypeResolution, below: usize) -> Result<(), Shortage>
    ensures { Finds (FirstOf (type_points below expression resolution.now)) result }
{
    match resolution {
        TypeResolution::Handle(ty) => check_known(expression, ty.index(), below),
        TypeResolution::Value(
            TypeInner::Pointer { base, .. }
            | TypeInner::Array { base, .. }
            | TypeInner::BindingArray { base, .. },
        ) => check_known(expression, base.index(), below),
        TypeResolution::Value(TypeInner::Struct { .. }) => {
            Err(Shortage::StructValue { expression })
        }
        TypeResolution::Value(_) => Ok(()),
    }
}

/// The type with this index is one of so many.
fn check_known(expression: usize, ty: usize, below: usize) -> Result<(), Shortage>
    ensures { Finds (FirstOf ((nat_lt ty below, UnknownType expression ty below) ∷ [])) result }
{
    if ty < below {
        return Ok(());
    }
    Err(Shortage::UnknownType {
        expression,
        ty,
        below,
    })
}
