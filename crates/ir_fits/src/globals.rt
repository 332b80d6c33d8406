//! What doesn't fit of the globals of a module.

ghost use Rattle.std.specs.Prelude.{◌≡◌, ◌∷◌, []};
ghost use Rattle.std.specs.Option.{option_copied};
ghost use Rattle.ir_arena.specs.Points.{points_of_each};
ghost use Rattle.ir_fits.specs.OfGlobals.{is_unbindable, is_unbindable_array, is_bindable, global_points, resolution_points, one_type_each, globals_points};
ghost use Rattle.ir_facts.specs.Answers.{Finds, FirstOf};

use crate::types::check_inner;
use ir_arena::handle::Handle;
use ir_arena::tag;
use ir_misfits::expressions::check_expressions;
use ir_misfits::misfit::{
    HandleOf, Misfit, Owner, Place, Problem, TypeField, TypeOwner, VariableField,
};
use ir_module::module::{GlobalVariable, Module};
use ir_types::type_methods::inner_at;
use ir_types::types::{AddressSpace, ImageClass, Type, TypeInner};
use ir_types::typifier::TypeResolution;
use ir_types::unique_arena::UniqueArena;

/// The first misfit of the globals of a module, where `types` has the types of its global expressions: Ok exactly where
/// `fits_globals` is true.
///
/// In this order: of each global the type and the initializer, which are there, and that it is no binding array of external
/// images or ray queries in Handle; one type for each global expression; what these types name; the operands of global
/// expressions, which are earlier ones.
#[tactic(auto, using(ir_arena::proofs::Points::first_of_both))]
pub fn check_globals_fit(module: &Module, types: &[TypeResolution]) -> Result<(), Misfit>
    ensures { Finds (FirstOf (globals_points «module».now types.now)) result }
{
    check_globals(module.global_variables.as_slice(), module)?;
    check_one_type_each(types, module)?;
    check_resolutions(types, module.types.len())?;
    check_expressions(Owner::Module, module.global_expressions.as_slice())
}

fn is_unbindable(inner: Option<&TypeInner>) -> bool
    ensures { result ≡ is_unbindable (option_copied inner.entry) }
{
    matches!(
        inner,
        Some(
            TypeInner::RayQuery { .. }
                | TypeInner::Image {
                    class: ImageClass::External,
                    ..
                }
        )
    )
}

/// Whether a type is a binding array of external images or ray queries; if its base isn't there, it is none.
fn is_unbindable_array(inner: Option<&TypeInner>, types: &UniqueArena<Type>) -> bool
    ensures { result ≡ is_unbindable_array types.now (option_copied inner.entry) }
{
    match inner {
        Some(TypeInner::BindingArray { base, .. }) => is_unbindable(inner_at(
            types.as_slice(),
            *base,
        )),
        _ => false,
    }
}

/// Whether a global in this space may be of this type.
fn is_bindable(types: &UniqueArena<Type>, space: AddressSpace, ty: Handle<tag::Type>) -> bool
    ensures { result ≡ is_bindable types.now space ty }
{
    match space {
        AddressSpace::Handle => !is_unbindable_array(inner_at(types.as_slice(), ty), types),
        AddressSpace::Function
        | AddressSpace::Private
        | AddressSpace::WorkGroup
        | AddressSpace::Uniform
        | AddressSpace::Storage { .. }
        | AddressSpace::Immediate
        | AddressSpace::TaskPayload
        | AddressSpace::RayPayload
        | AddressSpace::IncomingRayPayload => true,
    }
}

/// A global: its type and its initializer are there, and it may be of this type in its space.
#[tactic(auto, using(ir_arena::proofs::Points::first_of_both))]
fn check_global_fits(place: usize, global: &GlobalVariable, module: &Module) -> Result<(), Misfit>
    ensures { Finds (FirstOf (global_points «module».now place global.now)) result }
{
    let ty = Place::InGlobal(place, VariableField::Ty);
    ty.names(HandleOf::Types, global.ty.index(), module.types.len())?;
    Place::InGlobal(place, VariableField::Init).names_if_any(
        HandleOf::GlobalExpressions,
        global.init,
        module.global_expressions.len(),
    )?;
    if is_bindable(&module.types, global.space, global.ty) {
        return Ok(());
    }
    ty.fails(Problem::Unbindable)
}

fn check_globals(globals: &[GlobalVariable], module: &Module) -> Result<(), Misfit>
    ensures { Finds (FirstOf (points_of_each (global_points «module».now) globals.now)) result }
{
    for (place, global) in globals.iter().enumerate() {
        check_global_fits(place, global, module)?;
    }
    Ok(())
}

/// There is one type for each global expression.
fn check_one_type_each(types: &[TypeResolution], module: &Module) -> Result<(), Misfit>
    ensures { Finds (FirstOf (one_type_each «module».now types.now ∷ [])) result }
{
    let found = types.len();
    let wanted = module.global_expressions.len();
    if found == wanted {
        return Ok(());
    }
    Place::GlobalTypes.fails(Problem::Length { found, wanted })
}

/// What the type of a global expression names is one of so many types.
fn check_resolution(place: usize, resolution: &TypeResolution, types: usize) -> Result<(), Misfit>
    ensures { Finds (FirstOf (resolution_points types place resolution.now)) result }
{
    let owner = TypeOwner::OfGlobalExpression(place);
    match resolution {
        TypeResolution::Handle(ty) => {
            Place::InType(owner, TypeField::Whole).names(HandleOf::Types, ty.index(), types)
        }
        TypeResolution::Value(inner) => check_inner(owner, inner, types),
    }
}

fn check_resolutions(resolutions: &[TypeResolution], types: usize) -> Result<(), Misfit>
    ensures { Finds (FirstOf (points_of_each (resolution_points types) resolutions.now)) result }
{
    for (place, resolution) in resolutions.iter().enumerate() {
        check_resolution(place, resolution, types)?;
    }
    Ok(())
}
