//! What doesn't fit of the types of a module.

ghost use Rattle.ir_arena.specs.Points.{points_of_each};
ghost use Rattle.ir_fits.specs.OfTypes.{member_points, inner_points, earlier_points, member_count_points, count_points, constant_points, override_points, types_points};
ghost use Rattle.ir_facts.specs.Answers.{Finds, FirstOf};

use ir_misfits::misfit::{HandleOf, Misfit, Place, TypeField, TypeOwner};
use ir_module::module::{Constant, Module, Override};
use ir_types::types::{StructMember, Type, TypeInner};

/// The first misfit of the types of a module: Ok exactly where `fits_types` is true.
///
/// In this order: a type that names itself or a later one; a struct of more members than 32 bits count; the type of ray
/// descriptors, of a constant, of an override, which isn't there.
#[tactic(auto, using(ir_arena::proofs::Points::first_of_both))]
pub fn check_types_fit(module: &Module) -> Result<(), Misfit>
    ensures { Finds (FirstOf (types_points «module».now)) result }
{
    let types = module.types.as_slice();
    check_earlier(types)?;
    check_counts(types)?;
    Place::RayDesc.names_if_any(HandleOf::Types, module.special_types.ray_desc, types.len())?;
    check_constants(module.constants.as_slice(), types.len())?;
    check_overrides(module.overrides.as_slice(), types.len())
}

/// The types of members have handles below `below`.
fn check_members(owner: TypeOwner, members: &[StructMember], below: usize) -> Result<(), Misfit>
    ensures { Finds (FirstOf (points_of_each (member_points owner below) members.now)) result }
{
    for (index, member) in members.iter().enumerate() {
        let place = Place::InType(owner, TypeField::Member(index));
        place.names(HandleOf::Types, member.ty.index(), below)?;
    }
    Ok(())
}

/// Every type that this one names has a handle below `below`.
pub(crate) fn check_inner(owner: TypeOwner, inner: &TypeInner, below: usize) -> Result<(), Misfit>
    ensures { Finds (FirstOf (inner_points owner below inner.now)) result }
{
    match inner {
        TypeInner::Pointer { base, .. }
        | TypeInner::Array { base, .. }
        | TypeInner::BindingArray { base, .. } => {
            Place::InType(owner, TypeField::Base).names(HandleOf::Types, base.index(), below)
        }
        TypeInner::Struct { members, .. } => check_members(owner, members.as_slice(), below),
        TypeInner::Scalar(_)
        | TypeInner::Vector { .. }
        | TypeInner::Matrix { .. }
        | TypeInner::CooperativeMatrix { .. }
        | TypeInner::Atomic(_)
        | TypeInner::ValuePointer { .. }
        | TypeInner::Image { .. }
        | TypeInner::Sampler { .. }
        | TypeInner::AccelerationStructure { .. }
        | TypeInner::RayQuery { .. } => Ok(()),
    }
}

/// Each type names only earlier ones.
fn check_earlier(types: &[Type]) -> Result<(), Misfit>
    ensures { Finds (FirstOf (points_of_each earlier_points types.now)) result }
{
    for (place, ty) in types.iter().enumerate() {
        check_inner(TypeOwner::OfModule(place), &ty.inner, place)?;
    }
    Ok(())
}

/// 32 bits count the members of the type with this handle, if it is a struct.
fn check_count(place: usize, inner: &TypeInner) -> Result<(), Misfit>
    ensures { Finds (FirstOf (member_count_points place inner.now)) result }
{
    match inner {
        TypeInner::Struct { members, .. } => {
            Place::InType(TypeOwner::OfModule(place), TypeField::Members).counts(members.len())
        }
        _ => Ok(()),
    }
}

/// The same of each type.
fn check_counts(types: &[Type]) -> Result<(), Misfit>
    ensures { Finds (FirstOf (points_of_each count_points types.now)) result }
{
    for (place, ty) in types.iter().enumerate() {
        check_count(place, &ty.inner)?;
    }
    Ok(())
}

/// The type of each constant is one of so many.
fn check_constants(constants: &[Constant], types: usize) -> Result<(), Misfit>
    ensures { Finds (FirstOf (points_of_each (constant_points types) constants.now)) result }
{
    for (place, constant) in constants.iter().enumerate() {
        Place::ConstantType(place).names(HandleOf::Types, constant.ty.index(), types)?;
    }
    Ok(())
}

/// And that of each override.
fn check_overrides(overrides: &[Override], types: usize) -> Result<(), Misfit>
    ensures { Finds (FirstOf (points_of_each (override_points types) overrides.now)) result }
{
    for (place, item) in overrides.iter().enumerate() {
        Place::OverrideType(place).names(HandleOf::Types, item.ty.index(), types)?;
    }
    Ok(())
}
