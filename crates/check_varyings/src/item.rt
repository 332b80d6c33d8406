//! The check of an item: naga 30.0.1's `VaryingContext::validate`.

ghost use Rattle.std.specs.Prelude.{◌≡◌, ◌<◌, ◌≤◌, ℕ, All, IsTrue, None, [], ◌∷◌, OnOk, OnErr, false, length, not};
ghost use Rattle.ir_arena.specs.Points.{first_fault};
ghost use Rattle.ir_facts.specs.Fits.{MemberCountFits};
ghost use Rattle.ir_facts.specs.FitsBody.{FitsCount};
ghost use Rattle.ir_types.specs.Types.{NameEachOther};
ghost use Rattle.ir_facts.specs.Answers.{Answers, FirstOf, read_by};
ghost use Rattle.check_varyings.specs.CodeVaryings.{far_less, seen_more, with_location};
ghost use Rattle.ir_facts.specs.WhatIsChecked.{checks_bindings};
ghost use Rattle.ir_errors.specs.declared.interface.VaryingError.TheVariants.{MissingBinding};
ghost use Rattle.check_varyings.specs.VaryingFaults.{Itself, varying_fault_of};
ghost use Rattle.check_varyings.specs.Varyings.{Bound, bound_points, blend_points, member_part, member_parts, part_points, parts_of, points_behind, points_from, far_in, seen_in, seen_with};

use crate::built_in::check_built_in;
use crate::context::VaryingContext;
use crate::holds::bound_holds;
use crate::location::{Location, check_location, may_take};
use crate::varying::{VaryingPlace, VaryingState, far_location};
use ir_arena::handle::Handle;
use ir_arena::span::Refusal;
use ir_arena::tag;
use ir_errors::interface::VaryingError;
use ir_flags::valid::ValidationFlags;
use ir_leaves::bindings::Binding;
use ir_leaves::stage::ShaderStage;
use ir_types::type_info::{TypeInfo, is_shareable};
use ir_types::types::{StructMember, Type, TypeInner};
use ir_types::unique_arena::UniqueArena;
use std::alloc::{AllocError, Global};

/// Checks an item (an argument, a result or a mesh output) at its place, and answers the fault of its first bad part.
///
/// An item with a binding is one part. The parts of a struct without a binding are its members. If such a struct is
/// shared between stages, it is the two sources of a blend. `state` has the locations and built-ins of earlier items
/// of the group; those of this item are added to it. An Err, out of memory too, leaves the state as it was. `infos` is
/// indexed by the types of the module.
///
/// - A built-in: `DuplicateBuiltIn`, `UnsupportedCapability`, `InvalidMultiDimensionalSubgroupBuiltIn`,
///   `InvalidBuiltInStage`, `InvalidBuiltInType`, which carries the part's own type and so may find no memory.
/// - A location: `UnsupportedCapability`, `InvalidInterpolationInStage`, `InvalidPerVertexSampling`,
///   `PerVertexNotArrayOfThree`, `NotIOShareableType`, `MissingPerPrimitive`, `InvalidPerPrimitive`,
///   `BlendSrcNotOnStructMember`, `BindingCollision`, `InvalidInterpolationSamplingCombination`, `InvalidType`,
///   `MissingInterpolation`, `InvalidInterpolationForInteger`.
/// - The sources of a blend: `InvalidAttributeInStage`, `InvalidInputAttributeInStage`, `BindingCollision`.
/// - Nothing that is bound: `MissingBinding`, `MemberMissingBinding`.
pub fn check_varying_item(
    alloc: Global,
    place: &VaryingPlace,
    state: &mut VaryingState,
    types: &UniqueArena<Type>,
    infos: &[TypeInfo],
    ty: Handle<tag::Type>,
    binding: Option<Binding>,
) -> Result<(), Refusal<VaryingError>>
    requires ty { ty < length types.now }
    requires one_info_each { length infos.now ≡ length types.now }
    requires types { NameEachOther types.now }
    requires counts { All (λ t. MemberCountFits t.inner) types.now }
    ensures fault { Answers (FirstOf (points_from place.now types.now infos.now (seen_in state.old) ty binding))
        (read_by varying_fault_of result) }
    ensures seen { OnOk result (seen_in state.new ≡ seen_with (seen_in state.old) (parts_of types.now infos.now ty binding)) }
    ensures refused { OnErr result (seen_in state.new ≡ seen_in state.old) }
{
    let context = VaryingContext {
        alloc,
        place,
        types,
        infos,
    };
    match binding {
        Some(binding) => check_bound_item(&context, state, ty, binding),
        None => check_unbound_item(&context, state, ty),
    }
}

/// Takes an item at once, if it is bound, shows at once that none of its points fails, and takes no memory: the state has seen it
/// too then. Otherwise the state has seen what it had, and [`check_varying_item`] decides. It makes no fault and answers none, so
/// a loop over items asks it first.
pub fn take_at_once(
    alloc: Global,
    place: &VaryingPlace,
    state: &mut VaryingState,
    types: &UniqueArena<Type>,
    infos: &[TypeInfo],
    ty: Handle<tag::Type>,
    binding: Option<Binding>,
) -> bool
    requires ty { ty < length types.now }
    requires one_info_each { length infos.now ≡ length types.now }
    requires types { NameEachOther types.now }
    ensures holds { IsTrue result →
        first_fault (points_from place.now types.now infos.now (seen_in state.old) ty binding) ≡ None }
    ensures seen { IsTrue result →
        seen_in state.new ≡ seen_with (seen_in state.old) (parts_of types.now infos.now ty binding) }
    ensures stays { result ≡ false → seen_in state.new ≡ seen_in state.old }
{
    let context = VaryingContext {
        alloc,
        place,
        types,
        infos,
    };
    match binding {
        Some(binding) => take_bound_at_once(&context, state, ty, binding),
        None => false,
    }
}

/// The same of what is bound.
fn take_bound_at_once(
    context: &VaryingContext,
    state: &mut VaryingState,
    ty: Handle<tag::Type>,
    binding: Binding,
) -> bool
    requires ty { ty < length context.now.types.now }
    requires infos { length context.now.infos.now ≡ length context.now.types.now }
    requires types { NameEachOther context.now.types.now }
    ensures holds { IsTrue result → first_fault (part_points context.now.place.now context.now.types.now
        context.now.infos.now (seen_in state.old) (Bound ty binding)) ≡ None }
    ensures seen { IsTrue result → seen_in state.new ≡ seen_more (seen_in state.old) binding }
    ensures stays { result ≡ false → seen_in state.new ≡ seen_in state.old }
{
    if far_location(binding).is_some() {
        return false;
    }
    if !bound_holds(context, state, ty, binding) {
        return false;
    }
    state.put_near(binding);
    true
}

/// An item with a binding. A refused call leaves the state as it was.
fn check_bound_item(
    context: &VaryingContext,
    state: &mut VaryingState,
    ty: Handle<tag::Type>,
    binding: Binding,
) -> Result<(), Refusal<VaryingError>>
    requires ty { ty < length context.now.types.now }
    requires infos { length context.now.infos.now ≡ length context.now.types.now }
    requires types { NameEachOther context.now.types.now }
    ensures fault { Answers
        (FirstOf (part_points context.now.place.now context.now.types.now context.now.infos.now (seen_in state.old)
        (Bound ty binding))) (read_by varying_fault_of result) }
    ensures seen { OnOk result (seen_in state.new ≡ seen_more (seen_in state.old) binding) }
    ensures refused { OnErr result (seen_in state.new ≡ seen_in state.old) }
{
    if !bound_holds(context, state, ty, binding) {
        return check_rarer_item(context, state, ty, binding);
    }
    state.put(binding)?;
    Ok(())
}

/// The same where it doesn't show at once that nothing of it fails. It stands apart, since it clears room for its faults whenever
/// it is called.
#[cold]
#[inline(never)]
fn check_rarer_item(
    context: &VaryingContext,
    state: &mut VaryingState,
    ty: Handle<tag::Type>,
    binding: Binding,
) -> Result<(), Refusal<VaryingError>>
    requires ty { ty < length context.now.types.now }
    requires infos { length context.now.infos.now ≡ length context.now.types.now }
    requires types { NameEachOther context.now.types.now }
    ensures fault { Answers
        (FirstOf (part_points context.now.place.now context.now.types.now context.now.infos.now (seen_in state.old)
        (Bound ty binding))) (read_by varying_fault_of result) }
    ensures seen { OnOk result (seen_in state.new ≡ seen_more (seen_in state.old) binding) }
    ensures refused { OnErr result (seen_in state.new ≡ seen_in state.old) }
{
    first_fault_of_bound(context, state, ty, binding)?;
    state.put(binding)?;
    Ok(())
}

/// An item without binding. A refused call leaves the state as it was. It stands apart, since it clears room for its faults
/// whenever it is called.
#[inline(never)]
fn check_unbound_item(
    context: &VaryingContext,
    state: &mut VaryingState,
    ty: Handle<tag::Type>,
) -> Result<(), Refusal<VaryingError>>
    requires ty { ty < length context.now.types.now }
    requires infos { length context.now.infos.now ≡ length context.now.types.now }
    requires types { NameEachOther context.now.types.now }
    requires counts { All (λ t. MemberCountFits t.inner) context.now.types.now }
    ensures fault { Answers
        (FirstOf (points_from context.now.place.now context.now.types.now context.now.infos.now (seen_in state.old)
        ty None)) (read_by varying_fault_of result) }
    ensures seen { OnOk result
        (seen_in state.new ≡ seen_with (seen_in state.old) (parts_of context.now.types.now context.now.infos.now ty None)) }
    ensures refused { OnErr result (seen_in state.new ≡ seen_in state.old) }
{
    let TypeInner::Struct { members, .. } = context.inner(ty) else {
        return check_unbound(context);
    };
    if is_shareable(context.infos, ty) {
        check_blend_sources(context, state)
    } else {
        check_struct(context, state, members.as_slice())
    }
}

/// An item without binding that is no struct.
fn check_unbound(context: &VaryingContext) -> Result<(), Refusal<VaryingError>>
    ensures { Answers (FirstOf ((not (checks_bindings context.now.place.now.flags), Itself MissingBinding) ∷ []))
        (read_by varying_fault_of result) }
{
    if context.place.flags.contains(ValidationFlags::BINDINGS) {
        return Err(context.refusal(VaryingError::MissingBinding));
    }
    Ok(())
}

/// The list of what is bound, with the fault of each point, where the state has seen these.
fn first_fault_of_bound(
    context: &VaryingContext,
    state: &VaryingState,
    ty: Handle<tag::Type>,
    binding: Binding,
) -> Result<(), Refusal<VaryingError>>
    requires ty { ty < length context.now.types.now }
    requires infos { length context.now.infos.now ≡ length context.now.types.now }
    requires types { NameEachOther context.now.types.now }
    ensures { Answers (FirstOf (bound_points context.now.place.now context.now.types.now context.now.infos.now
        (seen_in state.now) ty binding)) result }
{
    match binding {
        Binding::BuiltIn(built_in) => check_built_in(context, state, ty, built_in),
        Binding::Location {
            location,
            interpolation,
            sampling,
            blend_src,
            per_primitive,
        } => {
            let at = Location {
                location,
                interpolation,
                sampling,
                blend_src,
                per_primitive,
            };
            match check_location(context, state, ty, at) {
                Ok(()) => Ok(()),
                Err(fault) => Err(context.refusal(fault)),
            }
        }
    }
}

/// A member of a struct, with its index. A location that it puts into the state, that takes memory and wasn't there goes last
/// into `added`, before it is put there.
fn check_member(
    context: &VaryingContext,
    state: &mut VaryingState,
    added: &mut Vec<u32>,
    index: u32,
    member: &StructMember,
) -> Result<(), Refusal<VaryingError>>
    requires ty { member.now.ty < length context.now.types.now }
    requires infos { length context.now.infos.now ≡ length context.now.types.now }
    requires types { NameEachOther context.now.types.now }
    ensures fault { Answers
        (FirstOf (part_points context.now.place.now context.now.types.now context.now.infos.now (seen_in state.old)
        (member_part index member.now.ty member.now.binding))) (read_by varying_fault_of result) }
    ensures seen { OnOk result
        (seen_in state.new ≡ seen_with (seen_in state.old) (member_part index member.now.ty member.now.binding ∷ [])) }
    ensures added { (l : ℕ) → far_less (far_in state.new) added.new.items l ≡ far_less (far_in state.old) added.old.items l }
{
    let Some(binding) = member.binding else {
        if context.place.flags.contains(ValidationFlags::BINDINGS) {
            return Err(context.refusal(VaryingError::MemberMissingBinding(index)));
        }
        return Ok(());
    };
    if !bound_holds(context, state, member.ty, binding) {
        return check_rarer_member(context, state, added, member.ty, binding);
    }
    hold(state, added, binding)?;
    Ok(())
}

/// A member of this type that is bound, where it doesn't show at once that nothing of it fails.
#[cold]
#[inline(never)]
fn check_rarer_member(
    context: &VaryingContext,
    state: &mut VaryingState,
    added: &mut Vec<u32>,
    ty: Handle<tag::Type>,
    binding: Binding,
) -> Result<(), Refusal<VaryingError>>
    requires ty { ty < length context.now.types.now }
    requires infos { length context.now.infos.now ≡ length context.now.types.now }
    requires types { NameEachOther context.now.types.now }
    ensures fault { Answers
        (FirstOf (part_points context.now.place.now context.now.types.now context.now.infos.now (seen_in state.old)
        (Bound ty binding))) (read_by varying_fault_of result) }
    ensures seen { OnOk result (seen_in state.new ≡ seen_with (seen_in state.old) (Bound 0 binding ∷ [])) }
    ensures added { (l : ℕ) → far_less (far_in state.new) added.new.items l ≡ far_less (far_in state.old) added.old.items l }
{
    first_fault_of_bound(context, state, ty, binding)?;
    hold(state, added, binding)?;
    Ok(())
}

/// Puts in what is bound. A location that takes memory and wasn't there goes last into `added`, before it is put there.
fn hold(state: &mut VaryingState, added: &mut Vec<u32>, binding: Binding) -> Result<(), AllocError>
    ensures seen { OnOk result (seen_in state.new ≡ seen_with (seen_in state.old) (Bound 0 binding ∷ [])) }
    ensures added { (l : ℕ) → far_less (far_in state.new) added.new.items l ≡ far_less (far_in state.old) added.old.items l }
{
    match far_location(binding) {
        Some(location) => hold_far(state, added, location),
        None => {
            state.put_near(binding);
            Ok(())
        }
    }
}

/// Takes a location from 64 on. One that wasn't taken goes last into `added`, before it is.
fn hold_far(state: &mut VaryingState, added: &mut Vec<u32>, location: u32) -> Result<(), AllocError>
    requires { 64 ≤ location }
    ensures seen { OnOk result (seen_in state.new ≡ with_location (seen_in state.old) location) }
    ensures added { (l : ℕ) → far_less (far_in state.new) added.new.items l ≡ far_less (far_in state.old) added.old.items l }
{
    if state.has_location(location) {
        return Ok(());
    }
    added.push(location)?;
    state.put_far(location)
}

/// The members of a struct, in order. The locations that take memory and that they add to the state go into `added`.
fn check_members(
    context: &VaryingContext,
    state: &mut VaryingState,
    added: &mut Vec<u32>,
    members: &[StructMember],
) -> Result<(), Refusal<VaryingError>>
    requires members { All (λ m. m.ty < length context.now.types.now) members.now }
    requires count { FitsCount (length members.now) }
    requires infos { length context.now.infos.now ≡ length context.now.types.now }
    requires types { NameEachOther context.now.types.now }
    ensures fault { Answers
        (FirstOf (points_behind context.now.place.now context.now.types.now context.now.infos.now (seen_in state.old)
        [] (member_parts 0 members.now))) (read_by varying_fault_of result) }
    ensures seen { OnOk result (seen_in state.new ≡ seen_with (seen_in state.old) (member_parts 0 members.now)) }
    ensures added { (l : ℕ) → far_less (far_in state.new) added.new.items l ≡ far_less (far_in state.old) added.old.items l }
{
    for (index, member) in members.iter().enumerate() {
        check_member(context, state, added, index as u32, member)?;
    }
    Ok(())
}

/// A struct without binding that isn't shared between stages. A refused call leaves the state as it was.
fn check_struct(
    context: &VaryingContext,
    state: &mut VaryingState,
    members: &[StructMember],
) -> Result<(), Refusal<VaryingError>>
    requires members { All (λ m. m.ty < length context.now.types.now) members.now }
    requires count { FitsCount (length members.now) }
    requires infos { length context.now.infos.now ≡ length context.now.types.now }
    requires types { NameEachOther context.now.types.now }
    ensures fault { Answers
        (FirstOf (points_behind context.now.place.now context.now.types.now context.now.infos.now (seen_in state.old)
        [] (member_parts 0 members.now))) (read_by varying_fault_of result) }
    ensures seen { OnOk result (seen_in state.new ≡ seen_with (seen_in state.old) (member_parts 0 members.now)) }
    ensures refused { OnErr result (seen_in state.new ≡ seen_in state.old) }
{
    let near = state.near();
    let mut added = Vec::new(context.alloc);
    match check_members(context, state, &mut added, members) {
        Ok(()) => Ok(()),
        Err(refused) => {
            state.go_back(near, added.as_slice());
            Err(refused)
        }
    }
}

/// A struct without binding that is shared between stages, the two sources of a blend. A refused call leaves the state
/// as it was.
fn check_blend_sources(
    context: &VaryingContext,
    state: &mut VaryingState,
) -> Result<(), Refusal<VaryingError>>
    ensures fault { Answers (FirstOf (blend_points context.now.place.now (seen_in state.old)))
        (read_by varying_fault_of result) }
    ensures seen { OnOk result (seen_in state.new ≡ with_location (seen_in state.old) 0) }
    ensures refused { OnErr result (seen_in state.new ≡ seen_in state.old) }
{
    let place = context.place;
    if place.stage != ShaderStage::Fragment {
        let fault = VaryingError::InvalidAttributeInStage("blend_src", place.stage);
        return Err(context.refusal(fault));
    }
    if !place.output {
        let fault = VaryingError::InvalidInputAttributeInStage("blend_src", place.stage);
        return Err(context.refusal(fault));
    }
    if !may_take(place, state, 0) {
        return Err(context.refusal(VaryingError::BindingCollision { location: 0 }));
    }
    state.put_low(0);
    Ok(())
}
