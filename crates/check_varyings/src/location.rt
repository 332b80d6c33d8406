//! The check list of a location.

ghost use Rattle.std.specs.Prelude.{◌≡◌, ◌<◌, ◌||◌, ◌++◌, Some, length};
ghost use Rattle.ir_types.specs.Types.{NameEachOther};
ghost use Rattle.check_varyings.specs.Locations.{carried_type, go_together, interpolation_points, is_array_of_three, is_fragment_input, is_interpolated, kind_points, location_points, may_take, per_vertex_points, sharing_points};
ghost use Rattle.check_varyings.specs.Varyings.{seen_in};
ghost use Rattle.ir_facts.specs.Answers.{Finds, FirstOf};

use crate::built_in::has_mesh_shader;
use crate::context::VaryingContext;
use crate::varying::{MeshOutputType, VaryingPlace, VaryingState};
use ir_arena::handle::Handle;
use ir_arena::tag;
use ir_errors::interface::VaryingError;
use ir_flags::capabilities::Capabilities;
use ir_flags::valid::ValidationFlags;
use ir_leaves::bindings::{Interpolation, Sampling};
use ir_leaves::scalars::ScalarKind;
use ir_leaves::stage::ShaderStage;
use ir_types::type_info::is_shareable;
use ir_types::types::{ArraySize, TypeInner};

/// What a binding says of a location.
#[derive(Clone, Copy)]
pub(crate) struct Location {
    pub(crate) location: u32,
    pub(crate) interpolation: Option<Interpolation>,
    pub(crate) sampling: Option<Sampling>,
    pub(crate) blend_src: Option<u32>,
    pub(crate) per_primitive: bool,
}

/// What is bound to a location: by primitive with mesh shaders alone; for each vertex; how it is shared between stages;
/// and how it is interpolated.
pub(crate) fn check_location(
    context: &VaryingContext,
    state: &VaryingState,
    ty: Handle<tag::Type>,
    at: Location,
) -> Result<(), VaryingError>
    requires ty { ty < length context.now.types.now }
    requires infos { length context.now.infos.now ≡ length context.now.types.now }
    requires types { NameEachOther context.now.types.now }
    ensures { Finds (FirstOf (location_points context.now.place.now context.now.types.now context.now.infos.now
        (seen_in state.now) ty at.location at.interpolation at.sampling at.blend_src at.per_primitive)) result }
{
    if !has_mesh_shader(context.place, at.per_primitive) {
        return Err(VaryingError::UnsupportedCapability(Capabilities::MESH_SHADER));
    }
    check_per_vertex(context, ty, at.interpolation, at.sampling)?;
    check_carried(
        context,
        state,
        carried_type(context, ty, at.interpolation),
        at,
    )
}

/// What is given for each vertex: at the fragment stage alone, with the capability, at the center, and of an array of
/// 3.
fn check_per_vertex(
    context: &VaryingContext,
    ty: Handle<tag::Type>,
    interpolation: Option<Interpolation>,
    sampling: Option<Sampling>,
) -> Result<(), VaryingError>
    requires ty { ty < length context.now.types.now }
    requires types { NameEachOther context.now.types.now }
    ensures { Finds (FirstOf (per_vertex_points context.now.place.now context.now.types.now ty interpolation sampling)) result }
{
    let place = context.place;
    if interpolation != Some(Interpolation::PerVertex) {
        return Ok(());
    }
    if place.stage != ShaderStage::Fragment {
        return Err(VaryingError::InvalidInterpolationInStage(
            Interpolation::PerVertex,
            ShaderStage::Fragment,
        ));
    }
    if !place.capabilities.contains(Capabilities::PER_VERTEX) {
        return Err(VaryingError::UnsupportedCapability(Capabilities::PER_VERTEX));
    }
    match sampling {
        None | Some(Sampling::Center) => {}
        Some(_) => return Err(VaryingError::InvalidPerVertexSampling),
    }
    if !is_array_of_three(context.inner(ty)) {
        return Err(VaryingError::PerVertexNotArrayOfThree);
    }
    Ok(())
}

/// Whether a type is an array of 3.
fn is_array_of_three(inner: &TypeInner) -> bool
    ensures { result ≡ is_array_of_three (Some inner.now) }
{
    match inner {
        TypeInner::Array {
            size: ArraySize::Constant(count),
            ..
        } => count.get() == 3,
        _ => false,
    }
}

/// The type that a location carries: for each vertex that of an item of the array.
fn carried_type(
    context: &VaryingContext,
    ty: Handle<tag::Type>,
    interpolation: Option<Interpolation>,
) -> Handle<tag::Type>
    requires ty { ty < length context.now.types.now }
    requires types { NameEachOther context.now.types.now }
    ensures carried { result ≡ carried_type context.now.types.now ty interpolation }
    ensures in_range { result < length context.now.types.now }
{
    if interpolation != Some(Interpolation::PerVertex) {
        return ty;
    }
    match context.inner(ty) {
        TypeInner::Array { base, .. } => *base,
        _ => ty,
    }
}

/// The carried type: how it is shared between stages, and how it is interpolated.
fn check_carried(
    context: &VaryingContext,
    state: &VaryingState,
    ty: Handle<tag::Type>,
    at: Location,
) -> Result<(), VaryingError>
    requires ty { ty < length context.now.types.now }
    requires infos { length context.now.infos.now ≡ length context.now.types.now }
    requires types { NameEachOther context.now.types.now }
    ensures { Finds (FirstOf (
        sharing_points context.now.place.now context.now.infos.now (seen_in state.now) ty at.location at.blend_src
        at.per_primitive
        ++ interpolation_points context.now.place.now context.now.types.now ty
        at.interpolation at.sampling at.per_primitive)) result }
{
    check_sharing(context, state, ty, at)?;
    check_interpolation(context, ty, at)
}

/// How the carried type is shared between stages: whether it may be; by primitive; from no blend source; its location.
fn check_sharing(
    context: &VaryingContext,
    state: &VaryingState,
    ty: Handle<tag::Type>,
    at: Location,
) -> Result<(), VaryingError>
    requires ty { ty < length context.now.types.now }
    requires infos { length context.now.infos.now ≡ length context.now.types.now }
    ensures { Finds (FirstOf (sharing_points context.now.place.now context.now.infos.now
        (seen_in state.now) ty at.location at.blend_src at.per_primitive)) result }
{
    let place = context.place;
    if !is_shareable(context.infos, ty) {
        return Err(VaryingError::NotIOShareableType(ty));
    }
    if place.mesh_output == MeshOutputType::PrimitiveOutput {
        if !at.per_primitive {
            return Err(VaryingError::MissingPerPrimitive);
        }
    } else if at.per_primitive && !is_fragment_input(place) {
        return Err(VaryingError::InvalidPerPrimitive);
    }
    if at.blend_src.is_some() {
        return Err(VaryingError::BlendSrcNotOnStructMember);
    }
    if !may_take(place, state, at.location) {
        return Err(VaryingError::BindingCollision {
            location: at.location,
        });
    }
    Ok(())
}

/// Whether the place is an input of the fragment stage.
fn is_fragment_input(place: &VaryingPlace) -> bool
    ensures { result ≡ is_fragment_input place.now }
{
    place.stage == ShaderStage::Fragment && !place.output
}

/// Whether a location is free, or the flag BINDINGS is off.
pub(crate) fn may_take(place: &VaryingPlace, state: &VaryingState, location: u32) -> bool
    ensures { result ≡ may_take place.now (seen_in state.now) location }
{
    !place.flags.contains(ValidationFlags::BINDINGS) || !state.has_location(location)
}

/// How the carried type is interpolated: whether the sampling goes with it and can be had; and the kind of the type.
fn check_interpolation(
    context: &VaryingContext,
    ty: Handle<tag::Type>,
    at: Location,
) -> Result<(), VaryingError>
    requires ty { ty < length context.now.types.now }
    requires types { NameEachOther context.now.types.now }
    ensures { Finds (FirstOf (interpolation_points context.now.place.now context.now.types.now ty
        at.interpolation at.sampling at.per_primitive)) result }
{
    let place = context.place;
    if let (Some(interpolation), Some(sampling)) = (at.interpolation, at.sampling)
        && !go_together(interpolation, sampling)
    {
        return Err(VaryingError::InvalidInterpolationSamplingCombination {
            interpolation,
            sampling,
        });
    }
    if at.sampling == Some(Sampling::Sample)
        && !place
            .capabilities
            .contains(Capabilities::MULTISAMPLED_SHADING)
    {
        return Err(VaryingError::UnsupportedCapability(Capabilities::MULTISAMPLED_SHADING));
    }
    if at.interpolation == Some(Interpolation::PerVertex) {
        return Ok(());
    }
    let interpolated = is_interpolated(place, at.per_primitive);
    check_kind(
        interpolated,
        at.interpolation,
        ty,
        context.inner(ty).scalar_kind(),
    )
}

/// Whether an interpolation goes with a sampling: none does for what is given for each vertex.
pub(crate) fn go_together(interpolation: Interpolation, sampling: Sampling) -> bool
    ensures { result ≡ go_together interpolation sampling }
{
    match interpolation {
        Interpolation::Perspective | Interpolation::Linear => {
            matches!(
                sampling,
                Sampling::Center | Sampling::Centroid | Sampling::Sample
            )
        }
        Interpolation::Flat => matches!(sampling, Sampling::First | Sampling::Either),
        Interpolation::PerVertex => false,
    }
}

/// Whether an interpolation is needed: for outputs of a vertex or mesh stage, and for fragment inputs that aren't per
/// primitive.
pub(crate) fn is_interpolated(place: &VaryingPlace, per_primitive: bool) -> bool
    ensures { result ≡ is_interpolated place.now.stage place.now.output per_primitive }
{
    match place.stage {
        ShaderStage::Vertex | ShaderStage::Mesh => place.output,
        ShaderStage::Fragment => !place.output && !per_primitive,
        ShaderStage::Compute
        | ShaderStage::Task
        | ShaderStage::RayGeneration
        | ShaderStage::AnyHit
        | ShaderStage::ClosestHit
        | ShaderStage::Miss => false,
    }
}

/// The kind of the carried type: where an interpolation is asked for, a float has one, and an integer is flat.
fn check_kind(
    interpolated: bool,
    interpolation: Option<Interpolation>,
    ty: Handle<tag::Type>,
    kind: Option<ScalarKind>,
) -> Result<(), VaryingError>
    ensures { Finds (FirstOf (kind_points interpolated interpolation ty kind)) result }
{
    match kind {
        Some(ScalarKind::Float) => {
            if interpolated && interpolation.is_none() {
                return Err(VaryingError::MissingInterpolation);
            }
        }
        Some(ScalarKind::Sint | ScalarKind::Uint) => {
            if interpolated && interpolation != Some(Interpolation::Flat) {
                return Err(VaryingError::InvalidInterpolationForInteger);
            }
        }
        Some(ScalarKind::Bool | ScalarKind::AbstractInt | ScalarKind::AbstractFloat) | None => {
            return Err(VaryingError::InvalidType(ty));
        }
    }
    Ok(())
}
