//! Tests that what is bound holds, which make no fault. They let through most of what is bound.

ghost use Rattle.std.specs.Prelude.{◌≡◌, ◌<◌, ℕ, IsTrue, None, false, length};
ghost use Rattle.ir_arena.specs.Points.{first_fault};
ghost use Rattle.ir_types.specs.Types.{NameEachOther, inner_at};
ghost use Rattle.check_varyings.specs.Locations.{combination_points, interpolation_points, is_flat, is_per_vertex, is_sample, kind_points, location_points};
ghost use Rattle.check_varyings.specs.Varyings.{bound_points, built_in_points, seen_in};

use crate::built_in::{has_mesh_shader, has_type, missing, suits_work_group};
use crate::context::VaryingContext;
use crate::location::{Location, go_together, is_interpolated, may_take};
use crate::rule::{builtin_rule, is_primitive_output};
use crate::varying::{VaryingState, canonical};
use ir_arena::handle::Handle;
use ir_arena::tag;
use ir_flags::capabilities::Capabilities;
use ir_leaves::bindings::{Binding, Interpolation, Sampling};
use ir_leaves::built_in::BuiltIn;
use ir_leaves::scalars::ScalarKind;
use ir_types::type_info::is_shareable;

/// Whether no point of what is bound fails, as far as these tests show. Where they don't, `first_fault_of_bound` decides.
pub(crate) fn bound_holds(
    context: &VaryingContext,
    state: &VaryingState,
    ty: Handle<tag::Type>,
    binding: Binding,
) -> bool
    requires ty { ty < length context.now.types.now }
    requires infos { length context.now.infos.now ≡ length context.now.types.now }
    requires types { NameEachOther context.now.types.now }
    ensures { IsTrue result → first_fault (bound_points context.now.place.now context.now.types.now
        context.now.infos.now (seen_in state.now) ty binding) ≡ None }
{
    match binding {
        Binding::BuiltIn(built_in) => built_in_holds(context, state, ty, built_in),
        Binding::Location {
            location,
            interpolation,
            sampling,
            blend_src,
            per_primitive,
        } => {
            let at = Location {
                location,
                interpolation,
                sampling,
                blend_src,
                per_primitive,
            };
            location_holds(context, state, ty, at)
        }
    }
}

/// A built-in.
fn built_in_holds(
    context: &VaryingContext,
    state: &VaryingState,
    ty: Handle<tag::Type>,
    built_in: BuiltIn,
) -> bool
    requires ty { ty < length context.now.types.now }
    requires types { NameEachOther context.now.types.now }
    ensures { IsTrue result → first_fault (built_in_points context.now.place.now context.now.types.now (seen_in state.now)
        (inner_at context.now.types.now ty) built_in) ≡ None }
{
    let place = context.place;
    if state.has_built_in(canonical(built_in)) {
        return false;
    }
    let rule = builtin_rule(built_in, place);
    missing(place.capabilities, rule.required).is_none()
        && suits_work_group(place, built_in)
        && has_mesh_shader(place, rule.mesh_shader)
        && rule.visible
        && has_type(context.types, context.inner(ty), &rule.ty)
}

/// A location that is neither by primitive nor for each vertex.
#[tactic(auto, using(crate::proofs::Holding::plain_holds))]
fn location_holds(
    context: &VaryingContext,
    state: &VaryingState,
    ty: Handle<tag::Type>,
    at: Location,
) -> bool
    requires ty { ty < length context.now.types.now }
    requires infos { length context.now.infos.now ≡ length context.now.types.now }
    requires types { NameEachOther context.now.types.now }
    ensures { IsTrue result → first_fault (location_points context.now.place.now context.now.types.now context.now.infos.now
        (seen_in state.now) ty at.location at.interpolation at.sampling at.blend_src at.per_primitive) ≡ None }
{
    !at.per_primitive
        && !is_per_vertex(at.interpolation)
        && at.blend_src.is_none()
        && is_shareable(context.infos, ty)
        && !is_primitive_output(context.place)
        && may_take(context.place, state, at.location)
        && interpolation_holds(context, ty, at.interpolation, at.sampling)
}

/// How a type is interpolated that isn't given for each vertex.
#[tactic(auto, using(crate::proofs::Holding::interpolation_all_hold))]
fn interpolation_holds(
    context: &VaryingContext,
    ty: Handle<tag::Type>,
    interpolation: Option<Interpolation>,
    sampling: Option<Sampling>,
) -> bool
    requires ty { ty < length context.now.types.now }
    requires types { NameEachOther context.now.types.now }
    ensures { IsTrue result → is_per_vertex interpolation ≡ false → first_fault (interpolation_points context.now.place.now
        context.now.types.now ty interpolation sampling false) ≡ None }
{
    combination_holds(interpolation, sampling)
        && (!is_sample(sampling)
            || context
                .place
                .capabilities
                .contains(Capabilities::MULTISAMPLED_SHADING))
        && kind_holds(
            is_interpolated(context.place, false),
            interpolation,
            context.inner(ty).scalar_kind(),
        )
}

fn is_per_vertex(interpolation: Option<Interpolation>) -> bool
    ensures { result ≡ is_per_vertex interpolation }
{
    match interpolation {
        Some(Interpolation::PerVertex) => true,
        Some(Interpolation::Perspective | Interpolation::Linear | Interpolation::Flat) | None =>
            false,
    }
}

fn is_flat(interpolation: Option<Interpolation>) -> bool
    ensures { result ≡ is_flat interpolation }
{
    match interpolation {
        Some(Interpolation::Flat) => true,
        Some(Interpolation::Perspective | Interpolation::Linear | Interpolation::PerVertex)
        | None => false,
    }
}

fn is_sample(sampling: Option<Sampling>) -> bool
    ensures { result ≡ is_sample sampling }
{
    match sampling {
        Some(Sampling::Sample) => true,
        Some(Sampling::Center | Sampling::Centroid | Sampling::First | Sampling::Either) | None =>
            false,
    }
}

fn combination_holds(interpolation: Option<Interpolation>, sampling: Option<Sampling>) -> bool
    ensures { IsTrue result → first_fault (combination_points interpolation sampling) ≡ None }
{
    match interpolation {
        Some(interpolation) => match sampling {
            Some(sampling) => go_together(interpolation, sampling),
            None => true,
        },
        None => true,
    }
}

fn kind_holds(
    interpolated: bool,
    interpolation: Option<Interpolation>,
    kind: Option<ScalarKind>,
) -> bool
    ensures { (ty : ℕ) → IsTrue result → first_fault (kind_points interpolated interpolation ty kind) ≡ None }
{
    match kind {
        Some(ScalarKind::Float) => !interpolated || interpolation.is_some(),
        Some(ScalarKind::Sint | ScalarKind::Uint) => { !interpolated || is_flat(interpolation) }
        Some(ScalarKind::Bool | ScalarKind::AbstractInt | ScalarKind::AbstractFloat) | None =>
            false,
    }
}
