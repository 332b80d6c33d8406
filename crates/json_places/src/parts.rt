//! The inputs and outputs of an entry point that have a binding, one by one.

use crate::spot::Spot;
use naga_below::{Binding, BuiltIn, EntryPoint, Handle, Module, StructMember, TypeInner, tag};
use naga_rules::VaryingError;
use std::alloc::{AllocError, Global};

/// An argument, a result or a member of a struct, with its binding.
#[derive(Clone, Copy)]
pub struct BoundSpot {
    pub spot: Spot,
    pub binding: Binding,
}

/// Inputs or outputs of an entry point.
#[derive(Clone, Copy)]
pub enum Group {
    /// This argument.
    Argument(usize),
    /// The arguments up to this one.
    Arguments(usize),
    Returned,
    /// The outputs of each vertex, and then those of each primitive.
    Mesh,
}

/// What has a binding in a group, in order. An Err is out of memory.
pub fn bounds_of(
    alloc: Global,
    module: &Module,
    ep: &EntryPoint,
    group: Group,
) -> Result<Vec<BoundSpot>, AllocError> {
    let mut bounds = Vec::new(alloc);
    add_group(&mut bounds, module, ep, group)?;
    Ok(bounds)
}

/// Adds what has a binding in a group.
fn add_group(
    bounds: &mut Vec<BoundSpot>,
    module: &Module,
    ep: &EntryPoint,
    group: Group,
) -> Result<(), AllocError> {
    match group {
        Group::Argument(index) => add_arguments(bounds, module, ep, index, index),
        Group::Arguments(index) => add_arguments(bounds, module, ep, 0, index),
        Group::Returned => match &ep.function.result {
            Some(returned) => {
                add(
                    bounds,
                    module,
                    Spot::Returned,
                    returned.ty,
                    &returned.binding,
                )
            }
            None => Ok(()),
        },
        Group::Mesh => match &ep.mesh_info {
            Some(mesh) => {
                add(bounds, module, Spot::Whole, mesh.vertex_output_type, &None)?;
                add(
                    bounds,
                    module,
                    Spot::Whole,
                    mesh.primitive_output_type,
                    &None,
                )
            }
            None => Ok(()),
        },
    }
}

/// Adds what has a binding in the arguments from the first of these to the last.
fn add_arguments(
    bounds: &mut Vec<BoundSpot>,
    module: &Module,
    ep: &EntryPoint,
    first: usize,
    last: usize,
) -> Result<(), AllocError> {
    for (index, argument) in ep.function.arguments.as_slice().iter().enumerate() {
        if first <= index && index <= last {
            add(
                bounds,
                module,
                Spot::Argument(index),
                argument.ty,
                &argument.binding,
            )?;
        }
    }
    Ok(())
}

/// Adds something with its binding, or, where it has none and is a struct, each member that has one.
fn add(
    bounds: &mut Vec<BoundSpot>,
    module: &Module,
    spot: Spot,
    ty: Handle<tag::Type>,
    binding: &Option<Binding>,
) -> Result<(), AllocError> {
    if let Some(binding) = binding {
        bounds.push(BoundSpot {
            spot,
            binding: *binding,
        })?;
        return Ok(());
    }
    for (index, member) in members_of(module, ty).iter().enumerate() {
        if let Some(binding) = member.binding {
            let spot = Spot::Member { ty, index };
            bounds.push(BoundSpot { spot, binding })?;
        }
    }
    Ok(())
}

/// The members of a struct, and none of what is no struct.
pub fn members_of(module: &Module, ty: Handle<tag::Type>) -> &[StructMember] {
    match module.types.as_slice().get(ty.index()) {
        Some(ty) => match &ty.inner {
            TypeInner::Struct { members, .. } => members.as_slice(),
            _ => &[],
        },
        None => &[],
    }
}

/// The first that has the location or the built-in of a fault.
pub fn first_of(bounds: &[BoundSpot], fault: &VaryingError) -> Option<Spot> {
    for bound in bounds {
        if is_named(fault, &bound.binding) {
            return Some(bound.spot);
        }
    }
    None
}

/// The second that has the location or the built-in of a fault.
pub(crate) fn second_of(bounds: &[BoundSpot], fault: &VaryingError) -> Option<Spot> {
    let mut is_second = false;
    for bound in bounds {
        if is_named(fault, &bound.binding) {
            if is_second {
                return Some(bound.spot);
            }
            is_second = true;
        }
    }
    None
}

/// Whether a fault names the location or the built-in of a binding.
fn is_named(fault: &VaryingError, binding: &Binding) -> bool {
    match fault {
        VaryingError::BindingCollision { location: taken } => match binding {
            Binding::Location { location, .. } => *location == *taken,
            Binding::BuiltIn(_) => false,
        },
        VaryingError::DuplicateBuiltIn(named)
        | VaryingError::InvalidBuiltInStage(named)
        | VaryingError::InvalidBuiltInType(named, _) => match binding {
            Binding::BuiltIn(built_in) => is_same(*built_in, *named),
            Binding::Location { .. } => false,
        },
        _ => false,
    }
}

/// Whether two built-ins count as one: `invariant` and `perspective` don't distinguish them.
fn is_same(one: BuiltIn, other: BuiltIn) -> bool {
    match one {
        BuiltIn::Position { .. } => matches!(other, BuiltIn::Position { .. }),
        BuiltIn::Barycentric { .. } => matches!(other, BuiltIn::Barycentric { .. }),
        _ => one == other,
    }
}
