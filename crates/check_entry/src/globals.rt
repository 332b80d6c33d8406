//! The checks of the globals that an entry point uses.

ghost use Rattle.std.specs.Prelude.{◌≡◌, ◌++◌, IsTrue, None, Option, ℕ, length, slice_get};
ghost use Rattle.ir_arena.specs.Points.{first_fault};
ghost use Rattle.std.specs.Option.{option_copied};
ghost use Rattle.check_entry.specs.UsedGlobals.{is_used_immediate, used_immediates, immediate_points, image_access, access_in, ray_points, is_within, allowed_points, used_payload_points};
ghost use Rattle.ir_facts.specs.Answers.{Finds, FirstOf};

use bitflags::Flags;
use check_faults::entry::EntryPointError;
use check_variables::allowed::{allowed_use, hands_payload, takes_payload};
use check_variables::bindings::is_used;
use ir_arena::handle::Handle;
use ir_arena::tag;
use ir_facts::valid::info::FunctionInfo;
use ir_flags::ir::StorageAccess;
use ir_flags::valid::GlobalUse;
use ir_leaves::stage::ShaderStage;
use ir_module::module::{GlobalVariable, Module};
use ir_types::type_methods::inner_at;
use ir_types::types::{AddressSpace, ImageClass, TypeInner};

/// How a global is used.
pub(crate) fn use_at(info: &FunctionInfo, index: usize) -> Option<GlobalUse>
    ensures { result ≡ slice_get info.now.global_uses index }
{
    info.global_uses.as_slice().get(index).copied()
}

/// Of immediates at most one is used.
pub(crate) fn check_immediates(module: &Module, info: &FunctionInfo) -> Result<(), EntryPointError>
    ensures { Finds (FirstOf (immediate_points info.now.global_uses «module».now.global_variables)) result }
{
    if count_used_immediates(module, info) > 1 {
        return Err(EntryPointError::MoreThanOneImmediateUsed);
    }
    Ok(())
}

fn count_used_immediates(module: &Module, info: &FunctionInfo) -> usize
    ensures { result ≡ used_immediates info.now.global_uses «module».now.global_variables (length «module».now.global_variables) }
{
    let mut count = 0;
    for index in 0..module.global_variables.len() {
        if is_used_immediate(module, info, index) {
            count += 1;
        }
    }
    count
}

/// Whether a global is an immediate that is used.
pub(crate) fn is_used_immediate(module: &Module, info: &FunctionInfo, index: usize) -> bool
    ensures { result ≡ is_used_immediate info.now.global_uses «module».now.global_variables index }
{
    match module.global_variables.as_slice().get(index) {
        Some(global) => global.space.is_immediate() && is_used(info, index),
        None => false,
    }
}

/// Whether every use of a global is allowed, and the global holds no payload.
pub(crate) fn use_holds(
    module: &Module,
    stage: ShaderStage,
    var: &GlobalVariable,
    uses: GlobalUse,
) -> bool
    ensures { (payload : Option ℕ) (size : Option ℕ) (h : ℕ) → IsTrue result → first_fault
        (used_payload_points payload size h var.now.space ++ (ray_points stage var.now.space
        ++ allowed_points «module».now.types stage h var.now uses)) ≡ None }
{
    match var.space {
        AddressSpace::Private
        | AddressSpace::WorkGroup
        | AddressSpace::Uniform
        | AddressSpace::Storage { .. }
        | AddressSpace::Immediate => is_within(allowed_use(var.space, None, stage), uses),
        AddressSpace::Handle => {
            let storage = access_in(module, inner_at(module.types.as_slice(), var.ty));
            is_within(allowed_use(var.space, storage, stage), uses)
        }
        AddressSpace::Function
        | AddressSpace::TaskPayload
        | AddressSpace::RayPayload
        | AddressSpace::IncomingRayPayload => false,
    }
}

/// A ray payload is used at a stage that has one, and every use of a global is one that is allowed.
#[tactic(auto, using(crate::proofs::EntrySteps::finding))]
pub(crate) fn check_allowed(
    module: &Module,
    stage: ShaderStage,
    handle: Handle<tag::GlobalVariable>,
    var: &GlobalVariable,
    uses: GlobalUse,
) -> Result<(), EntryPointError>
    ensures { Finds (FirstOf (ray_points stage var.now.space ++ allowed_points «module».now.types stage handle var.now
        uses)) result }
{
    check_ray(stage, var.space)?;
    let storage = access_in(module, inner_at(module.types.as_slice(), var.ty));
    if !is_within(allowed_use(var.space, storage, stage), uses) {
        return Err(EntryPointError::InvalidGlobalUsage(handle, uses));
    }
    Ok(())
}

fn check_ray(stage: ShaderStage, space: AddressSpace) -> Result<(), EntryPointError>
    ensures { Finds (FirstOf (ray_points stage space)) result }
{
    match space {
        AddressSpace::RayPayload if !hands_payload(stage) => Err(
            EntryPointError::RayPayloadInInvalidStage(stage),
        ),
        AddressSpace::IncomingRayPayload if !takes_payload(stage) => Err(
            EntryPointError::IncomingRayPayloadInInvalidStage(stage),
        ),
        AddressSpace::Function
        | AddressSpace::Private
        | AddressSpace::WorkGroup
        | AddressSpace::Uniform
        | AddressSpace::Storage { .. }
        | AddressSpace::Handle
        | AddressSpace::Immediate
        | AddressSpace::TaskPayload
        | AddressSpace::RayPayload
        | AddressSpace::IncomingRayPayload => Ok(()),
    }
}

fn is_within(allowed: Option<GlobalUse>, uses: GlobalUse) -> bool
    ensures { result ≡ is_within allowed uses }
{
    match allowed {
        Some(allowed) => Flags::contains(&allowed, uses),
        None => false,
    }
}

/// The access of a storage image, or of a binding array of such images.
fn access_in(module: &Module, inner: Option<&TypeInner>) -> Option<StorageAccess>
    ensures { result ≡ access_in «module».now.types (option_copied inner.entry) }
{
    match inner {
        Some(TypeInner::BindingArray { base, .. }) => image_access(inner_at(
            module.types.as_slice(),
            *base,
        )),
        Some(
            TypeInner::Scalar(_)
            | TypeInner::Vector { .. }
            | TypeInner::Matrix { .. }
            | TypeInner::CooperativeMatrix { .. }
            | TypeInner::Atomic(_)
            | TypeInner::Pointer { .. }
            | TypeInner::ValuePointer { .. }
            | TypeInner::Array { .. }
            | TypeInner::Struct { .. }
            | TypeInner::Image { .. }
            | TypeInner::Sampler { .. }
            | TypeInner::AccelerationStructure { .. }
            | TypeInner::RayQuery { .. },
        )
        | None => image_access(inner),
    }
}

fn image_access(inner: Option<&TypeInner>) -> Option<StorageAccess>
    ensures { result ≡ image_access (option_copied inner.entry) }
{
    match inner {
        Some(TypeInner::Image { class, .. }) => match class {
            ImageClass::Storage { access, .. } => Some(*access),
            ImageClass::Sampled { .. } | ImageClass::Depth { .. } | ImageClass::External => None,
        },
        Some(
            TypeInner::Scalar(_)
            | TypeInner::Vector { .. }
            | TypeInner::Matrix { .. }
            | TypeInner::CooperativeMatrix { .. }
            | TypeInner::Atomic(_)
            | TypeInner::Pointer { .. }
            | TypeInner::ValuePointer { .. }
            | TypeInner::Array { .. }
            | TypeInner::Struct { .. }
            | TypeInner::Sampler { .. }
            | TypeInner::AccelerationStructure { .. }
            | TypeInner::RayQuery { .. }
            | TypeInner::BindingArray { .. },
        )
        | None => None,
    }
}
