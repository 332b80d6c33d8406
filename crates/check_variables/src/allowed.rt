//! How a global may be used: naga 30.0.1's `storage_usage`, and the allowed usages of its `validate_entry_point`.

ghost use Rattle.std.specs.Prelude.{◌≡◌};
ghost use Rattle.check_variables.specs.AllowedUses.{storage_use, resource_use, memory_use, payload_use, hands_payload, takes_payload, allowed_use};

use bitflags::Flags;
use ir_flags::ir::StorageAccess;
use ir_flags::valid::GlobalUse;
use ir_leaves::stage::ShaderStage;
use ir_types::types::AddressSpace;

/// How an entry point at this stage may use a global in this address space.
///
/// It is for globals that may be used at all. None in `Function` may, one in `RayPayload` only at RayGeneration,
/// ClosestHit and Miss, and one in `IncomingRayPayload` only at AnyHit, ClosestHit and Miss. `storage` is the access
/// of a storage image, or of a binding array of such images. It is read for `Handle` only.
pub fn allowed_use(
    space: AddressSpace,
    storage: Option<StorageAccess>,
    stage: ShaderStage,
) -> Option<GlobalUse>
    ensures { result ≡ allowed_use space storage stage }
{
    match space {
        AddressSpace::Function => None,
        AddressSpace::Private | AddressSpace::WorkGroup => Some(memory_use()),
        AddressSpace::Uniform => Some(GlobalUse::READ.union(GlobalUse::QUERY)),
        AddressSpace::Storage { access } => Some(storage_use(access)),
        AddressSpace::Handle => Some(resource_use(storage)),
        AddressSpace::Immediate => Some(GlobalUse::READ),
        AddressSpace::TaskPayload => Some(payload_use(stage)),
        AddressSpace::RayPayload => if hands_payload(stage) {
            Some(memory_use())
        } else {
            None
        },
        AddressSpace::IncomingRayPayload => if takes_payload(stage) {
            Some(memory_use())
        } else {
            None
        },
    }
}

/// Of memory that invocations write.
fn memory_use() -> GlobalUse
    ensures { result ≡ memory_use }
{
    GlobalUse::READ
        .union(GlobalUse::WRITE)
        .union(GlobalUse::QUERY)
}

/// Of storage, by what may be done with it.
fn storage_use(access: StorageAccess) -> GlobalUse
    ensures { result ≡ storage_use access }
{
    let mut uses = GlobalUse::QUERY;
    if access.contains(StorageAccess::LOAD) {
        uses = uses.union(GlobalUse::READ);
    }
    if access.contains(StorageAccess::STORE) {
        uses = uses.union(GlobalUse::WRITE);
    }
    if access.contains(StorageAccess::ATOMIC) {
        uses = uses.union(GlobalUse::ATOMIC);
    }
    uses
}

/// Of a resource: a storage image by its access, any other by reads and queries.
fn resource_use(storage: Option<StorageAccess>) -> GlobalUse
    ensures { result ≡ resource_use storage }
{
    match storage {
        Some(access) => storage_use(access),
        None => GlobalUse::READ.union(GlobalUse::QUERY),
    }
}

/// Of a task payload, which the task stage alone writes.
fn payload_use(stage: ShaderStage) -> GlobalUse
    ensures { result ≡ payload_use stage }
{
    match stage {
        ShaderStage::Task => memory_use(),
        ShaderStage::Vertex
        | ShaderStage::Fragment
        | ShaderStage::Compute
        | ShaderStage::Mesh
        | ShaderStage::RayGeneration
        | ShaderStage::AnyHit
        | ShaderStage::ClosestHit
        | ShaderStage::Miss => GlobalUse::READ.union(GlobalUse::QUERY),
    }
}

/// Whether a stage traces rays, and passes them a payload.
pub fn hands_payload(stage: ShaderStage) -> bool
    ensures { result ≡ hands_payload stage }
{
    matches!(
        stage,
        ShaderStage::RayGeneration | ShaderStage::ClosestHit | ShaderStage::Miss
    )
}

/// Whether a stage receives the payload of a ray.
pub fn takes_payload(stage: ShaderStage) -> bool
    ensures { result ≡ takes_payload stage }
{
    matches!(
        stage,
        ShaderStage::AnyHit | ShaderStage::ClosestHit | ShaderStage::Miss
    )
}
