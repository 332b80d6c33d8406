//! The check of a global variable: naga 30.0.1's `validate_global_var`.

ghost use Rattle.std.specs.Prelude.{◌≡◌, ◌<◌, IfOk, IfSome, Some, All, length, slice_get};
ghost use Rattle.ir_types.specs.Types.{NameEachOther, ResolutionFits, inner_at};
ghost use Rattle.check_variables.specs.Globals.{global_points, array_points, element_of, asked_type, capability_points, good_layout_points, immediate_points, resource_points, place_points, space_points, type_points, decoration_points, variable_points, global_initializer_points};
ghost use Rattle.check_variables.specs.Spaces.{row_of, resource_array_needs, is_16bit_norm, takes_initializers};
ghost use Rattle.ir_facts.specs.Answers.{Finds, FirstOf};

use bitflags::Flags;
use ir_arena::handle::Handle;
use ir_arena::tag;
use ir_errors::interface::GlobalVariableError;
use ir_facts::proc::expression_kinds::ExpressionKindTracker;
use ir_flags::capabilities::Capabilities;
use ir_flags::ir::{MemoryDecorations, StorageAccess};
use ir_flags::valid::{TypeFlags, ValidationFlags};
use ir_leaves::images::StorageFormat;
use ir_module::module::GlobalVariable;
use ir_types::type_info::{Disalignment, ImmediateError, TypeInfo};
use ir_types::type_methods::compare_types;
use ir_types::types::{AddressSpace, ImageClass, Type, TypeInner};
use ir_types::typifier::TypeResolution;
use ir_types::unique_arena::UniqueArena;

/// What the checks of a global's type read: the types of the module, their infos, and what is asked and possible.
#[derive(Drop)]
struct TypeContext<'a> {
    types: &'a UniqueArena<Type>,
    infos: &'a [TypeInfo],
    flags: ValidationFlags,
    capabilities: Capabilities,
}

/// Checks a global variable, and answers the first fault. It allocates nothing.
///
/// The checks, in order, each with its faults:
/// - A binding array is in an address space for binding arrays, and the target supports it: `InvalidUsage`,
///   `UnsupportedCapability`.
/// - The type, or the type of the array's items, is one for the address space: `Alignment`,
///   `StorageAddressSpaceWriteOnlyNotSupported`, `InvalidType`, `UnsupportedCapability`, `InvalidImmediateType`,
///   `MissingTypeFlags`, and `InvalidUsage` in Function.
/// - With BINDINGS it has a binding exactly if its address space is one of resources: `InvalidBinding`.
/// - A task payload isn't of size 0: `ZeroSizedTaskPayload`.
/// - Only storage has memory decorations, and only supported ones: `InvalidMemoryDecorationsAddressSpace`,
///   `CoherentNotSupported`, `VolatileNotSupported`.
/// - An initializer is in Private, is a constant or an override expression, and is of the variable's type:
///   `InitializerNotAllowed`, `InitializerExprType`, `InitializerType`.
///
/// `infos` is indexed by the types of the module, `kinds` and `global_types` by its global expressions. `size` is that
/// of the variable's type in bytes, if it is known.
#[tactic(auto, using(ir_arena::proofs::Points::first_of_both))]
pub fn check_global(
    var: &GlobalVariable,
    types: &UniqueArena<Type>,
    infos: &[TypeInfo],
    flags: ValidationFlags,
    capabilities: Capabilities,
    size: Option<u32>,
    kinds: &ExpressionKindTracker,
    global_types: &[TypeResolution],
) -> Result<(), GlobalVariableError>
    requires one_info_each { length infos.now ≡ length types.now }
    requires ty { var.now.ty < length types.now }
    requires init { IfSome var.now.init (λ h. h < length kinds.now) }
    requires one_type_each { length global_types.now ≡ length kinds.now }
    requires types { NameEachOther types.now }
    requires resolved { All (ResolutionFits (length types.now)) global_types.now }
    ensures { Finds (FirstOf (global_points types.now infos.now flags capabilities size
        kinds.now global_types.now var.now)) result }
{
    let context = TypeContext {
        types,
        infos,
        flags,
        capabilities,
    };
    check_type(&context, var.space, var.ty)?;
    check_variable(var, flags, capabilities, size)?;
    match var.init {
        Some(init) => check_initializer(var, init, types, kinds, global_types),
        None => Ok(()),
    }
}

/// The type of a variable in its space: a binding array lies where one may, and the type that the space is asked about
/// is one for it.
#[tactic(auto, using(ir_arena::proofs::Points::first_of_both))]
fn check_type(
    context: &TypeContext,
    space: AddressSpace,
    ty: Handle<tag::Type>,
) -> Result<(), GlobalVariableError>
    requires one_info_each { length context.now.infos.now ≡ length context.now.types.now }
    requires ty { ty < length context.now.types.now }
    requires types { NameEachOther context.now.types.now }
    ensures { Finds (FirstOf (type_points context.now.types.now context.now.infos.now
        context.now.flags context.now.capabilities space ty)) result }
{
    let asked = check_array(space, ty, context.types, context.capabilities)?;
    check_asked(context, space, asked)
}

/// What the target has to be able to do, if there is such a thing.
fn check_capability(
    capabilities: Capabilities,
    needed: Option<Capabilities>,
) -> Result<(), GlobalVariableError>
    ensures { Finds (FirstOf (capability_points capabilities needed)) result }
{
    match needed {
        Some(needed) if !capabilities.contains(needed) => {
            Err(GlobalVariableError::UnsupportedCapability(needed))
        }
        _ => Ok(()),
    }
}

/// The type that the space is asked about: what a binding array has, where one may lie in the space, any other type
/// itself.
fn check_array(
    space: AddressSpace,
    ty: Handle<tag::Type>,
    types: &UniqueArena<Type>,
    capabilities: Capabilities,
) -> Result<Handle<tag::Type>, GlobalVariableError>
    requires ty { ty < length types.now }
    requires types { NameEachOther types.now }
    ensures fault { Finds (FirstOf (array_points capabilities types.now space (element_of (inner_at types.now ty)))) result }
    ensures asked { IfOk result (λ asked. asked ≡ asked_type types.now ty) }
    ensures there { IfOk result (λ asked. asked < length types.now) }
{
    let TypeInner::BindingArray { base, .. } = types[ty].inner else {
        return Ok(ty);
    };
    let needed = match space {
        AddressSpace::Storage { .. } => Some(Capabilities::STORAGE_BUFFER_BINDING_ARRAY),
        AddressSpace::Uniform => Some(Capabilities::BUFFER_BINDING_ARRAY),
        AddressSpace::Handle => resource_array_needs(&types[base].inner),
        AddressSpace::Function
        | AddressSpace::Private
        | AddressSpace::WorkGroup
        | AddressSpace::Immediate
        | AddressSpace::TaskPayload
        | AddressSpace::RayPayload
        | AddressSpace::IncomingRayPayload => return Err(GlobalVariableError::InvalidUsage(space)),
    };
    check_capability(capabilities, needed)?;
    Ok(base)
}

/// What a binding array of these resources needs.
fn resource_array_needs(base: &TypeInner) -> Option<Capabilities>
    ensures { result ≡ resource_array_needs (Some base.now) }
{
    match base {
        TypeInner::Image { class, .. } => match class {
            ImageClass::Storage { .. } => Some(Capabilities::STORAGE_TEXTURE_BINDING_ARRAY),
            ImageClass::Sampled { .. } | ImageClass::Depth { .. } => {
                Some(Capabilities::TEXTURE_AND_SAMPLER_BINDING_ARRAY)
            }
            ImageClass::External => None,
        },
        TypeInner::Sampler { .. } => Some(Capabilities::TEXTURE_AND_SAMPLER_BINDING_ARRAY),
        TypeInner::AccelerationStructure { .. } => {
            Some(Capabilities::ACCELERATION_STRUCTURE_BINDING_ARRAY)
        }
        TypeInner::Scalar(_)
        | TypeInner::Vector { .. }
        | TypeInner::Matrix { .. }
        | TypeInner::CooperativeMatrix { .. }
        | TypeInner::Atomic(_)
        | TypeInner::Pointer { .. }
        | TypeInner::ValuePointer { .. }
        | TypeInner::Array { .. }
        | TypeInner::Struct { .. }
        | TypeInner::RayQuery { .. }
        | TypeInner::BindingArray { .. } => None,
    }
}

/// A type that the space is asked about.
fn check_asked(
    context: &TypeContext,
    space: AddressSpace,
    ty: Handle<tag::Type>,
) -> Result<(), GlobalVariableError>
    requires one_info_each { length context.now.infos.now ≡ length context.now.types.now }
    requires ty { ty < length context.now.types.now }
    ensures { Finds (FirstOf (space_points context.now.flags context.now.capabilities space
        (inner_at context.now.types.now ty) (slice_get context.now.infos.now ty))) result }
{
    let (inner, info) = (&context.types[ty].inner, &context.infos[ty.index()]);
    check_in_space(space, inner, info, context.flags, context.capabilities)
}

/// A type in a space, with what is known of it: what the space asks for, and then what the type can be used for.
#[tactic(auto, using(ir_arena::proofs::Points::first_of_both))]
fn check_in_space(
    space: AddressSpace,
    inner: &TypeInner,
    info: &TypeInfo,
    flags: ValidationFlags,
    capabilities: Capabilities,
) -> Result<(), GlobalVariableError>
    ensures { Finds (FirstOf (space_points flags capabilities space (Some inner.now) (Some info.now))) result }
{
    check_space(space, inner, info, flags, capabilities)?;
    let required = required_flags(space);
    if !info.flags.contains(required) {
        let seen = info.flags;
        return Err(GlobalVariableError::MissingTypeFlags { required, seen });
    }
    Ok(())
}

/// What a space asks for beside flags of the type.
fn check_space(
    space: AddressSpace,
    inner: &TypeInner,
    info: &TypeInfo,
    flags: ValidationFlags,
    capabilities: Capabilities,
) -> Result<(), GlobalVariableError>
    ensures { Finds (FirstOf (place_points flags capabilities space (Some inner.now) (Some info.now))) result }
{
    match space {
        AddressSpace::Function => Err(GlobalVariableError::InvalidUsage(space)),
        AddressSpace::Storage { access } => {
            check_layout(space, info.storage_layout, flags)?;
            if access == StorageAccess::STORE {
                return Err(GlobalVariableError::StorageAddressSpaceWriteOnlyNotSupported);
            }
            Ok(())
        }
        AddressSpace::Uniform => check_layout(space, info.uniform_layout, flags),
        AddressSpace::Handle => check_resource(inner, capabilities),
        AddressSpace::Private | AddressSpace::WorkGroup => Ok(()),
        AddressSpace::TaskPayload => {
            check_capability(capabilities, Some(Capabilities::MESH_SHADER))
        }
        AddressSpace::Immediate => {
            check_capability(capabilities, Some(Capabilities::IMMEDIATES))?;
            check_immediate(info.immediates_compatibility)
        }
        AddressSpace::RayPayload | AddressSpace::IncomingRayPayload => {
            check_capability(capabilities, Some(Capabilities::RAY_TRACING_PIPELINE))
        }
    }
}

/// A layout, with STRUCT_LAYOUTS.
fn check_layout(
    space: AddressSpace,
    layout: Result<u32, (Handle<tag::Type>, Disalignment)>,
    flags: ValidationFlags,
) -> Result<(), GlobalVariableError>
    ensures { Finds (FirstOf (good_layout_points flags space layout)) result }
{
    match layout {
        Err((ty, disalignment)) if flags.contains(ValidationFlags::STRUCT_LAYOUTS) => {
            Err(GlobalVariableError::Alignment(space, ty, disalignment))
        }
        _ => Ok(()),
    }
}

/// A resource: an image, a sampler, an acceleration structure or a ray query, and the format of a storage image.
fn check_resource(inner: &TypeInner, capabilities: Capabilities) -> Result<(), GlobalVariableError>
    ensures { Finds (FirstOf (resource_points capabilities (Some inner.now))) result }
{
    match inner {
        TypeInner::Image {
            class: ImageClass::Storage { format, .. },
            ..
        } if is_16bit_norm(*format) => {
            let needed = Capabilities::STORAGE_TEXTURE_16BIT_NORM_FORMATS;
            check_capability(capabilities, Some(needed))
        }
        TypeInner::Image { .. }
        | TypeInner::Sampler { .. }
        | TypeInner::AccelerationStructure { .. }
        | TypeInner::RayQuery { .. } => Ok(()),
        TypeInner::Scalar(_)
        | TypeInner::Vector { .. }
        | TypeInner::Matrix { .. }
        | TypeInner::CooperativeMatrix { .. }
        | TypeInner::Atomic(_)
        | TypeInner::Pointer { .. }
        | TypeInner::ValuePointer { .. }
        | TypeInner::Array { .. }
        | TypeInner::Struct { .. }
        | TypeInner::BindingArray { .. } => Err(GlobalVariableError::InvalidType(
            AddressSpace::Handle,
        )),
    }
}

/// Whether a format has 16 bits a channel that hold fractions of one.
fn is_16bit_norm(format: StorageFormat) -> bool
    ensures { result ≡ is_16bit_norm format }
{
    matches!(
        format,
        StorageFormat::R16Unorm
            | StorageFormat::R16Snorm
            | StorageFormat::Rg16Unorm
            | StorageFormat::Rg16Snorm
            | StorageFormat::Rgba16Unorm
            | StorageFormat::Rgba16Snorm
    )
}

/// Whether a type can be an immediate.
fn check_immediate(compatibility: Result<(), ImmediateError>) -> Result<(), GlobalVariableError>
    ensures { Finds (FirstOf (immediate_points compatibility)) result }
{
    match compatibility {
        Ok(()) => Ok(()),
        Err(error) => Err(GlobalVariableError::InvalidImmediateType(error)),
    }
}

/// What the type of a global in a space must be usable for.
fn required_flags(space: AddressSpace) -> TypeFlags
    ensures { result ≡ (row_of space).flags }
{
    match space {
        AddressSpace::Function | AddressSpace::Handle => TypeFlags::empty(),
        AddressSpace::Storage { .. } => TypeFlags::DATA
            .union(TypeFlags::HOST_SHAREABLE)
            .union(TypeFlags::CREATION_RESOLVED),
        AddressSpace::Uniform => TypeFlags::DATA
            .union(TypeFlags::COPY)
            .union(TypeFlags::SIZED)
            .union(TypeFlags::HOST_SHAREABLE)
            .union(TypeFlags::CREATION_RESOLVED),
        AddressSpace::Private => TypeFlags::CONSTRUCTIBLE.union(TypeFlags::CREATION_RESOLVED),
        AddressSpace::Immediate => TypeFlags::DATA
            .union(TypeFlags::COPY)
            .union(TypeFlags::HOST_SHAREABLE)
            .union(TypeFlags::SIZED),
        AddressSpace::WorkGroup
        | AddressSpace::TaskPayload
        | AddressSpace::RayPayload
        | AddressSpace::IncomingRayPayload => TypeFlags::DATA.union(TypeFlags::SIZED),
    }
}

/// Whether a global in a space is a resource, which is bound.
fn is_resource_space(space: AddressSpace) -> bool
    ensures { result ≡ (row_of space).is_bound }
{
    match space {
        AddressSpace::Storage { .. } | AddressSpace::Uniform | AddressSpace::Handle => true,
        AddressSpace::Function
        | AddressSpace::Private
        | AddressSpace::WorkGroup
        | AddressSpace::Immediate
        | AddressSpace::TaskPayload
        | AddressSpace::RayPayload
        | AddressSpace::IncomingRayPayload => false,
    }
}

/// The binding, the size of a payload, and the decorations.
#[tactic(auto, unfolding(crate::specs::Globals::variable_points))]
fn check_variable(
    var: &GlobalVariable,
    flags: ValidationFlags,
    capabilities: Capabilities,
    size: Option<u32>,
) -> Result<(), GlobalVariableError>
    ensures { Finds (FirstOf (variable_points flags capabilities size var.now)) result }
{
    if flags.contains(ValidationFlags::BINDINGS)
        && is_resource_space(var.space) != var.binding.is_some()
    {
        return Err(GlobalVariableError::InvalidBinding);
    }
    if var.space.is_task_payload() && size == Some(0) {
        return Err(GlobalVariableError::ZeroSizedTaskPayload);
    }
    check_decorations(var.space, var.memory_decorations, capabilities)
}

/// Memory decorations: only storage has any, and only those that the target can do.
fn check_decorations(
    space: AddressSpace,
    decorations: MemoryDecorations,
    capabilities: Capabilities,
) -> Result<(), GlobalVariableError>
    ensures { Finds (FirstOf (decoration_points capabilities space decorations)) result }
{
    if !decorations.is_empty() && !space.is_storage() {
        return Err(GlobalVariableError::InvalidMemoryDecorationsAddressSpace);
    }
    if decorations.contains(MemoryDecorations::COHERENT)
        && !capabilities.contains(Capabilities::MEMORY_DECORATION_COHERENT)
    {
        return Err(GlobalVariableError::CoherentNotSupported);
    }
    if decorations.contains(MemoryDecorations::VOLATILE)
        && !capabilities.contains(Capabilities::MEMORY_DECORATION_VOLATILE)
    {
        return Err(GlobalVariableError::VolatileNotSupported);
    }
    Ok(())
}

/// An initializer: the space of the variable takes one, its value is known before the pipeline runs, and it has the
/// variable's type.
fn check_initializer(
    var: &GlobalVariable,
    init: Handle<tag::Expression>,
    types: &UniqueArena<Type>,
    kinds: &ExpressionKindTracker,
    global_types: &[TypeResolution],
) -> Result<(), GlobalVariableError>
    requires ty { var.now.ty < length types.now }
    requires init { init < length kinds.now }
    requires one_type_each { length global_types.now ≡ length kinds.now }
    requires types { NameEachOther types.now }
    requires resolved { All (ResolutionFits (length types.now)) global_types.now }
    ensures { Finds (FirstOf (global_initializer_points types.now kinds.now global_types.now
        var.now.space var.now.ty (Some init))) result }
{
    if !takes_initializers(var.space) {
        return Err(GlobalVariableError::InitializerNotAllowed(var.space));
    }
    if !kinds.is_const_or_override(init) {
        return Err(GlobalVariableError::InitializerExprType);
    }
    let given = &global_types[init.index()];
    if !compare_types(&TypeResolution::Handle(var.ty), given, types) {
        return Err(GlobalVariableError::InitializerType);
    }
    Ok(())
}

/// Whether a global in a space may have an initializer.
fn takes_initializers(space: AddressSpace) -> bool
    ensures { result ≡ takes_initializers space }
{
    match space {
        AddressSpace::Function | AddressSpace::Private => true,
        AddressSpace::WorkGroup
        | AddressSpace::Uniform
        | AddressSpace::Storage { .. }
        | AddressSpace::Handle
        | AddressSpace::Immediate
        | AddressSpace::TaskPayload
        | AddressSpace::RayPayload
        | AddressSpace::IncomingRayPayload => false,
    }
}
