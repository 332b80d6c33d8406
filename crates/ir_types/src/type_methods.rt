//! Questions about types. None allocates.

ghost use Rattle.std.specs.Prelude.{◌≡◌, ◌<◌, length, unwrap_or};
ghost use Rattle.std.specs.Option.{option_copied};
ghost use Rattle.ir_types.specs.Types.{scalar_of, scalar_kind_of, pointer_space_of, pointer_base_of, image_coordinates_of, access_of, NamesTypesBelow, NameEachOther, ResolutionFits, inner_at, value_pointer_of};
ghost use Rattle.ir_types.specs.SpaceTests.{is_work_group, is_immediate, is_task_payload, is_storage};
ghost use Rattle.ir_types.specs.TypeTests.{it_is, is_struct, is_equivalent, is_exchange_struct, is_scalar_member, is_same_type, SameIsDecided, EquivalentIsDecided, ExchangeStructIsDecided, ScalarIsDecided, ScalarMemberIsDecided};
ghost use Rattle.ir_leaves.specs.Formats.{format_kind, format_scalar};

use crate::types::{AddressSpace, StructMember, Type, TypeInner};
use crate::typifier::TypeResolution;
use crate::unique_arena::UniqueArena;
use bitflags::Flags;
use ir_arena::handle::Handle;
use ir_arena::tag;
use ir_flags::ir::StorageAccess;
use ir_leaves::images::{ImageDimension, StorageFormat};
use ir_leaves::scalars::{Scalar, ScalarKind, VectorSize};

impl TypeInner {
    /// The scalar of a scalar, a vector or a matrix. None for other types.
    pub fn scalar(&self) -> Option<Scalar>
        ensures { result ≡ scalar_of self.now }
    {
        match self {
            TypeInner::Scalar(scalar)
            | TypeInner::Vector { scalar, .. }
            | TypeInner::Matrix { scalar, .. }
            | TypeInner::CooperativeMatrix { scalar, .. } => Some(*scalar),
            _ => None,
        }
    }

    /// The kind of that scalar. None for other types.
    pub fn scalar_kind(&self) -> Option<ScalarKind>
        ensures { result ≡ scalar_kind_of self.now }
    {
        match self.scalar() {
            Some(scalar) => Some(scalar.kind),
            None => None,
        }
    }

    /// The address space of a pointer. None for other types.
    pub fn pointer_space(&self) -> Option<AddressSpace>
        ensures { result ≡ pointer_space_of self.now }
    {
        match self {
            TypeInner::Pointer { space, .. } | TypeInner::ValuePointer { space, .. } => Some(
                *space,
            ),
            _ => None,
        }
    }

    /// The type that a pointer points to. None for other types.
    pub fn pointer_base_type(&self) -> Option<TypeResolution>
        ensures { result ≡ pointer_base_of self.now }
    {
        match *self {
            TypeInner::Pointer { base, .. } => Some(TypeResolution::Handle(base)),
            TypeInner::ValuePointer {
                size: None,
                scalar,
                ..
            } => Some(TypeResolution::Value(TypeInner::Scalar(scalar))),
            TypeInner::ValuePointer {
                size: Some(size),
                scalar,
                ..
            } => Some(TypeResolution::Value(TypeInner::Vector { size, scalar })),
            _ => None,
        }
    }

    /// The dimension of the storage images that take a coordinate of this type. None if there is none.
    pub fn image_storage_coordinates(&self) -> Option<ImageDimension>
        ensures { result ≡ image_coordinates_of self.now }
    {
        match *self {
            TypeInner::Scalar(
                Scalar {
                    kind: ScalarKind::Sint | ScalarKind::Uint,
                    ..
                },
            ) => Some(ImageDimension::D1),
            TypeInner::Vector {
                size: VectorSize::Bi,
                scalar: Scalar {
                    kind: ScalarKind::Sint | ScalarKind::Uint,
                    ..
                },
            } => Some(ImageDimension::D2),
            TypeInner::Vector {
                size: VectorSize::Tri,
                scalar: Scalar {
                    kind: ScalarKind::Sint | ScalarKind::Uint,
                    ..
                },
            } => Some(ImageDimension::D3),
            _ => None,
        }
    }

    /// The canonical form of a pointer to a scalar or a vector: a value pointer.
    ///
    /// None if the type is its own canonical form.
    pub fn canonical_form(&self, types: &UniqueArena<Type>) -> Option<TypeInner>
        requires { NamesTypesBelow (length types.now) self.now }
        ensures { result ≡ value_pointer_of types.now self.now }
    {
        let TypeInner::Pointer { base, space } = self else {
            return None;
        };
        match types[*base].inner {
            TypeInner::Scalar(scalar) => Some(TypeInner::ValuePointer {
                size: None,
                scalar,
                space: *space,
            }),
            TypeInner::Vector { size, scalar } => Some(TypeInner::ValuePointer {
                size: Some(size),
                scalar,
                space: *space,
            }),
            _ => None,
        }
    }

    /// Whether the canonical forms of two types are equal.
    pub fn equivalent(&self, other: &TypeInner, types: &UniqueArena<Type>) -> bool
        requires first { NamesTypesBelow (length types.now) self.now }
        requires second { NamesTypesBelow (length types.now) other.now }
        ensures { result ≡ is_equivalent types.now self.now other.now }
    {
        match self {
            TypeInner::Pointer { .. } => self.has_form_of(other, types),
            _ => match other {
                TypeInner::Pointer { .. } => self.has_form_of(other, types),
                _ => *self == *other,
            },
        }
    }

    /// Whether the canonical forms, which are made, are equal.
    #[inline(never)]
    fn has_form_of(&self, other: &TypeInner, types: &UniqueArena<Type>) -> bool
        requires first { NamesTypesBelow (length types.now) self.now }
        requires second { NamesTypesBelow (length types.now) other.now }
        ensures { result ≡ is_equivalent types.now self.now other.now }
    {
        let own_form = self.canonical_form(types);
        let other_form = other.canonical_form(types);
        *self.or_form(&own_form) == *other.or_form(&other_form)
    }

    /// A form that was made, or else the type itself.
    fn or_form<'a>(&'a self, form: &'a Option<TypeInner>) -> &'a TypeInner
        ensures { result.now ≡ unwrap_or form.now self.now }
    {
        match form {
            Some(form) => form,
            None => self,
        }
    }

    /// Whether this is the struct that an atomic compare exchange of `scalar` returns.
    ///
    /// Its members are `old_value`, of that scalar, and `exchanged`, a bool, in this order.
    #[tactic(auto, unfolding(crate::specs::TypeTests::is_exchange_struct))]
    pub fn is_compare_exchange_struct(&self, scalar: Scalar, types: &UniqueArena<Type>) -> bool
        requires { NamesTypesBelow (length types.now) self.now }
        ensures { result ≡ is_exchange_struct types.now scalar self.now }
    {
        let TypeInner::Struct { members, .. } = self else {
            return false;
        };
        match members.as_slice() {
            [old, exchanged] => {
                is_scalar_member(old, "old_value", scalar, types)
                    && is_scalar_member(exchanged, "exchanged", Scalar::BOOL, types)
            }
            _ => false,
        }
    }
}

/// The type with a handle, where it is there.
pub fn inner_at(types: &[Type], ty: Handle<tag::Type>) -> Option<&TypeInner>
    ensures { option_copied result ≡ inner_at types.now ty }
{
    match types.get(ty.index()) {
        Some(ty) => Some(&ty.inner),
        None => None,
    }
}

/// Whether a type is there, and a struct.
pub fn is_struct(inner: Option<&TypeInner>) -> bool
    ensures { result ≡ it_is is_struct (option_copied inner.entry) }
{
    matches!(inner, Some(TypeInner::Struct { .. }))
}

/// Whether a member has this name and this scalar as its type.
fn is_scalar_member(
    member: &StructMember,
    name: &str,
    scalar: Scalar,
    types: &UniqueArena<Type>,
) -> bool
    requires { member.now.ty < length types.now }
    ensures { result ≡ is_scalar_member types.now name.now scalar member.now }
{
    match &member.name {
        Some(member_name) => member_name.as_str() == name
            && types[member.ty].inner == TypeInner::Scalar(scalar),
        None => false,
    }
}

/// Whether two resolved types are the same.
///
/// If the first is the handle of a struct, the handles must be equal. Otherwise the canonical forms must be.
#[inline]
#[tactic(auto, unfolding(crate::specs::TypeTests::is_same_type))]
pub fn compare_types(
    first: &TypeResolution,
    second: &TypeResolution,
    types: &UniqueArena<Type>,
) -> bool
    requires first { ResolutionFits (length types.now) first.now }
    requires second { ResolutionFits (length types.now) second.now }
    requires types { NameEachOther types.now }
    ensures { result ≡ is_same_type types.now first.now second.now }
{
    let inner = match first {
        TypeResolution::Value(inner) => inner,
        TypeResolution::Handle(handle) => match &types[*handle].inner {
            TypeInner::Struct { .. } => return match second {
                TypeResolution::Handle(other) => handle == other,
                TypeResolution::Value(_) => false,
            },
            inner => inner,
        },
    };
    inner.equivalent(second.inner_with(types), types)
}

/// Law: the functions that test types compute what their definitions say.
pub fn type_tests_law()
    ensures same { SameIsDecided }
    ensures equivalent { EquivalentIsDecided }
    ensures exchange_struct { ExchangeStructIsDecided }
    ensures scalar { ScalarIsDecided }
    ensures scalar_member { ScalarMemberIsDecided }
{}

impl AddressSpace {
    /// What may be done with memory in this address space.
    pub fn access(self) -> StorageAccess
        ensures { result ≡ access_of self }
    {
        match self {
            AddressSpace::Function
            | AddressSpace::Private
            | AddressSpace::WorkGroup
            | AddressSpace::TaskPayload
            | AddressSpace::RayPayload
            | AddressSpace::IncomingRayPayload => StorageAccess::LOAD.union(StorageAccess::STORE),
            AddressSpace::Uniform | AddressSpace::Handle | AddressSpace::Immediate => {
                StorageAccess::LOAD
            }
            AddressSpace::Storage { access } => access,
        }
    }

    /// Whether it is the space of work groups.
    pub fn is_work_group(self) -> bool
        ensures { result ≡ is_work_group self }
    {
        match self {
            AddressSpace::WorkGroup => true,
            AddressSpace::Function
            | AddressSpace::Private
            | AddressSpace::Uniform
            | AddressSpace::Storage { .. }
            | AddressSpace::Handle
            | AddressSpace::Immediate
            | AddressSpace::TaskPayload
            | AddressSpace::RayPayload
            | AddressSpace::IncomingRayPayload => false,
        }
    }

    /// Whether it is the space of immediates.
    pub fn is_immediate(self) -> bool
        ensures { result ≡ is_immediate self }
    {
        match self {
            AddressSpace::Immediate => true,
            AddressSpace::Function
            | AddressSpace::Private
            | AddressSpace::WorkGroup
            | AddressSpace::Uniform
            | AddressSpace::Storage { .. }
            | AddressSpace::Handle
            | AddressSpace::TaskPayload
            | AddressSpace::RayPayload
            | AddressSpace::IncomingRayPayload => false,
        }
    }

    /// Whether it is the space of task payloads.
    pub fn is_task_payload(self) -> bool
        ensures { result ≡ is_task_payload self }
    {
        match self {
            AddressSpace::TaskPayload => true,
            AddressSpace::Function
            | AddressSpace::Private
            | AddressSpace::WorkGroup
            | AddressSpace::Uniform
            | AddressSpace::Storage { .. }
            | AddressSpace::Handle
            | AddressSpace::Immediate
            | AddressSpace::RayPayload
            | AddressSpace::IncomingRayPayload => false,
        }
    }

    /// Whether it is the space of storage, whatever may be done there.
    pub fn is_storage(self) -> bool
        ensures { result ≡ is_storage self }
    {
        match self {
            AddressSpace::Storage { .. } => true,
            AddressSpace::Function
            | AddressSpace::Private
            | AddressSpace::WorkGroup
            | AddressSpace::Uniform
            | AddressSpace::Handle
            | AddressSpace::Immediate
            | AddressSpace::TaskPayload
            | AddressSpace::RayPayload
            | AddressSpace::IncomingRayPayload => false,
        }
    }
}
