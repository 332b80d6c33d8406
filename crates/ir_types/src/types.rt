//! Types, and the memory that variables lie in.

mod clones;

use ir_arena::handle::{Handle, Tagged};
use ir_arena::sequence::Sequence;
use ir_arena::tag;
use ir_flags::ir::StorageAccess;
use ir_leaves::bindings::Binding;
use ir_leaves::images::{ImageDimension, StorageFormat};
use ir_leaves::name::Name;
use ir_leaves::scalars::{Scalar, ScalarKind, VectorSize};
use std::num::NonZeroU32;

/// The memory that a variable lies in. `Immediate` is also known as push constants.
#[derive(Clone, Copy, PartialEq, Eq, Hash, Debug)]
pub enum AddressSpace {
    Function,
    Private,
    WorkGroup,
    Uniform,
    Storage { access: StorageAccess },
    Handle,
    Immediate,
    TaskPayload,
    RayPayload,
    IncomingRayPayload,
}

/// The class of an image. `multi` says that it is multisampled.
#[derive(Clone, Copy, PartialEq, Eq, Hash, Debug)]
pub enum ImageClass {
    Sampled {
        kind: ScalarKind,
        multi: bool,
    },
    Depth {
        multi: bool,
    },
    External,
    Storage {
        format: StorageFormat,
        access: StorageAccess,
    },
}

/// The number of items of an array: constant, the value of an override, or as many as the buffer holds.
#[derive(Clone, Copy, PartialEq, Eq, Hash, Debug)]
pub enum ArraySize {
    Constant(NonZeroU32),
    Pending(Handle<tag::Override>),
    Dynamic,
}

/// A member of a struct. `offset` is in bytes from the start of the struct.
///
/// In an accepted module the type comes before the struct's. Offsets are not checked here.
#[derive(PartialEq, Eq, Hash, Debug, Drop)]
pub struct StructMember {
    pub name: Option<Name>,
    pub ty: Handle<tag::Type>,
    pub binding: Option<Binding>,
    pub offset: u32,
}

/// The members of a struct, in order.
pub type Members = Sequence<StructMember>;

/// What a type is, without its name.
///
/// `base` is another type of the module. In an accepted module it comes before this one. `stride` is the number of
/// bytes from one item to the next. `span` is the size of a struct in bytes. `detail` is any number: it stands for
/// what only another layer reads.
#[derive(PartialEq, Eq, Hash, Debug, Drop)]
pub enum TypeInner {
    Scalar(Scalar),
    Vector {
        size: VectorSize,
        scalar: Scalar,
    },
    Matrix {
        columns: VectorSize,
        rows: VectorSize,
        scalar: Scalar,
    },
    CooperativeMatrix {
        scalar: Scalar,
        detail: u32,
    },
    Atomic(Scalar),
    Pointer {
        base: Handle<tag::Type>,
        space: AddressSpace,
    },
    ValuePointer {
        size: Option<VectorSize>,
        scalar: Scalar,
        space: AddressSpace,
    },
    Array {
        base: Handle<tag::Type>,
        size: ArraySize,
        stride: u32,
    },
    Struct {
        members: Members,
        span: u32,
    },
    Image {
        dim: ImageDimension,
        arrayed: bool,
        class: ImageClass,
    },
    Sampler {
        comparison: bool,
    },
    AccelerationStructure {
        vertex_return: bool,
    },
    RayQuery {
        vertex_return: bool,
    },
    BindingArray {
        base: Handle<tag::Type>,
        size: ArraySize,
    },
}

/// A type of a module.
#[derive(PartialEq, Eq, Hash, Debug, Drop)]
pub struct Type {
    pub name: Option<Name>,
    pub inner: TypeInner,
}

impl Tagged for Type {
    type Tag = tag::Type;
}
