//! Clones of types, of what is inside them, and of members.

ghost use Rattle.std.specs.Prelude.{◌≡◌, IfOk, IsOk};
ghost use Rattle.ir_types.specs.Members.{HasNoMembers};

use crate::types::{Members, StructMember, Type, TypeInner};
use ir_arena::duplicate::{Duplicate, duplicates};
use ir_leaves::name::clone_name;
use std::alloc::{AllocError, Global};

impl StructMember {
    /// Clones the member. An Err is out of memory.
    pub fn clone(&self, alloc: Global) -> Result<Self, AllocError>
        ensures { IfOk result (λ made. made ≡ self.now) }
    {
        Ok(StructMember {
            name: clone_name(alloc, &self.name)?,
            ty: self.ty,
            binding: self.binding,
            offset: self.offset,
        })
    }
}

impl Duplicate for StructMember {
    fn duplicate(&self, alloc: Global) -> Result<Self, AllocError> {
        self.clone(alloc)
    }
}

/// Clones the members.
fn clone_members(alloc: Global, members: &Members) -> Result<Members, AllocError>
    ensures { IfOk result (λ made. made ≡ members.now) }
{
    Ok(Members::from(duplicates(alloc, members.as_slice())?))
}

impl TypeInner {
    /// Clones the type. An Err is out of memory. Only members allocate.
    pub fn clone(&self, alloc: Global) -> Result<Self, AllocError>
        ensures made { IfOk result (λ made. made ≡ self.now) }
        ensures without_memory { HasNoMembers self.now → IsOk result }
    {
        match self {
            TypeInner::Scalar(scalar) => Ok(TypeInner::Scalar(*scalar)),
            TypeInner::Vector { size, scalar } => Ok(TypeInner::Vector {
                size: *size,
                scalar: *scalar,
            }),
            TypeInner::Matrix {
                columns,
                rows,
                scalar,
            } => Ok(TypeInner::Matrix {
                columns: *columns,
                rows: *rows,
                scalar: *scalar,
            }),
            TypeInner::CooperativeMatrix { scalar, detail } => Ok(TypeInner::CooperativeMatrix {
                scalar: *scalar,
                detail: *detail,
            }),
            TypeInner::Atomic(scalar) => Ok(TypeInner::Atomic(*scalar)),
            TypeInner::Pointer { base, space } => Ok(TypeInner::Pointer {
                base: *base,
                space: *space,
            }),
            TypeInner::ValuePointer {
                size,
                scalar,
                space,
            } => Ok(TypeInner::ValuePointer {
                size: *size,
                scalar: *scalar,
                space: *space,
            }),
            TypeInner::Array { base, size, stride } => Ok(TypeInner::Array {
                base: *base,
                size: *size,
                stride: *stride,
            }),
            TypeInner::Struct { members, span } => Ok(TypeInner::Struct {
                members: clone_members(alloc, members)?,
                span: *span,
            }),
            TypeInner::Image {
                dim,
                arrayed,
                class,
            } => Ok(TypeInner::Image {
                dim: *dim,
                arrayed: *arrayed,
                class: *class,
            }),
            TypeInner::Sampler { comparison } => Ok(TypeInner::Sampler {
                comparison: *comparison,
            }),
            TypeInner::AccelerationStructure { vertex_return } => Ok(
                TypeInner::AccelerationStructure {
                    vertex_return: *vertex_return,
                },
            ),
            TypeInner::RayQuery { vertex_return } => Ok(TypeInner::RayQuery {
                vertex_return: *vertex_return,
            }),
            TypeInner::BindingArray { base, size } => Ok(TypeInner::BindingArray {
                base: *base,
                size: *size,
            }),
        }
    }
}

impl Type {
    /// Clones the type with its name. An Err is out of memory.
    pub fn clone(&self, alloc: Global) -> Result<Self, AllocError>
        ensures { IfOk result (λ made. made ≡ self.now) }
    {
        Ok(Type {
            name: clone_name(alloc, &self.name)?,
            inner: self.inner.clone(alloc)?,
        })
    }
}

impl Duplicate for Type {
    fn duplicate(&self, alloc: Global) -> Result<Self, AllocError> {
        self.clone(alloc)
    }
}
