//! Types of expressions.

ghost use Rattle.std.specs.Prelude.{◌≡◌, Some, IfOk, length};
ghost use Rattle.ir_types.specs.Types.{ResolutionFits, resolved};

use crate::types::{Type, TypeInner};
use crate::unique_arena::UniqueArena;
use ir_arena::duplicate::Duplicate;
use ir_arena::handle::Handle;
use ir_arena::tag;
use std::alloc::{AllocError, Global};

/// The type of an expression: a type of the module by its handle, or any type as a value.
#[derive(PartialEq, Eq, Hash, Debug, Drop)]
pub enum TypeResolution {
    Handle(Handle<tag::Type>),
    Value(TypeInner),
}

impl TypeResolution {
    /// The type itself.
    pub fn inner_with<'a>(&'a self, types: &'a UniqueArena<Type>) -> &'a TypeInner
        requires { ResolutionFits (length types.now) self.now }
        ensures { resolved types.now self.now ≡ Some result.now }
    {
        match self {
            TypeResolution::Handle(handle) => &types[*handle].inner,
            TypeResolution::Value(inner) => inner,
        }
    }

    /// Clones the resolution. An Err is out of memory.
    pub fn clone(&self, alloc: Global) -> Result<Self, AllocError>
        ensures { IfOk result (λ made. made ≡ self.now) }
    {
        match self {
            TypeResolution::Handle(handle) => Ok(TypeResolution::Handle(*handle)),
            TypeResolution::Value(inner) => Ok(TypeResolution::Value(inner.clone(alloc)?)),
        }
    }
}

impl Duplicate for TypeResolution {
    fn duplicate(&self, alloc: Global) -> Result<Self, AllocError> {
        self.clone(alloc)
    }
}
