//! What the checks of an item read.

ghost use Rattle.std.specs.Prelude.{◌≡◌, ◌<◌, length};
ghost use Rattle.std.specs.Prelude.{Some};
ghost use Rattle.ir_types.specs.Types.{NamesTypesBelow, NameEachOther, inner_at};

use crate::varying::VaryingPlace;
use ir_arena::handle::Handle;
use ir_arena::span::{Refusal, WithSpan};
use ir_arena::tag;
use ir_errors::interface::VaryingError;
use ir_types::type_info::TypeInfo;
use ir_types::types::{Type, TypeInner};
use ir_types::unique_arena::UniqueArena;
use std::alloc::Global;

/// The place of an item, the types of the module, and their infos.
#[derive(Drop)]
pub(crate) struct VaryingContext<'a> {
    pub(crate) alloc: Global,
    pub(crate) place: &'a VaryingPlace,
    pub(crate) types: &'a UniqueArena<Type>,
    pub(crate) infos: &'a [TypeInfo],
}

impl<'a> VaryingContext<'a> {
    /// A type of the module, without its name.
    #[tactic(auto, using(crate::proofs::TypesAt::named_at, crate::proofs::TypesAt::inner_is))]
    pub(crate) fn inner(&self, ty: Handle<tag::Type>) -> &'a TypeInner
        requires ty { ty < length self.now.types.now }
        requires types { NameEachOther self.now.types.now }
        ensures inner { inner_at self.now.types.now ty ≡ Some result.now }
        ensures named { NamesTypesBelow (length self.now.types.now) result.now }
    {
        &self.types[ty].inner
    }

    /// The refusal for a fault.
    pub(crate) fn refusal(&self, fault: VaryingError) -> Refusal<VaryingError>
        ensures { result ≡ Refusal.Fault fault }
    {
        Refusal::Fault(WithSpan::new(self.alloc, fault))
    }
}
