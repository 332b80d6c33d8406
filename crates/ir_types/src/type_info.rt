//! The info of a type, and why a type is unfit. Another layer finds it, and the checks here read it.

ghost use Rattle.std.specs.Prelude.{◌≡◌};
ghost use Rattle.ir_flags.specs.Bits.{IO_SHAREABLE};
ghost use Rattle.ir_types.specs.TypeInfos.{type_has};

use ir_arena::handle::Handle;
use ir_arena::tag;
use ir_flags::valid::TypeFlags;

/// The info of a type: what it can be used for. Infos are indexed by the handles of a module's types.
///
/// A layout is the alignment in bytes. An Err in its place has the inner type that makes the layout bad, and why.
#[derive(Clone, Copy, PartialEq, Eq, Debug)]
pub struct TypeInfo {
    pub flags: TypeFlags,
    pub storage_layout: Result<u32, (Handle<tag::Type>, Disalignment)>,
    pub uniform_layout: Result<u32, (Handle<tag::Type>, Disalignment)>,
    pub immediates_compatibility: Result<(), ImmediateError>,
}

/// Why a layout is bad: a number that no check reads.
#[derive(Clone, Copy, PartialEq, Eq, Debug)]
pub struct Disalignment(pub u32);

/// Why a type can't be an immediate: a number that no check reads.
#[derive(Clone, Copy, PartialEq, Eq, Debug)]
pub struct ImmediateError(pub u32);

/// Whether the type with a handle is shared between stages, by the infos of all types.
pub fn is_shareable(infos: &[TypeInfo], ty: Handle<tag::Type>) -> bool
    ensures { result ≡ type_has infos.now ty IO_SHAREABLE }
{
    match infos.get(ty.index()) {
        Some(info) => info.flags.contains(TypeFlags::IO_SHAREABLE),
        None => false,
    }
}
