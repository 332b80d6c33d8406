//! The infos of a module's types, as `Typed` needs them.

ghost use Rattle.std.specs.Prelude.{◌≡◌, [], IfOk};
ghost use Rattle.layer_types.specs.ComputedInfos.{infos_from};

use ir_arena::sequence::Sequence;
use ir_module::module::Module;
use ir_types::type_info::TypeInfo;
use std::alloc::{AllocError, Global};

/// The info of each type of a module, by its handle. An Err is out of memory.
///
/// A type that isn't well formed has no flags, and no buffer takes it. Not well formed is, among others, one that names
/// itself or a later type, a scalar of a width that its kind doesn't have, an array whose size passes 32 bits, a struct
/// whose members overlap. docs/TYPES.md has the rule of each type.
pub fn type_infos(alloc: Global, module: &Module) -> Result<Sequence<TypeInfo>, AllocError>
    ensures { IfOk result (λ infos. infos ≡ infos_from «module».now.types [] «module».now.types) }
{
    layer_types::infos_of_types(alloc, &module.types)
}
