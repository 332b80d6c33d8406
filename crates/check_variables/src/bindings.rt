//! The bindings that are taken by the globals which an entry point uses.

ghost use Rattle.std.specs.Prelude.{◌≡◌, ◌+◌, OnOk};
ghost use Rattle.check_variables.specs.TakenBindings.{AreTaken};
ghost use Rattle.check_variables.specs.UsedBindings.{binding_at, is_used};

use bitflags::Flags;
use ir_facts::valid::info::FunctionInfo;
use ir_module::module::{Module, ResourceBinding};
use std::alloc::AllocError;
use std::collections::BTreeSet;

/// Whether a global is used.
pub fn is_used(info: &FunctionInfo, index: usize) -> bool
    ensures { result ≡ is_used info.now.global_uses index }
{
    match info.global_uses.as_slice().get(index) {
        Some(uses) => !uses.is_empty(),
        None => false,
    }
}

/// The binding of a global.
fn binding_at(module: &Module, index: usize) -> Option<ResourceBinding>
    ensures { result ≡ binding_at «module».now.global_variables index }
{
    match module.global_variables.as_slice().get(index) {
        Some(global) => global.binding,
        None => None,
    }
}

/// The bindings with that of one global more, where it is used.
#[inline(always)]
pub fn take_binding(
    module: &Module,
    info: &FunctionInfo,
    taken: &mut BTreeSet<ResourceBinding>,
    index: usize,
) -> Result<(), AllocError>
    requires { AreTaken taken.old info.now.global_uses «module».now.global_variables index }
    ensures { OnOk result (AreTaken taken.new info.now.global_uses «module».now.global_variables (index + 1)) }
{
    if let Some(binding) = binding_at(module, index) {
        if is_used(info, index) {
            taken.insert(binding)?;
        }
    }
    Ok(())
}
