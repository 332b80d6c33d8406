//! The tests of conditions: whether all that a module, a function or an entry point names exists.
//! Users import these from `naga_below`.

ghost use Rattle.std.specs.Prelude.{◌↔◌, IsTrue};
ghost use Rattle.ir_facts.specs.Fits.{FitsTypes, FitsGlobals, FitsFunction, FitsEntry};

use crate::entry::{avoid_function_space, mesh_fits};
use crate::function::fits_function_with;
use crate::globals::check_globals_fit;
use crate::types::check_types_fit;
use ir_facts::valid::info::ModuleInfo;
use ir_misfits::naming::is_below_if_any;
use ir_module::functions::Function;
use ir_module::module::{EntryPoint, Module};

/// Whether the types fit the module.
///
/// Each type names only earlier types. The number of members of each fits 32 bits. The types of constants, overrides
/// and ray descriptors exist.
pub fn fits_types(module: &Module) -> bool
    ensures { IsTrue result ↔ FitsTypes «module».now }
{
    check_types_fit(module).is_ok()
}

/// Whether the globals fit the module.
///
/// Their types and initializers exist. Each global expression has a type, and its operands are earlier ones. No global
/// in `AddressSpace::Handle` is a binding array of external images or ray queries.
pub fn fits_globals(module: &Module, mod_info: &ModuleInfo) -> bool
    ensures { IsTrue result ↔ FitsGlobals «module».now mod_info.now }
{
    check_globals_fit(module, mod_info.global_types.as_slice()).is_ok()
}

/// Whether the function fits the module.
///
/// All that it names exists. Operands of expressions are earlier ones. Its ranges are in order and within its
/// expressions. Its calls name one of the first `earlier` functions. Each function that it names has a signature that
/// fits.
pub fn fits_function(fun: &Function, module: &Module, earlier: usize) -> bool
    ensures { IsTrue result ↔ FitsFunction fun.now «module».now earlier }
{
    fits_function_with(fun, module, &[], earlier)
}

/// Whether all that the entry point names besides its function exists, and no global is in `AddressSpace::Function`.
pub fn fits_entry(ep: &EntryPoint, module: &Module) -> bool
    ensures { IsTrue result ↔ FitsEntry ep.now «module».now }
{
    is_below_if_any(ep.task_payload, module.global_variables.len())
        && match &ep.mesh_info {
            Some(info) => mesh_fits(info, module),
            None => true,
        }
        && avoid_function_space(module.global_variables.as_slice())
}
