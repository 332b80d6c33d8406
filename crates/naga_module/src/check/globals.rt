//! The global variables of a module, in order.

ghost use Rattle.std.specs.Prelude.{◌≡◌, Ok, OnOk, IfErr};
ghost use Rattle.ir_facts.specs.Fits.{FitsTypes, FitsGlobals};
ghost use Rattle.naga_module.specs.CodeModule.{IsRightFault};
ghost use Rattle.naga_module.specs.ModuleJudgement.{globals_step};
ghost use Rattle.check_entry.specs.GivenInfos.{AreInfosOf};

use check_faults::module::ModuleFault;
use ir_arena::handle::Handle;
use ir_facts::below::Below;
use ir_facts::valid::info::ModuleInfo;
use ir_module::module::Module;
use naga_valid::Validator;
use std::alloc::Global;

/// Validates the global variables of a module in order.
pub(crate) fn validate_globals<B: Below>(
    alloc: Global,
    validator: &Validator<B>,
    module: &Module,
    infos: &ModuleInfo,
) -> Result<(), ModuleFault>
    requires infos { AreInfosOf «module».now validator.now.types }
    requires types { FitsTypes «module».now }
    requires globals { FitsGlobals «module».now infos.now }
    ensures judged { OnOk result (globals_step (B.meaning validator.now.below)
        validator.now.settings validator.now.types «module».now infos.now ≡ Ok tt) }
    ensures refused { IfErr result (IsRightFault (λ answer. globals_step (B.meaning validator.now.below)
        validator.now.settings validator.now.types «module».now infos.now ≡ answer)) }
{
    let kinds = validator.below().kinds(alloc, &module.global_expressions)?;
    let count = module.global_variables.len() as u32;
    for index in 0..count {
        let handle = Handle::new(index);
        let var = &module.global_variables[handle];
        let answer = validator.validate_global_var(var, module, infos, &kinds);
        match answer {
            Ok(()) => {}
            Err(error) => return Err(ModuleFault::Global(handle, error)),
        }
    }
    Ok(())
}
