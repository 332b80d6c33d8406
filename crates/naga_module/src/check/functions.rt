//! The functions of a module, in order.

ghost use Rattle.std.specs.Prelude.{◌≡◌, [], OnOk, IfErr};
ghost use Rattle.ir_facts.specs.Fits.{FitsTypes};
ghost use Rattle.naga_module.specs.CodeModule.{Leads, Stops};
ghost use Rattle.check_entry.specs.GivenInfos.{AreInfosOf};
ghost use Rattle.ir_misfits.specs.FittingSignatures.{MarkFitting};

use check_faults::module::ModuleFault;
use ir_arena::handle::Handle;
use ir_arena::span::Refusal;
use ir_arena::tag;
use ir_facts::below::Below;
use ir_facts::valid::info::ModuleInfo;
use ir_fits::fits_function_with;
use ir_module::module::Module;
use naga_valid::Validator;
use std::alloc::Global;

/// Validates the functions of a module in order, each with the infos of those before it, and adds the info of each at
/// the end. A true mark of `fitting`, indexed by handles of functions, says that the signature is known to fit.
pub(crate) fn validate_functions<B: Below>(
    alloc: Global,
    validator: &mut Validator<B>,
    module: &Module,
    fitting: &[bool],
    infos: &mut ModuleInfo,
) -> Result<(), ModuleFault>
    requires infos { AreInfosOf «module».now validator.old.types }
    requires types { FitsTypes «module».now }
    requires fitting { MarkFitting «module».now fitting.now }
    requires first { infos.old.functions ≡ [] }
    ensures judged { OnOk result (Leads (B.meaning validator.old.below) validator.old.settings validator.old.types «module».now
        validator.old.trace infos.old «module».now.functions
        validator.new.trace infos.new []) }
    ensures entries { OnOk result (infos.new.entry_points ≡ infos.old.entry_points) }
    ensures refused { IfErr result
        (λ told. Stops (B.meaning validator.old.below) validator.old.settings validator.old.types «module».now
        validator.old.trace infos.old «module».now.functions told) }
    ensures kept { OnOk result (validator.new ≡ record validator.old { trace = validator.new.trace }) }
{
    let count = module.functions.len() as u32;
    for index in 0..count {
        let handle = Handle::new(index);
        let fun = &module.functions[handle];
        if !fits_function_with(fun, module, fitting, infos.functions.len()) {
            return Err(ModuleFault::NotFit);
        }
        let answer = validator.validate_function(alloc, fun, module, infos, false);
        match answer {
            Ok(info) => infos.functions.push(info)?,
            Err(Refusal::Fault(fault)) => return Err(ModuleFault::Function(handle, fault)),
            Err(Refusal::Memory) => return Err(ModuleFault::Memory),
        }
    }
    Ok(())
}
