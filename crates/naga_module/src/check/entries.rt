//! The entry points of a module, in order.

ghost use Rattle.std.specs.Prelude.{◌≡◌, ◌↔◌, [], Ok, IsTrue, OnOk, IfErr};
ghost use Rattle.ir_facts.specs.Fits.{FitsTypes, FitsFunction, FitsEntry};
ghost use Rattle.naga_module.specs.CodeModule.{EntriesStop};
ghost use Rattle.naga_module.specs.ModuleJudgement.{EntriesAnswer};
ghost use Rattle.check_entry.specs.GivenInfos.{AreInfosOf};
ghost use Rattle.ir_misfits.specs.FittingSignatures.{MarkFitting};
ghost use Rattle.check_entry.specs.InterfacePoints.{HasPayloadSizes};

use check_faults::module::ModuleFault;
use ir_arena::span::Refusal;
use ir_facts::below::Below;
use ir_facts::valid::info::ModuleInfo;
use ir_fits::{fits_entry, fits_function_with};
use ir_module::module::{EntryPoint, Module};
use naga_valid::Validator;
use std::alloc::Global;

/// Whether what an entry point names is there, where there are infos of this many functions.
fn fits(ep: &EntryPoint, module: &Module, fitting: &[bool], earlier: usize) -> bool
    requires fitting { MarkFitting «module».now fitting.now }
    ensures { IsTrue result ↔ (FitsFunction ep.now.function «module».now earlier × FitsEntry ep.now «module».now) }
{
    fits_function_with(&ep.function, module, fitting, earlier) && fits_entry(ep, module)
}

/// Validates the entry points of a module in order, each with all infos so far, and adds the info of each at the end. A true
/// mark of `fitting`, indexed by handles of functions, says that the signature is known to fit.
pub(crate) fn validate_entry_points<B: Below>(
    alloc: Global,
    validator: &mut Validator<B>,
    module: &Module,
    fitting: &[bool],
    infos: &mut ModuleInfo,
) -> Result<(), ModuleFault>
    requires infos { AreInfosOf «module».now validator.old.types }
    requires types { FitsTypes «module».now }
    requires sizes { HasPayloadSizes (B.meaning validator.old.below) «module».now }
    requires fitting { MarkFitting «module».now fitting.now }
    requires first { infos.old.entry_points ≡ [] }
    ensures judged { OnOk result
        (EntriesAnswer (B.meaning validator.old.below) validator.old.settings validator.old.types «module».now
        validator.old.trace infos.old «module».now.entry_points (Ok infos.new)) }
    ensures refused { IfErr result
        (λ told. EntriesStop (B.meaning validator.old.below) validator.old.settings validator.old.types «module».now
        validator.old.trace infos.old «module».now.entry_points told) }
{
    for index in 0..module.entry_points.len() {
        let ep = &module.entry_points[index];
        if !fits(ep, module, fitting, infos.functions.len()) {
            return Err(ModuleFault::NotFit);
        }
        let answer = validator.validate_entry_point(alloc, ep, module, infos);
        match answer {
            Ok(info) => infos.entry_points.push(info)?,
            Err(Refusal::Fault(fault)) => return Err(ModuleFault::EntryPoint(index, fault)),
            Err(Refusal::Memory) => return Err(ModuleFault::Memory),
        }
    }
    Ok(())
}
