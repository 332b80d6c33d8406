//! Judges a text, and finds where its fault stands.

ghost use Rattle.std.specs.Prelude.{◌≡◌, IsTrue, None};
ghost use Rattle.ir_arena.specs.Points.{first_fault};
ghost use Rattle.naga_module.specs.Misfits.{module_points};
ghost use Rattle.check_faults.specs.declared.module.ModuleFault.TheVariants as faults;
ghost use Rattle.json_verdict.specs.Basis.{meaning_of};
ghost use Rattle.json_verdict.specs.Judges.{HasMisfit, Judges};
ghost use Rattle.json_answers.specs.VerdictIds.{HasItsId};
ghost use Rattle.json_answers.specs.declared.verdict.Verdict.TheVariants as verdicts;

use crate::basis::Basis;
use crate::find::JudgedModule;
use ir_module::module::drop_module;
use json_answers::{Examined, RefusedModule, Verdict, alone};
use json_document::{Document, Id, ReadError, Reading, Scratch, read_text};
use json_places::{Found, locate_misfit};
use naga_below::{Module, Settings};
use naga_module::{Misfit, ModuleFault};
use std::alloc::Global;

/// The first thing that doesn't fit in a module, if that is the fault.
fn misfit_of(alloc: Global, module: &Module, basis: &Basis, fault: &ModuleFault) -> Option<Misfit>
    ensures { fault.now ≡ faults.NotFit → result ≡ first_fault (module_points (meaning_of basis.now.layer)
        basis.now.given.types.items «module».now basis.now.given.global_types.items) }
{
    match fault {
        ModuleFault::NotFit => basis.misfit(alloc, module),
        _ => None,
    }
}

/// Finds where a fault stands. None out of memory too.
fn find(alloc: Global, judged: JudgedModule<'_>, misfit: &Option<Misfit>) -> Option<Found> {
    if let Some(misfit) = misfit {
        return locate_misfit(alloc, judged.basis.layer.is_some(), judged.module, misfit);
    }
    judged.locate(alloc)
}

/// A module that is refused with this fault, which isn't out of memory, what doesn't fit, and where the fault stands.
fn refusal(
    alloc: Global,
    id: Option<Id>,
    settings: Settings,
    module: Module,
    basis: &Basis,
    fault: ModuleFault,
) -> Examined
    ensures id { result.id ≡ id }
    ensures verdict { result.verdict ≡ verdicts.Refused fault }
    ensures misfit { fault ≡ faults.NotFit → result.misfit ≡ first_fault (module_points (meaning_of basis.now.layer)
        basis.now.given.types.items «module» basis.now.given.global_types.items) }
{
    let misfit = misfit_of(alloc, &module, basis, &fault);
    let judged = JudgedModule {
        basis,
        settings,
        module: &module,
        fault: &fault,
    };
    let found = find(alloc, judged, &misfit);
    Examined {
        id,
        verdict: Verdict::Refused(fault),
        misfit,
        refused: Some(RefusedModule {
            module,
            is_computed: basis.layer.is_none(),
            found,
        }),
    }
}

/// Judges a text, and if it is asked for, finds what doesn't fit, and where the fault of a refused module stands. `scratch` is
/// memory that reading needs, and is kept from text to text.
#[tactic(auto, using(crate::proofs::Misfits::accepted_judges, crate::proofs::Misfits::refused_judges, crate::proofs::Misfits::memory_judges, crate::proofs::Misfits::accepted_fits, crate::proofs::Misfits::refused_has, crate::proofs::Misfits::unreadable_fits, crate::proofs::Misfits::memory_fits))]
pub(crate) fn examine_text(
    alloc: Global,
    text: &[u8],
    scratch: &mut Scratch,
    is_located: bool,
) -> Examined
    ensures judged { Judges text.now result.verdict }
    ensures misfit { IsTrue is_located → HasMisfit text.now result.verdict result.misfit }
    ensures id { HasItsId text.now result.verdict result.id }
{
    let Reading { id, document } = read_text(alloc, text, scratch);
    let document = match document {
        Ok(document) => document,
        Err(ReadError::Unreadable(unreadable)) => return alone(id, Verdict::Unreadable(unreadable)),
        Err(ReadError::Memory) => return alone(id, Verdict::Refused(ModuleFault::Memory)),
    };
    let Document {
        settings,
        module,
        known,
    } = document;
    let basis = match Basis::new(alloc, &module, known) {
        Ok(basis) => basis,
        Err(_) => {
            drop_module(module);
            return alone(id, Verdict::Refused(ModuleFault::Memory));
        }
    };
    match basis.judge(alloc, settings, &module) {
        Ok(infos) => {
            drop(basis);
            alone(id, Verdict::Accepted { module, infos })
        }
        Err(ModuleFault::Memory) => {
            drop(basis);
            drop_module(module);
            alone(id, Verdict::Refused(ModuleFault::Memory))
        }
        Err(fault) => {
            if is_located {
                let examined = refusal(alloc, id, settings, module, &basis, fault);
                drop(basis);
                return examined;
            }
            drop(basis);
            drop_module(module);
            alone(id, Verdict::Refused(fault))
        }
    }
}

/// Judges a text as [`judge`](crate::judge::judge) does, and finds where the fault of a refused module stands, and what
/// doesn't fit.
pub fn examine(alloc: Global, text: &[u8]) -> Examined
    // The verdict is that of the text.
    ensures judged { Judges text.now result.verdict }

    // What is reported not to fit is the first misfit of the document's module.
    ensures misfit { HasMisfit text.now result.verdict result.misfit }

    // The id is the one that the text has.
    ensures id { HasItsId text.now result.verdict result.id }
{
    examine_text(alloc, text, &mut Scratch::new(alloc), true)
}
