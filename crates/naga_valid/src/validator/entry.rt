//! The steps of an entry point's judgement after its function.

ghost use Rattle.std.specs.Prelude.{◌≡◌, OnOk, Result, Err, length};
ghost use Rattle.ir_errors.specs.declared.function.FunctionError.{FunctionError as Inner};
ghost use Rattle.ir_facts.specs.Fits.{FitsTypes, FitsEntry};
ghost use Rattle.ir_facts.specs.FitsBody.{SignatureFits};
ghost use Rattle.check_entry.specs.InterfacePoints.{HasPayloadSizes, interface_points};
ghost use Rattle.check_laws.specs.EntryJudgement.{of_function};
ghost use Rattle.check_entry.specs.EntryUses.{with_own_uses};
ghost use Rattle.check_entry.specs.EntryVaryings.{with_blending};
ghost use Rattle.check_entry.specs.GivenInfos.{AreInfosOf};
ghost use Rattle.check_statement.specs.FunctionJudgement.{FunctionOutcome as Outcome};
ghost use Rattle.ir_facts.specs.Answers.{Answers, FirstOf, Exactly, read_by, refusal_read_by};
ghost use Rattle.check_entry.specs.EntryFaults.{fault_of};

use crate::validator::Validator;
use check_entry::interface::InterfaceContext;
use check_entry::uses::{check_payload, insert_own_uses};
use check_entry::varyings::set_blending;
use check_faults::entry::EntryPointError;
use ir_arena::Refused;
use ir_arena::span::Refusal;
use ir_errors::function::FunctionError;
use ir_facts::below::Below;
use ir_facts::valid::info::FunctionInfo;
use ir_module::module::{EntryPoint, Module};
use std::alloc::Global;

/// The refusal of a function, as one of its entry point. It keeps the places.
#[cold]
#[inline(never)]
pub(crate) fn refusal_of_function(refused: Refusal<FunctionError>) -> Refusal<EntryPointError>
    ensures { (right : Result Outcome Inner) → Answers (Exactly right) (Err refused) → Answers (Exactly (of_function right))
        (Err (refusal_read_by fault_of result)) }
{
    match refused {
        Refusal::Fault(fault) => Refusal::Fault(fault.into_other()),
        Refusal::Memory => Refusal::Memory,
    }
}

impl<B: Below> Validator<B> {
    /// The steps after the function: its payload, with what the entry point itself does with globals; what is put in and
    /// out, the globals and the mesh; and whether two sources of a blend are put out.
    pub(crate) fn judge_interface(
        &self,
        alloc: Global,
        program: &Module,
        entry_point: &EntryPoint,
        info: &mut FunctionInfo,
    ) -> Result<(), Refused<EntryPointError>>
        requires infos { AreInfosOf program.now self.now.types }
        requires types { FitsTypes program.now }
        requires signature { SignatureFits program.now entry_point.now.function }
        requires entry { FitsEntry entry_point.now program.now }
        requires sizes { HasPayloadSizes (B.meaning self.now.below) program.now }
        requires uses { length info.old.global_uses ≡ length program.now.global_variables }
        ensures fault { Answers (FirstOf (interface_points (B.meaning self.now.below) self.now.settings self.now.types
            program.now entry_point.now info.old)) (read_by fault_of result) }
        ensures info { OnOk result (info.new ≡ with_blending program.now.types self.now.types
            entry_point.now (with_own_uses entry_point.now info.old)) }
    {
        check_payload(alloc, program, entry_point)?;
        insert_own_uses(info, entry_point);
        let interface = InterfaceContext {
            alloc,
            below: &self.below,
            settings: self.settings,
            infos: self.infos(),
            program,
            entry_point,
            info: &*info,
        };
        interface.check()?;
        set_blending(info, entry_point, program, self.infos());
        Ok(())
    }
}
