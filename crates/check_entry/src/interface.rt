//! What an entry point puts in and out, after its function: naga 30.0.1's `validate_entry_point` from the stage on.

ghost use Rattle.ir_facts.specs.Answers.{Answers, FirstOf, read_by};
ghost use Rattle.ir_facts.specs.Fits.{FitsTypes, FitsEntry};
ghost use Rattle.ir_facts.specs.FitsBody.{SignatureFits};
ghost use Rattle.check_entry.specs.EntryFaults.{fault_of};
ghost use Rattle.check_entry.specs.InterfacePoints.{HasPayloadSizes, used_points};
ghost use Rattle.check_entry.specs.GivenInfos.{AreInfosOf};

mod globals;
mod mesh;
mod varyings;

use crate::uses::check_stage;
use check_faults::entry::EntryPointError;
use ir_arena::Refused;
use ir_facts::below::Below;
use ir_facts::valid::info::FunctionInfo;
use ir_facts::valid::settings::Settings;
use ir_module::module::{EntryPoint, Module};
use ir_types::type_info::TypeInfo;
use std::alloc::Global;

/// An entry point after its function: by what it is checked, its module with the infos of the types, and what is known of the
/// function, with what the entry point itself does with globals.
#[derive(Drop)]
pub struct InterfaceContext<'a, B> {
    pub alloc: Global,
    pub below: &'a B,
    pub settings: Settings,
    pub infos: &'a [TypeInfo],
    pub program: &'a Module,
    pub entry_point: &'a EntryPoint,
    pub info: &'a FunctionInfo,
}

impl<'a, B: Below> InterfaceContext<'a, B> {
    /// What an entry point that uses globals so puts in and out: its stage, its arguments, its result, the globals and the
    /// mesh.
    pub fn check(&self) -> Result<(), Refused<EntryPointError>>
        requires infos { AreInfosOf self.now.program.now self.now.infos.now }
        requires types { FitsTypes self.now.program.now }
        requires signature { SignatureFits self.now.program.now self.now.entry_point.now.function }
        requires entry { FitsEntry self.now.entry_point.now self.now.program.now }
        requires sizes { HasPayloadSizes (B.meaning self.now.below.now) self.now.program.now }
        ensures { Answers (FirstOf (used_points (B.meaning self.now.below.now) self.now.settings self.now.infos.now
            self.now.program.now self.now.entry_point.now self.now.info.now)) (read_by fault_of result) }
    {
        let stage = self.entry_point.stage;
        check_stage(self.alloc, stage, self.info.available_stages)?;
        self.check_arguments()?;
        self.check_result()?;
        self.check_used_globals()?;
        self.check_mesh()
    }
}
