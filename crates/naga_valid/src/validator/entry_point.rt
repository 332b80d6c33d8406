//! The validation of an entry point.

ghost use Rattle.std.specs.Prelude.{◌≡◌, true, None, Err, OnOk, OnErr, IfOk, length};
ghost use Rattle.ir_arena.specs.Points.{first_fault};
ghost use Rattle.ir_facts.specs.Fits.{FitsTypes, FitsFunction, FitsEntry};
ghost use Rattle.ir_leaves.specs.declared.stage.ShaderStage.TheVariants.{Vertex};
ghost use Rattle.naga_runs.specs.Soundness.{RunsAreSure};
ghost use Rattle.ir_facts.specs.WhatIsChecked.{checks_bindings};
ghost use Rattle.check_laws.specs.Accepted.{ResultsAreFilledOnce, StagesAreOfAll};
ghost use Rattle.check_scope.specs.BodyTrees.{body_of};
ghost use Rattle.check_laws.specs.Chains.{AreVetted, ChainsKeepTo};
ghost use Rattle.check_laws.specs.BodyShapes.{HasNoReturnInContinuing, HasWholeSwitches};
ghost use Rattle.check_scope.specs.Context.{pre_emitted_of};
ghost use Rattle.check_entry.specs.InterfacePoints.{HasPayloadSizes};
ghost use Rattle.check_laws.specs.EntryJudgement.{entry_judgement};
ghost use Rattle.check_laws.specs.EntryFacts.{argument_parts, BindingsAreDistinct, BuiltInsAreDistinct, GroupsAreDistinct, ReturnsPosition};
ghost use Rattle.check_entry.specs.Start.{start_points};
ghost use Rattle.check_entry.specs.EntryUses.{only};
ghost use Rattle.check_entry.specs.GivenInfos.{AreInfosOf};
ghost use Rattle.ir_facts.specs.WhatIsChecked.{checks_blocks, checks_expressions};
ghost use Rattle.ir_facts.specs.Answers.{Answers, Exactly, read_by};
ghost use Rattle.check_statement.specs.FunctionJudgement.{outcome_of};
ghost use Rattle.check_entry.specs.EntryFaults.{fault_of};

use crate::validator::Validator;
use crate::validator::entry::refusal_of_function;
use check_entry::answers::refusal_at_start;
use check_entry::start::{check_start, start_holds};
use check_faults::entry::EntryPointError;
use ir_arena::span::Refusal;
use ir_facts::below::Below;
use ir_facts::valid::info::{FunctionInfo, ModuleInfo};
use ir_module::module::{EntryPoint, Module};
use std::alloc::Global;

impl<B: Below> Validator<B> {
    /// Judges an entry point of a module: naga 30.0.1's `validate_entry_point`. Answers the info of an accepted one.
    ///
    /// An Err is the first fault, or out of memory. It leaves the validator as it was. Faults come in this order: what
    /// its stage needs; the early depth test; the workgroup size; `mesh_info` and its absence; the function
    /// (`Function`), as `validate_function` judges it; the task payload; the stage; the arguments (`Argument`); the
    /// result (`Result`) and what the stage must return; the globals that are used, of which at most one is an
    /// immediate; the mesh. A fault before the function is never hidden by out of memory.
    ///
    /// `mod_info` has the infos of the module's functions. The info is that of the function. The uses of the payload
    /// and of the mesh's output variable by the entry point itself are added to it, and `dual_source_blending` is set
    /// if the result is the two sources of a blend. The validator keeps what ray traces leave for later functions.
    ///
    /// A refused jump of its function's body, and a use out of scope, break in some run, as `validate_function` says.
    pub fn validate_entry_point(
        &mut self,
        alloc: Global,
        ep: &EntryPoint,
        module: &Module,
        mod_info: &ModuleInfo,
    ) -> Result<FunctionInfo, Refusal<EntryPointError>>
        requires infos { AreInfosOf «module».now self.old.types }
        requires types { FitsTypes «module».now }
        requires function { FitsFunction ep.now.function «module».now (length mod_info.now.functions) }
        requires entry { FitsEntry ep.now «module».now }
        requires sizes { HasPayloadSizes (B.meaning self.old.below) «module».now }

        // The answer is the judgement's, or out of memory.
        ensures judged { Answers (Exactly (entry_judgement (B.meaning self.old.below) self.old.settings self.old.types
            self.old.trace «module».now mod_info.now ep.now)) (read_by fault_of (outcome_of self.new.trace result)) }

        // Where it is out of memory, nothing before the function is wrong.
        ensures memory { result ≡ Err Refusal.Memory → first_fault (start_points self.old.settings.capabilities ep.now) ≡ None }

        // With BLOCKS all runs of an accepted body are sound: what every run has emitted is live, what is used is
        // live, no live handle is emitted, and jumps have targets.
        ensures sound { OnOk result (checks_blocks self.old.settings.flags ≡ true →
            RunsAreSure (pre_emitted_of ep.now.function) (body_of ep.now.function)) }

        // With BLOCKS and EXPRESSIONS each CallResult of an accepted body is filled by one Call, which
        // is of its function, and by no Atomic; each AtomicResult by one Atomic and by no Call.
        ensures filled { OnOk result (checks_blocks self.old.settings.flags ≡ true →
            checks_expressions self.old.settings.flags ≡ true → ResultsAreFilledOnce ep.now.function) }

        // With BLOCKS the stages of an accepted function are stages of each of its statements and of each
        // function that it calls.
        ensures stages { IfOk result (λ info. checks_blocks self.old.settings.flags ≡ true →
            StagesAreOfAll self.old.settings.subgroup_stages mod_info.now (body_of ep.now.function)
            info.available_stages) }

        // With BLOCKS no Return of an accepted body stands in a continuing part, at any depth.
        ensures returns { OnOk result (checks_blocks self.old.settings.flags ≡ true →
            HasNoReturnInContinuing (body_of ep.now.function)) }

        // With BLOCKS each Switch of an accepted body has exactly one default, no value twice, values of the sign that its
        // selector's type in the info has, and a last case that doesn't fall through.
        ensures switches { IfOk result (λ info. checks_blocks self.old.settings.flags ≡ true →
            HasWholeSwitches «module».now info (body_of ep.now.function)) }

        // With BINDINGS no two globals that are used have one binding.
        ensures bindings { IfOk result (λ info. checks_bindings self.old.settings.flags ≡ true →
            BindingsAreDistinct «module».now.global_variables info.global_uses) }

        // With BINDINGS no two parts of a group take one location: of the arguments, of the result, of the
        // outputs of a mesh together.
        ensures locations { OnOk result (checks_bindings self.old.settings.flags ≡ true →
            GroupsAreDistinct self.old.settings «module».now.types self.old.types ep.now) }

        // No two parts of the arguments are one built-in, once `invariant` and `perspective` are cleared.
        ensures built_ins { OnOk result
            (BuiltInsAreDistinct (argument_parts self.old.settings «module».now.types self.old.types ep.now)) }

        // At the vertex stage a position is returned.
        ensures position { OnOk result (ep.now.stage ≡ Vertex → ReturnsPosition «module».now.types ep.now.function.result) }

        // With BLOCKS and vetted infos of the functions, the entry point keeps to its stage through all chains of
        // calls.
        ensures chains { OnOk result (checks_blocks self.old.settings.flags ≡ true →
            AreVetted (B.meaning self.old.below) self.old.settings self.old.types «module».now mod_info.now →
            ChainsKeepTo (B.meaning self.old.below) self.old.settings self.old.types «module».now mod_info.now
            ep.now.function (only ep.now.stage)) }

        // Nothing but what ray traces leave may differ, and that only where the entry point is accepted.
        ensures kept { self.new ≡ record self.old { trace = self.new.trace } }
        ensures refused { OnErr result (self.new ≡ self.old) }
    {
        if !start_holds(ep) {
            if let Err(fault) = check_start(self.settings.capabilities, ep) {
                return Err(refusal_at_start(alloc, fault));
            }
        }
        let before = self.trace;
        let mut info = match self.validate_function(alloc, &ep.function, module, mod_info, true) {
            Ok(info) => info,
            Err(refused) => return Err(refusal_of_function(refused)),
        };
        match self.judge_interface(alloc, module, ep, &mut info) {
            Ok(()) => Ok(info),
            Err(refused) => {
                drop(info);
                self.trace = before;
                Err(refused.into_refusal())
            }
        }
    }
}
