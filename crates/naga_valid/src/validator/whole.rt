//! The validation of a function.

ghost use Rattle.std.specs.Prelude.{◌≡◌, true, OnOk, OnErr, IfOk, length};
ghost use Rattle.ir_facts.specs.Fits.{FitsTypes, FitsFunction};
ghost use Rattle.naga_runs.specs.Soundness.{RunsAreSure};
ghost use Rattle.check_laws.specs.Accepted.{ResultsAreFilledOnce, StagesAreOfAll};
ghost use Rattle.check_scope.specs.BodyTrees.{body_of};
ghost use Rattle.check_scope.specs.Context.{pre_emitted_of};
ghost use Rattle.ir_facts.specs.WhatIsChecked.{checks_blocks, checks_expressions};
ghost use Rattle.check_statement.specs.FunctionJudgement.{function_judgement, outcome_of};
ghost use Rattle.check_entry.specs.GivenInfos.{AreInfosOf};
ghost use Rattle.check_laws.specs.BodyShapes.{HasNoReturnInContinuing, HasWholeSwitches};
ghost use Rattle.ir_facts.specs.Answers.{Answers, Exactly};

use crate::validator::Validator;
use crate::validator::judge::FunctionContext;
use ir_arena::span::Refusal;
use ir_errors::function::FunctionError;
use ir_facts::below::Below;
use ir_facts::valid::info::{FunctionInfo, ModuleInfo};
use ir_module::functions::Function;
use ir_module::module::Module;
use std::alloc::Global;

impl<B: Below> Validator<B> {
    /// Judges a function of a module: naga 30.0.1's `validate_function`. Answers the info of an accepted function.
    ///
    /// An Err is the first fault, or out of memory. It leaves the validator as it was. Faults come in this order: what
    /// the lower layer answers; the local variables; the arguments; the result; with EXPRESSIONS each expression; with
    /// BLOCKS the body; with both, the lowest result that nothing fills.
    ///
    /// `mod_info` has the infos of earlier functions. `entry_point` says that it is the function of an entry point,
    /// whose arguments and result may have bindings. The info has the stages that the lower layer, the expressions and
    /// all statements leave. The validator keeps what ray traces leave for later functions.
    ///
    /// With BLOCKS, and if the steps before the body pass, `NotInScope` of a body without dead code, for a use or an
    /// argument of a call, says that some run uses what isn't live; a refused jump, that some run is stuck by it:
    /// `witnessed` and `stuck` of `function_law`. A lower layer may answer `NotInScope` itself; the law makes no
    /// claim about that.
    pub fn validate_function(
        &mut self,
        alloc: Global,
        fun: &Function,
        module: &Module,
        mod_info: &ModuleInfo,
        entry_point: bool,
    ) -> Result<FunctionInfo, Refusal<FunctionError>>
        requires infos { AreInfosOf «module».now self.old.types }
        requires types { FitsTypes «module».now }
        requires function { FitsFunction fun.now «module».now (length mod_info.now.functions) }

        // The answer is the judgement's, or out of memory.
        ensures judged { Answers
            (Exactly (function_judgement (B.meaning self.old.below) self.old.settings self.old.types self.old.trace
            «module».now mod_info.now fun.now entry_point))
            (outcome_of self.new.trace result) }

        // With BLOCKS all runs of an accepted body are sound: what every run has emitted is live, what is used is
        // live, no live handle is emitted, and jumps have targets.
        ensures sound { OnOk result (checks_blocks self.old.settings.flags ≡ true
            → RunsAreSure (pre_emitted_of fun.now) (body_of fun.now)) }

        // With BLOCKS and EXPRESSIONS each CallResult of an accepted body is filled by one Call, which
        // is of its function, and by no Atomic; each AtomicResult by one Atomic and by no Call.
        ensures filled { OnOk result (checks_blocks self.old.settings.flags ≡ true
            → checks_expressions self.old.settings.flags ≡ true → ResultsAreFilledOnce fun.now) }

        // With BLOCKS the stages of an accepted function are stages of each of its statements and of each
        // function that it calls.
        ensures stages { IfOk result (λ info. checks_blocks self.old.settings.flags ≡ true
            → StagesAreOfAll self.old.settings.subgroup_stages mod_info.now (body_of fun.now) info.available_stages) }

        // With BLOCKS no Return of an accepted body stands in a continuing part, at any depth.
        ensures returns { OnOk result (checks_blocks self.old.settings.flags ≡ true → HasNoReturnInContinuing (body_of fun.now)) }

        // With BLOCKS each Switch of an accepted body has exactly one default, no value twice, values of the
        // sign that its selector's type in the info has, and a last case that doesn't fall through.
        ensures switches { IfOk result (λ info. checks_blocks self.old.settings.flags ≡ true
            → HasWholeSwitches «module».now info (body_of fun.now)) }

        // Nothing but what ray traces leave may differ, and that only where the function is accepted.
        ensures kept { self.new ≡ record self.old { trace = self.new.trace } }
        ensures refused { OnErr result (self.new ≡ self.old) }
    {
        let function = FunctionContext {
            program: module,
            earlier: mod_info,
            fun,
            entry_point,
        };
        let flags = self.settings.flags;
        let capabilities = self.settings.capabilities;
        let below = &self.below;
        let mut info = below.process_function(alloc, fun, module, mod_info, flags, capabilities)?;
        let kinds = below.kinds(alloc, &fun.expressions)?;
        let judged = self.judge_known(alloc, &function, &kinds, &mut info);
        drop(kinds);
        match judged {
            Ok(()) => Ok(info),
            Err(refused) => {
                drop(info);
                Err(refused)
            }
        }
    }
}
