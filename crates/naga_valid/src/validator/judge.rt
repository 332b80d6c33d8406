//! The judgement of a function, after what the lower layer knows of it: its declarations, its expressions and its body.

ghost use Rattle.std.specs.Prelude.{◌≡◌, Ok, OnErr, length};
ghost use Rattle.ir_facts.specs.Fits.{FitsTypes, FitsFunction};
ghost use Rattle.ir_facts.specs.Answers.{Answers, Exactly, leaving};
ghost use Rattle.check_scope.specs.walk.SeenContext.{context_of};
ghost use Rattle.check_entry.specs.GivenInfos.{AreInfosOf};
ghost use Rattle.check_statement.specs.FunctionJudgement.{lower_step};
ghost use Rattle.check_statement.specs.walk.AskedContext.{asked_by, judgement_by};

use crate::validator::Validator;
use check_body::declarations::check_declarations;
use check_body::function::validate_body;
use check_scope::context::BlockContext;
use check_scope::table::Table;
use ir_arena::span::Refusal;
use ir_errors::function::FunctionError;
use ir_facts::below::Below;
use ir_facts::proc::expression_kinds::ExpressionKindTracker;
use ir_facts::valid::info::{FunctionInfo, ModuleInfo};
use ir_flags::valid::ValidationFlags;
use ir_module::functions::Function;
use ir_module::module::Module;
use std::alloc::Global;

/// A function that is judged: its module, the infos of the functions before it, and whether it is an entry point's.
#[derive(Clone, Copy)]
pub(crate) struct FunctionContext<'a> {
    pub(crate) program: &'a Module,
    pub(crate) earlier: &'a ModuleInfo,
    pub(crate) fun: &'a Function,
    pub(crate) entry_point: bool,
}

impl<B: Below> Validator<B> {
    /// The judgement of a function of which the lower layer knows this. It leaves the stages of an accepted function in its info,
    /// and what its ray traces leave in the validator. It owns nothing, so its ways out drop nothing: as one function with
    /// `validate_function`, the two took longer for small functions and entry points.
    pub(crate) fn judge_known(
        &mut self,
        alloc: Global,
        function: &FunctionContext,
        kinds: &ExpressionKindTracker,
        info: &mut FunctionInfo,
    ) -> Result<(), Refusal<FunctionError>>
        requires infos { AreInfosOf function.now.program.now self.old.types }
        requires types { FitsTypes function.now.program.now }
        requires function { FitsFunction function.now.fun.now function.now.program.now
            (length function.now.earlier.now.functions) }
        requires known { lower_step (B.meaning self.old.below) self.old.settings self.old.types self.old.trace
            function.now.program.now function.now.earlier.now function.now.fun.now function.now.entry_point ≡ Ok info.old }
        requires kinds { kinds.now ≡ (B.meaning self.old.below).kinds_of function.now.fun.now.expressions }
        ensures judged { Answers
            (Exactly (judgement_by self.old (B.meaning self.old.below) function.now.program.now function.now.earlier.now
            function.now.fun.now function.now.entry_point))
            (leaving (record { info = info.new; trace = self.new.trace }) result) }
        ensures kept { self.new ≡ record self.old { trace = self.new.trace } }
        ensures refused { OnErr result (self.new ≡ self.old) }
    {
        let context = self.block_context(*function, kinds, &*info);
        check_declarations(alloc, &context, self.infos(), function.entry_point)?;
        self.check_expressions(alloc, function, kinds, info)?;
        if self.settings.flags.contains(ValidationFlags::BLOCKS) {
            let context = self.block_context(*function, kinds, &*info);
            let mut table = Table::take_or_new(alloc, &mut self.table)?;
            let judged = validate_body(alloc, &mut table, &context);
            self.table = Some(table);
            let left = match judged {
                Ok(left) => left,
                Err(refused) => return Err(refused.into_refusal()),
            };
            info.available_stages = left.stages;
            self.trace = left.trace;
        }
        Ok(())
    }

    /// What the checks of a function's declarations and of its body read, where this is known of it. It borrows the info,
    /// whose stages the checks of expressions change between the two.
    fn block_context<'a>(
        &self,
        function: FunctionContext<'a>,
        kinds: &'a ExpressionKindTracker,
        info: &'a FunctionInfo,
    ) -> BlockContext<'a>
        ensures { context_of result
            ≡ asked_by self.now function.entry.program.now function.entry.earlier.now function.entry.fun.now kinds.now info.now }
    {
        BlockContext {
            program: function.program,
            earlier: function.earlier,
            fun: function.fun,
            info,
            kinds,
            settings: self.settings,
            trace: self.trace,
        }
    }
}
