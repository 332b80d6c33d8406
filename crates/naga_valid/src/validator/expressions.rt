//! The checks of a function's expressions, each by the lower layer.

ghost use Rattle.std.specs.Prelude.{◌≡◌, OnOk, Result, Err};
ghost use Rattle.ir_errors.specs.declared.expression.ExpressionError.{ExpressionError as Source};
ghost use Rattle.ir_flags.specs.declared.valid.ShaderStages.{ShaderStages as Mask};
ghost use Rattle.ir_facts.specs.Answers.{Answers, Exactly, leaving};
ghost use Rattle.check_statement.specs.ExpressionStages.{with_stages, of_expression, expressions_step};
ghost use Rattle.check_statement.specs.walk.AskedContext.{asked_by};

use crate::validator::Validator;
use crate::validator::judge::FunctionContext;
use bitflags::Flags;
use ir_arena::handle::Handle;
use ir_arena::span::Refusal;
use ir_arena::tag;
use ir_errors::expression::ExpressionError;
use ir_errors::function::FunctionError;
use ir_facts::below::Below;
use ir_facts::proc::expression_kinds::ExpressionKindTracker;
use ir_facts::valid::info::FunctionInfo;
use ir_flags::valid::{ShaderStages, ValidationFlags};
use std::alloc::Global;

/// The refusal of an expression by the lower layer, as one of its function. It keeps the places.
#[cold]
#[inline(never)]
fn refused_expression(
    handle: Handle<tag::Expression>,
    refusal: Refusal<ExpressionError>,
) -> Refusal<FunctionError>
    ensures { (right : Result Mask Source) → Answers (Exactly right) (Err refusal) → Answers
        (Exactly (of_expression handle right)) (Err result) }
{
    match refusal {
        Refusal::Fault(fault) => {
            let source = *fault.as_inner();
            Refusal::Fault(fault.with_fault(FunctionError::Expression { handle, source }))
        }
        Refusal::Memory => Refusal::Memory,
    }
}

impl<B: Below> Validator<B> {
    /// Asks for each expression, where expressions are checked, with the info whose stages have the masks of those before it
    /// met in, and leaves the stages of all of them in it.
    pub(crate) fn check_expressions(
        &self,
        alloc: Global,
        function: &FunctionContext,
        kinds: &ExpressionKindTracker,
        info: &mut FunctionInfo,
    ) -> Result<(), Refusal<FunctionError>>
        ensures fault { Answers (Exactly (expressions_step (B.meaning self.now.below)
            (asked_by self.now function.now.program.now function.now.earlier.now function.now.fun.now kinds.now
            info.old))) (leaving info.new.available_stages result) }
        ensures kept { info.new ≡ with_stages info.old info.new.available_stages }
    {
        if !self.settings.flags.contains(ValidationFlags::EXPRESSIONS) {
            return Ok(());
        }
        let count = function.fun.expressions.len() as u32;
        for index in 0..count {
            let handle = Handle::new(index);
            let settings = self.settings;
            let asked = self.below.validate_expression(
                alloc,
                settings,
                handle,
                function.fun,
                function.program,
                info,
                function.earlier,
                kinds,
            );
            match asked {
                Ok(mask) => info.available_stages = info.available_stages.intersection(mask),
                Err(refusal) => return Err(refused_expression(handle, refusal)),
            }
        }
        Ok(())
    }
}
