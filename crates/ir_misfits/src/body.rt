//! Whether the statements of a body fit, at any depth, and what doesn't fit of them.

ghost use Rattle.std.specs.Prelude.{◌≡◌, ◌↔◌, IsTrue, IfOk};
ghost use Rattle.ir_statements.specs.View.{no_operands, tree_of, body_of, list_body, list_cases};
ghost use Rattle.ir_facts.specs.FitsBody.{StatementFits, BodyFits, CasesFit};
ghost use Rattle.ir_misfits.specs.OfBodies.{next, after_statement, after_body, after_cases, statement_points, body_points, cases_points};
ghost use Rattle.ir_misfits.specs.FittingSignatures.{MarkFitting};
ghost use Rattle.ir_facts.specs.Answers.{Finds, FirstOf};

use crate::leaf::{BodyRanges, check_leaf, leaf_fits};
use crate::misfit::{Misfit, Owner, StatementField};
use crate::numbered::Numbered;
use ir_statements::statements::{Block, Located, Statement, SwitchCase};

/// Whether a block fits, at any depth.
#[cycle(fit)]
pub(crate) fn block_fits(ranges: &BodyRanges, block: &Block) -> bool
    requires fitting { MarkFitting ranges.now.module.now ranges.now.fitting.now }
    ensures { IsTrue result ↔ BodyFits ranges.now.module.now ranges.now.expressions ranges.now.earlier
        (body_of no_operands block.now) }
{
    list_fits(ranges, block.list.as_slice())
}

/// Whether each of these fits.
#[cycle(fit)]
fn list_fits(ranges: &BodyRanges, list: &[Located]) -> bool
    requires fitting { MarkFitting ranges.now.module.now ranges.now.fitting.now }
    ensures { IsTrue result ↔ BodyFits ranges.now.module.now ranges.now.expressions ranges.now.earlier
        (list_body no_operands list.now) }
{
    for located in list {
        if !statement_fits(ranges, located) {
            return false;
        }
    }
    true
}

/// Whether the body of each of these fits.
#[cycle(fit)]
fn cases_fit(ranges: &BodyRanges, cases: &[SwitchCase]) -> bool
    requires fitting { MarkFitting ranges.now.module.now ranges.now.fitting.now }
    ensures { IsTrue result ↔ CasesFit ranges.now.module.now ranges.now.expressions ranges.now.earlier
        (list_cases no_operands cases.now) }
{
    // (its statements here and not by a call, for its time: most bodies of cases are short)
    for case in cases {
        for located in case.body.list.as_slice() {
            if !statement_fits(ranges, located) {
                return false;
            }
        }
    }
    true
}

/// Whether the statement, and those that it holds, fit.
#[cycle(fit)]
#[inline(always)]
fn statement_fits(ranges: &BodyRanges, located: &Located) -> bool
    requires fitting { MarkFitting ranges.now.module.now ranges.now.fitting.now }
    ensures { IsTrue result ↔ StatementFits ranges.now.module.now ranges.now.expressions ranges.now.earlier
        (tree_of no_operands located.now.statement located.now.span) }
{
    let statement = &located.statement;
    match statement {
        Statement::Emit(range) => {
            range.start <= range.end && range.end as usize <= ranges.expressions
        }
        Statement::Store { pointer, value } => ranges.has(*pointer) && ranges.has(*value),
        Statement::Call {
            function,
            arguments,
            result: answer,
        } => ranges.has_call(*function, arguments.as_slice(), *answer),
        Statement::Block(block) => block_fits(ranges, block),
        Statement::If {
            condition,
            accept,
            reject,
        } => { ranges.has(*condition) && block_fits(ranges, accept) && block_fits(ranges, reject) }
        Statement::Switch { selector, cases } => {
            ranges.has(*selector) && cases_fit(ranges, cases.as_slice())
        }
        Statement::Loop {
            body,
            continuing,
            break_if,
        } => {
            block_fits(ranges, body)
                && block_fits(ranges, continuing)
                && ranges.has_if_any(*break_if)
        }
        Statement::Return { value } => ranges.has_if_any(*value),
        Statement::Break
        | Statement::Continue
        | Statement::Kill
        | Statement::ControlBarrier(_)
        | Statement::MemoryBarrier(_) => true,
        Statement::ImageStore { .. }
        | Statement::Atomic { .. }
        | Statement::ImageAtomic { .. }
        | Statement::WorkGroupUniformLoad { .. }
        | Statement::RayQuery { .. }
        | Statement::SubgroupBallot { .. }
        | Statement::SubgroupCollectiveOperation { .. }
        | Statement::SubgroupGather { .. }
        | Statement::CooperativeStore { .. }
        | Statement::RayPipelineFunction(_) => leaf_fits(ranges, statement),
    }
}

/// The number of the next statement. Numbers end where a `usize` does.
fn next(number: usize) -> usize
    ensures { result ≡ next number }
{
    if number < usize::MAX {
        number + 1
    } else {
        number
    }
}

/// The statements of a block, of which the first has this number. Ok has the number of the one after it.
#[cycle(check)]
pub(crate) fn check_block(
    ranges: &BodyRanges,
    owner: Owner,
    number: usize,
    block: &Block,
) -> Result<usize, Misfit>
    requires fitting { MarkFitting ranges.now.module.now ranges.now.fitting.now }
    ensures first { Finds (FirstOf (body_points ranges.now.module.now ranges.now.expressions
        ranges.now.earlier owner number (body_of no_operands block.now))) result }
    ensures after { IfOk result (λ after. after ≡ after_body number (body_of no_operands block.now)) }
{
    check_list(ranges, owner, number, block.list.as_slice())
}

#[cycle(check)]
#[tactic(auto, using(ir_arena::proofs::Points::first_of_both))]
fn check_list(
    ranges: &BodyRanges,
    owner: Owner,
    number: usize,
    list: &[Located],
) -> Result<usize, Misfit>
    requires fitting { MarkFitting ranges.now.module.now ranges.now.fitting.now }
    ensures first { Finds (FirstOf (body_points ranges.now.module.now ranges.now.expressions
        ranges.now.earlier owner number (list_body no_operands list.now))) result }
    ensures after { IfOk result (λ after. after ≡ after_body number (list_body no_operands list.now)) }
{
    let mut after = number;
    for located in list {
        after = check_statement(ranges, owner, after, located)?;
    }
    Ok(after)
}

#[cycle(check)]
#[tactic(auto, using(ir_arena::proofs::Points::first_of_both))]
fn check_cases(
    ranges: &BodyRanges,
    owner: Owner,
    number: usize,
    cases: &[SwitchCase],
) -> Result<usize, Misfit>
    requires fitting { MarkFitting ranges.now.module.now ranges.now.fitting.now }
    ensures first { Finds (FirstOf (cases_points ranges.now.module.now ranges.now.expressions
        ranges.now.earlier owner number (list_cases no_operands cases.now))) result }
    ensures after { IfOk result (λ after. after ≡ after_cases number (list_cases no_operands cases.now)) }
{
    let mut after = number;
    for case in cases {
        after = check_block(ranges, owner, after, &case.body)?;
    }
    Ok(after)
}

/// The statement with this number, and those that it holds.
#[cycle(check)]
#[tactic(auto, using(ir_arena::proofs::Points::first_of_both))]
fn check_statement(
    ranges: &BodyRanges,
    owner: Owner,
    number: usize,
    located: &Located,
) -> Result<usize, Misfit>
    requires fitting { MarkFitting ranges.now.module.now ranges.now.fitting.now }
    ensures first { Finds (FirstOf (statement_points ranges.now.module.now ranges.now.expressions
        ranges.now.earlier owner number
        (tree_of no_operands located.now.statement located.now.span))) result }
    ensures after { IfOk result (λ after. after
        ≡ after_statement number (tree_of no_operands located.now.statement located.now.span)) }
{
    let this = Numbered {
        owner,
        number,
        expressions: ranges.expressions,
    };
    let inside = next(number);
    let statement = &located.statement;
    match statement {
        Statement::Block(block) => check_block(ranges, owner, inside, block),
        Statement::If {
            condition,
            accept,
            reject,
        } => {
            this.names(StatementField::Condition, *condition)?;
            let after = check_block(ranges, owner, inside, accept)?;
            check_block(ranges, owner, after, reject)
        }
        Statement::Switch { selector, cases } => {
            this.names(StatementField::Selector, *selector)?;
            check_cases(ranges, owner, inside, cases.as_slice())
        }
        Statement::Loop {
            body,
            continuing,
            break_if,
        } => {
            let after = check_block(ranges, owner, inside, body)?;
            let after = check_block(ranges, owner, after, continuing)?;
            this.names_if_any(StatementField::BreakIf, *break_if)?;
            Ok(after)
        }
        Statement::Break | Statement::Continue | Statement::Kill => Ok(inside),
        Statement::Return { value } => {
            this.names_if_any(StatementField::Value, *value)?;
            Ok(inside)
        }
        Statement::Emit(_)
        | Statement::ControlBarrier(_)
        | Statement::MemoryBarrier(_)
        | Statement::Store { .. }
        | Statement::ImageStore { .. }
        | Statement::Atomic { .. }
        | Statement::ImageAtomic { .. }
        | Statement::WorkGroupUniformLoad { .. }
        | Statement::Call { .. }
        | Statement::RayQuery { .. }
        | Statement::SubgroupBallot { .. }
        | Statement::SubgroupCollectiveOperation { .. }
        | Statement::SubgroupGather { .. }
        | Statement::CooperativeStore { .. }
        | Statement::RayPipelineFunction(_) => {
            check_leaf(ranges, owner, number, statement)?;
            Ok(inside)
        }
    }
}
