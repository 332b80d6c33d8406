//! The judgement of a body of statements: naga's `validate_block`.

ghost use Rattle.std.specs.Prelude.{◌≡◌, ◌≤◌, ℕ, List, IfOk, OnOk, length};
ghost use Rattle.naga_runs.specs.Handles.{no_handles};
ghost use Rattle.naga_runs.specs.Must.{holds_continue, body_holds_continue, cases_hold_continue};
ghost use Rattle.check_scope.specs.walk.Place.{no_sets};
ghost use Rattle.ir_facts.specs.Answers.{Answers, Exactly, leaving};
ghost use Rattle.check_scope.specs.BodyTrees.{tree_of, body_of, block_of, cases_of};
ghost use Rattle.check_scope.specs.Context.{ContextFits, pre_emitted};
ghost use Rattle.check_statement.specs.FunctionJudgement.{body_judgement};
ghost use Rattle.check_statement.specs.Ready.{IsStatementReady, IsBodyReady, AreCasesReady};
ghost use Rattle.check_scope.specs.walk.SeenContext.{context_of};
ghost use Rattle.check_statement.specs.walk.State.{kept, body_left};
ghost use Rattle.check_scope.specs.declared.table.OperandColumn.{OperandColumn};
ghost use Rattle.check_scope.specs.walk.Table.{HasLooped, HasPut, IsTableOf, KnowsOperands, KnowsResults, count, filled_in, known, marked, scopes, shown, unfilled_in};
ghost use Rattle.check_statement.specs.walk.Walk.{puts, body_puts, puts_to_continue, parts_answer, stmt_answer, body_answer, cases_answer};

use check_scope::context::BlockContext;
use check_scope::refuse::answer_of_function;
use check_scope::results::is_to_fill;
use check_scope::table::{FilledColumn, ScopeColumn, Table};
use check_statement::rarer::check_rarer;
use check_statement::results::check_filled;
use check_statement::state::{BodyOutcome, advance};
use check_statement::statement::{check_break_if, is_frequent, validate_frequent};
use ir_arena::Refused;
use ir_arena::handle::Handle;
use ir_errors::function::FunctionError;
use ir_statements::statements::{Block, Located, Statement, SwitchCase};
use naga_runs::Abilities;
use std::alloc::Global;

/// Judges the body of a function: the first fault in visit order, else the lowest result that is not filled, else what
/// is left. The table is begun anew: nothing is read of what it held before.
pub fn validate_body(
    alloc: Global,
    table: &mut Table,
    context: &BlockContext,
) -> Result<BodyOutcome, Refused<FunctionError>>
    requires context { ContextFits (context_of context.now) }
    requires ready { IsBodyReady (context_of context.now) (body_of (context_of context.now).fun) }
    ensures { Answers (Exactly (body_left (context_of context.now) (body_judgement (context_of context.now)))) result }
{
    let count = context.fun.expressions.len();
    table.scope.begin(count)?;
    table.filled.begin(count)?;
    table.operands.begin();
    table.roots.begin();
    begin_columns(&mut table.scope, &mut table.filled, context);
    let mut state = BodyOutcome {
        stages: context.info.available_stages,
        trace: context.trace,
    };
    let abilities = Abilities::at_begin();
    validate_statements(table, &mut state, context, &abilities, &context.fun.body)?;
    answer_of_function(alloc, check_filled(&table.filled, context))?;
    Ok(state)
}

/// Puts in scope what is there before the first statement, and marks the results that are to be filled.
fn begin_columns(scope: &mut ScopeColumn, filled: &mut FilledColumn, context: &BlockContext)
    requires none { known scope.old ≡ no_sets }
    requires count { count scope.old ≡ length (context_of context.now).fun.expressions }
    requires filled { filled_in filled.old ≡ no_handles }
    requires unfilled { unfilled_in filled.old ≡ no_handles }
    requires marked { marked filled.old ≡ length (context_of context.now).fun.expressions }
    ensures scope { (known scope.new).scope ≡ pre_emitted (context_of context.now) }
    ensures must { (known scope.new).must ≡ pre_emitted (context_of context.now) }
    ensures count { count scope.new ≡ count scope.old }
    ensures filled { filled_in filled.new ≡ no_handles }
    ensures results { KnowsResults (context_of context.now) filled.new }
    ensures marked { marked filled.new ≡ marked filled.old }
    ensures operands { (operands : ℕ → List ℕ) (t : OperandColumn) → KnowsOperands operands t scope.old
        → KnowsOperands operands t scope.new }
{
    let count = context.fun.expressions.len() as u32;
    for index in 0..count {
        let handle = Handle::new(index);
        if context.fun.expressions[handle].needs_pre_emit() {
            scope.put(handle);
        }
        if is_to_fill(context.expression(handle)) {
            filled.expect(handle);
        }
    }
}

/// The parts of a statement, or nothing where it has none. Answers whether it holds a Continue for the Loop in whose
/// body it stands.
#[tactic(auto, using(crate::proofs::Walk::walking))]
#[cycle(walk)]
#[inline(never)]
fn validate_nested(
    table: &mut Table,
    state: &mut BodyOutcome,
    context: &BlockContext,
    abilities: &Abilities,
    located: &Located,
) -> Result<bool, Refused<FunctionError>>
    requires context { ContextFits (context_of context.now) }
    requires ready { IsStatementReady (context_of context.now) (tree_of (context_of context.now) located.now) }
    requires table { IsTableOf (context_of context.now) table.old }
    ensures fault { Answers (Exactly (parts_answer (context_of context.now) (kept table.old.filled state.old)
        abilities.now (known table.old.scope) (tree_of (context_of context.now) located.now)))
        (leaving (kept table.new.filled state.new) result) }
    ensures table { OnOk result (IsTableOf (context_of context.now) table.new) }
    ensures scope { OnOk result (shown table.new.scope ≡ shown table.old.scope) }
    ensures taken { OnOk result (scopes table.old.scope ≤ scopes table.new.scope) }
    ensures held { IfOk result (λ held. held ≡ holds_continue (tree_of (context_of context.now) located.now)) }
{
    match &located.statement {
        Statement::Block(body) => validate_block(table, state, context, abilities, body),
        Statement::If { accept, reject, .. } => {
            let accepts = validate_block(table, state, context, abilities, accept)?;
            let rejects = validate_block(table, state, context, abilities, reject)?;
            Ok(accepts | rejects)
        }
        Statement::Switch { cases, .. } => {
            let abilities = abilities.in_case();
            validate_cases(table, state, context, &abilities, cases.as_slice())
        }
        Statement::Loop {
            body,
            continuing,
            break_if,
        } => {
            let outer = table.scope.enter()?;
            let inside = abilities.in_loop();
            let skipped = validate_loop_body(table, state, context, &inside, body)?;
            let behind = Abilities::in_continuing();
            validate_statements(table, state, context, &behind, continuing)?;
            check_break_if(&table.scope, context, *break_if, &located.span)?;
            table.scope.leave(outer, skipped);
            Ok(false)
        }
        Statement::Continue => Ok(true),
        Statement::Emit(_)
        | Statement::Break
        | Statement::Return { .. }
        | Statement::Kill
        | Statement::ControlBarrier(_)
        | Statement::MemoryBarrier(_)
        | Statement::Store { .. }
        | Statement::ImageStore { .. }
        | Statement::Atomic { .. }
        | Statement::ImageAtomic { .. }
        | Statement::WorkGroupUniformLoad { .. }
        | Statement::Call { .. }
        | Statement::RayQuery { .. }
        | Statement::SubgroupBallot { .. }
        | Statement::SubgroupCollectiveOperation { .. }
        | Statement::SubgroupGather { .. }
        | Statement::CooperativeStore { .. }
        | Statement::RayPipelineFunction(_) => Ok(false),
    }
}

/// The body list of a Loop. What is emitted after the first statement that holds a Continue stays in scope, and may
/// not be used after the list. Answers the number of the scope that has it, if one has.
#[cycle(walk)]
fn validate_loop_body(
    table: &mut Table,
    state: &mut BodyOutcome,
    context: &BlockContext,
    abilities: &Abilities,
    block: &Block,
) -> Result<Option<usize>, Refused<FunctionError>>
    requires context { ContextFits (context_of context.now) }
    requires ready { IsBodyReady (context_of context.now) (block_of (context_of context.now) block.now) }
    requires table { IsTableOf (context_of context.now) table.old }
    ensures fault { Answers (Exactly (body_answer (context_of context.now) (kept table.old.filled state.old)
        abilities.now (known table.old.scope) (block_of (context_of context.now) block.now)))
        (leaving (kept table.new.filled state.new) result) }
    ensures table { OnOk result (IsTableOf (context_of context.now) table.new) }
    ensures scope { IfOk result (λ skipped. HasLooped table.old.scope table.new.scope skipped
        (puts_to_continue (block_of (context_of context.now) block.now))
        (body_puts (block_of (context_of context.now) block.now))) }
{
    let mut home = None;
    for located in block.list.as_slice() {
        let held = validate_statement(table, state, context, abilities, located)?;
        home = table.scope.divide(home, held)?;
    }
    match home {
        Some(number) => Ok(Some(table.scope.skip(number))),
        None => Ok(None),
    }
}

/// A list of statements, whose emissions stay in scope: naga's `validate_block_impl`. Answers whether it holds a
/// Continue.
#[cycle(walk)]
fn validate_statements(
    table: &mut Table,
    state: &mut BodyOutcome,
    context: &BlockContext,
    abilities: &Abilities,
    block: &Block,
) -> Result<bool, Refused<FunctionError>>
    requires context { ContextFits (context_of context.now) }
    requires ready { IsBodyReady (context_of context.now) (block_of (context_of context.now) block.now) }
    requires table { IsTableOf (context_of context.now) table.old }
    ensures fault { Answers (Exactly (body_answer (context_of context.now) (kept table.old.filled state.old)
        abilities.now (known table.old.scope) (block_of (context_of context.now) block.now)))
        (leaving (kept table.new.filled state.new) result) }
    ensures table { OnOk result (IsTableOf (context_of context.now) table.new) }
    ensures scope { OnOk result
        (HasPut table.old.scope table.new.scope (body_puts (block_of (context_of context.now) block.now))) }
    ensures held { IfOk result (λ held. held ≡ body_holds_continue (block_of (context_of context.now) block.now)) }
{
    let mut held = false;
    for located in block.list.as_slice() {
        let holds = validate_statement(table, state, context, abilities, located)?;
        held = held | holds;
    }
    Ok(held)
}

/// One statement: itself, and then its parts, if it is of a kind that has any.
#[cycle(walk)]
fn validate_statement(
    table: &mut Table,
    state: &mut BodyOutcome,
    context: &BlockContext,
    abilities: &Abilities,
    located: &Located,
) -> Result<bool, Refused<FunctionError>>
    requires context { ContextFits (context_of context.now) }
    requires ready { IsStatementReady (context_of context.now) (tree_of (context_of context.now) located.now) }
    requires table { IsTableOf (context_of context.now) table.old }
    ensures fault { Answers (Exactly (stmt_answer (context_of context.now) (kept table.old.filled state.old)
        abilities.now (known table.old.scope) (tree_of (context_of context.now) located.now)))
        (leaving (kept table.new.filled state.new) result) }
    ensures table { OnOk result (IsTableOf (context_of context.now) table.new) }
    ensures scope { OnOk result (HasPut table.old.scope table.new.scope (puts (tree_of (context_of context.now) located.now))) }
    ensures held { IfOk result (λ held. held ≡ holds_continue (tree_of (context_of context.now) located.now)) }
{
    if !is_frequent(&located.statement) {
        check_rarer(table, state, context, abilities, located)?;
        advance(&mut table.filled, state, context, located);
        return validate_nested(table, state, context, abilities, located);
    }
    let whole = validate_frequent(table, state, context, located)?;
    if whole {
        return Ok(false);
    }
    validate_nested(table, state, context, abilities, located)
}

/// A list of statements in a scope of its own: naga's `validate_block`.
#[cycle(walk)]
fn validate_block(
    table: &mut Table,
    state: &mut BodyOutcome,
    context: &BlockContext,
    abilities: &Abilities,
    block: &Block,
) -> Result<bool, Refused<FunctionError>>
    requires context { ContextFits (context_of context.now) }
    requires ready { IsBodyReady (context_of context.now) (block_of (context_of context.now) block.now) }
    requires table { IsTableOf (context_of context.now) table.old }
    ensures fault { Answers (Exactly (body_answer (context_of context.now) (kept table.old.filled state.old)
        abilities.now (known table.old.scope) (block_of (context_of context.now) block.now)))
        (leaving (kept table.new.filled state.new) result) }
    ensures table { OnOk result (IsTableOf (context_of context.now) table.new) }
    ensures scope { OnOk result (shown table.new.scope ≡ shown table.old.scope) }
    ensures taken { OnOk result (scopes table.old.scope ≤ scopes table.new.scope) }
    ensures held { IfOk result (λ held. held ≡ body_holds_continue (block_of (context_of context.now) block.now)) }
{
    let outer = table.scope.enter()?;
    let held = validate_statements(table, state, context, abilities, block)?;
    table.scope.leave(outer, None);
    Ok(held)
}

/// The bodies of a Switch's cases, in order.
#[cycle(walk)]
fn validate_cases(
    table: &mut Table,
    state: &mut BodyOutcome,
    context: &BlockContext,
    abilities: &Abilities,
    cases: &[SwitchCase],
) -> Result<bool, Refused<FunctionError>>
    requires context { ContextFits (context_of context.now) }
    requires ready { AreCasesReady (context_of context.now) (cases_of (context_of context.now) cases.now) }
    requires table { IsTableOf (context_of context.now) table.old }
    ensures fault { Answers (Exactly (cases_answer (context_of context.now) (kept table.old.filled state.old)
        abilities.now (known table.old.scope) (cases_of (context_of context.now) cases.now)))
        (leaving (kept table.new.filled state.new) result) }
    ensures table { OnOk result (IsTableOf (context_of context.now) table.new) }
    ensures scope { OnOk result (shown table.new.scope ≡ shown table.old.scope) }
    ensures taken { OnOk result (scopes table.old.scope ≤ scopes table.new.scope) }
    ensures held { IfOk result (λ held. held ≡ cases_hold_continue (cases_of (context_of context.now) cases.now)) }
{
    let mut held = false;
    for case in cases {
        let holds = validate_block(table, state, context, abilities, &case.body)?;
        held = held | holds;
    }
    Ok(held)
}
