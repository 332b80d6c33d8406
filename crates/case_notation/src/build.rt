//! Statements and blocks of the IR, as the reader makes them. Each statement has the same span.

ghost use Rattle.std.specs.Prelude.{◌≡◌, ◌++◌, ◌∷◌, [], OnOk};
ghost use Rattle.ir_statements.specs.declared.statements.Statement as ir;
ghost use Rattle.ir_statements.specs.declared.statements.SwitchCase.{SwitchCase'};
ghost use Rattle.case_notation.specs.CaseBlocks.{block_from, placed};
ghost use Rattle.case_notation.specs.Grammar.{emitting, call_of, store_of, control_barrier};

use bitflags::Flags;
use ir_arena::handle::Handle;
use ir_arena::range::Range;
use ir_arena::sequence::Sequence;
use ir_arena::span::Span;
use ir_arena::tag;
use ir_flags::ir::Barrier;
use ir_statements::operations::SwitchValue;
use ir_statements::statements::{Block, Located, Statement, SwitchCase};
use std::alloc::{AllocError, Global};

/// The expression of a bench at this index.
#[inline(always)]
pub(crate) fn expression(index: u8) -> Handle<tag::Expression>
    ensures { result ≡ index }
{
    Handle::new(index as u32)
}

/// Adds a statement after the others.
pub(crate) fn push(list: &mut Sequence<Located>, statement: Statement) -> Result<(), AllocError>
    ensures { OnOk result (list.new ≡ list.old ++ placed statement ∷ []) }
{
    let span = Span::UNDEFINED;
    list.push(Located { statement, span })?;
    Ok(())
}

/// A block of these statements.
#[inline(always)]
#[tactic(auto, unfolding(crate::specs::CaseBlocks::block_from))]
pub(crate) fn block_from(list: Sequence<Located>) -> Block
    ensures { result ≡ block_from list }
{
    Block { list }
}

/// An Emit of the expressions from `first` to `last`, both included.
#[inline(always)]
pub(crate) fn emitting(first: u8, last: u8) -> Statement
    ensures { result ≡ emitting first last }
{
    Statement::Emit(Range {
        start: first as u32,
        end: last as u32 + 1,
    })
}

/// A store of a value where a pointer points.
#[inline(always)]
pub(crate) fn store_of(pointer: u8, value: u8) -> Statement
    ensures { result ≡ store_of pointer value }
{
    Statement::Store {
        pointer: expression(pointer),
        value: expression(value),
    }
}

/// The control barrier that names no memory.
#[inline(always)]
pub(crate) fn control_barrier() -> Statement
    ensures { result ≡ control_barrier }
{
    Statement::ControlBarrier(Barrier::empty())
}

/// A call of `f` with this result.
#[inline(always)]
pub(crate) fn call_of(alloc: Global, answer: Option<u8>) -> Statement
    ensures { result ≡ call_of answer }
{
    Statement::Call {
        function: Handle::new(0),
        arguments: Sequence::new(alloc),
        result: match answer {
            Some(index) => Some(expression(index)),
            None => None,
        },
    }
}

/// A case of a Switch.
#[inline(always)]
pub(crate) fn case_of(value: SwitchValue, body: Block, fall_through: bool) -> SwitchCase
    ensures { result ≡ SwitchCase' value body fall_through }
{
    SwitchCase {
        value,
        body,
        fall_through,
    }
}

/// A choice between two blocks.
#[inline(always)]
pub(crate) fn choice(condition: u8, accept: Block, reject: Block) -> Statement
    ensures { result ≡ ir.If condition accept reject }
{
    Statement::If {
        condition: expression(condition),
        accept,
        reject,
    }
}

/// A loop over two blocks, left where `break_if` holds, if it names an expression.
#[inline(always)]
pub(crate) fn repetition(body: Block, continuing: Block, break_if: Option<u8>) -> Statement
    ensures { result ≡ ir.Loop body continuing break_if }
{
    let break_if = match break_if {
        Some(name) => Some(expression(name)),
        None => None,
    };
    Statement::Loop {
        body,
        continuing,
        break_if,
    }
}

/// A choice among cases.
#[inline(always)]
pub(crate) fn switch(selector: u8, cases: Sequence<SwitchCase>) -> Statement
    ensures { result ≡ ir.Switch selector cases }
{
    Statement::Switch {
        selector: expression(selector),
        cases,
    }
}
