//! The table of a function's expressions: by expression, which scope put it, whether it is a result that is filled, and
//! what else is kept of it.

ghost use Rattle.check_scope.specs.walk.ScopeNumbers.{IsSound};

mod filled;
mod operands;
mod roots;
mod scope;

use ir_arena::handle::Handle;
use ir_arena::tag;
use std::alloc::{AllocError, Global};

/// Whether what a scope put may be used.
#[derive(Clone, Copy, PartialEq, Eq, Debug)]
pub(crate) enum ScopeState {
    /// It is left, or no scope has this number.
    Closed,
    /// It is entered, and not left yet.
    Open,
    /// It has what a Loop's body emits after its first Continue, and that body is left: what it emitted is in scope in
    /// the continuing part and at the break condition, and may not be used there, since a Continue may have skipped
    /// it.
    Skipped,
}

/// Which expressions are in scope (naga's `valid_expression_set` and `valid_expression_list`). Scopes have numbers,
/// none of which is used twice in a function: 0 is never open, 1 is that of the function's body and of what needs no
/// emission, and each scope that is entered takes the next. An expression is in scope where the scope that put it is
/// not closed, and may be used where it is open.
#[derive(Drop)]
pub struct ScopeColumn {
    // by expression, the scope that put it, 0 where none did
    numbers: Vec<usize>,
    // by number
    states: Vec<ScopeState>,
    innermost: usize,
    ghost sound: { IsSound numbers.items states.items innermost },
}

/// What is known of an expression as a result of a Call or an Atomic.
#[derive(Clone, Copy, PartialEq, Eq, Debug)]
pub(crate) enum ResultState {
    /// It is none.
    NoResult,
    /// It is one, and nothing filled it so far.
    Unfilled,
    /// A statement named it, and so filled it.
    Filled,
}

/// Which results are filled, and which are still to be filled (naga's `needs_visit`).
#[derive(Drop)]
pub struct FilledColumn {
    // by expression
    marks: Vec<ResultState>,
}

/// Of expressions with many operands, which open scope put the last of these when they were found usable: while it is
/// open, so are the scopes that it lies in, and these put the others. So they needn't be asked each time.
#[derive(Drop)]
pub struct OperandColumn {
    // by expression, 0 where nothing is kept. Empty until something is
    numbers: Vec<usize>,
}

/// Of expressions, where the walk stops that goes from each access to its base.
#[derive(Drop)]
pub struct RootColumn {
    // by expression. Empty until a walk is long
    roots: Vec<Handle<tag::Expression>>,
}

/// The columns, which grow to the size of the largest function that they were begun for.
#[derive(Drop)]
pub struct Table {
    pub scope: ScopeColumn,
    pub filled: FilledColumn,
    pub operands: OperandColumn,
    pub roots: RootColumn,
}

impl Table {
    /// The table that is kept, which is taken, or one of no expression.
    pub fn take_or_new(alloc: Global, kept: &mut Option<Table>) -> Result<Table, AllocError> {
        match kept.take() {
            Some(table) => Ok(table),
            None => Ok(Table {
                scope: ScopeColumn::new(alloc)?,
                filled: FilledColumn::new(alloc),
                operands: OperandColumn::new(alloc),
                roots: RootColumn::new(alloc),
            }),
        }
    }
}
