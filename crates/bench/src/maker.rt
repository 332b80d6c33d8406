//! A function that is being made, part by part.

use naga_below::{
    Block, Expression, Function, FunctionArgument, FunctionResult, Handle, LocalVariable, Span,
    Statement,
};
use std::alloc::{AllocError, Global};
use std::mem;

/// A function that is being made. A part that there is no memory for is left out, and then there is no function in the end.
#[derive(Drop)]
pub(crate) struct Maker {
    pub alloc: Global,
    fun: Function,
    is_short: bool,
}

impl Maker {
    /// A function without parts.
    pub fn new(alloc: Global) -> Maker {
        Maker {
            alloc,
            fun: Function::new(alloc),
            is_short: false,
        }
    }

    /// The function; an Err where there was no memory for one of its parts.
    pub fn finish(self) -> Result<Function, AllocError> {
        if self.is_short {
            Err(AllocError)
        } else {
            Ok(self.fun)
        }
    }

    /// Appends an expression.
    pub fn append(&mut self, expression: Expression) {
        if self.fun.expressions.is_full() {
            drop(expression);
            self.is_short = true;
        } else {
            let appended = self.fun.expressions.append(expression, Span::UNDEFINED);
            self.note(appended.is_ok());
        }
    }

    /// Puts a statement last in the list at hand, at first that of the function's body.
    pub fn push(&mut self, statement: Statement) {
        let pushed = self.fun.body.push(statement, Span::UNDEFINED);
        self.note(pushed.is_ok());
    }

    /// Begins another list, and answers the one that was at hand.
    pub fn begin(&mut self) -> Block {
        mem::replace(&mut self.fun.body, Block::new(self.alloc))
    }

    /// Goes on with a list, and answers the one that was at hand.
    pub fn go_on(&mut self, list: Block) -> Block {
        mem::replace(&mut self.fun.body, list)
    }

    /// Appends a local of `u32`.
    pub fn append_local(&mut self) {
        if self.fun.local_variables.is_full() {
            self.is_short = true;
            return;
        }
        let local = LocalVariable {
            name: None,
            ty: Handle::new(1),
            init: None,
        };
        let appended = self.fun.local_variables.append(local, Span::UNDEFINED);
        self.note(appended.is_ok());
    }

    /// Puts an argument last.
    pub fn push_argument(&mut self, argument: FunctionArgument) {
        let pushed = self.fun.arguments.push(argument);
        self.note(pushed.is_ok());
    }

    /// Lets the function return a `u32`.
    pub fn set_result(&mut self) {
        self.fun.result = Some(FunctionResult {
            ty: Handle::new(1),
            binding: None,
        });
    }

    /// Keeps in mind whether there was memory for a part.
    pub fn note(&mut self, is_there: bool) {
        if !is_there {
            self.is_short = true;
        }
    }
}
