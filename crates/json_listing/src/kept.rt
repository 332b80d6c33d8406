//! What a body does with a value before the list ends in which it is emitted.

use crate::marks::Marks;
use json_places::ListedStatement;
use json_places::statements::result_of;
use naga_below::{Expression, Function, Handle, Statement, tag};
use std::alloc::{AllocError, Global};

/// So many statements that name the value are shown.
const HANDFUL: usize = 5;

/// A statement that stores a value, and the local that it is stored in.
#[derive(Clone, Copy)]
pub(crate) struct Stored {
    pub number: usize,
    pub local: Handle<tag::LocalVariable>,
}

/// What is done with a value between its emission and the end of the list.
#[derive(Drop)]
pub(crate) struct Kept {
    /// The first statements that name it.
    pub named: Vec<usize>,
    /// The first one that stores it in a local.
    pub stored: Option<Stored>,
    /// Whether a Loop that has ended made it anew in each turn.
    pub is_of_loop: bool,
}

/// A value of a function, and the statement that emits it.
#[derive(Clone, Copy)]
pub(crate) struct EmittedValue<'a> {
    pub function: &'a Function,
    /// The statements of the function's body.
    pub listed: &'a [ListedStatement<'a>],
    /// The number of the one that emits the value.
    pub emitted: usize,
    pub handle: Handle<tag::Expression>,
}

impl EmittedValue<'_> {
    /// What is done with the value until the list ends in which it is emitted. `ended_loop` is the outermost Loop around that
    /// statement that has ended. An Err is out of memory.
    pub(crate) fn kept(
        &self,
        alloc: Global,
        ended_loop: Option<usize>,
    ) -> Result<Kept, AllocError> {
        let is_of_loop = match ended_loop {
            Some(holder) => self.is_made_in(alloc, holder)?,
            None => false,
        };
        let mut kept = Kept {
            named: Vec::new(alloc),
            stored: None,
            is_of_loop,
        };
        let mut marks = Marks::new(alloc, self.function.expressions.len())?;
        let first = self.emitted.saturating_add(1);
        for (number, node) in self.listed.iter().skip(first).enumerate() {
            if !is_in_list_of(node, self.listed.get(self.emitted)) {
                break;
            }
            let number = first.saturating_add(number);
            kept.add(&self, number, &node.located.statement, &mut marks)?;
        }
        Ok(kept)
    }

    /// Whether a statement stores the value in a local, and in which.
    fn stored_by(&self, number: usize, statement: &Statement) -> Option<Stored> {
        let Statement::Store { pointer, value } = statement else {
            return None;
        };
        if *value != self.handle {
            return None;
        }
        match self.function.expressions.as_slice().get(pointer.index()) {
            Some(Expression::LocalVariable(local)) => Some(Stored {
                number,
                local: *local,
            }),
            _ => None,
        }
    }

    /// Whether the value is made anew in each turn of a Loop: it is loaded or the result of a statement, or something that it is
    /// made from is emitted in the Loop. An Err is out of memory.
    fn is_made_in(&self, alloc: Global, holder: usize) -> Result<bool, AllocError> {
        let Some(head) = self.listed.get(holder) else {
            return Ok(false);
        };
        if self.is_loaded() {
            return Ok(true);
        }
        let mut parts = Marks::new(alloc, self.function.expressions.len())?;
        parts.add(self.handle);
        parts.close(self.function);
        Ok(self.is_one_brought(holder, head.depth, &parts))
    }

    /// Whether a statement in a Loop brings one of these into scope. The Loop lies so deep.
    fn is_one_brought(&self, holder: usize, depth: usize, parts: &Marks) -> bool {
        for node in self.listed.iter().skip(holder.saturating_add(1)) {
            if node.depth <= depth {
                break;
            }
            if brings_one(&node.located.statement, parts, self.handle) {
                return true;
            }
        }
        false
    }

    /// Whether the value is a Load.
    fn is_loaded(&self) -> bool {
        match self
            .function
            .expressions
            .as_slice()
            .get(self.handle.index())
        {
            Some(expression) => matches!(expression, Expression::Load { .. }),
            None => false,
        }
    }
}

impl Kept {
    /// Takes a statement in, with marks that are made anew for what it names. An Err is out of memory.
    fn add(
        &mut self,
        value: &EmittedValue<'_>,
        number: usize,
        statement: &Statement,
        marks: &mut Marks,
    ) -> Result<(), AllocError> {
        if self.stored.is_none() {
            self.stored = value.stored_by(number, statement);
        }
        marks.remove(value.handle);
        marks.add_statement(statement);
        if marks.has(value.handle.index()) && self.named.len() < HANDFUL {
            self.named.push(number)?;
        }
        Ok(())
    }
}

/// Whether a statement after another one stands in the same list, or is held by one that does.
fn is_in_list_of(node: &ListedStatement<'_>, other: Option<&ListedStatement<'_>>) -> bool {
    match other {
        Some(other) => node.depth > other.depth || node.inside == other.inside,
        None => false,
    }
}

/// Whether a statement has one of these as its result, or emits one of them that isn't the value itself.
fn brings_one(statement: &Statement, parts: &Marks, value: Handle<tag::Expression>) -> bool {
    if let Statement::Emit(range) = statement {
        for index in range.start..range.end {
            if index as usize != value.index() && parts.has(index as usize) {
                return true;
            }
        }
        return false;
    }
    match result_of(statement) {
        Some(made) => parts.has(made.index()),
        None => false,
    }
}
