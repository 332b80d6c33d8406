//! Which results are filled.
#![tactic(auto, unfolding(crate::specs::walk::Table::filled_in, crate::specs::walk::Table::unfilled_in))]

ghost use Rattle.std.specs.Prelude.{◌≡◌, ◌<◌, false, OnOk};
ghost use Rattle.naga_runs.specs.Handles.{no_handles, with_handle};
ghost use Rattle.check_scope.specs.walk.Table.{filled_in, marked, unfilled_in, without_handle};

use crate::table::{FilledColumn, ResultState};
use ir_arena::handle::Handle;
use ir_arena::tag;
use std::alloc::{AllocError, Global};

impl FilledColumn {
    /// Of no expression.
    pub fn new(alloc: Global) -> FilledColumn {
        FilledColumn {
            marks: Vec::new(alloc),
        }
    }

    /// Begins a function of so many expressions, of which none is known to be a result.
    pub fn begin(&mut self, expressions: usize) -> Result<(), AllocError>
        ensures filled { OnOk result (filled_in self.new ≡ no_handles) }
        ensures unfilled { OnOk result (unfilled_in self.new ≡ no_handles) }
        ensures count { OnOk result (marked self.new ≡ expressions) }
    {
        self.marks.truncate(expressions);
        self.marks.as_mut_slice().fill(ResultState::NoResult);
        self.marks.resize(expressions, ResultState::NoResult)?;
        Ok(())
    }

    /// Whether an expression is filled.
    pub fn contains(&self, handle: Handle<tag::Expression>) -> bool
        ensures { result ≡ filled_in self.now handle }
    {
        match self.marks.as_slice().get(handle.index()) {
            Some(mark) => *mark == ResultState::Filled,
            None => false,
        }
    }

    /// Whether an expression is a result that is still to be filled.
    pub fn is_still_to_fill(&self, handle: Handle<tag::Expression>) -> bool
        ensures { result ≡ unfilled_in self.now handle }
    {
        match self.marks.as_slice().get(handle.index()) {
            Some(mark) => *mark == ResultState::Unfilled,
            None => false,
        }
    }

    /// Marks a result as one that is to be filled.
    pub fn expect(&mut self, handle: Handle<tag::Expression>)
        requires there { handle < marked self.old }
        requires new { filled_in self.old handle ≡ false }
        ensures filled { filled_in self.new ≡ filled_in self.old }
        ensures unfilled { unfilled_in self.new ≡ with_handle (unfilled_in self.old) handle }
        ensures count { marked self.new ≡ marked self.old }
    {
        self.marks[handle.index()] = ResultState::Unfilled;
    }

    /// Marks a result as filled.
    pub fn fill(&mut self, handle: Handle<tag::Expression>)
        requires { handle < marked self.old }
        ensures filled { filled_in self.new ≡ with_handle (filled_in self.old) handle }
        ensures unfilled { unfilled_in self.new ≡ without_handle (unfilled_in self.old) handle }
        ensures count { marked self.new ≡ marked self.old }
    {
        self.marks[handle.index()] = ResultState::Filled;
    }
}
