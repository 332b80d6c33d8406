//! Which expressions are known to have only operands that may be used.
#![tactic(auto, unfolding(crate::specs::walk::Table::kept_at, crate::specs::walk::Table::shown))]

ghost use Rattle.std.specs.Prelude.{◌≡◌, ◌<◌, ◌≤◌, ℕ, IsTrue, OnOk, OnErr, if◌then◌else◌, ◌==◌, length};
ghost use Rattle.check_scope.specs.declared.table.ScopeState.TheVariants.{Open};
ghost use Rattle.check_scope.specs.walk.Table.{kept_at, shown};

use crate::table::{OperandColumn, ScopeColumn};
use ir_arena::handle::Handle;
use ir_arena::tag;
use std::alloc::{AllocError, Global};

impl OperandColumn {
    /// Of no expression.
    pub fn new(alloc: Global) -> OperandColumn {
        OperandColumn {
            numbers: Vec::new(alloc),
        }
    }

    /// Begins a function: nothing is kept.
    pub fn begin(&mut self)
        ensures { (h : ℕ) → kept_at self.new h ≡ 0 }
    {
        self.numbers.clear();
    }

    /// Whether the scope of the number that is kept of an expression is open.
    pub fn is_known(&self, scope: &ScopeColumn, handle: Handle<tag::Expression>) -> bool
        ensures { IsTrue result → (shown scope.now).state (kept_at self.now handle) ≡ Open }
    {
        match self.numbers.as_slice().get(handle.index()) {
            Some(number) => scope.is_open(*number),
            None => false,
        }
    }

    /// Keeps a number of an expression, one of so many.
    pub fn keep(
        &mut self,
        expressions: usize,
        handle: Handle<tag::Expression>,
        number: usize,
    ) -> Result<(), AllocError>
        requires { handle < expressions }
        ensures ok { OnOk result ((h : ℕ) → kept_at self.new h ≡ (if h == handle then number else kept_at self.old h)) }
        ensures err { OnErr result ((h : ℕ) → kept_at self.new h ≡ kept_at self.old h) }
    {
        self.make_room(expressions)?;
        self.numbers[handle.index()] = number;
        Ok(())
    }

    /// Makes room for so many expressions.
    fn make_room(&mut self, expressions: usize) -> Result<(), AllocError>
        ensures same { (h : ℕ) → kept_at self.new h ≡ kept_at self.old h }
        ensures room { OnOk result (expressions ≤ length self.new.numbers.items) }
    {
        if expressions <= self.numbers.len() {
            return Ok(());
        }
        self.numbers.resize(expressions, 0)?;
        Ok(())
    }
}
