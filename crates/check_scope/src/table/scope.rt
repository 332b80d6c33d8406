//! Which expressions are in scope.
#![tactic(auto, unfolding(crate::specs::walk::Table::shown, crate::specs::walk::Table::known))]

ghost use Rattle.std.specs.Prelude.{◌≡◌, ◌<◌, ◌≤◌, ℕ, true, false, ◌∷◌, [], IsTrue, OnOk, OnErr, IfOk, length, slice_index};
ghost use Rattle.check_scope.specs.walk.Place.{no_sets};
ghost use Rattle.check_scope.specs.declared.table.ScopeState.TheVariants.{Open};
ghost use Rattle.check_scope.specs.walk.ScopeNumbers.{number_at};
ghost use Rattle.check_scope.specs.walk.Table.{ArePutUpTo, Divides, HasEntered, HasPut, IsLast, closing_if, count, known, left, scopes, shown, skipped};

use crate::table::{ScopeColumn, ScopeState};
use ir_arena::handle::Handle;
use ir_arena::tag;
use std::alloc::{AllocError, Global};

/// The later of two numbers.
fn later(one: usize, other: usize) -> usize
    ensures one { one ≤ result }
    ensures other { other ≤ result }
    ensures below { (end : ℕ) → one < end → other < end → result < end }
{
    if one < other { other } else { one }
}

impl ScopeColumn {
    /// Of no expression.
    pub fn new(alloc: Global) -> Result<ScopeColumn, AllocError> {
        Ok(ScopeColumn {
            numbers: Vec::new(alloc),
            states: vec![in alloc; ScopeState::Closed, ScopeState::Open]?,
            innermost: 1,
        })
    }

    /// The allocator that the column was made with.
    pub fn allocator(&self) -> Global {
        *self.numbers.allocator()
    }

    /// Begins a function of so many expressions, none of which is in scope. The scope of its body is open.
    pub fn begin(&mut self, expressions: usize) -> Result<(), AllocError>
        ensures known { OnOk result (known self.new ≡ no_sets) }
        ensures count { OnOk result (count self.new ≡ expressions) }
        ensures last { OnOk result (IsLast (shown self.new)) }
        ensures taken { OnOk result (0 < scopes self.new) }
    {
        self.numbers.truncate(expressions);
        self.numbers.as_mut_slice().fill(0);
        self.states.truncate(2);
        self.states[1] = ScopeState::Open;
        self.innermost = 1;
        self.numbers.resize(expressions, 0)?;
        Ok(())
    }

    /// Whether an expression is in scope, so that nothing can put it.
    pub fn contains(&self, handle: Handle<tag::Expression>) -> bool
        ensures { result ≡ (known self.now).scope handle }
    {
        match self.numbers.as_slice().get(handle.index()) {
            // most that is asked for was put by no scope
            Some(0) | None => false,
            Some(number) => self.states[*number] != ScopeState::Closed,
        }
    }

    /// Whether an expression may be used: it is in scope, and no Continue can have skipped it.
    pub fn may_use(&self, handle: Handle<tag::Expression>) -> bool
        ensures { result ≡ (known self.now).must handle }
    {
        match self.numbers.as_slice().get(handle.index()) {
            Some(number) => self.states[*number] == ScopeState::Open,
            None => false,
        }
    }

    /// Whether the scope of a number is open.
    pub(crate) fn is_open(&self, number: usize) -> bool
        ensures { IsTrue result → (shown self.now).state number ≡ Open }
    {
        match self.states.as_slice().get(number) {
            Some(state) => *state == ScopeState::Open,
            None => false,
        }
    }

    /// The number of the scope that put an expression, 0 where none did.
    fn number_of(&self, handle: Handle<tag::Expression>) -> usize
        ensures number { result ≡ number_at self.now.numbers.items handle }
        ensures taken { result < scopes self.now }
    {
        match self.numbers.as_slice().get(handle.index()) {
            Some(number) => *number,
            None => 0,
        }
    }

    /// The number of the last of the scopes that put the expressions of a list, where each of these may be used.
    pub fn last_of(&self, handles: &[Handle<tag::Expression>]) -> usize
        requires { (k : ℕ) → k < length handles.now → (known self.now).must (slice_index handles.now k) ≡ true }
        ensures taken { result < scopes self.now }
        ensures put { ArePutUpTo (shown self.now) result handles.now }
    {
        let mut last = 0;
        for handle in handles {
            let number = self.number_of(*handle);
            last = later(last, number);
        }
        last
    }

    /// Brings an expression into the innermost scope.
    pub fn put(&mut self, handle: Handle<tag::Expression>)
        requires there { handle < count self.old }
        requires new { (known self.old).scope handle ≡ false }
        ensures { HasPut self.old self.new (handle ∷ []) }
    {
        self.numbers[handle.index()] = self.innermost;
    }

    /// Enters a scope, with the next number, and gives the number of the one outside it. A refused call leaves what is
    /// shown as it was.
    pub fn enter(&mut self) -> Result<usize, AllocError>
        ensures known { OnOk result (known self.new ≡ known self.old) }
        ensures outside { IfOk result (λ outer. left (shown self.new) outer ≡ shown self.old) }
        ensures open { IfOk result (λ outer. (shown self.old).state outer ≡ Open) }
        ensures entered { OnOk result (HasEntered self.old self.new) }
        ensures count { count self.new ≡ count self.old }
        ensures err { OnErr result (shown self.new ≡ shown self.old) }
    {
        let number = self.states.len();
        self.states.push(ScopeState::Open)?;
        let outer = self.innermost;
        self.innermost = number;
        Ok(outer)
    }

    /// Enters a scope for what a Loop's body emits after a statement, if that is the first that holds a Continue:
    /// `home` is none until then, and afterwards the number of the body's own scope. A refused call leaves what is
    /// shown as it was.
    pub fn divide(&mut self, home: Option<usize>, held: bool) -> Result<Option<usize>, AllocError>
        ensures known { OnOk result (known self.new ≡ known self.old) }
        ensures home { IfOk result (λ next. Divides self.old self.new home held next) }
        ensures count { count self.new ≡ count self.old }
        ensures err { OnErr result (shown self.new ≡ shown self.old) }
    {
        match home {
            Some(number) => Ok(Some(number)),
            None => {
                if held {
                    Ok(Some(self.enter()?))
                } else {
                    Ok(None)
                }
            }
        }
    }

    /// Leaves the innermost scope for the one of this number, which is open outside it, and gives the number of the one
    /// that is left. What it emitted stays in scope, and may no longer be used.
    pub fn skip(&mut self, outer: usize) -> usize
        requires { (left (shown self.old) outer).state outer ≡ Open }
        ensures shown { shown self.new ≡ skipped (shown self.old) outer }
        ensures number { result ≡ (shown self.old).innermost }
        ensures count { count self.new ≡ count self.old }
        ensures taken { scopes self.new ≡ scopes self.old }
    {
        let number = self.innermost;
        self.states[number] = ScopeState::Skipped;
        self.innermost = outer;
        number
    }

    /// Leaves the innermost scope for the one of this number, and with it the one that was skipped in it, if one was.
    /// The one of this number is open outside them.
    pub fn leave(&mut self, outer: usize, skipped: Option<usize>)
        requires { (closing_if skipped (left (shown self.old) outer)).state outer ≡ Open }
        ensures shown { shown self.new ≡ closing_if skipped (left (shown self.old) outer) }
        ensures count { count self.new ≡ count self.old }
        ensures taken { scopes self.new ≡ scopes self.old }
    {
        self.states[self.innermost] = ScopeState::Closed;
        if let Some(number) = skipped {
            if number < self.states.len() {
                self.states[number] = ScopeState::Closed;
            }
        }
        self.innermost = outer;
    }
}
