//! When the value of an expression is known.

ghost use Rattle.std.specs.Prelude.{◌≡◌, ◌↔◌, ◌<◌, ◌++◌, ◌∷◌, [], ◌⊎◌, IsTrue, OnOk, OnErr, Some, length, slice_get};
ghost use Rattle.ir_facts.specs.declared.proc.expression_kinds.ExpressionKind.TheVariants as kind;

use ir_arena::handle::Handle;
use ir_arena::tag;
use std::alloc::{AllocError, Global};
use std::marker::Model;

/// When a value is known: when the module is made, when the pipeline is made, or at run time.
#[derive(Clone, Copy, PartialEq, Eq, Debug)]
pub enum ExpressionKind {
    Const,
    Override,
    Runtime,
}

/// The kind of each expression of an arena, in order. Contracts see the list.
#[derive(Debug, Drop)]
pub struct ExpressionKindTracker {
    kinds: Vec<ExpressionKind>,
}

impl Model for ExpressionKindTracker {
    ghost use Rattle.std.specs.Prelude.{List};
    ghost use Rattle.ir_facts.specs.declared.proc.expression_kinds.ExpressionKind.{ExpressionKind};

    ghost Value = { List ExpressionKind };

    ghost view = { λ t. t.kinds.items };
}

impl PartialEq for ExpressionKindTracker {
    ghost use Rattle.std.specs.Cmp.Lexicographic.{pointwise, lists_per};
    ghost use Rattle.ir_facts.specs.contracts.proc.expression_kinds.ExpressionKindPartialEq.TheImpl.Laws.{laws-law};

    ghost eq = { pointwise ⟦<ExpressionKind as PartialEq>⟧.eq };

    ghost laws = { lists_per laws-law };

    fn eq(&self, other: &ExpressionKindTracker) -> bool {
        self.kinds == other.kinds
    }
}

impl From<Vec<ExpressionKind>> for ExpressionKindTracker {
    ghost from_gives = { λ kinds tracker. tracker ≡ kinds.items };

    fn from(kinds: Vec<ExpressionKind>) -> Self {
        ExpressionKindTracker { kinds }
    }
}

impl ExpressionKindTracker {
    /// An empty tracker, which keeps the allocator.
    pub fn new(alloc: Global) -> Self
        ensures { result ≡ [] }
    {
        ExpressionKindTracker {
            kinds: Vec::new(alloc),
        }
    }

    /// The number of expressions that have a kind so far.
    pub fn len(&self) -> usize
        ensures { result ≡ length self.now }
    {
        self.kinds.len()
    }

    /// Whether no expression has a kind yet.
    pub fn is_empty(&self) -> bool
        ensures { IsTrue result ↔ (self.now ≡ []) }
    {
        self.kinds.is_empty()
    }

    /// Adds the kind of the next expression. An Err is out of memory.
    pub fn push(&mut self, kind: ExpressionKind) -> Result<(), AllocError>
        ensures pushed { OnOk result (self.new ≡ self.old ++ kind ∷ []) }
        ensures err { OnErr result (self.new ≡ self.old) }
    {
        self.kinds.push(kind)?;
        Ok(())
    }

    /// Whether the value is known when the module is made.
    pub fn is_const(&self, handle: Handle<tag::Expression>) -> bool
        requires { handle < length self.now }
        ensures { IsTrue result ↔ (slice_get self.now handle ≡ Some kind.Const) }
    {
        self.kinds[handle.index()] == ExpressionKind::Const
    }

    /// Whether the value is known before the pipeline runs.
    pub fn is_const_or_override(&self, handle: Handle<tag::Expression>) -> bool
        requires { handle < length self.now }
        ensures { let found = slice_get self.now handle in
            IsTrue result ↔ (found ≡ Some kind.Const) ⊎ (found ≡ Some kind.Override) }
    {
        matches!(
            self.kinds[handle.index()],
            ExpressionKind::Const | ExpressionKind::Override
        )
    }
}
