//! The stack of open parts, and the list of the newest one.

ghost use Rattle.std.specs.Prelude.{◌≡◌};
ghost use Rattle.case_notation.specs.CaseParts.{kind_of};
ghost use Rattle.case_notation.specs.Reading.{behind_brace};

use crate::build::push;
use crate::case::CaseError;
use crate::reader::parts::{Brace, Frame, Kind, Tail, Wants};
use crate::reader::{MOST_OPEN, Reader};
use ir_arena::sequence::Sequence;
use ir_statements::statements::{Located, Statement};
use std::alloc::Global;
use std::mem;

/// The part that a brace opens.
#[inline(always)]
fn kind_of(alloc: Global, brace: Brace) -> Kind
    ensures { result ≡ kind_of brace }
{
    match brace {
        Brace::Block => Kind::Block,
        Brace::Accept(condition) => Kind::Accept(condition),
        Brace::Cases(selector) => Kind::Cases {
            selector,
            cases: Sequence::new(alloc),
        },
        Brace::Case {
            value,
            fall_through,
        } => Kind::Case {
            value,
            fall_through,
        },
        Brace::Turn => Kind::Turn,
    }
}

/// What is expected after a brace.
#[inline(always)]
fn behind_brace(brace: Brace) -> Wants
    ensures { result ≡ behind_brace brace }
{
    match brace {
        Brace::Cases(_) => Wants::CaseValue,
        Brace::Block | Brace::Accept(_) | Brace::Case { .. } | Brace::Turn => {
            Wants::Statement(Tail::Nothing)
        }
    }
}

impl Reader {
    ghost use Rattle.std.specs.Prelude.{◌≡◌, ◌++◌, ◌∷◌, []};
    ghost use Rattle.case_notation.specs.CaseBlocks.{placed};
    ghost use Rattle.case_notation.specs.Reading.{behind_brace, open_brace, ready, wanting};
    ghost use Rattle.case_notation.specs.Views.{Moves, state_of};

    /// Says what is wanted next.
    #[inline(always)]
    pub(crate) fn want(&mut self, wants: Wants) -> Result<(), CaseError>
        ensures { Moves (λ opened list. wanting opened list wants) self.old result self.new }
    {
        self.wants = wants;
        Ok(())
    }

    /// Takes the list at hand, and leaves another one.
    #[inline(always)]
    pub(crate) fn change_list(&mut self, list: Sequence<Located>) -> Sequence<Located>
        ensures taken { result ≡ (state_of self.old).list }
        ensures rest { state_of self.new ≡ record (state_of self.old) { list = list } }
    {
        mem::replace(&mut self.list, list)
    }

    /// Takes the list at hand, and leaves an empty one.
    #[inline(always)]
    pub(crate) fn take_list(&mut self) -> Sequence<Located>
        ensures taken { result ≡ (state_of self.old).list }
        ensures rest { state_of self.new ≡ record (state_of self.old) { list = [] } }
    {
        self.change_list(Sequence::new(self.alloc))
    }

    /// Opens one part more, with an empty list.
    #[inline(always)]
    #[tactic(auto, using(crate::proofs::Reading::Stack::stacks), unfolding(crate::specs::Reading::open_brace))]
    pub fn enter(&mut self, brace: Brace) -> Result<(), CaseError>
        ensures { Moves (λ opened list. open_brace opened list brace) self.old result self.new }
    {
        if self.opened.len() >= MOST_OPEN {
            return Err(CaseError::Unreadable);
        }
        let frame = Frame {
            kind: kind_of(self.alloc, brace),
            outer: self.take_list(),
        };
        self.opened.push(frame)?;
        self.want(behind_brace(brace))
    }

    /// Adds a whole statement after the others.
    #[inline(always)]
    pub fn put(&mut self, statement: Statement) -> Result<(), CaseError>
        ensures { Moves (λ opened list. ready opened (list ++ placed statement ∷ [])) self.old result self.new }
    {
        push(&mut self.list, statement)?;
        self.want(Wants::Statement(Tail::Nothing))
    }
}
