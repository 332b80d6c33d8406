//! The end of a part: what it becomes of the part around it.

use crate::build::{block_from, case_of, choice, repetition, switch};
use crate::case::CaseError;
use crate::reader::Reader;
use crate::reader::parts::{Frame, Kind, Tail, Wants};
use ir_arena::sequence::Sequence;
use ir_statements::statements::{Statement, SwitchCase};
use std::mem;

impl Reader {
    ghost use Rattle.case_notation.specs.Reading.{close, close_block, close_accept, close_if, close_case, close_turn, add_case, close_switch, end_loop};
    ghost use Rattle.case_notation.specs.Views.{Moves};

    /// Closes the list at hand.
    #[inline(always)]
    #[tactic(auto, using(crate::proofs::Reading::Stack::stacks), unfolding(crate::specs::Reading::close))]
    pub fn close(&mut self) -> Result<(), CaseError>
        ensures { Moves close self.old result self.new }
    {
        let Some(frame) = self.opened.last_mut() else {
            return Err(CaseError::Unreadable);
        };
        match frame.kind {
            Kind::Block => self.close_block(),
            Kind::Accept(_) => self.close_accept(),
            Kind::Reject { .. } => self.close_if(),
            Kind::Case { .. } => self.close_case(),
            Kind::Turn => self.close_turn(),
            Kind::Continuing { .. } => self.want(Wants::Statement(Tail::Loop)),
            Kind::Cases { .. } => Err(CaseError::Unreadable),
        }
    }

    /// Closes the first list of the If at hand. Any other part is unreadable.
    #[inline(never)]
    #[tactic(auto, using(crate::proofs::Reading::Stack::stacks), unfolding(crate::specs::Reading::close_accept))]
    fn close_accept(&mut self) -> Result<(), CaseError>
        ensures { Moves close_accept self.old result self.new }
    {
        let Some(frame) = self.opened.last_mut() else {
            return Err(CaseError::Unreadable);
        };
        match frame.kind {
            Kind::Accept(condition) => {
                let list = mem::replace(&mut self.list, Sequence::new(self.alloc));
                frame.kind = Kind::Reject {
                    condition,
                    accept: block_from(list),
                };
                self.want(Wants::Between)
            }
            _ => Err(CaseError::Unreadable),
        }
    }

    /// Closes the first list of the Loop at hand. Any other part is unreadable.
    #[inline(never)]
    #[tactic(auto, using(crate::proofs::Reading::Stack::stacks), unfolding(crate::specs::Reading::close_turn))]
    fn close_turn(&mut self) -> Result<(), CaseError>
        ensures { Moves close_turn self.old result self.new }
    {
        let Some(frame) = self.opened.last_mut() else {
            return Err(CaseError::Unreadable);
        };
        match frame.kind {
            Kind::Turn => {
                let list = mem::replace(&mut self.list, Sequence::new(self.alloc));
                frame.kind = Kind::Continuing {
                    turn: block_from(list),
                };
                self.want(Wants::Between)
            }
            _ => Err(CaseError::Unreadable),
        }
    }

    /// Closes the Block at hand. Any other part is unreadable.
    #[inline(never)]
    #[tactic(auto, using(crate::proofs::Reading::Stack::stacks), unfolding(crate::specs::Reading::close_block))]
    fn close_block(&mut self) -> Result<(), CaseError>
        ensures { Moves close_block self.old result self.new }
    {
        let Some(Frame { kind, outer }) = self.opened.pop() else {
            return Err(CaseError::Unreadable);
        };
        match kind {
            Kind::Block => {
                let list = self.change_list(outer);
                self.put(Statement::Block(block_from(list)))
            }
            _ => Err(CaseError::Unreadable),
        }
    }

    /// Closes the If at hand. Any other part is unreadable.
    #[inline(never)]
    #[tactic(auto, using(crate::proofs::Reading::Stack::stacks), unfolding(crate::specs::Reading::close_if))]
    fn close_if(&mut self) -> Result<(), CaseError>
        ensures { Moves close_if self.old result self.new }
    {
        let Some(Frame { kind, outer }) = self.opened.pop() else {
            return Err(CaseError::Unreadable);
        };
        match kind {
            Kind::Reject { condition, accept } => {
                let reject = block_from(self.change_list(outer));
                self.put(choice(condition, accept, reject))
            }
            _ => Err(CaseError::Unreadable),
        }
    }

    /// Closes the case at hand. Any other part is unreadable.
    #[inline(never)]
    #[tactic(auto, using(crate::proofs::Reading::Stack::stacks), unfolding(crate::specs::Reading::close_case))]
    fn close_case(&mut self) -> Result<(), CaseError>
        ensures { Moves close_case self.old result self.new }
    {
        let Some(Frame { kind, outer: _ }) = self.opened.pop() else {
            return Err(CaseError::Unreadable);
        };
        match kind {
            Kind::Case {
                value,
                fall_through,
            } => {
                let list = block_from(self.take_list());
                self.add_case(case_of(value, list, fall_through))
            }
            _ => Err(CaseError::Unreadable),
        }
    }

    /// Adds a case after the others of the current Switch, whose list of statements is empty.
    #[tactic(auto, using(crate::proofs::Reading::Stack::stacks), unfolding(crate::specs::Reading::add_case))]
    fn add_case(&mut self, case: SwitchCase) -> Result<(), CaseError>
        ensures { Moves (λ opened list. add_case opened list case) self.old result self.new }
    {
        let Some(frame) = self.opened.last_mut() else {
            return Err(CaseError::Unreadable);
        };
        let Kind::Cases { cases, .. } = &mut frame.kind else {
            return Err(CaseError::Unreadable);
        };
        cases.push(case)?;
        self.want(Wants::CaseValue)
    }

    /// Closes the Switch at hand.
    #[tactic(auto, using(crate::proofs::Reading::Stack::stacks), unfolding(crate::specs::Reading::close_switch))]
    pub(crate) fn close_switch(&mut self) -> Result<(), CaseError>
        ensures { Moves (λ opened _. close_switch opened) self.old result self.new }
    {
        let Some(Frame { kind, outer }) = self.opened.pop() else {
            return Err(CaseError::Unreadable);
        };
        match kind {
            Kind::Cases { selector, cases } => {
                self.list = outer;
                self.put(switch(selector, cases))
            }
            _ => Err(CaseError::Unreadable),
        }
    }

    /// Ends the Loop at hand.
    #[tactic(auto, using(crate::proofs::Reading::Stack::stacks), unfolding(crate::specs::Reading::end_loop))]
    pub(crate) fn end_loop(&mut self, break_if: Option<u8>) -> Result<(), CaseError>
        ensures { Moves (λ opened list. end_loop opened list break_if) self.old result self.new }
    {
        let Some(Frame { kind, outer }) = self.opened.pop() else {
            return Err(CaseError::Unreadable);
        };
        match kind {
            Kind::Continuing { turn } => {
                let continuing = block_from(self.change_list(outer));
                self.put(repetition(turn, continuing, break_if))
            }
            _ => Err(CaseError::Unreadable),
        }
    }
}
