//! Reads the statements of a body, a token at a time, with a stack of the parts that are open.

ghost use Rattle.std.specs.Prelude.{◌≡◌, List, Some, None, option_and_then, IfOk, IsErrOf};
ghost use Rattle.ir_statements.specs.Tree.{Body};
ghost use Rattle.ir_statements.specs.View.{body_of, no_operands};
ghost use Rattle.case_notation.specs.CaseBlocks.{block_of};
ghost use Rattle.case_notation.specs.Feeding.{Ends};
ghost use Rattle.case_notation.specs.Scanning.{SayBody};
ghost use Rattle.case_notation.specs.Words.{IsPrintable, words_of};

mod closing;
mod parts;
mod stack;

use crate::bench::Bench;
use crate::build::{block_from, call_of, control_barrier, emitting, expression, store_of};
use crate::case::CaseError;
use crate::reader::parts::{Brace, Frame, Naming, Tail, Wants};
use crate::token::{Token, token_of};
use crate::words::first_word;
use ir_arena::sequence::Sequence;
use ir_statements::statements::{Block, Located, Statement};
use std::alloc::Global;

/// How many braces may be open at once.
pub(crate) const MOST_OPEN: usize = 256;

/// What has been read so far. After an `Err` it isn't used again, and may hold anything.
#[derive(Drop)]
pub(crate) struct Reader {
    pub alloc: Global,
    /// The open parts, the newest last.
    pub opened: Vec<Frame>,
    /// The statements of the newest open part.
    pub list: Sequence<Located>,
    pub wants: Wants,
}

impl Reader {
    ghost use Rattle.case_notation.specs.Feeding.{Steps};
    ghost use Rattle.case_notation.specs.Reading.{begun, step, go_on, settle, begin, begin_at, put_alone, take_name, put_named, finish};
    ghost use Rattle.case_notation.specs.Views.{Moves, state_of};

    /// A reader that has read nothing.
    #[tactic(auto, using(crate::proofs::Reading::Stack::stacks))]
    pub fn new(alloc: Global) -> Self
        ensures { state_of result ≡ begun }
    {
        Reader {
            alloc,
            opened: Vec::new(alloc),
            list: Sequence::new(alloc),
            wants: Wants::Statement(Tail::Nothing),
        }
    }

    /// Takes the next token.
    #[inline(always)]
    #[tactic(auto, using(crate::proofs::Reading::Stack::stacks), unfolding(crate::specs::Reading::next, crate::specs::Reading::go_on, crate::specs::Reading::settle))]
    pub fn step(&mut self, token: Token) -> Result<(), CaseError>
        ensures { Steps (step (state_of self.old) token) result (state_of self.new) }
    {
        match self.wants {
            Wants::Statement(tail) => self.go_on(tail, token),
            Wants::Name(naming) => match token {
                Token::Name(name) => self.take_name(naming, name),
                _ => Err(CaseError::Unreadable),
            },
            Wants::Callee => match token {
                Token::Callee => self.want(Wants::Statement(Tail::Call)),
                _ => Err(CaseError::Unreadable),
            },
            Wants::Open(brace) => match token {
                Token::Open => self.enter(brace),
                _ => Err(CaseError::Unreadable),
            },
            Wants::Between => match token {
                Token::Open => self.want(Wants::Statement(Tail::Nothing)),
                _ => Err(CaseError::Unreadable),
            },
            Wants::CaseValue => match token {
                Token::Value(value) => self.want(Wants::CaseRest(value)),
                Token::Close => self.close_switch(),
                _ => Err(CaseError::Unreadable),
            },
            Wants::CaseRest(value) => match token {
                Token::Fall => self.want(Wants::Open(Brace::Case {
                    value,
                    fall_through: true,
                })),
                Token::Open => self.enter(Brace::Case {
                    value,
                    fall_through: false,
                }),
                _ => Err(CaseError::Unreadable),
            },
        }
    }

    /// A tail of the newest statement, or a token where a statement may begin.
    #[inline(always)]
    #[tactic(auto, using(crate::proofs::Reading::Stack::stacks), unfolding(crate::specs::Reading::go_on, crate::specs::Reading::settle))]
    fn go_on(&mut self, tail: Tail, token: Token) -> Result<(), CaseError>
        ensures { Moves (λ opened list. go_on opened list tail token) self.old result self.new }
    {
        match tail {
            Tail::Nothing => self.begin(token),
            Tail::Emit(first) => match token {
                Token::To => self.want(Wants::Name(Naming::Last(first))),
                _ => self.begin_behind(tail, token),
            },
            Tail::Return => match token {
                Token::Name(name) => self.put(Statement::Return {
                    value: Some(expression(name)),
                }),
                _ => self.begin_behind(tail, token),
            },
            Tail::Loop => match token {
                Token::BreakIf => self.want(Wants::Name(Naming::BreakIf)),
                _ => self.begin_behind(tail, token),
            },
            Tail::Call => match token {
                Token::Arrow => self.want(Wants::Name(Naming::Result)),
                _ => self.begin_behind(tail, token),
            },
        }
    }

    /// A token where a statement may begin, the newest one having no tail.
    #[inline(always)]
    fn begin_behind(&mut self, tail: Tail, token: Token) -> Result<(), CaseError>
        ensures { Moves (λ opened list. option_and_then (begin_at token) (settle opened list tail)) self.old result self.new }
    {
        self.settle(tail)?;
        self.begin(token)
    }

    /// Ends the newest statement with no tail.
    #[inline(never)]
    #[tactic(auto, using(crate::proofs::Reading::Stack::stacks), unfolding(crate::specs::Reading::settle))]
    fn settle(&mut self, tail: Tail) -> Result<(), CaseError>
        ensures { Moves (λ opened list. settle opened list tail) self.old result self.new }
    {
        match tail {
            Tail::Nothing => self.want(Wants::Statement(Tail::Nothing)),
            Tail::Emit(first) => self.put(emitting(first, first)),
            Tail::Return => self.put(Statement::Return { value: None }),
            Tail::Loop => self.end_loop(None),
            Tail::Call => {
                let statement = call_of(self.alloc, None);
                self.put(statement)
            }
        }
    }

    /// A token where a statement may begin.
    #[inline(always)]
    #[tactic(auto, using(crate::proofs::Reading::Stack::stacks), unfolding(crate::specs::Reading::begin))]
    fn begin(&mut self, token: Token) -> Result<(), CaseError>
        ensures { Moves (λ opened list. begin opened list token) self.old result self.new }
    {
        match token {
            Token::Emit => self.want(Wants::Name(Naming::First)),
            Token::Block => self.want(Wants::Open(Brace::Block)),
            Token::If => self.want(Wants::Name(Naming::Condition)),
            Token::Switch => self.want(Wants::Name(Naming::Selector)),
            Token::Loop => self.want(Wants::Open(Brace::Turn)),
            Token::Return => self.want(Wants::Statement(Tail::Return)),
            Token::Store => self.want(Wants::Name(Naming::Pointer)),
            Token::Call => self.want(Wants::Callee),
            Token::Close => self.close(),
            _ => self.put_alone(token),
        }
    }

    /// A token that is a statement by itself.
    #[inline(never)]
    #[tactic(auto, using(crate::proofs::Reading::Stack::stacks), unfolding(crate::specs::Reading::put_alone))]
    fn put_alone(&mut self, token: Token) -> Result<(), CaseError>
        ensures { Moves (λ opened list. put_alone opened list token) self.old result self.new }
    {
        match token {
            Token::Break => self.put(Statement::Break),
            Token::Continue => self.put(Statement::Continue),
            Token::Kill => self.put(Statement::Kill),
            Token::Barrier => self.put(control_barrier()),
            _ => Err(CaseError::Unreadable),
        }
    }

    /// A name.
    #[inline(always)]
    #[tactic(auto, using(crate::proofs::Reading::Stack::stacks), unfolding(crate::specs::Reading::take_name))]
    fn take_name(&mut self, naming: Naming, name: u8) -> Result<(), CaseError>
        ensures { Moves (λ opened list. take_name opened list naming name) self.old result self.new }
    {
        match naming {
            Naming::First => self.want(Wants::Statement(Tail::Emit(name))),
            Naming::Condition => self.want(Wants::Open(Brace::Accept(name))),
            Naming::Selector => self.want(Wants::Open(Brace::Cases(name))),
            Naming::Pointer => self.want(Wants::Name(Naming::Stored(name))),
            _ => self.put_named(naming, name),
        }
    }

    /// The last name of a statement.
    #[inline(never)]
    #[tactic(auto, using(crate::proofs::Reading::Stack::stacks), unfolding(crate::specs::Reading::put_named))]
    fn put_named(&mut self, naming: Naming, name: u8) -> Result<(), CaseError>
        ensures { Moves (λ opened list. put_named opened list naming name) self.old result self.new }
    {
        match naming {
            Naming::Last(first) => {
                if name < first {
                    return Err(CaseError::Unreadable);
                }
                self.put(emitting(first, name))
            }
            Naming::BreakIf => self.end_loop(Some(name)),
            Naming::Stored(pointer) => self.put(store_of(pointer, name)),
            Naming::Result => {
                let statement = call_of(self.alloc, Some(name));
                self.put(statement)
            }
            Naming::First | Naming::Condition | Naming::Selector | Naming::Pointer => {
                Err(CaseError::Unreadable)
            }
        }
    }

    /// The body, where it is whole.
    #[tactic(auto, using(crate::proofs::Reading::Stack::stacks), unfolding(crate::specs::Reading::end_at))]
    pub fn finish(mut self) -> Result<Block, CaseError>
        ensures { Ends (finish (state_of self)) result }
    {
        let Wants::Statement(tail) = self.wants else {
            return Err(CaseError::Unreadable);
        };
        self.settle(tail)?;
        if !self.opened.is_empty() {
            return Err(CaseError::Unreadable);
        }
        let Reader {
            alloc: _,
            opened: _,
            list,
            wants: _,
        } = self;
        Ok(block_from(list))
    }
}

/// The body that the words of a text say, a word at a time.
pub(crate) fn read_body(alloc: Global, bench: Bench, text: &[u8]) -> Result<Block, CaseError>
    ensures found { IfOk result (λ b. SayBody bench (words_of text.now) (body_of no_operands b)) }
    ensures printable { IfOk result (λ _. IsPrintable text.now) }
    ensures made { IfOk result (λ b. b ≡ block_of (body_of no_operands b)) }
    ensures none { IsErrOf result CaseError.Unreadable → (b : Body) → SayBody bench (words_of text.now) b → ⊥ }
{
    let mut reader = Reader::new(alloc);
    let mut rest = text;
    while let Some((word, after)) = first_word(rest) {
        rest = after;
        let Some(token) = token_of(bench, word) else {
            return Err(CaseError::Unreadable);
        };
        reader.step(token)?;
    }
    reader.finish()
}
