//! What the reader keeps of a body that isn't whole: the open parts, and what may come next.

use ir_arena::sequence::Sequence;
use ir_statements::operations::SwitchValue;
use ir_statements::statements::{Block, Located, SwitchCase};

/// What the newest statement may still get.
#[derive(Clone, Copy)]
pub(crate) enum Tail {
    Nothing,
    /// `..` and the last name of the range that begins here.
    Emit(u8),
    /// A value.
    Return,
    /// `break_if` and a name.
    Loop,
    /// `->` and a name.
    Call,
}

/// What a name stands for.
#[derive(Clone, Copy)]
pub(crate) enum Naming {
    /// The first emitted expression.
    First,
    /// The last emitted expression, after this first one.
    Last(u8),
    Condition,
    Selector,
    BreakIf,
    /// The result of a call.
    Result,
    /// Where a store points.
    Pointer,
    /// What is stored, after this pointer.
    Stored(u8),
}

/// What a brace opens.
#[derive(Clone, Copy)]
pub(crate) enum Brace {
    Block,
    /// The first list of an If with this condition.
    Accept(u8),
    /// The cases of a Switch with this selector.
    Cases(u8),
    Case {
        value: SwitchValue,
        fall_through: bool,
    },
    /// The body of a Loop.
    Turn,
}

/// Which token is wanted next.
#[derive(Clone, Copy)]
pub(crate) enum Wants {
    /// The tail of the newest statement, a new statement, or the end of the list.
    Statement(Tail),
    Name(Naming),
    /// The function that is called.
    Callee,
    /// The brace of a new part.
    Open(Brace),
    /// The brace of the second list of the newest part.
    Between,
    /// The value of a case, or the end of the Switch.
    CaseValue,
    /// `fall`, or the brace of the case's body.
    CaseRest(SwitchValue),
}

/// Which part is open, with what was read of its statement.
#[derive(Drop)]
pub(crate) enum Kind {
    Block,
    /// The first list of an If.
    Accept(u8),
    /// Its second.
    Reject {
        condition: u8,
        accept: Block,
    },
    Cases {
        selector: u8,
        cases: Sequence<SwitchCase>,
    },
    /// A case of the Switch that lies below.
    Case {
        value: SwitchValue,
        fall_through: bool,
    },
    /// The body of a Loop.
    Turn,
    Continuing {
        turn: Block,
    },
}

/// A part that is open, and the statements before its own.
#[derive(Drop)]
pub(crate) struct Frame {
    pub kind: Kind,
    pub outer: Sequence<Located>,
}
