//! Why an expression can't be used where it is used.

use crate::statements::{
    Inside, ListedPosition, ListedStatement, StatementPart, emits, loop_part, parts_around, way_to,
};
use naga_below::{Handle, Statement, tag};
use std::alloc::{AllocError, Global};

/// Why an expression isn't in scope where it is used, or why not every run has emitted it there. Numbers are those of
/// statements.
#[derive(Clone, Copy)]
pub enum Reason {
    /// No statement of the body emits it.
    Never,
    /// A statement emits it in a list that has ended.
    Ended {
        emitted: usize,
        /// The innermost list around that statement.
        list: Inside,
        /// The outermost Loop around it that has ended, if one has.
        ended_loop: Option<usize>,
    },
    /// Only this statement and later ones emit it. It may be the statement that uses it.
    Later {
        emitted: usize,
    },
    /// A statement emits it in the body of a Loop, after a Continue, which may skip it.
    Skipped {
        emitted: usize,
        holder: usize,
        jump: usize,
    },
}

/// Why an expression can't be used at a position where it isn't in scope, or not sure to be emitted.
///
/// Of several statements that emit it, one that a Continue may skip counts most, then the last whose list has ended.
/// An Err is out of memory.
pub(crate) fn reason_of(
    alloc: Global,
    listed: &[ListedStatement<'_>],
    position: ListedPosition,
    handle: Handle<tag::Expression>,
) -> Result<Reason, AllocError> {
    let way = way_to(alloc, listed, position)?;
    let mut reason = Reason::Never;
    for (number, node) in listed.iter().enumerate() {
        if emits(&node.located.statement, handle) {
            let around = parts_around(alloc, listed, number)?;
            reason = told(
                reason,
                found(listed, position, number, around.as_slice(), way.as_slice()),
            );
        }
    }
    Ok(reason)
}

/// The first statement whose emission of an expression is still in scope at a position, after a Continue too. An Err is out
/// of memory.
pub fn first_emission(
    alloc: Global,
    listed: &[ListedStatement<'_>],
    position: ListedPosition,
    handle: Handle<tag::Expression>,
) -> Result<Option<usize>, AllocError> {
    let way = way_to(alloc, listed, position)?;
    for (number, node) in listed.iter().enumerate() {
        if emits(&node.located.statement, handle) {
            let around = parts_around(alloc, listed, number)?;
            match found(listed, position, number, around.as_slice(), way.as_slice()) {
                None | Some(Reason::Skipped { .. }) => return Ok(Some(number)),
                Some(_) => {}
            }
        }
    }
    Ok(None)
}

/// Of what is known so far and what a further statement shows, what says more.
fn told(known: Reason, shown: Option<Reason>) -> Reason {
    let Some(reason) = shown else {
        return known;
    };
    match known {
        Reason::Never => reason,
        Reason::Skipped { .. } => known,
        Reason::Ended { .. } | Reason::Later { .. } => {
            if is_later(reason) { known } else { reason }
        }
    }
}

fn is_later(reason: Reason) -> bool {
    matches!(reason, Reason::Later { .. })
}

/// What a statement that emits the expression shows, with the parts around it and those around the position. None where
/// the expression is in scope at the position.
fn found(
    listed: &[ListedStatement<'_>],
    position: ListedPosition,
    emitted: usize,
    around: &[Inside],
    way: &[Inside],
) -> Option<Reason> {
    if !comes_before(position, emitted, around) {
        return Some(Reason::Later { emitted });
    }
    let same = shared(around, way);
    let first = around.get(same)?;
    let open = if has_one_scope(*first, way.get(same)) {
        same.saturating_add(1)
    } else {
        same
    };
    let Some((_, ended)) = around.split_at_checked(open) else {
        return None;
    };
    match ended.last() {
        Some(list) => Some(Reason::Ended {
            emitted,
            list: *list,
            ended_loop: outermost_loop(ended),
        }),
        None => skipped(listed, emitted, *first),
    }
}

/// The first Loop of which one of these is a list.
fn outermost_loop(parts: &[Inside]) -> Option<usize> {
    for inside in parts {
        if matches!(inside.part, StatementPart::Body | StatementPart::Continuing) {
            return Some(inside.number);
        }
    }
    None
}

/// Whether a statement, with the parts around it, is visited before a position.
fn comes_before(position: ListedPosition, number: usize, around: &[Inside]) -> bool {
    match position {
        ListedPosition::Statement(at) => number < at,
        ListedPosition::BreakIf(at) => number < at
            || around.iter().any(|inside| inside.number == at),
    }
}

/// How many of the outermost parts are the same.
fn shared(one: &[Inside], other: &[Inside]) -> usize {
    let mut count = 0usize;
    for (left, right) in one.iter().zip(other) {
        if *left != *right {
            return count;
        }
        count = count.saturating_add(1);
    }
    count
}

/// Whether what is emitted in the list of one part stays in scope in the other: they are parts of one Loop.
fn has_one_scope(one: Inside, other: Option<&Inside>) -> bool {
    match other {
        Some(other) => {
            one.number == other.number
                && matches!(one.part, StatementPart::Body | StatementPart::Continuing)
                && matches!(
                    other.part,
                    StatementPart::Continuing | StatementPart::BreakIf
                )
        }
        None => false,
    }
}

/// That a Continue may skip what a statement of the body list of a Loop emits.
fn skipped(listed: &[ListedStatement<'_>], emitted: usize, list: Inside) -> Option<Reason> {
    let holder = list.number;
    let jump = first_continue(listed, list)?;
    Some(Reason::Skipped {
        emitted,
        holder,
        jump,
    })
}

/// The first Continue that ends a turn of the Loop with this body.
fn first_continue(listed: &[ListedStatement<'_>], list: Inside) -> Option<usize> {
    for (number, node) in listed.iter().enumerate() {
        if matches!(node.located.statement, Statement::Continue)
            && loop_part(listed, number) == Some(list)
        {
            return Some(number);
        }
    }
    None
}
