//! The statements of a body, one a line.

use crate::words::{write_number, write_part, write_spaces, write_statement};
use json_nodes::Step;
use json_places::statements::way_to;
use json_places::{Inside, JsonPointer, ListedPosition, ListedStatement, StatementPart};
use std::alloc::{AllocError, Global};
use std::fmt;

/// A body of at most so many statements is written whole.
const SHORT: usize = 40;

/// So many statements are written before the one that has the fault, and so many after it.
const AROUND: usize = 10;

/// Which statements of a body are written.
#[derive(Drop)]
pub(crate) struct ShownStatements {
    is_shown: Vec<bool>,
}

impl ShownStatements {
    /// All statements of a short body. Of a long one those around the position, what holds it, and the statements with these
    /// numbers, with what holds them. An Err is out of memory.
    pub(crate) fn new(
        alloc: Global,
        listed: &[ListedStatement<'_>],
        position: Option<ListedPosition>,
        named: &[usize],
    ) -> Result<ShownStatements, AllocError> {
        let is_short = listed.len() <= SHORT;
        let mut is_shown = Vec::with_capacity(alloc, listed.len())?;
        for number in 0..listed.len() {
            let is_near = match position {
                Some(position) => is_near(number, position.number()),
                None => false,
            };
            is_shown.push(is_short || is_near)?;
        }
        let mut shown = ShownStatements { is_shown };
        if let Some(position) = position {
            shown.add_way(alloc, listed, position)?;
        }
        for number in named {
            shown.add_way(alloc, listed, ListedPosition::Statement(*number))?;
        }
        Ok(shown)
    }

    /// Adds a statement.
    fn add(&mut self, number: usize) {
        if let Some(is_shown) = self.is_shown.as_mut_slice().get_mut(number) {
            *is_shown = true;
        }
    }

    /// Adds a statement and what holds it.
    fn add_way(
        &mut self,
        alloc: Global,
        listed: &[ListedStatement<'_>],
        position: ListedPosition,
    ) -> Result<(), AllocError> {
        self.add(position.number());
        let way = way_to(alloc, listed, position)?;
        for inside in way.as_slice() {
            self.add(inside.number);
        }
        Ok(())
    }

    /// Whether a statement is written.
    pub(crate) fn has(&self, number: usize) -> bool {
        match self.is_shown.as_slice().get(number) {
            Some(is_shown) => *is_shown,
            None => false,
        }
    }
}

/// Whether a statement is written since it stands around the one that has the fault.
fn is_near(number: usize, at: usize) -> bool {
    number <= at.saturating_add(AROUND) && at <= number.saturating_add(AROUND)
}

/// How many digits a number has.
fn digits(number: usize) -> usize {
    let mut left = number / 10;
    let mut count = 1usize;
    for _ in 0..20 {
        if left == 0 {
            break;
        }
        left = left / 10;
        count = count.saturating_add(1);
    }
    count
}

/// Writes the statements that are shown, each with its number, and a mark at the one that has the fault, whose place stands at
/// the head. Lists stand under what they are called, and an empty list is left out.
pub(crate) fn write_body<W: fmt::Write>(
    out: &mut W,
    listed: &[ListedStatement<'_>],
    shown: &ShownStatements,
    position: Option<ListedPosition>,
    place: &JsonPointer,
) -> fmt::Result {
    if listed.is_empty() {
        return Ok(());
    }
    write_head(out, position, place)?;
    let width = digits(listed.len().saturating_sub(1));
    let mut hidden = 0usize;
    for (number, node) in listed.iter().enumerate() {
        if !shown.has(number) {
            hidden = hidden.saturating_add(1);
            continue;
        }
        if let Some(inside) = node.inside {
            if node.index == 0 || hidden > 0 {
                write_gap(out, hidden)?;
                write_label(out, listed, inside, width, node.depth)?;
                hidden = 0;
            }
        }
        write_gap(out, hidden)?;
        hidden = 0;
        write_node(out, node, number, width, position)?;
    }
    write_gap(out, hidden)
}

/// Writes the head of a body: which number the place of the verdict has.
fn write_head<W: fmt::Write>(
    out: &mut W,
    position: Option<ListedPosition>,
    place: &JsonPointer,
) -> fmt::Result {
    out.write_str("\nbody")?;
    match position {
        None => return out.write_str(":"),
        Some(ListedPosition::Statement(number)) => write_number(out, ", where #", number, "")?,
        Some(ListedPosition::BreakIf(number)) => {
            write_number(out, ", where the break condition of #", number, "")?
        }
    }
    out.write_str(" is the place body")?;
    let mut is_inside = false;
    for step in place.steps.as_slice() {
        match step {
            Step::Name(name) if is_inside => write!(out, "/{name}")?,
            Step::Index(index) if is_inside => write_number(out, "/", *index, "")?,
            Step::Name(name) => is_inside = *name == "body",
            Step::Index(_) => {}
        }
    }
    out.write_str(":")
}

/// Writes how many statements are left out.
fn write_gap<W: fmt::Write>(out: &mut W, hidden: usize) -> fmt::Result {
    if hidden == 0 {
        return Ok(());
    }
    write_number(out, "\n  .. ", hidden, " more")
}

/// Writes the name of a list, a little less deep than the statements in it. The list of a Block needs none.
fn write_label<W: fmt::Write>(
    out: &mut W,
    listed: &[ListedStatement<'_>],
    inside: Inside,
    width: usize,
    depth: usize,
) -> fmt::Result {
    let Some(holder) = listed.get(inside.number) else {
        return Ok(());
    };
    if inside.part == StatementPart::Block {
        return Ok(());
    }
    out.write_str("\n  ")?;
    write_spaces(out, width.saturating_add(depth.saturating_mul(4)))?;
    write_part(out, &holder.located.statement, inside.part)?;
    out.write_str(":")
}

/// Writes a statement.
fn write_node<W: fmt::Write>(
    out: &mut W,
    node: &ListedStatement<'_>,
    number: usize,
    width: usize,
    position: Option<ListedPosition>,
) -> fmt::Result {
    let is_at = match position {
        Some(position) => position.number() == number,
        None => false,
    };
    write_number(out, if is_at { "\n> #" } else { "\n  #" }, number, "")?;
    write_spaces(out, width.saturating_sub(digits(number)))?;
    write_spaces(out, node.depth.saturating_mul(4).saturating_add(1))?;
    write_statement(out, &node.located.statement)
}
