//! Why a statement or a declaration is refused, where the body or the declarations show it.

use crate::kept::{Kept, Stored};
use crate::words::{write_name, write_number, write_two};
use check_faults::EntryPointError;
use json_places::parts::{BoundSpot, Group, bounds_of, first_of};
use json_places::scope::first_emission;
use json_places::statements::result_of;
use json_places::{Inside, ListedPosition, ListedStatement, Reason, Spot, StatementPart};
use naga_below::{EntryPoint, Function, Handle, Module, Statement, SwitchCase, SwitchValue, tag};
use naga_rules::{AtomicError, CallError, FunctionError, VaryingError};
use std::alloc::{AllocError, Global};
use std::fmt;

/// What an earlier statement has to do with a fault.
#[derive(Clone, Copy)]
pub(crate) enum Earlier {
    /// It emits the expression, which is in scope still.
    Emits(usize),
    /// It has the same result.
    Fills(usize),
    /// The expression is in scope from the start of the body on.
    FromStart,
    /// No statement has the result, and the flag EXPRESSIONS is off.
    Unflagged,
    /// There is none.
    None,
}

/// What an earlier statement has to do with a fault. An Err is out of memory.
pub(crate) fn earlier_of(
    alloc: Global,
    function: &Function,
    listed: &[ListedStatement<'_>],
    fault: &FunctionError,
    position: ListedPosition,
) -> Result<Earlier, AllocError> {
    match fault {
        FunctionError::ExpressionAlreadyInScope(handle)
        | FunctionError::InvalidCall {
            error: CallError::ResultAlreadyInScope(handle),
            ..
        } => {
            if is_pre_emitted(function, *handle) {
                return Ok(Earlier::FromStart);
            }
            Ok(match first_emission(alloc, listed, position, *handle)? {
                Some(number) => Earlier::Emits(number),
                None => Earlier::None,
            })
        }
        FunctionError::InvalidCall {
            error: CallError::ResultAlreadyPopulated(handle),
            ..
        }
        | FunctionError::InvalidAtomic(AtomicError::ResultAlreadyPopulated(handle)) => {
            Ok(first_result(listed, position.number(), *handle))
        }
        _ => Ok(Earlier::None),
    }
}

fn is_pre_emitted(function: &Function, handle: Handle<tag::Expression>) -> bool {
    match function.expressions.as_slice().get(handle.index()) {
        Some(expression) => expression.needs_pre_emit(),
        None => false,
    }
}

/// The first statement before this one that has a result. If none has it, no statement could: EXPRESSIONS is off.
fn first_result(
    listed: &[ListedStatement<'_>],
    at: usize,
    handle: Handle<tag::Expression>,
) -> Earlier {
    for (number, node) in listed.iter().enumerate() {
        if number < at && result_of(&node.located.statement) == Some(handle) {
            return Earlier::Fills(number);
        }
    }
    Earlier::Unflagged
}

/// Writes a position.
fn write_position<W: fmt::Write>(out: &mut W, position: ListedPosition) -> fmt::Result {
    match position {
        ListedPosition::Statement(number) => write_number(out, "#", number, ""),
        ListedPosition::BreakIf(number) => write_number(
            out,
            "the break condition of #",
            number,
            "",
        ),
    }
}

/// A use that is refused since its expression isn't in scope there.
#[derive(Clone, Copy)]
pub(crate) struct RefusedUse {
    pub position: ListedPosition,
    pub handle: Handle<tag::Expression>,
}

impl RefusedUse {
    /// Writes why the expression isn't in scope, and what to do. Where its list has ended, [`RefusedUse::write_cures`] says that.
    pub(crate) fn write_reason<W: fmt::Write>(&self, out: &mut W, reason: Reason) -> fmt::Result {
        let index = self.handle.index();
        match reason {
            Reason::Never => {
                write_number(out, "\nWhy: no statement of the body emits [", index, "].")?;
                self.write_cure(out, "\nCure")
            }
            Reason::Ended { emitted, list, .. } => self.write_ended(out, emitted, list),
            Reason::Later { emitted } if self.position == ListedPosition::Statement(emitted) => {
                let after = "], after it has used it.";
                write_two(out, "\nWhy: #", emitted, " itself emits [", index, after)?;
                self.write_cure(out, "\nCure")
            }
            Reason::Later { emitted } => self.write_later(out, emitted),
            Reason::Skipped {
                emitted,
                holder,
                jump,
            } => {
                let after = "] in the body of the Loop #";
                write_two(out, "\nWhy: #", emitted, " emits [", index, after)?;
                write_two(
                    out,
                    "",
                    holder,
                    ", and the Continue #",
                    jump,
                    " may skip it.",
                )?;
                self.write_cure_of_skipped(out)
            }
        }
    }

    /// Writes that the list has ended in which the expression is emitted.
    fn write_ended<W: fmt::Write>(&self, out: &mut W, emitted: usize, list: Inside) -> fmt::Result {
        write_two(
            out,
            "\nWhy: #",
            emitted,
            " emits [",
            self.handle.index(),
            "], in ",
        )?;
        write_list_name(out, list)?;
        out.write_str(", which has ended before ")?;
        write_position(out, self.position)?;
        out.write_str(".")
    }

    /// Writes that the expression is emitted later.
    fn write_later<W: fmt::Write>(&self, out: &mut W, emitted: usize) -> fmt::Result {
        let index = self.handle.index();
        let after = "], and comes after ";
        write_two(out, "\nWhy: #", emitted, " emits [", index, after)?;
        write_position(out, self.position)?;
        out.write_str(".")?;
        self.write_cure(out, "\nCure")
    }

    /// Writes where the expression is to be emitted so that no Continue skips it.
    fn write_cure_of_skipped<W: fmt::Write>(&self, out: &mut W) -> fmt::Result {
        let after =
            "] in that body before the first statement that holds a Continue, or in the continuing part before ";
        write_number(out, "\nCure: emit [", self.handle.index(), after)?;
        write_position(out, self.position)?;
        out.write_str(".")
    }

    /// Writes the two cures of a value whose list has ended. One that a Loop makes anew in each turn is kept in a local first.
    pub(crate) fn write_cures<W: fmt::Write>(
        &self,
        out: &mut W,
        function: &Function,
        reason: Reason,
        kept: &Kept,
    ) -> fmt::Result {
        let Reason::Ended { emitted, .. } = reason else {
            return Ok(());
        };
        if kept.is_of_loop {
            write_keeping(out, "\nCure", function, emitted, kept)?;
            return self.write_cure(out, "\nOr");
        }
        self.write_cure(out, "\nCure")?;
        write_keeping(out, "\nOr", function, emitted, kept)
    }

    /// Writes where the expression is to be emitted.
    fn write_cure<W: fmt::Write>(&self, out: &mut W, lead: &str) -> fmt::Result {
        out.write_str(lead)?;
        write_number(out, ": emit [", self.handle.index(), "] before ")?;
        write_position(out, self.position)?;
        out.write_str(", in the same list or in one around it.")
    }
}

/// Writes in which local a value is kept, or that one is needed.
fn write_keeping<W: fmt::Write>(
    out: &mut W,
    lead: &str,
    function: &Function,
    emitted: usize,
    kept: &Kept,
) -> fmt::Result {
    out.write_str(lead)?;
    let Some(Stored { number, local }) = kept.stored else {
        let after = ", and use a Load of that.";
        return write_number(out, ": store it in a local after #", emitted, after);
    };
    write_number(out, ": use a Load of local [", local.index(), "]")?;
    if let Some(local) = function.local_variables.as_slice().get(local.index()) {
        write_name(out, &local.name)?;
    }
    write_number(out, ", in which #", number, " stores it.")
}

/// Writes which list of statements a part of a statement is.
fn write_list_name<W: fmt::Write>(out: &mut W, list: Inside) -> fmt::Result {
    let number = list.number;
    match list.part {
        StatementPart::Block => write_number(out, "the Block #", number, ""),
        StatementPart::Accept => write_number(out, "the accept list of the If #", number, ""),
        StatementPart::Reject => write_number(out, "the reject list of the If #", number, ""),
        StatementPart::Case(index) => write_two(
            out,
            "case ",
            index,
            " of the Switch #",
            number,
            "",
        ),
        StatementPart::Body => write_number(out, "the body of the Loop #", number, ""),
        StatementPart::Continuing => write_number(
            out,
            "the continuing part of the Loop #",
            number,
            "",
        ),
        StatementPart::BreakIf => write_number(out, "the break condition of #", number, ""),
    }
}

/// Writes what an earlier statement has to do with a fault.
pub(crate) fn write_earlier<W: fmt::Write>(out: &mut W, earlier: Earlier) -> fmt::Result {
    match earlier {
        Earlier::Emits(number) => write_number(
            out,
            "\nWhy: #",
            number,
            " emits it first, and its list has not ended.\nCure: leave out one of the two.",
        ),
        Earlier::Fills(number) => write_number(
            out,
            "\nWhy: #",
            number,
            " has this result already.\nCure: give each of the two a result of its own.",
        ),
        Earlier::FromStart => out.write_str(
            "\nWhy: it is in scope from the start of the body, and is never emitted.\nCure: leave it out.",
        ),
        Earlier::Unflagged => out.write_str(
            "\nWhy: the flag EXPRESSIONS is off, and then no result counts as one to be filled.\nCure: turn EXPRESSIONS on.",
        ),
        Earlier::None => Ok(()),
    }
}

/// Writes which cases of a Switch have one value.
pub(crate) fn write_cases<W: fmt::Write>(
    out: &mut W,
    statement: &Statement,
    fault: &FunctionError,
) -> fmt::Result {
    let value = match fault {
        FunctionError::ConflictingSwitchCase(value) => *value,
        FunctionError::MultipleDefaultCases => SwitchValue::Default,
        _ => return Ok(()),
    };
    match statement {
        Statement::Switch { cases, .. } => match two_cases(cases.as_slice(), value) {
            Some((first, second)) => write_two(
                out,
                "\nWhy: case ",
                second,
                " has the value of case ",
                first,
                ".",
            ),
            None => Ok(()),
        },
        _ => Ok(()),
    }
}

/// The first two cases of a value.
fn two_cases(cases: &[SwitchCase], value: SwitchValue) -> Option<(usize, usize)> {
    let mut first = None;
    for (index, case) in cases.iter().enumerate() {
        if case.value == value {
            match first {
                Some(first) => return Some((first, index)),
                None => first = Some(index),
            }
        }
    }
    None
}

/// Writes what else has the binding, the location or the built-in of a fault of an entry point.
pub(crate) fn write_twin<W: fmt::Write>(
    alloc: Global,
    out: &mut W,
    module: &Module,
    ep: &EntryPoint,
    fault: &EntryPointError,
) -> fmt::Result {
    match fault {
        EntryPointError::BindingCollision(global) => write_global_twins(out, module, *global),
        EntryPointError::Argument(index, error) => {
            let group = Group::Arguments(*index as usize);
            let bounds = bounds_of(alloc, module, ep, group)?;
            write_bound_twin(out, bounds.as_slice(), error)
        }
        EntryPointError::Result(error) => {
            let group = if ep.mesh_info.is_some() {
                Group::Mesh
            } else {
                Group::Returned
            };
            let bounds = bounds_of(alloc, module, ep, group)?;
            write_bound_twin(out, bounds.as_slice(), error)
        }
        _ => Ok(()),
    }
}

/// Writes the first of two inputs or outputs that have one location or are one built-in.
fn write_bound_twin<W: fmt::Write>(
    out: &mut W,
    bounds: &[BoundSpot],
    fault: &VaryingError,
) -> fmt::Result {
    if !is_of_twins(fault) {
        return Ok(());
    }
    let first = first_of(bounds, fault);
    write_first(out, &first)
}

/// Whether the fault is that there are two with one location or built-in.
fn is_of_twins(fault: &VaryingError) -> bool {
    matches!(
        fault,
        VaryingError::BindingCollision { .. } | VaryingError::DuplicateBuiltIn(_)
    )
}

/// Writes which of them is the first.
fn write_first<W: fmt::Write>(out: &mut W, first: &Option<Spot>) -> fmt::Result {
    match first {
        Some(Spot::Argument(index)) => {
            write_number(out, "\nWhy: argument ", *index, " has it first.")
        }
        Some(Spot::Member { ty, index }) => {
            let after = "] has it first.";
            write_two(
                out,
                "\nWhy: member ",
                *index,
                " of type [",
                ty.index(),
                after,
            )
        }
        _ => Ok(()),
    }
}

/// Writes the earlier globals that have the binding of this one.
fn write_global_twins<W: fmt::Write>(
    out: &mut W,
    module: &Module,
    global: Handle<tag::GlobalVariable>,
) -> fmt::Result {
    let globals = module.global_variables.as_slice();
    let Some(own) = globals.get(global.index()) else {
        return Ok(());
    };
    let mut count = 0usize;
    for (index, other) in globals.iter().enumerate() {
        if index < global.index() && other.binding == own.binding {
            let before = if count == 0 {
                "\nWhy: earlier globals with its binding: ["
            } else {
                ", ["
            };
            write_number(out, before, index, "]")?;
            count = count.saturating_add(1);
        }
    }
    if count == 0 {
        return Ok(());
    }
    out.write_str(".")
}
