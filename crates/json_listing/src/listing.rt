//! The listing of what was refused: its declarations, the expressions that the fault is about, its body, and why.

use crate::body::{ShownStatements, write_body};
use crate::declarations::{write_declarations, write_entry, write_expressions, write_global};
use crate::kept::{EmittedValue, Kept};
use crate::marks::{Marks, user_in};
use crate::why::{Earlier, RefusedUse, earlier_of, write_cases, write_earlier, write_twin};
use crate::words::{write_number, write_two};
use check_faults::{EntryPointError, ModuleFault};
use json_places::{Found, ListedPosition, ListedStatement, Reason, Spot, statements_of, unseen};
use naga_below::{Function, Handle, Module, Statement, tag};
use naga_rules::FunctionError;
use std::alloc::{AllocError, Global};
use std::fmt;

/// Writes the listing of a refused module, without a newline at the end: of a global its declaration, of a function or an
/// entry point its declarations, the expressions that the shown statements name and all that they are made from, and its
/// body. The fault has a mark, and why it is there follows, where the listing shows it.
///
/// An Err is that of the writer, or out of memory.
pub fn write_listing<W: fmt::Write>(
    alloc: Global,
    out: &mut W,
    module: &Module,
    fault: &ModuleFault,
    found: &Found,
) -> fmt::Result {
    let listing = Listing { module, found };
    match fault {
        ModuleFault::Global(global, _) => write_global(out, module, *global),
        ModuleFault::Function(handle, error) => {
            listing.write_own_function(alloc, out, handle.index(), error.as_inner())
        }
        ModuleFault::EntryPoint(index, error) => {
            listing.write_entry_point(alloc, out, *index, error.as_inner())
        }
        // Nothing to list: of out of memory nothing is found, and a misfit's place is all that is found of `NotFit`.
        ModuleFault::NotFit | ModuleFault::Memory => Ok(()),
    }
}

/// What is listed: a refused module, and where its fault was found.
#[derive(Clone, Copy)]
struct Listing<'a> {
    module: &'a Module,
    found: &'a Found,
}

impl Listing<'_> {
    /// Writes the listing of the function with this index.
    fn write_own_function<W: fmt::Write>(
        self,
        alloc: Global,
        out: &mut W,
        index: usize,
        fault: &FunctionError,
    ) -> fmt::Result {
        let Some(function) = self.module.functions.as_slice().get(index) else {
            return Ok(());
        };
        out.write_str(head_mark(self.found.spot))?;
        write_number(out, "function ", index, ":")?;
        self.write_function(alloc, out, function, Some(fault))
    }

    /// Writes the listing of the entry point with this index.
    fn write_entry_point<W: fmt::Write>(
        self,
        alloc: Global,
        out: &mut W,
        index: usize,
        fault: &EntryPointError,
    ) -> fmt::Result {
        let Some(ep) = self.module.entry_points.as_slice().get(index) else {
            return Ok(());
        };
        out.write_str(head_mark(self.found.spot))?;
        write_number(out, "entry point ", index, ":")?;
        write_entry(out, self.module, ep, self.found.spot)?;
        let own = match fault {
            EntryPointError::Function(error) => Some(error),
            _ => None,
        };
        self.write_function(alloc, out, &ep.function, own)?;
        write_twin(alloc, out, self.module, ep, fault)
    }

    /// Writes the declarations, the expressions and the body of a function, and why a statement of it is refused.
    fn write_function<W: fmt::Write>(
        self,
        alloc: Global,
        out: &mut W,
        function: &Function,
        fault: Option<&FunctionError>,
    ) -> fmt::Result {
        write_declarations(out, self.module, function, self.found.spot)?;
        let listed = statements_of(alloc, &function.body)?;
        let refused = RefusedFunction {
            function,
            listed: listed.as_slice(),
            fault,
            found: self.found,
        };
        let written = refused.write(alloc, out);
        drop(listed);
        written
    }
}

/// What is at the beginning of the first line: a mark where the fault is one of the whole.
fn head_mark(spot: Spot) -> &'static str {
    match spot {
        Spot::Whole => "\n> ",
        _ => "\n",
    }
}

/// The position in the body that has the fault, if one has.
fn position_of(spot: Spot) -> Option<ListedPosition> {
    match spot {
        Spot::At(position) => Some(position),
        _ => None,
    }
}

/// A function of which something is refused: the statements of its body by their numbers, the fault, if it is the function's
/// own, and where it was found.
#[derive(Clone, Copy)]
struct RefusedFunction<'a> {
    function: &'a Function,
    listed: &'a [ListedStatement<'a>],
    fault: Option<&'a FunctionError>,
    found: &'a Found,
}

impl<'a> RefusedFunction<'a> {
    /// Writes the expressions and the statements, and why one of these is refused.
    fn write<W: fmt::Write>(self, alloc: Global, out: &mut W) -> fmt::Result {
        let earlier = self.earlier(alloc)?;
        let kept = self.kept(alloc)?;
        let shown = self.write_shown(alloc, out, earlier, &kept);
        let written = match shown {
            Ok(()) => self.write_causes(out, earlier, &kept),
            Err(error) => Err(error),
        };
        drop(kept);
        written
    }

    /// The statement that has the fault, if one has.
    fn statement(self) -> Option<&'a Statement> {
        let position = position_of(self.found.spot)?;
        let node = self.listed.get(position.number())?;
        Some(&node.located.statement)
    }

    /// The expression that isn't in scope, if that is the fault.
    fn unseen(self) -> Option<Handle<tag::Expression>> {
        unseen(self.fault?, self.listed, &self.found.spot)
    }

    /// What an earlier statement has to do with the fault of a statement.
    fn earlier(self, alloc: Global) -> Result<Earlier, AllocError> {
        match (self.fault, position_of(self.found.spot)) {
            (Some(fault), Some(position)) => {
                earlier_of(alloc, self.function, self.listed, fault, position)
            }
            _ => Ok(Earlier::None),
        }
    }

    /// What is done with a value before its list ends, if the fault is that it has ended. An Err is out of memory.
    fn kept(self, alloc: Global) -> Result<Option<Kept>, AllocError> {
        let Some(
            Reason::Ended {
                emitted,
                ended_loop,
                ..
            },
        ) = self.found.reason
        else {
            return Ok(None);
        };
        match self.unseen() {
            Some(handle) => {
                let value = EmittedValue {
                    function: self.function,
                    listed: self.listed,
                    emitted,
                    handle,
                };
                let kept = value.kept(alloc, ended_loop)?;
                Ok(Some(kept))
            }
            None => Ok(None),
        }
    }

    /// Writes the statements that are shown, after the expressions that the fault is about and those that they name.
    fn write_shown<W: fmt::Write>(
        self,
        alloc: Global,
        out: &mut W,
        earlier: Earlier,
        kept: &Option<Kept>,
    ) -> fmt::Result {
        let position = position_of(self.found.spot);
        let named = named_by(alloc, self.found.reason, earlier, kept)?;
        let shown = ShownStatements::new(alloc, self.listed, position, named.as_slice())?;
        let marks = self.marks(alloc)?;
        let all = self.marks_of_shown(alloc, &marks, &shown)?;
        write_expressions(out, self.function, &marks, &all, self.found.spot)?;
        write_body(out, self.listed, &shown, position, &self.found.place)
    }

    /// The expressions that the fault is about, with all that they are made from.
    fn marks(self, alloc: Global) -> Result<Marks, AllocError> {
        let mut marks = Marks::new(alloc, self.function.expressions.len())?;
        if let Spot::Expression(handle) = self.found.spot {
            marks.add(handle);
        }
        if let Some(statement) = self.statement() {
            marks.add_statement(statement);
            self.add_unseen(&mut marks, statement);
        }
        marks.close(self.function);
        Ok(marks)
    }

    /// Marks the expression that isn't in scope, and of an Emit those that are made from it.
    fn add_unseen(self, marks: &mut Marks, statement: &Statement) {
        let handle = match self.fault {
            Some(
                FunctionError::ExpressionAlreadyInScope(handle) | FunctionError::EmitResult(handle),
            ) => Some(*handle),
            _ => self.unseen(),
        };
        if let Some(handle) = handle {
            marks.add(handle);
            if let Statement::Emit(range) = statement {
                marks.add_users(self.function, range.start, range.end, handle);
            }
        }
    }

    /// The expressions that the fault is about, and those that the shown statements name, with all that they are made from.
    fn marks_of_shown(
        self,
        alloc: Global,
        marks: &Marks,
        shown: &ShownStatements,
    ) -> Result<Marks, AllocError> {
        let mut all = marks.copy(alloc)?;
        for (number, node) in self.listed.iter().enumerate() {
            if shown.has(number) {
                all.add_whole_statement(&node.located.statement);
            }
        }
        all.close(self.function);
        Ok(all)
    }

    /// Writes what an earlier statement has to do with the fault of a statement, and why this one is refused.
    fn write_causes<W: fmt::Write>(
        self,
        out: &mut W,
        earlier: Earlier,
        kept: &Option<Kept>,
    ) -> fmt::Result {
        match (self.fault, position_of(self.found.spot)) {
            (Some(fault), Some(position)) => {
                write_earlier(out, earlier)?;
                self.write_why(out, fault, position, kept)
            }
            _ => Ok(()),
        }
    }

    /// Writes why a statement is refused, where the body shows it.
    fn write_why<W: fmt::Write>(
        self,
        out: &mut W,
        fault: &FunctionError,
        position: ListedPosition,
        kept: &Option<Kept>,
    ) -> fmt::Result {
        if let (Some(reason), Some(handle)) = (self.found.reason, self.unseen()) {
            let refused = RefusedUse { position, handle };
            self.write_user(out, position.number(), handle)?;
            refused.write_reason(out, reason)?;
            return match kept {
                Some(kept) => refused.write_cures(out, self.function, reason, kept),
                None => Ok(()),
            };
        }
        match self.statement() {
            Some(statement) => write_cases(out, statement, fault),
            None => Ok(()),
        }
    }

    /// Writes which expression of an Emit of several is made from one that isn't in scope.
    fn write_user<W: fmt::Write>(
        self,
        out: &mut W,
        number: usize,
        handle: Handle<tag::Expression>,
    ) -> fmt::Result {
        let Some(Statement::Emit(range)) = self.statement() else {
            return Ok(());
        };
        if range.end.saturating_sub(range.start) < 2 {
            return Ok(());
        }
        match user_in(self.function, range.start, range.end, handle) {
            Some(user) => {
                write_two(out, "\nWhere: #", number, " emits [", user.index(), "], ")?;
                write_number(out, "which is made from [", handle.index(), "].")
            }
            None => Ok(()),
        }
    }
}

/// The statements that a reason names, and those that name a value before its list ends.
fn named_by(
    alloc: Global,
    reason: Option<Reason>,
    earlier: Earlier,
    kept: &Option<Kept>,
) -> Result<Vec<usize>, AllocError> {
    let mut named = Vec::new(alloc);
    match reason {
        Some(Reason::Ended { emitted, .. } | Reason::Later { emitted }) => named.push(emitted)?,
        Some(Reason::Skipped { emitted, jump, .. }) => {
            named.push(emitted)?;
            named.push(jump)?;
        }
        Some(Reason::Never) | None => {}
    }
    match earlier {
        Earlier::Emits(number) | Earlier::Fills(number) => named.push(number)?,
        Earlier::FromStart | Earlier::Unflagged | Earlier::None => {}
    }
    if let Some(kept) = kept {
        for number in kept.named.as_slice() {
            named.push(*number)?;
        }
        if let Some(stored) = kept.stored {
            named.push(stored.number)?;
        }
    }
    Ok(named)
}
