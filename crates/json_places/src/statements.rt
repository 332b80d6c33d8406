//! The statements of a body as a list, in the order in which they are visited.

use naga_below::{Block, Handle, Located, RayQueryFunction, Statement, SwitchCase, tag};
use std::alloc::{AllocError, Global};

/// A part of a statement: one of its lists of statements, or the break condition of a Loop. Cases count from 0.
#[derive(Clone, Copy, PartialEq)]
pub enum StatementPart {
    Block,
    Accept,
    Reject,
    Case(usize),
    Body,
    Continuing,
    BreakIf,
}

/// A part of the statement with this number.
#[derive(Clone, Copy, PartialEq)]
pub struct Inside {
    pub number: usize,
    pub part: StatementPart,
}

/// A statement of a body. Its number is its place in the list that [`statements_of`] makes.
#[derive(Clone, Copy)]
pub struct ListedStatement<'a> {
    pub located: &'a Located,
    /// The part whose list it stands in. None in the list of the body itself.
    pub inside: Option<Inside>,
    /// Its place in that list, counted from 0.
    pub index: usize,
    /// How many statements hold it.
    pub depth: usize,
}

/// Where in a body something is used: at a statement, or at the break condition of a Loop.
#[derive(Clone, Copy, PartialEq)]
pub enum ListedPosition {
    Statement(usize),
    BreakIf(usize),
}

impl ListedPosition {
    /// The number of the statement.
    pub fn number(self) -> usize {
        match self {
            ListedPosition::Statement(number) | ListedPosition::BreakIf(number) => number,
        }
    }
}

/// The statements of a body in the order of visits: each before those that it holds. An Err is out of memory.
pub fn statements_of<'a>(
    alloc: Global,
    body: &'a Block,
) -> Result<Vec<ListedStatement<'a>>, AllocError> {
    let mut listed = Vec::new(alloc);
    add_block(&mut listed, None, 0, body)?;
    Ok(listed)
}

/// Adds the statements of a list, which so many statements hold.
#[cycle(listed)]
fn add_block<'a>(
    listed: &mut Vec<ListedStatement<'a>>,
    inside: Option<Inside>,
    depth: usize,
    block: &'a Block,
) -> Result<(), AllocError> {
    for (index, located) in block.list.as_slice().iter().enumerate() {
        let number = listed.len();
        listed.push(ListedStatement {
            located,
            inside,
            index,
            depth,
        })?;
        add_parts(listed, number, depth.saturating_add(1), located)?;
    }
    Ok(())
}

/// Adds the statements that the statement with this number holds.
#[cycle(listed)]
fn add_parts<'a>(
    listed: &mut Vec<ListedStatement<'a>>,
    number: usize,
    depth: usize,
    located: &'a Located,
) -> Result<(), AllocError> {
    match &located.statement {
        Statement::Block(block) => add_block(
            listed,
            list_of(number, StatementPart::Block),
            depth,
            block,
        ),
        Statement::If { accept, reject, .. } => {
            add_block(
                listed,
                list_of(number, StatementPart::Accept),
                depth,
                accept,
            )?;
            add_block(
                listed,
                list_of(number, StatementPart::Reject),
                depth,
                reject,
            )
        }
        Statement::Switch { cases, .. } => add_cases(listed, number, depth, cases.as_slice()),
        Statement::Loop {
            body,
            continuing,
            ..
        } => {
            add_block(listed, list_of(number, StatementPart::Body), depth, body)?;
            add_block(
                listed,
                list_of(number, StatementPart::Continuing),
                depth,
                continuing,
            )
        }
        Statement::Emit(_)
        | Statement::Break
        | Statement::Continue
        | Statement::Return { .. }
        | Statement::Kill
        | Statement::ControlBarrier(_)
        | Statement::MemoryBarrier(_)
        | Statement::Store { .. }
        | Statement::ImageStore { .. }
        | Statement::Atomic { .. }
        | Statement::ImageAtomic { .. }
        | Statement::WorkGroupUniformLoad { .. }
        | Statement::Call { .. }
        | Statement::RayQuery { .. }
        | Statement::SubgroupBallot { .. }
        | Statement::SubgroupCollectiveOperation { .. }
        | Statement::SubgroupGather { .. }
        | Statement::CooperativeStore { .. }
        | Statement::RayPipelineFunction(_) => Ok(()),
    }
}

/// Adds the statements of cases.
#[cycle(listed)]
fn add_cases<'a>(
    listed: &mut Vec<ListedStatement<'a>>,
    number: usize,
    depth: usize,
    cases: &'a [SwitchCase],
) -> Result<(), AllocError> {
    for (index, case) in cases.iter().enumerate() {
        add_block(
            listed,
            list_of(number, StatementPart::Case(index)),
            depth,
            &case.body,
        )?;
    }
    Ok(())
}

/// The list of a statement.
fn list_of(number: usize, part: StatementPart) -> Option<Inside> {
    Some(Inside { number, part })
}

/// The parts that hold a statement, the outermost first. An Err is out of memory.
pub(crate) fn parts_around(
    alloc: Global,
    listed: &[ListedStatement<'_>],
    number: usize,
) -> Result<Vec<Inside>, AllocError> {
    let mut around = Vec::new(alloc);
    let mut at = number;
    for _ in 0..listed.len() {
        let Some(inside) = inside_of(listed, at) else {
            break;
        };
        around.push(inside)?;
        at = inside.number;
    }
    around.reverse();
    Ok(around)
}

/// The parts that hold a position, the outermost first. An Err is out of memory.
pub fn way_to(
    alloc: Global,
    listed: &[ListedStatement<'_>],
    position: ListedPosition,
) -> Result<Vec<Inside>, AllocError> {
    let mut way = parts_around(alloc, listed, position.number())?;
    if let ListedPosition::BreakIf(number) = position {
        way.push(Inside {
            number,
            part: StatementPart::BreakIf,
        })?;
    }
    Ok(way)
}

/// The part whose list a statement stands in.
fn inside_of(listed: &[ListedStatement<'_>], number: usize) -> Option<Inside> {
    match listed.get(number) {
        Some(node) => node.inside,
        None => None,
    }
}

/// The part of a Loop that a statement stands in, at any depth within it: that of the innermost Loop.
pub(crate) fn loop_part(listed: &[ListedStatement<'_>], number: usize) -> Option<Inside> {
    let mut at = number;
    for _ in 0..listed.len() {
        match inside_of(listed, at) {
            Some(inside)
                if matches!(inside.part, StatementPart::Body | StatementPart::Continuing) => {
                return Some(inside);
            }
            Some(inside) => at = inside.number,
            None => return None,
        }
    }
    None
}

/// The result that a statement brings into scope, if it has one.
pub fn result_of(statement: &Statement) -> Option<Handle<tag::Expression>> {
    match statement {
        Statement::Atomic { result: answer, .. } | Statement::Call { result: answer, .. } => {
            *answer
        }
        Statement::WorkGroupUniformLoad { result: answer, .. }
        | Statement::SubgroupBallot { result: answer, .. }
        | Statement::SubgroupCollectiveOperation { result: answer, .. }
        | Statement::SubgroupGather { result: answer, .. } => Some(*answer),
        Statement::RayQuery { fun, .. } => query_result(fun),
        Statement::Emit(_)
        | Statement::Block(_)
        | Statement::If { .. }
        | Statement::Switch { .. }
        | Statement::Loop { .. }
        | Statement::Break
        | Statement::Continue
        | Statement::Return { .. }
        | Statement::Kill
        | Statement::ControlBarrier(_)
        | Statement::MemoryBarrier(_)
        | Statement::Store { .. }
        | Statement::ImageStore { .. }
        | Statement::ImageAtomic { .. }
        | Statement::CooperativeStore { .. }
        | Statement::RayPipelineFunction(_) => None,
    }
}

/// The result of an operation on a ray query, if it has one.
fn query_result(fun: &RayQueryFunction) -> Option<Handle<tag::Expression>> {
    match fun {
        RayQueryFunction::Proceed { result: answer } => Some(*answer),
        RayQueryFunction::Initialize { .. }
        | RayQueryFunction::GenerateIntersection { .. }
        | RayQueryFunction::ConfirmIntersection
        | RayQueryFunction::Terminate => None,
    }
}

/// Whether a statement brings an expression into scope.
pub(crate) fn emits(statement: &Statement, handle: Handle<tag::Expression>) -> bool {
    match statement {
        Statement::Emit(range) => {
            let index = handle.index();
            range.start as usize <= index && index < range.end as usize
        }
        _ => result_of(statement) == Some(handle),
    }
}
