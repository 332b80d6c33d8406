//! Statements that hold others, and blocks.

ghost use Rattle.json_nodes.specs.Nodes.{data_of};
ghost use Rattle.std.specs.Prelude.{◌≡◌};
ghost use Rattle.json_values.specs.Form.{field_of, list_of};
ghost use Rattle.json_values.specs.Reads.{ReadsMeaning};
ghost use Rattle.json_values.specs.ReadsFields.{ReadsTwo};
ghost use Rattle.json_values.specs.Variants.{holding};
ghost use Rattle.json_statements.specs.Statements.{span_of, bare_from, statement_from, block_of, block_at, located_with, long_with, statement_with, if_with, loop_with, switch_with, case_with};

use crate::leaves::{LeafName, read_leaf};
use ir_arena::{Sequence, Span};
use ir_statements::{Block, Located, Statement, SwitchCase};
use json_nodes::{Node, Step};
use json_values::{FromJson, Held, ReadError, Variant, elements, fitted, has_field, read_variant};
use std::alloc::Global;

/// How deep blocks may nest at most. The brackets of a document nest no deeper.
pub(crate) const MOST_LEVELS: usize = 127;

/// Who reads statements, and what they hold.
#[derive(Clone, Copy)]
pub struct Statements;

/// Two numbers.
impl FromJson<Statements> for Span {
    ghost stands_for = { span_of };

    fn from_json(_: Statements, held: Held) -> Result<Self, ReadError> {
        match FromJson::from_json(Statements, held) {
            Ok((start, end)) => Ok(Span { start, end }),
            Err(error) => Err(error),
        }
    }
}

/// The statements that hold nothing.
#[derive(Clone, Copy)]
enum BareStatementName {
    Break,
    Continue,
    Kill,
}

/// Their names.
const BARE_STATEMENTS: [(&str, BareStatementName); 3] = [
    ("Break", BareStatementName::Break),
    ("Continue", BareStatementName::Continue),
    ("Kill", BareStatementName::Kill),
];

/// The statements that hold something.
#[derive(Clone, Copy)]
enum StatementName {
    Block,
    If,
    Switch,
    Loop,
    Leaf(LeafName),
}

/// Their names.
const STATEMENTS: [(&str, StatementName); 20] = [
    ("Block", StatementName::Block),
    ("If", StatementName::If),
    ("Switch", StatementName::Switch),
    ("Loop", StatementName::Loop),
    ("Emit", StatementName::Leaf(LeafName::Emit)),
    ("Return", StatementName::Leaf(LeafName::Return)),
    (
        "ControlBarrier",
        StatementName::Leaf(LeafName::ControlBarrier),
    ),
    (
        "MemoryBarrier",
        StatementName::Leaf(LeafName::MemoryBarrier),
    ),
    ("Store", StatementName::Leaf(LeafName::Store)),
    ("ImageStore", StatementName::Leaf(LeafName::ImageStore)),
    ("Atomic", StatementName::Leaf(LeafName::Atomic)),
    ("ImageAtomic", StatementName::Leaf(LeafName::ImageAtomic)),
    (
        "WorkGroupUniformLoad",
        StatementName::Leaf(LeafName::WorkGroupUniformLoad),
    ),
    ("Call", StatementName::Leaf(LeafName::Call)),
    ("RayQuery", StatementName::Leaf(LeafName::RayQuery)),
    (
        "SubgroupBallot",
        StatementName::Leaf(LeafName::SubgroupBallot),
    ),
    (
        "SubgroupCollectiveOperation",
        StatementName::Leaf(LeafName::SubgroupCollectiveOperation),
    ),
    (
        "SubgroupGather",
        StatementName::Leaf(LeafName::SubgroupGather),
    ),
    (
        "CooperativeStore",
        StatementName::Leaf(LeafName::CooperativeStore),
    ),
    (
        "RayPipelineFunction",
        StatementName::Leaf(LeafName::RayPipelineFunction),
    ),
];

fn bare_statement(name: BareStatementName) -> Statement
    ensures { result ≡ bare_from name }
{
    match name {
        BareStatementName::Break => Statement::Break,
        BareStatementName::Continue => Statement::Continue,
        BareStatementName::Kill => Statement::Kill,
    }
}

/// The body of a function: a list of statements.
pub fn read_body(alloc: Global, value: &Node) -> Result<Block, ReadError>
    ensures { ReadsMeaning (block_of (data_of value.now)) result }
{
    read_block(alloc, MOST_LEVELS, value)
}

/// A list of statements, whose blocks nest at most so deep, itself included.
#[cycle(block)]
#[tactic(auto, using(crate::proofs::Blocks::no_level, crate::proofs::Blocks::block_refused, crate::proofs::Blocks::block_read))]
fn read_block(alloc: Global, levels: usize, value: &Node) -> Result<Block, ReadError>
    ensures { ReadsMeaning (block_at levels (data_of value.now)) result }
{
    if levels == 0 {
        return Err(ReadError::expected(alloc, "a block that nests less deep"));
    }
    match read_statements(alloc, levels - 1, value) {
        Ok(list) => Ok(Block { list }),
        Err(error) => Err(error),
    }
}

/// The statements of a block, whose blocks nest at most so deep.
#[cycle(block)]
fn read_statements(
    alloc: Global,
    levels: usize,
    value: &Node,
) -> Result<Sequence<Located>, ReadError>
    ensures { ReadsMeaning (list_of (located_with (block_at levels)) (data_of value.now)) result }
{
    let mut items = match elements(alloc, value) {
        Ok(items) => items,
        Err(error) => return Err(error),
    };
    let mut list = Sequence::new(alloc);
    while let Some(item) = items.next() {
        match read_located(alloc, levels, &item) {
            Ok(located) => list.push(located)?,
            Err(error) => return Err(error.within(Step::Index(list.len()))),
        }
    }
    Ok(fitted(list))
}

/// A statement with its span, or without one, which is 0..0.
#[cycle(block)]
fn read_located(alloc: Global, levels: usize, value: &Node) -> Result<Located, ReadError>
    ensures { ReadsMeaning (located_with (block_at levels) (data_of value.now)) result }
{
    if has_field(value, "span") {
        return read_long(alloc, levels, value);
    }
    match read_statement(alloc, levels, value) {
        Ok(statement) => Ok(Located {
            statement,
            span: Span::UNDEFINED,
        }),
        Err(error) => Err(error),
    }
}

/// A statement with its span.
#[cycle(block)]
fn read_long(alloc: Global, levels: usize, value: &Node) -> Result<Located, ReadError>
    ensures { ReadsMeaning (long_with (block_at levels) (data_of value.now)) result }
{
    let held = Held::new(alloc, value);
    if let Err(error) = held.fields(&["span", "statement"]) {
        return Err(error);
    }
    match held.get(Statements, "span") {
        Ok(span) => match held.member("statement") {
            Ok(inner) => match read_statement(alloc, levels, &inner) {
                Ok(statement) => Ok(Located { statement, span }),
                Err(error) => Err(held.in_field(error, "statement")),
            },
            Err(error) => Err(error),
        },
        Err(error) => Err(error),
    }
}

/// A block in a field.
#[cycle(block)]
fn block_in(levels: usize, held: Held, name: &'static str) -> Result<Block, ReadError>
    ensures { ReadsMeaning (field_of (block_at levels) name.now (data_of held.entry.value.now)) result }
{
    match held.member(name) {
        Ok(value) => match read_block(held.alloc, levels, &value) {
            Ok(block) => Ok(block),
            Err(error) => Err(held.in_field(error, name)),
        },
        Err(error) => Err(error),
    }
}

/// The blocks in two fields.
#[cycle(block)]
fn blocks_in(
    levels: usize,
    held: Held,
    first: &'static str,
    second: &'static str,
) -> Result<(Block, Block), ReadError>
    ensures { ReadsTwo (field_of (block_at levels) first.now (data_of held.entry.value.now))
        (field_of (block_at levels) second.now (data_of held.entry.value.now)) result }
{
    match block_in(levels, held, first) {
        Ok(one) => match block_in(levels, held, second) {
            Ok(other) => Ok((one, other)),
            Err(error) => Err(error),
        },
        Err(error) => Err(error),
    }
}

/// A statement, whatever it holds.
#[cycle(block)]
fn read_statement(alloc: Global, levels: usize, value: &Node) -> Result<Statement, ReadError>
    ensures { ReadsMeaning (statement_with (block_at levels) (data_of value.now)) result }
{
    match read_variant(alloc, value, &BARE_STATEMENTS, &STATEMENTS) {
        Ok(Variant::Plain(name)) => Ok(bare_statement(name)),
        Ok(Variant::Holding(found, name, inner)) => {
            let held = Held {
                alloc,
                value: &inner,
                variant: Some(name),
            };
            read_held_statement(levels, found, held)
        }
        Err(error) => Err(error),
    }
}

/// A statement that holds something.
#[cycle(block)]
fn read_held_statement(
    levels: usize,
    name: StatementName,
    held: Held,
) -> Result<Statement, ReadError>
    ensures { ReadsMeaning (statement_from (block_at levels) (holding name (data_of held.entry.value.now))) result }
{
    match name {
        StatementName::Block => match read_block(held.alloc, levels, held.value) {
            Ok(block) => Ok(Statement::Block(block)),
            Err(error) => Err(held.outside(error)),
        },
        StatementName::If => read_if(levels, held),
        StatementName::Switch => read_switch(levels, held),
        StatementName::Loop => read_loop(levels, held),
        StatementName::Leaf(kind) => read_leaf(kind, held),
    }
}

#[cycle(block)]
fn read_if(levels: usize, held: Held) -> Result<Statement, ReadError>
    ensures { ReadsMeaning (if_with (block_at levels) (data_of held.entry.value.now)) result }
{
    if let Err(error) = held.fields(&["condition", "accept", "reject"]) {
        return Err(error);
    }
    match held.get(Statements, "condition") {
        Ok(condition) => match blocks_in(levels, held, "accept", "reject") {
            Ok((accept, reject)) => Ok(Statement::If {
                condition,
                accept,
                reject,
            }),
            Err(error) => Err(error),
        },
        Err(error) => Err(error),
    }
}

#[cycle(block)]
fn read_loop(levels: usize, held: Held) -> Result<Statement, ReadError>
    ensures { ReadsMeaning (loop_with (block_at levels) (data_of held.entry.value.now)) result }
{
    if let Err(error) = held.fields(&["body", "continuing", "break_if"]) {
        return Err(error);
    }
    match blocks_in(levels, held, "body", "continuing") {
        Ok((body, continuing)) => match held.get(Statements, "break_if") {
            Ok(break_if) => Ok(Statement::Loop {
                body,
                continuing,
                break_if,
            }),
            Err(error) => Err(error),
        },
        Err(error) => Err(error),
    }
}

#[cycle(block)]
fn read_switch(levels: usize, held: Held) -> Result<Statement, ReadError>
    ensures { ReadsMeaning (switch_with (block_at levels) (data_of held.entry.value.now)) result }
{
    if let Err(error) = held.fields(&["selector", "cases"]) {
        return Err(error);
    }
    match held.get(Statements, "selector") {
        Ok(selector) => match held.member("cases") {
            Ok(value) => match read_cases(held.alloc, levels, &value) {
                Ok(cases) => Ok(Statement::Switch { selector, cases }),
                Err(error) => Err(held.in_field(error, "cases")),
            },
            Err(error) => Err(error),
        },
        Err(error) => Err(error),
    }
}

/// The cases of a switch.
#[cycle(block)]
fn read_cases(alloc: Global, levels: usize, value: &Node) -> Result<Sequence<SwitchCase>, ReadError>
    ensures { ReadsMeaning (list_of (case_with (block_at levels)) (data_of value.now)) result }
{
    let mut items = match elements(alloc, value) {
        Ok(items) => items,
        Err(error) => return Err(error),
    };
    let mut cases = Sequence::new(alloc);
    while let Some(item) = items.next() {
        match read_case(alloc, levels, &item) {
            Ok(case) => cases.push(case)?,
            Err(error) => return Err(error.within(Step::Index(cases.len()))),
        }
    }
    Ok(fitted(cases))
}

#[cycle(block)]
fn read_case(alloc: Global, levels: usize, value: &Node) -> Result<SwitchCase, ReadError>
    ensures { ReadsMeaning (case_with (block_at levels) (data_of value.now)) result }
{
    let held = Held::new(alloc, value);
    if let Err(error) = held.fields(&["value", "body", "fall_through"]) {
        return Err(error);
    }
    match held.get(Statements, "value") {
        Ok(value) => match block_in(levels, held, "body") {
            Ok(body) => match held.get(Statements, "fall_through") {
                Ok(fall_through) => Ok(SwitchCase {
                    value,
                    body,
                    fall_through,
                }),
                Err(error) => Err(error),
            },
            Err(error) => Err(error),
        },
        Err(error) => Err(error),
    }
}
