//! The named forms of the expressions that have operands: what each field gives, and what all fields give.

ghost use Rattle.std.specs.Prelude.{◌≡◌, ◌≤◌, Some, OnOk, length, option_map};
ghost use Rattle.serde_json.specs.Find.{as_bool};
ghost use Rattle.json_nodes.specs.Fields.{has_no_other};
ghost use Rattle.json_nodes.specs.Nodes.{data_of, items_of};
ghost use Rattle.json_nodes.specs.Fields.{has_each};
ghost use Rattle.json_values.specs.Form.{named};
ghost use Rattle.json_values.specs.ReadNumbers.{u32_of};
ghost use Rattle.json_values.specs.Reads.{ReadsMeaning, rows_of};
ghost use Rattle.json_expressions.specs.FormNames.{names_of};
ghost use Rattle.json_expressions.specs.Forms.{count_if, counted, form_of, four_components, four_in, gather_of, level_held, level_of, maybe, maybe_of, names_in, no_parts, operand, parts_from, pattern_of, piece_of, place_of, query_of, two_components, width_from, width_of, with_field, with_operand, with_piece};

use crate::expressions::{Expressions, Parts};
use crate::form_names::read_form_name;
use ir_arena::{Handle, tag};
use ir_statements::Operands;
use json_nodes::{Items, Node};
use json_values::{
    Held, ReadError, Variant, byte, elements, expected_fields, has_field, read_name, read_variant,
    triple_in,
};
use std::alloc::{AllocError, Global};

/// The names that a field chooses from.
#[derive(Clone, Copy)]
pub(crate) enum NameTable {
    VectorSize,
    SwizzleSize,
    UnaryOperator,
    BinaryOperator,
    DerivativeAxis,
    DerivativeControl,
    RelationalFunction,
    MathFunction,
    ScalarKind,
    CooperativeColumns,
    CooperativeRows,
    CooperativeRole,
}

/// What stands in a field of a named form. Numbers are what it counts in `detail`.
#[derive(Clone, Copy)]
pub(crate) enum Field {
    /// An operand.
    Operand,
    /// An operand, which counts so much; or null.
    Maybe(u32),
    /// One of these names.
    Name(NameTable),
    /// True, which counts so much; or false.
    Flag(u32),
    /// The component that is gathered, or null.
    Gather,
    /// A width in bytes, or null.
    Width,
    /// The four components of a swizzle.
    Pattern,
    /// The level of a sample.
    Level,
    /// What is asked of an image.
    Query,
    /// Where a cooperative matrix lies.
    Place,
}

/// What a field gives: operands, and what it counts in `detail`.
#[derive(Clone, Copy)]
pub(crate) struct Piece {
    pub first: Option<Handle<tag::Expression>>,
    pub second: Option<Handle<tag::Expression>>,
    pub count: u32,
}

/// Nothing but a count.
fn counted(count: u32) -> Piece
    ensures { result ≡ counted count }
{
    Piece {
        first: None,
        second: None,
        count,
    }
}

/// An operand that counts so much.
pub(crate) fn operand(count: u32, handle: Handle<tag::Expression>) -> Piece
    ensures { result ≡ operand count handle }
{
    Piece {
        first: Some(handle),
        second: None,
        count,
    }
}

/// An operand that counts so much, where it is there.
fn maybe(count: u32, found: Option<Handle<tag::Expression>>) -> Piece
    ensures { result ≡ maybe count found }
{
    match found {
        Some(handle) => operand(count, handle),
        None => counted(0),
    }
}

/// What a flag counts.
fn count_if(count: u32, truth: bool) -> u32
    ensures { result ≡ count_if count truth }
{
    if truth { count } else { 0 }
}

/// An operand.
fn read_operand(held: Held, count: u32) -> Result<Piece, ReadError>
    ensures { ReadsMeaning (option_map (operand count) (u32_of (data_of held.entry.value.now))) result }
{
    match held.read(Expressions) {
        Ok(handle) => Ok(operand(count, handle)),
        Err(error) => Err(error),
    }
}

/// An operand, or null.
fn read_maybe(held: Held, count: u32) -> Result<Piece, ReadError>
    ensures { ReadsMeaning (maybe_of count (data_of held.entry.value.now)) result }
{
    match held.read(Expressions) {
        Ok(found) => Ok(maybe(count, found)),
        Err(error) => Err(error),
    }
}

/// True or false.
fn read_flag(held: Held, count: u32) -> Result<Piece, ReadError>
    ensures { ReadsMeaning (option_map (λ truth. counted (count_if count truth))
        (as_bool (data_of held.entry.value.now))) result }
{
    match held.read(Expressions) {
        Ok(truth) => Ok(counted(count_if(count, truth))),
        Err(error) => Err(error),
    }
}

const COMPONENTS: [(&str, u8); 4] = [("X", 0), ("Y", 1), ("Z", 2), ("W", 3)];

/// The component that is gathered, or null.
fn read_gather(held: Held) -> Result<Piece, ReadError>
    ensures { ReadsMeaning (gather_of (data_of held.entry.value.now)) result }
{
    if held.value.is_null() {
        return Ok(counted(0));
    }
    match read_name(held.alloc, held.value, &COMPONENTS) {
        Ok(component) => Ok(counted(u32::from(component) + 1)),
        Err(error) => Err(held.outside(error)),
    }
}

/// What a width counts, if it can be one.
fn width(bytes: Option<u8>) -> Option<Piece>
    ensures { result ≡ width_from bytes }
{
    match bytes {
        None => Some(counted(0)),
        Some(0) => None,
        Some(bytes) => Some(counted(u32::from(bytes))),
    }
}

/// What the width that a value is counts.
fn width_at(value: &Node) -> Option<Piece>
    ensures { result ≡ width_of (data_of value.now) }
{
    if value.is_null() {
        return width(None);
    }
    match byte(value) {
        Some(bytes) => width(Some(bytes)),
        None => None,
    }
}

/// A width in bytes, or null.
fn read_width(held: Held) -> Result<Piece, ReadError>
    ensures { ReadsMeaning (width_of (data_of held.entry.value.now)) result }
{
    match width_at(held.value) {
        Some(piece) => Ok(piece),
        None => Err(held.outside(ReadError::expected(
            held.alloc,
            "an integer from 1 to 255, or null",
        ))),
    }
}

/// The items, if there are four.
fn four_in<'v>(mut items: Items<'v>) -> Option<(Node<'v>, Node<'v>, Node<'v>, Node<'v>)>
    ensures { option_map (λ q. (data_of q.0, data_of q.1, data_of q.2, data_of q.3)) result ≡ four_in (items_of items.entry) }
{
    let first = items.next()?;
    match triple_in(items) {
        Some((second, third, fourth)) => Some((first, second, third, fourth)),
        None => None,
    }
}

/// Two components, of which the second counts four times as much as the first.
fn read_two_components(alloc: Global, first: &Node, second: &Node) -> Result<u16, ReadError>
    ensures { ReadsMeaning (two_components (data_of first.now) (data_of second.now)) result }
{
    match read_name(alloc, first, &COMPONENTS) {
        Ok(a) => match read_name(alloc, second, &COMPONENTS) {
            Ok(b) => Ok(u16::from(a) + 4 * u16::from(b)),
            Err(error) => Err(error),
        },
        Err(error) => Err(error),
    }
}

/// Four components, each of which counts four times as much as the one before it.
fn read_four_components(alloc: Global, four: &(Node, Node, Node, Node)) -> Result<u32, ReadError>
    ensures { ReadsMeaning
        (four_components (data_of four.now.0, data_of four.now.1, data_of four.now.2, data_of four.now.3)) result }
{
    match read_two_components(alloc, &four.0, &four.1) {
        Ok(low) => match read_two_components(alloc, &four.2, &four.3) {
            Ok(high) => Ok(u32::from(low) + 16 * u32::from(high)),
            Err(error) => Err(error),
        },
        Err(error) => Err(error),
    }
}

/// The pattern of a swizzle: four components.
fn read_pattern(held: Held) -> Result<Piece, ReadError>
    ensures { ReadsMeaning (pattern_of (data_of held.entry.value.now)) result }
{
    let items = match elements(held.alloc, held.value) {
        Ok(items) => items,
        Err(error) => return Err(error),
    };
    match four_in(items) {
        Some(four) => match read_four_components(held.alloc, &four) {
            Ok(count) => Ok(counted(count)),
            Err(error) => Err(error),
        },
        None => Err(ReadError::expected(held.alloc, "a list of four")),
    }
}

/// The levels that have no operand.
const LEVELS: [(&str, u32); 2] = [("Auto", 0), ("Zero", 5)];

/// The levels that have operands.
#[derive(Clone, Copy)]
enum LevelName {
    Exact,
    Bias,
    Gradient,
}

/// Their names.
const LEVEL_NAMES: [(&str, LevelName); 3] = [
    ("Exact", LevelName::Exact),
    ("Bias", LevelName::Bias),
    ("Gradient", LevelName::Gradient),
];

fn read_held_level(name: LevelName, held: Held) -> Result<Piece, ReadError>
    ensures { ReadsMeaning (level_held name (data_of held.entry.value.now)) result }
{
    match name {
        LevelName::Exact => read_operand(held, 10),
        LevelName::Bias => read_operand(held, 15),
        LevelName::Gradient => match held.two(Expressions, &("x", "y")) {
            Ok((x, y)) => Ok(Piece {
                first: Some(x),
                second: Some(y),
                count: 20,
            }),
            Err(error) => Err(error),
        },
    }
}

/// The level of a sample.
fn read_level(held: Held) -> Result<Piece, ReadError>
    ensures { ReadsMeaning (level_of (data_of held.entry.value.now)) result }
{
    match read_variant(held.alloc, held.value, &LEVELS, &LEVEL_NAMES) {
        Ok(Variant::Plain(count)) => Ok(counted(count)),
        Ok(Variant::Holding(found, name, inner)) => {
            let within = Held {
                alloc: held.alloc,
                value: &inner,
                variant: Some(name),
            };
            read_held_level(found, within)
        }
        Err(error) => Err(error),
    }
}

/// What is asked of an image beside its size.
const QUERIES: [(&str, u32); 3] = [("NumLevels", 1), ("NumLayers", 2), ("NumSamples", 3)];

/// Its size.
const SIZES_ASKED: [(&str, ()); 1] = [("Size", ())];

/// What is asked of an image.
fn read_query(held: Held) -> Result<Piece, ReadError>
    ensures { ReadsMeaning (query_of (data_of held.entry.value.now)) result }
{
    match read_variant(held.alloc, held.value, &QUERIES, &SIZES_ASKED) {
        Ok(Variant::Plain(count)) => Ok(counted(count)),
        Ok(Variant::Holding(_, name, inner)) => {
            let within = Held {
                alloc: held.alloc,
                value: &inner,
                variant: Some(name),
            };
            match within.one(Expressions, "level") {
                Ok(level) => Ok(maybe(0, level)),
                Err(error) => Err(error),
            }
        }
        Err(error) => Err(error),
    }
}

/// Where a cooperative matrix lies.
fn read_place(held: Held) -> Result<Piece, ReadError>
    ensures { ReadsMeaning (place_of (data_of held.entry.value.now)) result }
{
    match held.three(Expressions, &("pointer", "stride", "row_major")) {
        Ok((pointer, stride, by_rows)) => Ok(Piece {
            first: Some(pointer),
            second: Some(stride),
            count: count_if(1, by_rows),
        }),
        Err(error) => Err(error),
    }
}

/// One of the names of a table.
fn read_named(held: Held, table: NameTable) -> Result<Piece, ReadError>
    ensures { ReadsMeaning (option_map counted (named (names_of table) (data_of held.entry.value.now))) result }
{
    match read_form_name(held.alloc, held.value, table) {
        Ok(count) => Ok(counted(count)),
        Err(error) => Err(error),
    }
}

/// What a field gives, by its value.
fn read_piece(held: Held, field: Field) -> Result<Piece, ReadError>
    ensures { ReadsMeaning (piece_of field (data_of held.entry.value.now)) result }
{
    match field {
        Field::Operand => read_operand(held, 0),
        Field::Maybe(count) => read_maybe(held, count),
        Field::Name(table) => read_named(held, table),
        Field::Flag(count) => read_flag(held, count),
        Field::Gather => read_gather(held),
        Field::Width => read_width(held),
        Field::Pattern => read_pattern(held),
        Field::Level => read_level(held),
        Field::Query => read_query(held),
        Field::Place => read_place(held),
    }
}

/// Puts an operand last, where it is there.
fn push_operand(
    operands: &mut Operands,
    operand: Option<Handle<tag::Expression>>,
) -> Result<(), AllocError>
    ensures { OnOk result (operands.new ≡ with_operand operands.old operand) }
{
    match operand {
        Some(handle) => operands.push(handle),
        None => Ok(()),
    }
}

/// These parts, and what a field gives.
pub(crate) fn with_piece(parts: Parts, piece: Piece) -> Result<Parts, ReadError>
    ensures { ReadsMeaning (Some (with_piece parts piece)) result }
{
    let Parts {
        mut operands,
        detail,
    } = parts;
    push_operand(&mut operands, piece.first)?;
    push_operand(&mut operands, piece.second)?;
    Ok(Parts {
        operands,
        detail: detail.wrapping_add(piece.count),
    })
}

/// These parts, and what a field gives.
fn with_field(
    held: Held,
    parts: Parts,
    name: &'static str,
    field: Field,
) -> Result<Parts, ReadError>
    ensures { ReadsMeaning (with_field parts name.now field (data_of held.entry.value.now)) result }
{
    let value = match held.member(name) {
        Ok(value) => value,
        Err(error) => return Err(error),
    };
    let within = Held::new(held.alloc, &value);
    match read_piece(within, field) {
        Ok(piece) => with_piece(parts, piece),
        Err(error) => Err(held.in_field(error, name)),
    }
}

/// What these fields give, in their order.
#[tactic(auto, unfolding(crate::specs::Forms::parts_from))]
fn read_fields(held: Held, form: &[(&'static str, Field)]) -> Result<Parts, ReadError>
    ensures { ReadsMeaning (parts_from no_parts (rows_of form.now) (data_of held.entry.value.now)) result }
{
    let mut parts = Parts {
        operands: Operands::new(held.alloc),
        detail: 0,
    };
    for row in form {
        parts = match with_field(held, parts, row.0, row.1) {
            Ok(more) => more,
            Err(error) => return Err(error),
        };
    }
    Ok(parts)
}

/// The most fields that a form has.
pub(crate) const MOST_FIELDS: usize = 9;

/// Whether it is an object, each of whose fields is one of this form.
fn has_no_other(value: &Node, form: &[(&'static str, Field)]) -> bool
    requires { length form.now ≤ MOST_FIELDS }
    ensures { result ≡ has_no_other (names_in (rows_of form.now)) (data_of value.now) }
{
    let mut names = [""; MOST_FIELDS];
    for (index, row) in form.iter().enumerate() {
        names[index] = row.0;
    }
    value.has_no_other(&names[..form.len()])
}

/// Whether each field of this form is there.
fn has_each(value: &Node, form: &[(&'static str, Field)]) -> bool
    ensures { result ≡ has_each (names_in (rows_of form.now)) (data_of value.now) }
{
    for row in form {
        if !has_field(value, row.0) {
            return false;
        }
    }
    true
}

/// An object with exactly the fields of this form was expected.
fn no_form(held: Held, form: &[(&'static str, Field)]) -> ReadError {
    let mut names = Vec::new(held.alloc);
    for row in form {
        if names.push(row.0).is_err() {
            return ReadError::Memory;
        }
    }
    held.outside(expected_fields(held.alloc, held.value, names.as_slice()))
}

/// What the fields of an object with exactly these give. That one is missing is reported before what is wrong in another.
#[tactic(auto, using(crate::proofs::Names::missing), unfolding(crate::specs::Forms::form_of))]
pub(crate) fn read_form(held: Held, form: &[(&'static str, Field)]) -> Result<Parts, ReadError>
    requires { length form.now ≤ MOST_FIELDS }
    ensures { ReadsMeaning (form_of (rows_of form.now) (data_of held.entry.value.now)) result }
{
    if !has_no_other(held.value, form) {
        return Err(no_form(held, form));
    }
    match read_fields(held, form) {
        Ok(parts) => Ok(parts),
        Err(error) => {
            if !has_each(held.value, form) {
                return Err(no_form(held, form));
            }
            Err(error)
        }
    }
}
