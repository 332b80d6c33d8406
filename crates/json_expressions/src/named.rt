//! The named form of each kind of expression that has operands.

ghost use Rattle.json_nodes.specs.Nodes.{data_of};
ghost use Rattle.json_values.specs.Reads.{ReadsMeaning};
ghost use Rattle.json_expressions.specs.Forms.{length_of, named_parts};

use crate::expressions::{Expressions, Parts, PartsName};
use crate::forms::{Field, NameTable, operand, read_form, with_piece};
use ir_statements::Operands;
use json_values::{Held, ReadError};

const SPLAT: [(&str, Field); 2] = [
    ("size", Field::Name(NameTable::VectorSize)),
    ("value", Field::Operand),
];

const SWIZZLE: [(&str, Field); 3] = [
    ("size", Field::Name(NameTable::SwizzleSize)),
    ("vector", Field::Operand),
    ("pattern", Field::Pattern),
];

const UNARY: [(&str, Field); 2] = [
    ("op", Field::Name(NameTable::UnaryOperator)),
    ("expr", Field::Operand),
];

const BINARY: [(&str, Field); 3] = [
    ("op", Field::Name(NameTable::BinaryOperator)),
    ("left", Field::Operand),
    ("right", Field::Operand),
];

const SELECT: [(&str, Field); 3] = [
    ("condition", Field::Operand),
    ("accept", Field::Operand),
    ("reject", Field::Operand),
];

const DERIVATIVE: [(&str, Field); 3] = [
    ("axis", Field::Name(NameTable::DerivativeAxis)),
    ("ctrl", Field::Name(NameTable::DerivativeControl)),
    ("expr", Field::Operand),
];

const RELATIONAL: [(&str, Field); 2] = [
    ("fun", Field::Name(NameTable::RelationalFunction)),
    ("argument", Field::Operand),
];

const MATH: [(&str, Field); 5] = [
    ("fun", Field::Name(NameTable::MathFunction)),
    ("arg", Field::Operand),
    ("arg1", Field::Maybe(0)),
    ("arg2", Field::Maybe(0)),
    ("arg3", Field::Maybe(0)),
];

const CAST: [(&str, Field); 3] = [
    ("expr", Field::Operand),
    ("kind", Field::Name(NameTable::ScalarKind)),
    ("convert", Field::Width),
];

const IMAGE_SAMPLE: [(&str, Field); 9] = [
    ("image", Field::Operand),
    ("sampler", Field::Operand),
    ("gather", Field::Gather),
    ("coordinate", Field::Operand),
    ("array_index", Field::Maybe(25)),
    ("offset", Field::Maybe(50)),
    ("level", Field::Level),
    ("depth_ref", Field::Maybe(100)),
    ("clamp_to_edge", Field::Flag(200)),
];

const IMAGE_LOAD: [(&str, Field); 5] = [
    ("image", Field::Operand),
    ("coordinate", Field::Operand),
    ("array_index", Field::Maybe(1)),
    ("sample", Field::Maybe(2)),
    ("level", Field::Maybe(4)),
];

const IMAGE_QUERY: [(&str, Field); 2] = [("image", Field::Operand), ("query", Field::Query)];

const RAY_QUERY: [(&str, Field); 2] = [("query", Field::Operand), ("committed", Field::Flag(1))];

const COOPERATIVE_LOAD: [(&str, Field); 4] = [
    ("columns", Field::Name(NameTable::CooperativeColumns)),
    ("rows", Field::Name(NameTable::CooperativeRows)),
    ("role", Field::Name(NameTable::CooperativeRole)),
    ("data", Field::Place),
];

const MULTIPLY_ADD: [(&str, Field); 3] = [
    ("a", Field::Operand),
    ("b", Field::Operand),
    ("c", Field::Operand),
];

/// An ArrayLength: its operand alone.
fn read_length(held: Held) -> Result<Parts, ReadError>
    ensures { ReadsMeaning (length_of (data_of held.entry.value.now)) result }
{
    match held.read(Expressions) {
        Ok(handle) => {
            let none = Parts {
                operands: Operands::new(held.alloc),
                detail: 0,
            };
            with_piece(none, operand(0, handle))
        }
        Err(error) => Err(error),
    }
}

/// What the form of a kind gives.
pub(crate) fn read_named_parts(kind: PartsName, held: Held) -> Result<Parts, ReadError>
    ensures { ReadsMeaning (named_parts kind (data_of held.entry.value.now)) result }
{
    match kind {
        PartsName::Splat => read_form(held, &SPLAT),
        PartsName::Swizzle => read_form(held, &SWIZZLE),
        PartsName::ImageSample => read_form(held, &IMAGE_SAMPLE),
        PartsName::ImageLoad => read_form(held, &IMAGE_LOAD),
        PartsName::ImageQuery => read_form(held, &IMAGE_QUERY),
        PartsName::Unary => read_form(held, &UNARY),
        PartsName::Binary => read_form(held, &BINARY),
        PartsName::Select => read_form(held, &SELECT),
        PartsName::Derivative => read_form(held, &DERIVATIVE),
        PartsName::Relational => read_form(held, &RELATIONAL),
        PartsName::Math => read_form(held, &MATH),
        PartsName::As => read_form(held, &CAST),
        PartsName::ArrayLength => read_length(held),
        PartsName::RayQueryGetIntersection => read_form(held, &RAY_QUERY),
        PartsName::RayQueryVertexPositions => read_form(held, &RAY_QUERY),
        PartsName::CooperativeLoad => read_form(held, &COOPERATIVE_LOAD),
        PartsName::CooperativeMultiplyAdd => read_form(held, &MULTIPLY_ADD),
    }
}
