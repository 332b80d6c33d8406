//! Literals by value.

ghost use Rattle.std.specs.Int.{w32, w64, cast_unsigned};
ghost use Rattle.std.specs.Prelude.{◌≡◌, option_map};
ghost use Rattle.serde_json.specs.Find.{as_bool, as_number, to_float};
ghost use Rattle.json_nodes.specs.Nodes.{data_of};
ghost use Rattle.json_values.specs.Form.{given};
ghost use Rattle.json_values.specs.ReadNumbers.{i32_of, i64_of, u32_of};
ghost use Rattle.json_values.specs.Reads.{ReadsMeaning};
ghost use Rattle.json_expressions.specs.Literals.{bit, bits_of, double_bits, literal_by_value, literal_held, scalar_of, single_bits};

use crate::expressions::Expressions;
use ir_leaves::{Scalar, ScalarKind};
use ir_module::Literal;
use json_values::{FromJson, Held, Holding, ReadError, read_holding};
use std::num::nearest_f64_to_f32_with_nan;

/// The scalars of literals.
#[derive(Clone, Copy)]
enum LiteralName {
    U32,
    I32,
    U64,
    I64,
    Bool,
    F32,
    F64,
    AbstractInt,
    AbstractFloat,
}

/// Their names.
const LITERAL_NAMES: [(&str, LiteralName); 9] = [
    ("U32", LiteralName::U32),
    ("I32", LiteralName::I32),
    ("U64", LiteralName::U64),
    ("I64", LiteralName::I64),
    ("Bool", LiteralName::Bool),
    ("F32", LiteralName::F32),
    ("F64", LiteralName::F64),
    ("AbstractInt", LiteralName::AbstractInt),
    ("AbstractFloat", LiteralName::AbstractFloat),
];

/// The scalar of this kind and width.
fn scalar(kind: ScalarKind, width: u8) -> Scalar
    ensures { result ≡ record { kind = kind; width = width } }
{
    Scalar { kind, width }
}

/// The scalar of a name.
fn scalar_of(name: LiteralName) -> Scalar
    ensures { result ≡ scalar_of name }
{
    match name {
        LiteralName::U32 => scalar(ScalarKind::Uint, 4),
        LiteralName::I32 => scalar(ScalarKind::Sint, 4),
        LiteralName::U64 => scalar(ScalarKind::Uint, 8),
        LiteralName::I64 => scalar(ScalarKind::Sint, 8),
        LiteralName::Bool => scalar(ScalarKind::Bool, 1),
        LiteralName::F32 => scalar(ScalarKind::Float, 4),
        LiteralName::F64 => scalar(ScalarKind::Float, 8),
        LiteralName::AbstractInt => scalar(ScalarKind::AbstractInt, 8),
        LiteralName::AbstractFloat => scalar(ScalarKind::AbstractFloat, 8),
    }
}

fn read_u32(held: Held) -> Result<u64, ReadError>
    ensures { ReadsMeaning (u32_of (data_of held.entry.value.now)) result }
{
    match u32::from_json(Expressions, held) {
        Ok(number) => Ok(u64::from(number)),
        Err(error) => Err(held.outside(error)),
    }
}

fn read_i32(held: Held) -> Result<u64, ReadError>
    ensures { ReadsMeaning (option_map (cast_unsigned w32) (i32_of (data_of held.entry.value.now))) result }
{
    match i32::from_json(Expressions, held) {
        Ok(number) => Ok(u64::from(number.cast_unsigned())),
        Err(error) => Err(held.outside(error)),
    }
}

fn read_i64(held: Held) -> Result<u64, ReadError>
    ensures { ReadsMeaning (option_map (cast_unsigned w64) (i64_of (data_of held.entry.value.now))) result }
{
    match held.value.as_i64() {
        Some(number) => Ok(number.cast_unsigned()),
        None => Err(held.outside(ReadError::expected(
            held.alloc,
            "an integer from -9223372036854775808 to 9223372036854775807",
        ))),
    }
}

fn read_bool(held: Held) -> Result<u64, ReadError>
    ensures { ReadsMeaning (option_map bit (as_bool (data_of held.entry.value.now))) result }
{
    match bool::from_json(Expressions, held) {
        Ok(truth) => Ok(if truth { 1 } else { 0 }),
        Err(error) => Err(held.outside(error)),
    }
}

/// The bits of the nearest float of 32 bits.
fn single_bits(number: f64) -> Option<u64>
    ensures { result ≡ single_bits number }
{
    let nearest = nearest_f64_to_f32_with_nan(number);
    if nearest.is_finite() {
        Some(u64::from(nearest.to_bits()))
    } else {
        None
    }
}

/// The bits of a float of 64 bits.
fn double_bits(number: f64) -> Option<u64>
    ensures { result ≡ double_bits number }
{
    if number.is_finite() {
        Some(number.to_bits())
    } else {
        None
    }
}

fn read_f32(held: Held) -> Result<u64, ReadError>
    ensures { ReadsMeaning (given (option_map to_float (as_number (data_of held.entry.value.now))) single_bits) result }
{
    if let Some(number) = held.value.as_f64() {
        if let Some(bits) = single_bits(number) {
            return Ok(bits);
        }
    }
    Err(held.outside(ReadError::expected(
        held.alloc,
        "a number in the range of a float of 32 bits",
    )))
}

fn read_f64(held: Held) -> Result<u64, ReadError>
    ensures { ReadsMeaning (given (option_map to_float (as_number (data_of held.entry.value.now))) double_bits) result }
{
    if let Some(number) = held.value.as_f64() {
        if let Some(bits) = double_bits(number) {
            return Ok(bits);
        }
    }
    Err(held.outside(ReadError::expected(held.alloc, "a number")))
}

/// The bits of a value.
fn read_bits(name: LiteralName, held: Held) -> Result<u64, ReadError>
    ensures { ReadsMeaning (bits_of name (data_of held.entry.value.now)) result }
{
    match name {
        LiteralName::U32 => read_u32(held),
        LiteralName::I32 => read_i32(held),
        LiteralName::U64 => held.read(Expressions),
        LiteralName::I64 => read_i64(held),
        LiteralName::Bool => read_bool(held),
        LiteralName::F32 => read_f32(held),
        LiteralName::F64 => read_f64(held),
        LiteralName::AbstractInt => read_i64(held),
        LiteralName::AbstractFloat => read_f64(held),
    }
}

impl Holding<LiteralName, Expressions> for Literal {
    ghost held_of = { literal_held };

    fn read_held(name: LiteralName, _: Expressions, held: Held) -> Result<Self, ReadError> {
        match read_bits(name, held) {
            Ok(bits) => Ok(Literal {
                scalar: scalar_of(name),
                bits,
            }),
            Err(error) => Err(error),
        }
    }
}

/// A literal by its scalar's name and its value.
pub(crate) fn read_literal_by_value(held: Held) -> Result<Literal, ReadError>
    ensures { ReadsMeaning (literal_by_value (data_of held.entry.value.now)) result }
{
    read_holding(Expressions, held, &LITERAL_NAMES)
}
