//! Expressions.

ghost use Rattle.std.specs.Prelude.{◌≡◌};
ghost use Rattle.json_nodes.specs.Nodes.{data_of};
ghost use Rattle.json_values.specs.Reads.{ReadsMeaning};
ghost use Rattle.json_values.specs.Variants.{holding};
ghost use Rattle.json_expressions.specs.Expressions.{access_index_of, access_of, any_literal_of, any_parts_of, atomic_result_of, compose_of, expression_from, expression_of, literal_of, load_of, parts_of, subgroup_operation_result_of, with_index, with_parts, work_group_uniform_load_result_of};

use crate::literals::read_literal_by_value;
use crate::named::read_named_parts;
use ir_arena::Handle;
use ir_module::{Expression, Literal};
use ir_statements::Operands;
use json_nodes::Node;
use json_values::{FromJson, Held, ReadError, Variant, has_field, read_variant};
use std::alloc::Global;

/// Who reads expressions, and what they hold.
#[derive(Clone, Copy)]
pub struct Expressions;

/// A literal by its bits.
fn read_literal_by_bits(held: Held) -> Result<Literal, ReadError>
    ensures { ReadsMeaning (literal_of (data_of held.entry.value.now)) result }
{
    match held.two(Expressions, &("scalar", "bits")) {
        Ok((scalar, bits)) => Ok(Literal { scalar, bits }),
        Err(error) => Err(error),
    }
}

impl FromJson<Expressions> for Literal {
    ghost stands_for = { any_literal_of };

    fn from_json(_: Expressions, held: Held) -> Result<Self, ReadError> {
        if has_field(held.value, "scalar") {
            read_literal_by_bits(held)
        } else {
            read_literal_by_value(held)
        }
    }
}

/// The expressions that an expression is made from, and a number for the rest.
#[derive(Drop)]
pub struct Parts {
    pub operands: Operands,
    pub detail: u32,
}

impl FromJson<Expressions> for Parts {
    ghost stands_for = { parts_of };

    fn from_json(_: Expressions, held: Held) -> Result<Self, ReadError> {
        match held.two(Expressions, &("operands", "detail")) {
            Ok((operands, detail)) => Ok(Parts { operands, detail }),
            Err(error) => Err(error),
        }
    }
}

/// The kinds of expressions that are said by their parts.
#[derive(Clone, Copy)]
pub(crate) enum PartsName {
    Splat,
    Swizzle,
    ImageSample,
    ImageLoad,
    ImageQuery,
    Unary,
    Binary,
    Select,
    Derivative,
    Relational,
    Math,
    As,
    ArrayLength,
    RayQueryGetIntersection,
    RayQueryVertexPositions,
    CooperativeLoad,
    CooperativeMultiplyAdd,
}

fn with_parts(kind: PartsName, parts: Parts) -> Expression
    ensures { result ≡ with_parts kind parts }
{
    let Parts { operands, detail } = parts;
    match kind {
        PartsName::Splat => Expression::Splat { operands, detail },
        PartsName::Swizzle => Expression::Swizzle { operands, detail },
        PartsName::ImageSample => Expression::ImageSample { operands, detail },
        PartsName::ImageLoad => Expression::ImageLoad { operands, detail },
        PartsName::ImageQuery => Expression::ImageQuery { operands, detail },
        PartsName::Unary => Expression::Unary { operands, detail },
        PartsName::Binary => Expression::Binary { operands, detail },
        PartsName::Select => Expression::Select { operands, detail },
        PartsName::Derivative => Expression::Derivative { operands, detail },
        PartsName::Relational => Expression::Relational { operands, detail },
        PartsName::Math => Expression::Math { operands, detail },
        PartsName::As => Expression::As { operands, detail },
        PartsName::ArrayLength => Expression::ArrayLength { operands, detail },
        PartsName::RayQueryGetIntersection => Expression::RayQueryGetIntersection {
            operands,
            detail,
        },
        PartsName::RayQueryVertexPositions => Expression::RayQueryVertexPositions {
            operands,
            detail,
        },
        PartsName::CooperativeLoad => Expression::CooperativeLoad { operands, detail },
        PartsName::CooperativeMultiplyAdd => Expression::CooperativeMultiplyAdd {
            operands,
            detail,
        },
    }
}

/// The parts of an expression of a kind, as they are or by its named form.
fn read_parts(kind: PartsName, held: Held) -> Result<Parts, ReadError>
    ensures { ReadsMeaning (any_parts_of kind (data_of held.entry.value.now)) result }
{
    if has_field(held.value, "operands") {
        held.read(Expressions)
    } else {
        read_named_parts(kind, held)
    }
}

/// The kinds of expressions that hold a number alone, mostly the index of a handle.
#[derive(Clone, Copy)]
enum IndexName {
    Constant,
    Override,
    ZeroValue,
    FunctionArgument,
    GlobalVariable,
    LocalVariable,
    CallResult,
}

fn with_index(kind: IndexName, index: u32) -> Expression
    ensures { result ≡ with_index kind index }
{
    match kind {
        IndexName::Constant => Expression::Constant(Handle::new(index)),
        IndexName::Override => Expression::Override(Handle::new(index)),
        IndexName::ZeroValue => Expression::ZeroValue(Handle::new(index)),
        IndexName::FunctionArgument => Expression::FunctionArgument(index),
        IndexName::GlobalVariable => Expression::GlobalVariable(Handle::new(index)),
        IndexName::LocalVariable => Expression::LocalVariable(Handle::new(index)),
        IndexName::CallResult => Expression::CallResult(Handle::new(index)),
    }
}

/// The expressions that hold nothing.
#[derive(Clone, Copy)]
enum BareExpressionName {
    RayQueryProceedResult,
    SubgroupBallotResult,
}

/// Their names.
const BARE_EXPRESSIONS: [(&str, BareExpressionName); 2] = [
    (
        "RayQueryProceedResult",
        BareExpressionName::RayQueryProceedResult,
    ),
    (
        "SubgroupBallotResult",
        BareExpressionName::SubgroupBallotResult,
    ),
];

/// The expressions that hold something.
#[derive(Clone, Copy)]
enum ExpressionName {
    Parts(PartsName),
    Index(IndexName),
    Literal,
    Compose,
    Access,
    AccessIndex,
    Load,
    AtomicResult,
    WorkGroupUniformLoadResult,
    SubgroupOperationResult,
}

/// Their names.
const EXPRESSIONS: [(&str, ExpressionName); 32] = [
    ("Literal", ExpressionName::Literal),
    ("Constant", ExpressionName::Index(IndexName::Constant)),
    ("Override", ExpressionName::Index(IndexName::Override)),
    ("ZeroValue", ExpressionName::Index(IndexName::ZeroValue)),
    ("Compose", ExpressionName::Compose),
    ("Access", ExpressionName::Access),
    ("AccessIndex", ExpressionName::AccessIndex),
    (
        "FunctionArgument",
        ExpressionName::Index(IndexName::FunctionArgument),
    ),
    (
        "GlobalVariable",
        ExpressionName::Index(IndexName::GlobalVariable),
    ),
    (
        "LocalVariable",
        ExpressionName::Index(IndexName::LocalVariable),
    ),
    ("Load", ExpressionName::Load),
    ("CallResult", ExpressionName::Index(IndexName::CallResult)),
    ("AtomicResult", ExpressionName::AtomicResult),
    (
        "WorkGroupUniformLoadResult",
        ExpressionName::WorkGroupUniformLoadResult,
    ),
    (
        "SubgroupOperationResult",
        ExpressionName::SubgroupOperationResult,
    ),
    ("Splat", ExpressionName::Parts(PartsName::Splat)),
    ("Swizzle", ExpressionName::Parts(PartsName::Swizzle)),
    ("ImageSample", ExpressionName::Parts(PartsName::ImageSample)),
    ("ImageLoad", ExpressionName::Parts(PartsName::ImageLoad)),
    ("ImageQuery", ExpressionName::Parts(PartsName::ImageQuery)),
    ("Unary", ExpressionName::Parts(PartsName::Unary)),
    ("Binary", ExpressionName::Parts(PartsName::Binary)),
    ("Select", ExpressionName::Parts(PartsName::Select)),
    ("Derivative", ExpressionName::Parts(PartsName::Derivative)),
    ("Relational", ExpressionName::Parts(PartsName::Relational)),
    ("Math", ExpressionName::Parts(PartsName::Math)),
    ("As", ExpressionName::Parts(PartsName::As)),
    ("ArrayLength", ExpressionName::Parts(PartsName::ArrayLength)),
    (
        "RayQueryGetIntersection",
        ExpressionName::Parts(PartsName::RayQueryGetIntersection),
    ),
    (
        "RayQueryVertexPositions",
        ExpressionName::Parts(PartsName::RayQueryVertexPositions),
    ),
    (
        "CooperativeLoad",
        ExpressionName::Parts(PartsName::CooperativeLoad),
    ),
    (
        "CooperativeMultiplyAdd",
        ExpressionName::Parts(PartsName::CooperativeMultiplyAdd),
    ),
];

fn read_compose(held: Held) -> Result<Expression, ReadError>
    ensures { ReadsMeaning (compose_of (data_of held.entry.value.now)) result }
{
    match held.two(Expressions, &("ty", "components")) {
        Ok((ty, components)) => Ok(Expression::Compose { ty, components }),
        Err(error) => Err(error),
    }
}

fn read_access(held: Held) -> Result<Expression, ReadError>
    ensures { ReadsMeaning (access_of (data_of held.entry.value.now)) result }
{
    match held.two(Expressions, &("base", "index")) {
        Ok((base, index)) => Ok(Expression::Access { base, index }),
        Err(error) => Err(error),
    }
}

fn read_access_index(held: Held) -> Result<Expression, ReadError>
    ensures { ReadsMeaning (access_index_of (data_of held.entry.value.now)) result }
{
    match held.two(Expressions, &("base", "index")) {
        Ok((base, index)) => Ok(Expression::AccessIndex { base, index }),
        Err(error) => Err(error),
    }
}

fn read_load(held: Held) -> Result<Expression, ReadError>
    ensures { ReadsMeaning (load_of (data_of held.entry.value.now)) result }
{
    match held.one(Expressions, "pointer") {
        Ok(pointer) => Ok(Expression::Load { pointer }),
        Err(error) => Err(error),
    }
}

fn read_atomic_result(held: Held) -> Result<Expression, ReadError>
    ensures { ReadsMeaning (atomic_result_of (data_of held.entry.value.now)) result }
{
    match held.two(Expressions, &("ty", "comparison")) {
        Ok((ty, comparison)) => Ok(Expression::AtomicResult { ty, comparison }),
        Err(error) => Err(error),
    }
}

fn read_work_group_uniform_load_result(held: Held) -> Result<Expression, ReadError>
    ensures { ReadsMeaning (work_group_uniform_load_result_of (data_of held.entry.value.now)) result }
{
    match held.one(Expressions, "ty") {
        Ok(ty) => Ok(Expression::WorkGroupUniformLoadResult { ty }),
        Err(error) => Err(error),
    }
}

fn read_subgroup_operation_result(held: Held) -> Result<Expression, ReadError>
    ensures { ReadsMeaning (subgroup_operation_result_of (data_of held.entry.value.now)) result }
{
    match held.one(Expressions, "ty") {
        Ok(ty) => Ok(Expression::SubgroupOperationResult { ty }),
        Err(error) => Err(error),
    }
}

fn read_held_expression(name: ExpressionName, held: Held) -> Result<Expression, ReadError>
    ensures { ReadsMeaning (expression_from (holding name (data_of held.entry.value.now))) result }
{
    match name {
        ExpressionName::Parts(kind) => match read_parts(kind, held) {
            Ok(parts) => Ok(with_parts(kind, parts)),
            Err(error) => Err(error),
        },
        ExpressionName::Index(kind) => match held.read(Expressions) {
            Ok(index) => Ok(with_index(kind, index)),
            Err(error) => Err(error),
        },
        ExpressionName::Literal => match held.read(Expressions) {
            Ok(literal) => Ok(Expression::Literal(literal)),
            Err(error) => Err(error),
        },
        ExpressionName::Compose => read_compose(held),
        ExpressionName::Access => read_access(held),
        ExpressionName::AccessIndex => read_access_index(held),
        ExpressionName::Load => read_load(held),
        ExpressionName::AtomicResult => read_atomic_result(held),
        ExpressionName::WorkGroupUniformLoadResult => read_work_group_uniform_load_result(held),
        ExpressionName::SubgroupOperationResult => read_subgroup_operation_result(held),
    }
}

/// An expression, by its name and what it holds.
pub fn read_expression(alloc: Global, value: &Node) -> Result<Expression, ReadError>
    ensures { ReadsMeaning (expression_of (data_of value.now)) result }
{
    match read_variant(alloc, value, &BARE_EXPRESSIONS, &EXPRESSIONS) {
        Ok(Variant::Plain(BareExpressionName::RayQueryProceedResult)) => Ok(
            Expression::RayQueryProceedResult,
        ),
        Ok(Variant::Plain(BareExpressionName::SubgroupBallotResult)) => Ok(
            Expression::SubgroupBallotResult,
        ),
        Ok(Variant::Holding(found, name, inner)) => {
            let held = Held {
                alloc,
                value: &inner,
                variant: Some(name),
            };
            read_held_expression(found, held)
        }
        Err(error) => Err(error),
    }
}
