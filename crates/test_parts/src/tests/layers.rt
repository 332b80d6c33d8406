//! The lower layers by themselves: the plain one, asked by code that knows the laws alone; and recorded facts, where no document
//! asks for them.

use crate::tests::{made, put};
use ir_arena::{Arena, Handle, Span};
use ir_facts::{Below, ExpressionKindTracker};
use ir_leaves::{Scalar, VectorSize};
use ir_module::module::drop_module;
use ir_module::{Expression, Function, Literal, Module};
use ir_statements::Operands;
use ir_types::{ArraySize, Type, TypeInner, UniqueArena};
use naga_layers::Plain;
use std::num::NonZeroU32;
use std::process::Abort;

mod plain;
mod recorded;

/// Where things are.
const HERE: Span = Span { start: 3, end: 7 };

const LITERAL: Expression = Expression::Literal(Literal {
    scalar: Scalar::U32,
    bits: 7,
});

/// These operands.
fn operands(rt: &(impl Abort + AllocGlobal), handles: &[u32]) -> Operands {
    let mut operands = Operands::new(rt.alloc());
    for &handle in handles {
        made(rt, operands.push(Handle::new(handle)));
    }
    operands
}

/// A Unary of these operands.
fn unary(rt: &(impl Abort + AllocGlobal), handles: &[u32]) -> Expression {
    Expression::Unary {
        operands: operands(rt, handles),
        detail: 0,
    }
}

/// An expression of two others.
fn composed(rt: &(impl Abort + AllocGlobal), handles: &[u32]) -> Expression {
    Expression::Compose {
        ty: Handle::new(2),
        components: operands(rt, handles),
    }
}

/// Appends an expression.
fn add(rt: &impl Abort, expressions: &mut Arena<Expression>, expression: Expression) {
    if expressions.is_full() {
        panic!(rt; "full");
    }
    made(rt, expressions.append(expression, HERE));
}

/// A function of one expression.
fn function_of(rt: &(impl Abort + AllocGlobal), expression: Expression) -> Function {
    let mut fun = Function::new(rt.alloc());
    add(rt, &mut fun.expressions, expression);
    fun
}

/// Appends expressions of each kind: of a Unary whose operand isn't there too.
fn add_kinds(rt: &(impl Abort + AllocGlobal), expressions: &mut Arena<Expression>) {
    add(rt, expressions, LITERAL);
    add(rt, expressions, Expression::Override(Handle::new(0)));
    add(rt, expressions, composed(rt, &[1, 0]));
    add(rt, expressions, Expression::RayQueryProceedResult);
    add(rt, expressions, Expression::ZeroValue(Handle::new(0)));
    add(rt, expressions, unary(rt, &[4, 1]));
    add(rt, expressions, unary(rt, &[0, 9]));
    add(rt, expressions, Expression::FunctionArgument(0));
}

/// Whether an expression is const, and whether it is const or override.
fn known_at(kinds: &ExpressionKindTracker, index: u32) -> Option<(bool, bool)> {
    let handle = Handle::new(index);
    if handle.index() < kinds.len() {
        Some((kinds.is_const(handle), kinds.is_const_or_override(handle)))
    } else {
        None
    }
}

/// What is known of them.
static KNOWN: [(u32, Option<(bool, bool)>); 9] = [
    (0, Some((true, true))),
    (1, Some((false, true))),
    (2, Some((false, true))),
    (3, Some((false, false))),
    (4, Some((true, true))),
    (5, Some((false, true))),
    (6, Some((false, false))),
    (7, Some((false, false))),
    (8, None),
];

/// A layer knows that of them.
fn expect_kinds<B: Below>(rt: &(impl Abort + AllocGlobal), below: &B) {
    let mut expressions = Arena::new(rt.alloc());
    add_kinds(rt, &mut expressions);
    let kinds = made(rt, below.kinds(rt.alloc(), &expressions));
    drop(expressions);
    for &(index, known) in &KNOWN {
        holds!(rt; known_at(&kinds, index) == known);
    }
    drop(kinds);
}

/// An array of 65536 items of type 0.
fn many(rt: &impl Abort, stride: u32) -> TypeInner {
    match NonZeroU32::new(65536) {
        Some(count) => TypeInner::Array {
            base: Handle::new(0),
            size: ArraySize::Constant(count),
            stride,
        },
        None => panic!(rt; "no count"),
    }
}

/// A matrix of f32.
fn matrix(columns: VectorSize) -> TypeInner {
    TypeInner::Matrix {
        columns,
        rows: VectorSize::Tri,
        scalar: Scalar::F32,
    }
}

/// Puts types of different sizes.
fn put_sizes(rt: &impl Abort, types: &mut UniqueArena<Type>) {
    put(rt, types, TypeInner::Atomic(Scalar::U64));
    let (size, scalar) = (VectorSize::Tri, Scalar::F32);
    put(rt, types, TypeInner::Vector { size, scalar });
    put(rt, types, matrix(VectorSize::Bi));
    put(rt, types, matrix(VectorSize::Quad));
    put(rt, types, many(rt, 65535));
    put(rt, types, many(rt, 65536));
    put(rt, types, TypeInner::Sampler { comparison: false });
}

/// The size of each, if it has one.
static SIZES: [(u32, Option<u32>); 7] = [
    (0, Some(8)),
    (1, Some(12)),
    (2, Some(32)),
    (3, Some(64)),
    (4, Some(4294901760)),
    (5, None),
    (6, None),
];

/// Their sizes by themselves, and as the plain layer has them.
fn expect_sizes(rt: &impl Abort, module: &Module) {
    let plain = Plain::without_mesh_shaders();
    for &(ty, size) in &SIZES {
        holds!(rt; layer_types::size_at(module.types.as_slice(), Handle::new(ty)) == size);
        holds!(rt; plain.type_size(module, Handle::new(ty)) == size);
    }
}

#[test]
fn sizes(rt: HostRuntime) {
    let mut module = Module::new(rt.alloc());
    put_sizes(&rt, &mut module.types);
    expect_sizes(&rt, &module);
    drop_module(module);
}
