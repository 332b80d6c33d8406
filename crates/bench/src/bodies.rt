//! Bodies of functions, by their shape. Each has three expressions before its own: true, a `u32`, and a pointer to the local.

use crate::maker::Maker;
use naga_below::{
    Block, Expression, Function, FunctionArgument, Handle, Literal, Operands, Range, Scalar,
    Sequence, Statement, SwitchCase, SwitchValue, tag,
};
use std::alloc::{AllocError, Global};

/// What holds the list of the next level.
#[derive(Clone, Copy)]
pub(crate) enum Holder {
    Block,
    If,
    Loop,
    /// The three by turns.
    Mix,
}

/// What a body is made of.
#[derive(Clone, Copy)]
pub(crate) enum Shape {
    /// So many Emits of one Load each.
    Emits(u32),
    /// So many Stores.
    Stores(u32),
    /// So many Calls with a result.
    Calls(u32),
    /// So many statements, by turns an Emit of two, a Store, a Call and a Store.
    Mix(u32),
    /// Lists that hold each other, each with so many Emits before and so many Stores after.
    Nest {
        holder: Holder,
        depth: u32,
        width: u32,
    },
    /// Blocks of an Emit and a Store.
    Own {
        blocks: u32,
        loads: u32,
    },
    /// Blocks of Stores.
    Blocks {
        blocks: u32,
        stores: u32,
    },
    /// A Switch with so many cases, in rising order, and the default.
    Switch(u32),
    /// The same in no order.
    Scattered(u32),
    /// The statements of `Mix` and a Return, in a function with arguments, more locals and a result.
    Whole(u32),
}

/// A function of a shape, with a local of `u32`; a whole one has sixteen such locals and arguments, and returns a `u32`.
pub(crate) fn function(alloc: Global, shape: Shape) -> Result<Function, AllocError> {
    let mut maker = Maker::new(alloc);
    maker.append(literal(Scalar::BOOL));
    maker.append(literal(Scalar::U32));
    maker.append(Expression::LocalVariable(Handle::new(0)));
    maker.append_local();
    put_shape(&mut maker, shape);
    maker.finish()
}

/// Puts what a shape has of its own.
fn put_shape(maker: &mut Maker, shape: Shape) {
    match shape {
        Shape::Emits(count) => put_loads(maker, count),
        Shape::Stores(count) => put_stores(maker, count),
        Shape::Calls(count) => put_calls(maker, count),
        Shape::Mix(count) => put_mix(maker, count),
        Shape::Nest {
            holder,
            depth,
            width,
        } => put_nest(maker, holder, depth, width),
        Shape::Own { blocks, loads } => put_own_blocks(maker, blocks, loads),
        Shape::Blocks { blocks, stores } => put_blocks_of_stores(maker, blocks, stores),
        Shape::Switch(count) => put_switch(maker, count, 1),
        Shape::Scattered(count) => put_switch(maker, count, SCATTER),
        Shape::Whole(count) => put_whole(maker, count),
    }
}

fn literal(scalar: Scalar) -> Expression {
    Expression::Literal(Literal { scalar, bits: 1 })
}

fn append_load(maker: &mut Maker) {
    let pointer = Handle::new(2);
    maker.append(Expression::Load { pointer });
}

fn append_call_result(maker: &mut Maker) {
    maker.append(Expression::CallResult(Handle::new(0)));
}

fn append_unary(maker: &mut Maker, operand: u32) {
    let mut operands: Operands = Sequence::new(maker.alloc);
    let pushed = operands.push(Handle::new(operand));
    maker.note(pushed.is_ok());
    maker.append(Expression::Unary {
        operands,
        detail: 0,
    });
}

/// An Emit of so many expressions, at least one.
fn push_emit(maker: &mut Maker, first: u32, count: u32) {
    let last = first.saturating_add(count).saturating_sub(1);
    maker.push(Statement::Emit(Range::new(Handle::new(first), Handle::new(last))));
}

fn push_store(maker: &mut Maker, value: u32) {
    let (pointer, value) = (Handle::new(2), Handle::new(value));
    maker.push(Statement::Store { pointer, value });
}

fn push_call(maker: &mut Maker, index: u32) {
    maker.push(Statement::Call {
        function: Handle::new(0),
        arguments: Sequence::new(maker.alloc),
        result: Some(Handle::new(index)),
    });
}

/// A Return of the `u32`.
fn push_return(maker: &mut Maker) {
    let value = Some(Handle::new(1));
    maker.push(Statement::Return { value });
}

/// So many Emits of a Load each.
fn put_loads(maker: &mut Maker, count: u32) {
    for index in 0..count {
        append_load(maker);
        push_emit(maker, index.wrapping_add(3), 1);
    }
}

fn put_stores(maker: &mut Maker, count: u32) {
    for _ in 0..count {
        push_store(maker, 1);
    }
}

fn put_calls(maker: &mut Maker, count: u32) {
    for index in 0..count {
        append_call_result(maker);
        push_call(maker, index.wrapping_add(3));
    }
}

/// By turns a Load, a Unary of it and the result of a call, and an Emit of the two, a Store, a Call and a Store.
fn put_mix(maker: &mut Maker, count: u32) {
    for index in 0..count / 4 {
        let first = index.wrapping_mul(3).wrapping_add(3);
        let second = first.wrapping_add(1);
        let third = first.wrapping_add(2);
        append_load(maker);
        append_unary(maker, first);
        append_call_result(maker);
        push_emit(maker, first, 2);
        push_store(maker, second);
        push_call(maker, third);
        push_store(maker, third);
    }
}

/// A mixed body, and a Return of the `u32` after it, with a signature and more locals.
fn put_whole(maker: &mut Maker, count: u32) {
    for _ in 0..15u32 {
        maker.append_local();
    }
    for _ in 0..16u32 {
        maker.push_argument(FunctionArgument {
            name: None,
            ty: Handle::new(1),
            binding: None,
        });
    }
    maker.set_result();
    put_mix(maker, count);
    push_return(maker);
}

fn hold(alloc: Global, holder: Holder, level: u32, list: Block) -> Statement {
    match (holder, level % 3) {
        (Holder::Block, _) | (Holder::Mix, 0) => Statement::Block(list),
        (Holder::If, _) | (Holder::Mix, 1) => Statement::If {
            condition: Handle::new(0),
            accept: list,
            reject: Block::new(alloc),
        },
        (Holder::Loop, _) | (Holder::Mix, _) => Statement::Loop {
            body: list,
            continuing: Block::new(alloc),
            break_if: None,
        },
    }
}

/// The Emits of a level.
fn put_emits(maker: &mut Maker, level: u32, width: u32) {
    for index in 0..width {
        let place = level.wrapping_mul(width).wrapping_add(index);
        push_emit(maker, place.wrapping_add(3), 1);
    }
}

/// Lists that hold each other, from the inside: each level holds the list that was made before.
fn put_nest(maker: &mut Maker, holder: Holder, depth: u32, width: u32) {
    for _ in 0..depth.wrapping_add(1).wrapping_mul(width) {
        append_load(maker);
    }
    put_emits(maker, depth, width);
    put_stores(maker, width);
    for from_inside in 0..depth {
        let level = depth.wrapping_sub(from_inside).wrapping_sub(1);
        let list = maker.begin();
        put_emits(maker, level, width);
        maker.push(hold(maker.alloc, holder, level, list));
        put_stores(maker, width);
    }
}

/// Blocks of an Emit and a Store.
fn put_own_blocks(maker: &mut Maker, blocks: u32, loads: u32) {
    for index in 0..blocks {
        let first = index.wrapping_mul(loads).wrapping_add(3);
        for _ in 0..loads {
            append_load(maker);
        }
        let outer = maker.begin();
        push_emit(maker, first, loads);
        push_store(maker, first);
        let list = maker.go_on(outer);
        maker.push(Statement::Block(list));
    }
}

fn list_of_stores(maker: &mut Maker, count: u32) -> Block {
    let outer = maker.begin();
    put_stores(maker, count);
    maker.go_on(outer)
}

fn put_blocks_of_stores(maker: &mut Maker, blocks: u32, count: u32) {
    for _ in 0..blocks {
        let list = list_of_stores(maker, count);
        maker.push(Statement::Block(list));
    }
}

/// Puts a case of one Store last.
fn push_case(maker: &mut Maker, cases: &mut Sequence<SwitchCase>, value: SwitchValue) {
    let body = list_of_stores(maker, 1);
    let pushed = cases.push(SwitchCase {
        value,
        body,
        fall_through: false,
    });
    maker.note(pushed.is_ok());
}

/// By what the values of a Switch in no order are multiplied: odd, so that no two are the same.
const SCATTER: u32 = 2654435761;

fn put_switch(maker: &mut Maker, count: u32, factor: u32) {
    let mut cases = Sequence::new(maker.alloc);
    for index in 0..count {
        let value = SwitchValue::U32(index.wrapping_mul(factor));
        push_case(maker, &mut cases, value);
    }
    push_case(maker, &mut cases, SwitchValue::Default);
    let selector = Handle::new(1);
    maker.push(Statement::Switch { selector, cases });
}

/// The function that is called: it returns a `u32`.
pub(crate) fn callee(alloc: Global) -> Result<Function, AllocError> {
    let mut maker = Maker::new(alloc);
    maker.append(literal(Scalar::U32));
    maker.set_result();
    let value = Some(Handle::new(0));
    maker.push(Statement::Return { value });
    maker.finish()
}
