//! Why an expression of a function has no type.

use crate::binary::write_binary;
use crate::kinds::name_of;
use crate::rules::sentence_of;
use crate::types::write_type;
use ir_arena::{Arena, Handle, Sequence, Span, tag};
use ir_module::expressions::Expression;
use ir_module::functions::Function;
use ir_module::module::Module;
use ir_module::operands::{operand, operand_count};
use ir_types::type_methods::inner_at;
use ir_types::types::TypeInner;
use ir_types::typifier::TypeResolution;
use layer_expressions::{Rule, types_of};
use layer_forms::BinaryOperator;
use std::alloc::{AllocError, Global};
use std::fmt;

/// The expressions before the one at an index.
fn earlier(alloc: Global, fun: &Function, index: usize) -> Result<Arena<Expression>, AllocError> {
    let mut earlier = Arena::new(alloc);
    for expression in fun.expressions.as_slice().iter().take(index) {
        if earlier.is_full() {
            return Ok(earlier);
        }
        earlier.append(expression.clone(alloc)?, Span::UNDEFINED)?;
    }
    Ok(earlier)
}

/// Their types; none where one of them has no type.
fn types_before(
    alloc: Global,
    module: &Module,
    fun: &Function,
    index: usize,
) -> Result<Sequence<TypeResolution>, AllocError> {
    let earlier = earlier(alloc, fun, index)?;
    let arguments = fun.arguments.as_slice();
    let locals = fun.local_variables.as_slice();
    let found = types_of(alloc, module, arguments, locals, &earlier)?;
    drop(earlier);
    match found {
        Ok(types) => Ok(types),
        Err(_) => Ok(Sequence::new(alloc)),
    }
}

/// The type of the expression with a handle.
fn operand_type<'a>(
    module: &'a Module,
    types: &'a [TypeResolution],
    handle: Handle<tag::Expression>,
) -> Option<&'a TypeInner> {
    match types.get(handle.index()) {
        Some(TypeResolution::Handle(ty)) => inner_at(module.types.as_slice(), *ty),
        Some(TypeResolution::Value(inner)) => Some(inner),
        None => None,
    }
}

/// Writes the type of an operand.
fn write_operand<W: fmt::Write>(
    writer: &mut W,
    module: &Module,
    types: &[TypeResolution],
    handle: Option<Handle<tag::Expression>>,
) -> fmt::Result {
    let Some(handle) = handle else {
        return Ok(());
    };
    match operand_type(module, types, handle) {
        Some(inner) => write_type(writer, &module.types, inner),
        None => writer.write_str("an expression that doesn't come before it"),
    }
}

/// Writes the types of the operands, with commas and an `and` between them.
fn write_operands<W: fmt::Write>(
    writer: &mut W,
    module: &Module,
    types: &[TypeResolution],
    expression: &Expression,
) -> fmt::Result {
    let count = operand_count(expression);
    for place in 0..count {
        let before = if place == 0 {
            " of "
        } else if place == count - 1 {
            " and "
        } else {
            ", "
        };
        writer.write_str(before)?;
        write_operand(writer, module, types, operand(expression, place))?;
    }
    Ok(())
}

/// The operator of a Binary, with its operands.
fn operator_of(
    expression: &Expression,
) -> Option<
    (
        BinaryOperator,
        Handle<tag::Expression>,
        Handle<tag::Expression>,
    ),
> {
    let Expression::Binary { detail, .. } = expression else {
        return None;
    };
    match BinaryOperator::from_detail(*detail) {
        Some(operator) => match (operand(expression, 0), operand(expression, 1)) {
            (Some(left), Some(right)) => Some((operator, left, right)),
            _ => None,
        },
        None => None,
    }
}

/// Writes why an operator doesn't take its operands. The answer is whether their types are known, so that it was written.
fn write_operator<W: fmt::Write>(
    writer: &mut W,
    module: &Module,
    types: &[TypeResolution],
    expression: &Expression,
) -> Result<bool, fmt::Error> {
    let Some((operator, left, right)) = operator_of(expression) else {
        return Ok(false);
    };
    let (left, right) = (
        operand_type(module, types, left),
        operand_type(module, types, right),
    );
    match (left, right) {
        (Some(left), Some(right)) => {
            write_binary(
                writer,
                &module.types,
                name_of(expression),
                operator,
                left,
                right,
            )?;
            Ok(true)
        }
        _ => Ok(false),
    }
}

/// Writes what is wrong with an expression that breaks a rule.
fn write_rule<W: fmt::Write>(writer: &mut W, rule: u32) -> fmt::Result {
    match sentence_of(rule) {
        Some(sentence) => writer.write_str(sentence),
        None => write!(writer, "it breaks a rule with the number {rule}"),
    }
}

/// The same, where the types of earlier expressions are known.
fn write_over_types<W: fmt::Write>(
    writer: &mut W,
    module: &Module,
    types: &[TypeResolution],
    expression: &Expression,
    rule: u32,
) -> fmt::Result {
    if rule == Rule::Binary.number() && write_operator(writer, module, types, expression)? {
        return Ok(());
    }
    writer.write_str(name_of(expression))?;
    write_operands(writer, module, types, expression)?;
    writer.write_str(": ")?;
    write_rule(writer, rule)
}

/// Writes why an expression of a function has no type, where `Typed` refused it as `Lower(rule)`: its kind, the types of its
/// operands, and what is wrong, as `Splat of vec3<f32>: only a scalar can be splatted`. Of an operator with two sides it says
/// which side it doesn't take, or how they differ: `left and right of Equal have different types: vec3<f32> and f32`.
///
/// Where there is no memory for the types, they aren't written. A number that is no rule's is written itself. An Err is that of
/// the writer.
pub fn write_untyped<W: fmt::Write>(
    alloc: Global,
    writer: &mut W,
    module: &Module,
    fun: &Function,
    handle: Handle<tag::Expression>,
    rule: u32,
) -> fmt::Result {
    let Some(expression) = fun.expressions.as_slice().get(handle.index()) else {
        return writer.write_str("an expression that isn't there");
    };
    match types_before(alloc, module, fun, handle.index()) {
        Ok(types) => write_over_types(writer, module, types.as_slice(), expression, rule),
        Err(_) => {
            writer.write_str(name_of(expression))?;
            writer.write_str(": ")?;
            write_rule(writer, rule)
        }
    }
}
