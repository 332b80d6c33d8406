//! The types of array lengths and of cooperative operations.

ghost use Rattle.std.specs.Prelude.{◌≡◌};
ghost use Rattle.std.specs.Option.{option_copied, is_some};
ghost use Rattle.layer_expressions.specs.Others.{is_dynamic, has_length, length_type, scalar_behind, scalar_alone, cooperative_load, cooperative_of, multiply_add};

use crate::operands::type_of_operand;
use crate::rules::Rule;
use ir_arena::handle::Handle;
use ir_arena::tag;
use ir_leaves::scalars::Scalar;
use ir_types::type_methods::inner_at;
use ir_types::types::{ArraySize, Type, TypeInner};
use ir_types::typifier::TypeResolution;

/// Whether a type is an array of dynamic size.
fn is_dynamic(inner: &TypeInner) -> bool
    ensures { result ≡ is_dynamic inner.now }
{
    match inner {
        TypeInner::Array { size, .. } => match size {
            ArraySize::Dynamic => true,
            _ => false,
        },
        _ => false,
    }
}

/// Whether a type is a pointer to an array of dynamic size.
fn has_length(types: &[Type], inner: Option<&TypeInner>) -> bool
    ensures { result ≡ has_length types.now (option_copied inner.entry) }
{
    match inner {
        Some(TypeInner::Pointer { base, .. }) => match inner_at(types, *base) {
            Some(inner) => is_dynamic(inner),
            None => false,
        },
        _ => false,
    }
}

/// The type of an `ArrayLength`.
pub(crate) fn length_type(
    types: &[Type],
    earlier: &[TypeResolution],
    operands: &[Handle<tag::Expression>],
) -> Result<TypeResolution, Rule>
    ensures { result ≡ length_type types.now earlier.now operands.now }
{
    match operands {
        [array] => {
            if has_length(types, type_of_operand(types, earlier, *array)) {
                Ok(TypeResolution::Value(TypeInner::Scalar(Scalar::U32)))
            } else {
                Err(Rule::ArrayLength)
            }
        }
        _ => Err(Rule::ArrayLength),
    }
}

/// The scalar that a pointer points to.
fn scalar_behind(types: &[Type], inner: Option<&TypeInner>) -> Option<Scalar>
    ensures { result ≡ scalar_behind types.now (option_copied inner.entry) }
{
    match inner {
        Some(TypeInner::Pointer { base, .. }) => match inner_at(types, *base) {
            Some(inner) => scalar_alone(inner),
            None => None,
        },
        Some(
            TypeInner::ValuePointer {
                size: None,
                scalar,
                ..
            },
        ) => Some(*scalar),
        _ => None,
    }
}

/// The scalar that a type is.
fn scalar_alone(inner: &TypeInner) -> Option<Scalar>
    ensures { result ≡ scalar_alone inner.now }
{
    match inner {
        TypeInner::Scalar(scalar) => Some(*scalar),
        _ => None,
    }
}

/// The type of a `CooperativeLoad`.
pub(crate) fn cooperative_load(
    types: &[Type],
    earlier: &[TypeResolution],
    operands: &[Handle<tag::Expression>],
    detail: u32,
) -> Result<TypeResolution, Rule>
    ensures { result ≡ cooperative_load types.now earlier.now operands.now detail }
{
    let Some(pointer) = operands.get(0) else {
        return Err(Rule::Cooperative);
    };
    match scalar_behind(types, type_of_operand(types, earlier, *pointer)) {
        Some(scalar) => Ok(TypeResolution::Value(TypeInner::CooperativeMatrix {
            scalar,
            detail: detail / 2,
        })),
        None => Err(Rule::Cooperative),
    }
}

/// The type of a cooperative matrix.
fn cooperative_of(inner: Option<&TypeInner>) -> Option<TypeResolution>
    ensures { result ≡ cooperative_of (option_copied inner.entry) }
{
    match inner {
        Some(TypeInner::CooperativeMatrix { scalar, detail }) => {
            Some(TypeResolution::Value(TypeInner::CooperativeMatrix {
                scalar: *scalar,
                detail: *detail,
            }))
        }
        _ => None,
    }
}

/// Whether a type is a cooperative matrix.
fn is_cooperative(inner: Option<&TypeInner>) -> bool
    ensures { result ≡ is_some (cooperative_of (option_copied inner.entry)) }
{
    matches!(inner, Some(TypeInner::CooperativeMatrix { .. }))
}

/// The type of a `CooperativeMultiplyAdd`.
pub(crate) fn multiply_add(
    types: &[Type],
    earlier: &[TypeResolution],
    operands: &[Handle<tag::Expression>],
) -> Result<TypeResolution, Rule>
    ensures { result ≡ multiply_add types.now earlier.now operands.now }
{
    match operands {
        [a, b, c] => {
            if !is_cooperative(type_of_operand(types, earlier, *a)) {
                return Err(Rule::Cooperative);
            }
            if !is_cooperative(type_of_operand(types, earlier, *b)) {
                return Err(Rule::Cooperative);
            }
            match cooperative_of(type_of_operand(types, earlier, *c)) {
                Some(ty) => Ok(ty),
                None => Err(Rule::Cooperative),
            }
        }
        _ => Err(Rule::Cooperative),
    }
}
