//! The names in named forms, each with what it counts in `detail` (docs/TYPES.md has what `detail` stands for).

ghost use Rattle.std.specs.Prelude.{◌≡◌, option_and_then};
ghost use Rattle.serde_json.specs.Find.{as_str};
ghost use Rattle.json_nodes.specs.Nodes.{data_of};
ghost use Rattle.json_values.specs.Form.{lookup, named};
ghost use Rattle.json_values.specs.Reads.{ReadsMeaning, rows_of};
ghost use Rattle.json_expressions.specs.FormNames.{math_functions, names_of};

use crate::forms::NameTable;
use json_nodes::Node;
use json_values::{ReadError, read_name};
use std::alloc::Global;

const VECTOR_SIZES: [(&str, u32); 3] = [("Bi", 0), ("Tri", 1), ("Quad", 2)];

const SWIZZLE_SIZES: [(&str, u32); 3] = [("Bi", 0), ("Tri", 256), ("Quad", 512)];

const UNARY_OPERATORS: [(&str, u32); 3] = [("Negate", 0), ("LogicalNot", 1), ("BitwiseNot", 2)];

const BINARY_OPERATORS: [(&str, u32); 18] = [
    ("Add", 0),
    ("Subtract", 1),
    ("Multiply", 2),
    ("Divide", 3),
    ("Modulo", 4),
    ("Equal", 5),
    ("NotEqual", 6),
    ("Less", 7),
    ("LessEqual", 8),
    ("Greater", 9),
    ("GreaterEqual", 10),
    ("And", 11),
    ("ExclusiveOr", 12),
    ("InclusiveOr", 13),
    ("LogicalAnd", 14),
    ("LogicalOr", 15),
    ("ShiftLeft", 16),
    ("ShiftRight", 17),
];

const DERIVATIVE_AXES: [(&str, u32); 3] = [("X", 0), ("Y", 3), ("Width", 6)];

const DERIVATIVE_CONTROLS: [(&str, u32); 3] = [("Coarse", 0), ("Fine", 1), ("None", 2)];

const RELATIONAL_FUNCTIONS: [(&str, u32); 4] = [("All", 0), ("Any", 1), ("IsNan", 2), ("IsInf", 3)];

const SCALAR_KINDS: [(&str, u32); 6] = [
    ("Sint", 0),
    ("Uint", 256),
    ("Float", 512),
    ("Bool", 768),
    ("AbstractInt", 1024),
    ("AbstractFloat", 1280),
];

const COOPERATIVE_COLUMNS: [(&str, u32); 2] = [("Eight", 0), ("Sixteen", 12)];

const COOPERATIVE_ROWS: [(&str, u32); 2] = [("Eight", 0), ("Sixteen", 6)];

const COOPERATIVE_ROLES: [(&str, u32); 3] = [("A", 0), ("B", 2), ("C", 4)];

/// By their places in layer_forms/specs/MathForms.
const MATH_FUNCTIONS: [(&str, u32); 77] = [
    ("Abs", 0),
    ("Min", 1),
    ("Max", 2),
    ("Clamp", 3),
    ("Saturate", 4),
    ("Cos", 5),
    ("Cosh", 6),
    ("Sin", 7),
    ("Sinh", 8),
    ("Tan", 9),
    ("Tanh", 10),
    ("Acos", 11),
    ("Asin", 12),
    ("Atan", 13),
    ("Atan2", 14),
    ("Asinh", 15),
    ("Acosh", 16),
    ("Atanh", 17),
    ("Radians", 18),
    ("Degrees", 19),
    ("Ceil", 20),
    ("Floor", 21),
    ("Round", 22),
    ("Fract", 23),
    ("Trunc", 24),
    ("Modf", 25),
    ("Frexp", 26),
    ("Ldexp", 27),
    ("Exp", 28),
    ("Exp2", 29),
    ("Log", 30),
    ("Log2", 31),
    ("Pow", 32),
    ("Dot", 33),
    ("Dot4I8Packed", 34),
    ("Dot4U8Packed", 35),
    ("Cross", 36),
    ("Distance", 37),
    ("Length", 38),
    ("Normalize", 39),
    ("FaceForward", 40),
    ("Reflect", 41),
    ("Refract", 42),
    ("Sign", 43),
    ("Fma", 44),
    ("Mix", 45),
    ("Step", 46),
    ("SmoothStep", 47),
    ("Sqrt", 48),
    ("InverseSqrt", 49),
    ("Transpose", 50),
    ("Determinant", 51),
    ("QuantizeToF16", 52),
    ("CountTrailingZeros", 53),
    ("CountLeadingZeros", 54),
    ("CountOneBits", 55),
    ("ReverseBits", 56),
    ("ExtractBits", 57),
    ("InsertBits", 58),
    ("FirstTrailingBit", 59),
    ("FirstLeadingBit", 60),
    ("Pack4x8snorm", 61),
    ("Pack4x8unorm", 62),
    ("Pack2x16snorm", 63),
    ("Pack2x16unorm", 64),
    ("Pack2x16float", 65),
    ("Pack4xI8", 66),
    ("Pack4xI8Clamp", 67),
    ("Pack4xU8", 68),
    ("Pack4xU8Clamp", 69),
    ("Unpack4x8snorm", 70),
    ("Unpack4x8unorm", 71),
    ("Unpack2x16snorm", 72),
    ("Unpack2x16unorm", 73),
    ("Unpack2x16float", 74),
    ("Unpack4xI8", 75),
    ("Unpack4xU8", 76),
];

/// The functions of WGSL.
#[tactic(auto, unfolding(crate::specs::FormNames::math_functions))]
fn math_functions<'a>() -> &'a [(&'static str, u32)]
    ensures { rows_of result.now ≡ math_functions }
{
    &MATH_FUNCTIONS
}

/// The function of WGSL that a text names.
fn read_math_function(alloc: Global, value: &Node) -> Result<u32, ReadError>
    ensures { ReadsMeaning (named math_functions (data_of value.now)) result }
{
    read_name(alloc, value, math_functions())
}

/// What a text that is one of the names of a table counts.
pub(crate) fn read_form_name(
    alloc: Global,
    value: &Node,
    table: NameTable,
) -> Result<u32, ReadError>
    ensures { ReadsMeaning (named (names_of table) (data_of value.now)) result }
{
    match table {
        NameTable::VectorSize => read_name(alloc, value, &VECTOR_SIZES),
        NameTable::SwizzleSize => read_name(alloc, value, &SWIZZLE_SIZES),
        NameTable::UnaryOperator => read_name(alloc, value, &UNARY_OPERATORS),
        NameTable::BinaryOperator => read_name(alloc, value, &BINARY_OPERATORS),
        NameTable::DerivativeAxis => read_name(alloc, value, &DERIVATIVE_AXES),
        NameTable::DerivativeControl => read_name(alloc, value, &DERIVATIVE_CONTROLS),
        NameTable::RelationalFunction => read_name(alloc, value, &RELATIONAL_FUNCTIONS),
        NameTable::MathFunction => read_math_function(alloc, value),
        NameTable::ScalarKind => read_name(alloc, value, &SCALAR_KINDS),
        NameTable::CooperativeColumns => read_name(alloc, value, &COOPERATIVE_COLUMNS),
        NameTable::CooperativeRows => read_name(alloc, value, &COOPERATIVE_ROWS),
        NameTable::CooperativeRole => read_name(alloc, value, &COOPERATIVE_ROLES),
    }
}
