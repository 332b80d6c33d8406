//! The functions of `Math`.

ghost use Rattle.std.specs.Prelude.{◌≡◌, slice_get};
ghost use Rattle.layer_forms.specs.MathForms.{functions, class_of};

use ir_leaves::scalars::{ScalarKind, VectorSize};

/// A function of WGSL, by naga's name.
#[derive(Clone, Copy)]
pub enum MathFunction {
    Abs,
    Min,
    Max,
    Clamp,
    Saturate,
    Cos,
    Cosh,
    Sin,
    Sinh,
    Tan,
    Tanh,
    Acos,
    Asin,
    Atan,
    Atan2,
    Asinh,
    Acosh,
    Atanh,
    Radians,
    Degrees,
    Ceil,
    Floor,
    Round,
    Fract,
    Trunc,
    Modf,
    Frexp,
    Ldexp,
    Exp,
    Exp2,
    Log,
    Log2,
    Pow,
    Dot,
    Dot4I8Packed,
    Dot4U8Packed,
    Cross,
    Distance,
    Length,
    Normalize,
    FaceForward,
    Reflect,
    Refract,
    Sign,
    Fma,
    Mix,
    Step,
    SmoothStep,
    Sqrt,
    InverseSqrt,
    Transpose,
    Determinant,
    QuantizeToF16,
    CountTrailingZeros,
    CountLeadingZeros,
    CountOneBits,
    ReverseBits,
    ExtractBits,
    InsertBits,
    FirstTrailingBit,
    FirstLeadingBit,
    Pack4x8snorm,
    Pack4x8unorm,
    Pack2x16snorm,
    Pack2x16unorm,
    Pack2x16float,
    Pack4xI8,
    Pack4xI8Clamp,
    Pack4xU8,
    Pack4xU8Clamp,
    Unpack4x8snorm,
    Unpack4x8unorm,
    Unpack2x16snorm,
    Unpack2x16unorm,
    Unpack2x16float,
    Unpack4xI8,
    Unpack4xU8,
}

/// What a function takes and gives. "Numbers" are scalars and vectors of signed or unsigned integers or of floats; a
/// number of arguments says that all are of one type, which is the result's.
#[derive(Clone, Copy)]
pub enum MathClass {
    /// So many numbers.
    Numbers(u32),
    /// A number with a sign.
    Signed,
    /// So many floats, scalars or vectors.
    Floats(u32),
    /// So many vectors of floats.
    FloatVectors(u32),
    /// So many floats, scalars or vectors; gives their scalar.
    Distance(u32),
    /// Two vectors of numbers; gives their scalar.
    Dot,
    /// Two vectors of three floats.
    Cross,
    /// Two vectors of floats and their scalar; gives the vector.
    Refract,
    /// Three floats, of which the third may be the scalar of the others.
    Mix,
    /// Floats and as many signed integers; gives the floats.
    Ldexp,
    /// Gives a struct, which no type of the IR stands for.
    Split,
    /// Two numbers of 32 bits that hold 4 each; gives a scalar of this kind.
    PackedDot(ScalarKind),
    /// A matrix; gives one of as many rows as it has columns.
    Transpose,
    /// A square matrix; gives its scalar.
    Determinant,
    /// Floats of 4 bytes.
    Quantize,
    /// Integers.
    Bits,
    /// Integers, and two numbers of 32 bits.
    ExtractBits,
    /// Two of the same integers, and two numbers of 32 bits.
    InsertBits,
    /// A vector of this size and kind, of 4 bytes; gives a number of 32 bits.
    Pack(VectorSize, ScalarKind),
    /// A number of 32 bits; gives a vector of this size and kind, of 4 bytes.
    Unpack(VectorSize, ScalarKind),
}

const FUNCTIONS: [MathFunction; 77] = [
    MathFunction::Abs,
    MathFunction::Min,
    MathFunction::Max,
    MathFunction::Clamp,
    MathFunction::Saturate,
    MathFunction::Cos,
    MathFunction::Cosh,
    MathFunction::Sin,
    MathFunction::Sinh,
    MathFunction::Tan,
    MathFunction::Tanh,
    MathFunction::Acos,
    MathFunction::Asin,
    MathFunction::Atan,
    MathFunction::Atan2,
    MathFunction::Asinh,
    MathFunction::Acosh,
    MathFunction::Atanh,
    MathFunction::Radians,
    MathFunction::Degrees,
    MathFunction::Ceil,
    MathFunction::Floor,
    MathFunction::Round,
    MathFunction::Fract,
    MathFunction::Trunc,
    MathFunction::Modf,
    MathFunction::Frexp,
    MathFunction::Ldexp,
    MathFunction::Exp,
    MathFunction::Exp2,
    MathFunction::Log,
    MathFunction::Log2,
    MathFunction::Pow,
    MathFunction::Dot,
    MathFunction::Dot4I8Packed,
    MathFunction::Dot4U8Packed,
    MathFunction::Cross,
    MathFunction::Distance,
    MathFunction::Length,
    MathFunction::Normalize,
    MathFunction::FaceForward,
    MathFunction::Reflect,
    MathFunction::Refract,
    MathFunction::Sign,
    MathFunction::Fma,
    MathFunction::Mix,
    MathFunction::Step,
    MathFunction::SmoothStep,
    MathFunction::Sqrt,
    MathFunction::InverseSqrt,
    MathFunction::Transpose,
    MathFunction::Determinant,
    MathFunction::QuantizeToF16,
    MathFunction::CountTrailingZeros,
    MathFunction::CountLeadingZeros,
    MathFunction::CountOneBits,
    MathFunction::ReverseBits,
    MathFunction::ExtractBits,
    MathFunction::InsertBits,
    MathFunction::FirstTrailingBit,
    MathFunction::FirstLeadingBit,
    MathFunction::Pack4x8snorm,
    MathFunction::Pack4x8unorm,
    MathFunction::Pack2x16snorm,
    MathFunction::Pack2x16unorm,
    MathFunction::Pack2x16float,
    MathFunction::Pack4xI8,
    MathFunction::Pack4xI8Clamp,
    MathFunction::Pack4xU8,
    MathFunction::Pack4xU8Clamp,
    MathFunction::Unpack4x8snorm,
    MathFunction::Unpack4x8unorm,
    MathFunction::Unpack2x16snorm,
    MathFunction::Unpack2x16unorm,
    MathFunction::Unpack2x16float,
    MathFunction::Unpack4xI8,
    MathFunction::Unpack4xU8,
];

/// The functions by their numbers.
#[tactic(auto, unfolding(crate::specs::MathForms::functions))]
fn functions<'a>() -> &'a [MathFunction]
    ensures { result.now ≡ functions }
{
    &FUNCTIONS
}

impl MathFunction {
    /// The function that a number stands for.
    pub fn from_detail(detail: u32) -> Option<MathFunction>
        ensures { result ≡ slice_get functions detail }
    {
        functions().get(detail as usize).copied()
    }

    /// What it takes and gives.
    pub fn class(self) -> MathClass
        ensures { result ≡ class_of self }
    {
        use MathFunction as F;
        match self {
            F::Abs => MathClass::Numbers(1),
            F::Min | F::Max => MathClass::Numbers(2),
            F::Clamp => MathClass::Numbers(3),
            F::Saturate
            | F::Cos
            | F::Cosh
            | F::Sin
            | F::Sinh
            | F::Tan
            | F::Tanh
            | F::Acos
            | F::Asin
            | F::Atan => MathClass::Floats(1),
            F::Atan2 => MathClass::Floats(2),
            F::Asinh
            | F::Acosh
            | F::Atanh
            | F::Radians
            | F::Degrees
            | F::Ceil
            | F::Floor
            | F::Round
            | F::Fract
            | F::Trunc => MathClass::Floats(1),
            F::Modf | F::Frexp => MathClass::Split,
            F::Ldexp => MathClass::Ldexp,
            F::Exp | F::Exp2 | F::Log | F::Log2 => MathClass::Floats(1),
            F::Pow => MathClass::Floats(2),
            F::Dot => MathClass::Dot,
            F::Dot4I8Packed => MathClass::PackedDot(ScalarKind::Sint),
            F::Dot4U8Packed => MathClass::PackedDot(ScalarKind::Uint),
            F::Cross => MathClass::Cross,
            F::Distance => MathClass::Distance(2),
            F::Length => MathClass::Distance(1),
            F::Normalize => MathClass::FloatVectors(1),
            F::FaceForward => MathClass::FloatVectors(3),
            F::Reflect => MathClass::FloatVectors(2),
            F::Refract => MathClass::Refract,
            F::Sign => MathClass::Signed,
            F::Fma => MathClass::Floats(3),
            F::Mix => MathClass::Mix,
            F::Step => MathClass::Floats(2),
            F::SmoothStep => MathClass::Floats(3),
            F::Sqrt | F::InverseSqrt => MathClass::Floats(1),
            F::Transpose => MathClass::Transpose,
            F::Determinant => MathClass::Determinant,
            F::QuantizeToF16 => MathClass::Quantize,
            F::CountTrailingZeros | F::CountLeadingZeros | F::CountOneBits | F::ReverseBits =>
                MathClass::Bits,
            F::ExtractBits => MathClass::ExtractBits,
            F::InsertBits => MathClass::InsertBits,
            F::FirstTrailingBit | F::FirstLeadingBit => MathClass::Bits,
            F::Pack4x8snorm | F::Pack4x8unorm => MathClass::Pack(
                VectorSize::Quad,
                ScalarKind::Float,
            ),
            F::Pack2x16snorm | F::Pack2x16unorm | F::Pack2x16float => MathClass::Pack(
                VectorSize::Bi,
                ScalarKind::Float,
            ),
            F::Pack4xI8 | F::Pack4xI8Clamp => MathClass::Pack(VectorSize::Quad, ScalarKind::Sint),
            F::Pack4xU8 | F::Pack4xU8Clamp => MathClass::Pack(VectorSize::Quad, ScalarKind::Uint),
            F::Unpack4x8snorm | F::Unpack4x8unorm => MathClass::Unpack(
                VectorSize::Quad,
                ScalarKind::Float,
            ),
            F::Unpack2x16snorm | F::Unpack2x16unorm | F::Unpack2x16float => MathClass::Unpack(
                VectorSize::Bi,
                ScalarKind::Float,
            ),
            F::Unpack4xI8 => MathClass::Unpack(VectorSize::Quad, ScalarKind::Sint),
            F::Unpack4xU8 => MathClass::Unpack(VectorSize::Quad, ScalarKind::Uint),
        }
    }
}
