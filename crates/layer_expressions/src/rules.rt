//! The rules that the types of expressions keep, each with its number.

ghost use Rattle.std.specs.Prelude.{◌≡◌};
ghost use Rattle.layer_expressions.specs.RuleNumbers.{number_of};

/// A rule that an expression breaks, which then has no type.
#[derive(Clone, Copy, PartialEq, Debug)]
pub enum Rule {
    /// What it names is there: a type, a constant, an override, an argument, a variable, a function.
    Named,
    /// The function whose result it is has one.
    Result,
    /// What is accessed has items or, by a number, members.
    Access,
    /// The index of an access is an integer scalar.
    Index,
    /// The number of an access lies below the count of items.
    Bounds,
    /// What is loaded is pointed to, and is a value, an atomic, a struct, or an array whose size isn't dynamic.
    Load,
    /// `detail` stands for something of this kind of expression.
    Detail,
    /// A splat is of a scalar.
    Splat,
    /// A swizzle is of a vector that has each component of the pattern.
    Swizzle,
    /// The operator takes this operand.
    Unary,
    /// The operator takes these operands.
    Binary,
    /// A select is between two scalars or vectors of one type, by a bool or a vector of bools.
    Select,
    /// A derivative is of floats.
    Derivative,
    /// The function takes this argument.
    Relational,
    /// The function takes these arguments.
    Math,
    /// The conversion or bitcast is between these types.
    As,
    /// The image is one that can be sampled, loaded or queried so, and a global, an argument or an item of a binding array.
    Image,
    /// The sampler is one, compares where there is a depth reference, and comes from where an image may.
    Sampler,
    /// The coordinate is of the image's dimension.
    Coordinate,
    /// There is an array index where the image is arrayed, an integer scalar.
    ArrayIndex,
    /// The offset is of signed integers, of the image's dimension, which is no cube.
    Offset,
    /// The level of detail is of the right type, and can be given here.
    Level,
    /// The depth reference is a float.
    DepthReference,
    /// The sample is an integer scalar, where the image is multisampled.
    Sample,
    /// The array whose length is taken is of dynamic size.
    ArrayLength,
    /// There is a type for what a ray query answers.
    RayQuery,
    /// The operands of a cooperative operation are pointers to its scalar, or such matrices.
    Cooperative,
}

impl Rule {
    /// The number by which `Lower` names it.
    pub fn number(self) -> u32
        ensures { result ≡ number_of self }
    {
        match self {
            Rule::Named => 1,
            Rule::Result => 2,
            Rule::Access => 3,
            Rule::Index => 4,
            Rule::Bounds => 5,
            Rule::Load => 6,
            Rule::Detail => 7,
            Rule::Splat => 8,
            Rule::Swizzle => 9,
            Rule::Unary => 10,
            Rule::Binary => 11,
            Rule::Select => 12,
            Rule::Derivative => 13,
            Rule::Relational => 14,
            Rule::Math => 15,
            Rule::As => 16,
            Rule::Image => 17,
            Rule::Sampler => 18,
            Rule::Coordinate => 19,
            Rule::ArrayIndex => 20,
            Rule::Offset => 21,
            Rule::Level => 22,
            Rule::DepthReference => 23,
            Rule::Sample => 24,
            Rule::ArrayLength => 25,
            Rule::RayQuery => 26,
            Rule::Cooperative => 27,
        }
    }
}
