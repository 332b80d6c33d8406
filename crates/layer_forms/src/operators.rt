//! Operators, derivatives and relational functions.

ghost use Rattle.std.specs.Prelude.{◌≡◌, slice_get};
ghost use Rattle.layer_forms.specs.OperatorForms.{unary_operators, binary_operators, relational_functions, axes, controls, derivative_of};

/// What a `Unary` does.
#[derive(Clone, Copy)]
pub enum UnaryOperator {
    Negate,
    LogicalNot,
    BitwiseNot,
}

/// What a `Binary` does.
#[derive(Clone, Copy)]
pub enum BinaryOperator {
    Add,
    Subtract,
    Multiply,
    Divide,
    Modulo,
    Equal,
    NotEqual,
    Less,
    LessEqual,
    Greater,
    GreaterEqual,
    And,
    ExclusiveOr,
    InclusiveOr,
    LogicalAnd,
    LogicalOr,
    ShiftLeft,
    ShiftRight,
}

/// What a `Relational` asks.
#[derive(Clone, Copy)]
pub enum RelationalFunction {
    All,
    Any,
    IsNan,
    IsInf,
}

/// Along which axis of the screen a `Derivative` goes; `Width` is the sum of both.
#[derive(Clone, Copy)]
pub enum DerivativeAxis {
    X,
    Y,
    Width,
}

/// How exact a `Derivative` is.
#[derive(Clone, Copy)]
pub enum DerivativeControl {
    Coarse,
    Fine,
    None,
}

/// What a `Derivative` computes.
#[derive(Clone, Copy)]
pub struct Derivative {
    pub axis: DerivativeAxis,
    pub ctrl: DerivativeControl,
}

const UNARY_OPERATORS: [UnaryOperator; 3] = [
    UnaryOperator::Negate,
    UnaryOperator::LogicalNot,
    UnaryOperator::BitwiseNot,
];

const BINARY_OPERATORS: [BinaryOperator; 18] = [
    BinaryOperator::Add,
    BinaryOperator::Subtract,
    BinaryOperator::Multiply,
    BinaryOperator::Divide,
    BinaryOperator::Modulo,
    BinaryOperator::Equal,
    BinaryOperator::NotEqual,
    BinaryOperator::Less,
    BinaryOperator::LessEqual,
    BinaryOperator::Greater,
    BinaryOperator::GreaterEqual,
    BinaryOperator::And,
    BinaryOperator::ExclusiveOr,
    BinaryOperator::InclusiveOr,
    BinaryOperator::LogicalAnd,
    BinaryOperator::LogicalOr,
    BinaryOperator::ShiftLeft,
    BinaryOperator::ShiftRight,
];

const RELATIONAL_FUNCTIONS: [RelationalFunction; 4] = [
    RelationalFunction::All,
    RelationalFunction::Any,
    RelationalFunction::IsNan,
    RelationalFunction::IsInf,
];

const AXES: [DerivativeAxis; 3] = [DerivativeAxis::X, DerivativeAxis::Y, DerivativeAxis::Width];

const CONTROLS: [DerivativeControl; 3] = [
    DerivativeControl::Coarse,
    DerivativeControl::Fine,
    DerivativeControl::None,
];

impl UnaryOperator {
    /// The operator that a number stands for.
    pub fn from_detail(detail: u32) -> Option<UnaryOperator>
        ensures { result ≡ slice_get unary_operators detail }
    {
        UNARY_OPERATORS.get(detail as usize).copied()
    }
}

impl BinaryOperator {
    /// The operator that a number stands for.
    pub fn from_detail(detail: u32) -> Option<BinaryOperator>
        ensures { result ≡ slice_get binary_operators detail }
    {
        BINARY_OPERATORS.get(detail as usize).copied()
    }
}

impl RelationalFunction {
    /// The function that a number stands for.
    pub fn from_detail(detail: u32) -> Option<RelationalFunction>
        ensures { result ≡ slice_get relational_functions detail }
    {
        RELATIONAL_FUNCTIONS.get(detail as usize).copied()
    }
}

impl Derivative {
    /// The derivative that a number stands for.
    pub fn from_detail(detail: u32) -> Option<Derivative>
        ensures { result ≡ derivative_of detail }
    {
        let axis = axis_of(detail / 3)?;
        let ctrl = control_of(detail % 3)?;
        Some(Derivative { axis, ctrl })
    }
}

/// The axis that a number stands for.
fn axis_of(number: u32) -> Option<DerivativeAxis>
    ensures { result ≡ slice_get axes number }
{
    AXES.get(number as usize).copied()
}

/// The control that a number stands for.
fn control_of(number: u32) -> Option<DerivativeControl>
    ensures { result ≡ slice_get controls number }
{
    CONTROLS.get(number as usize).copied()
}
