//! Expressions.

ghost use Rattle.std.specs.Prelude.{◌≡◌, IfOk};

use ir_arena::duplicate::Duplicate;
use ir_arena::handle::{Handle, Tagged};
use ir_arena::sequence::Sequence;
use ir_arena::tag;
use ir_leaves::scalars::Scalar;
use ir_statements::statements::Operands;
use std::alloc::{AllocError, Global};

/// A number or a bool, as the bits of its value, floats included. A scalar of fewer than 64 bits has the low ones.
#[derive(Clone, Copy, PartialEq, Eq, Debug)]
pub struct Literal {
    pub scalar: Scalar,
    pub bits: u64,
}

/// An expression. The kinds are naga's.
///
/// Of some kinds the validator reads the operands only. Such a kind has `operands`, in the order of naga's fields, and
/// `detail`, any number, which stands for the rest.
/// `detail` stands before them so that an expression takes 32 bytes.
///
/// Handles of expressions and locals belong to the same function, all others to the module. A global expression has
/// global expressions as its operands. The numbers of `AccessIndex` and `FunctionArgument` count from 0.
#[derive(PartialEq, Debug, Drop)]
pub enum Expression {
    Literal(Literal),
    Constant(Handle<tag::Constant>),
    Override(Handle<tag::Override>),
    ZeroValue(Handle<tag::Type>),
    Compose {
        ty: Handle<tag::Type>,
        components: Operands,
    },
    Access {
        base: Handle<tag::Expression>,
        index: Handle<tag::Expression>,
    },
    AccessIndex {
        base: Handle<tag::Expression>,
        index: u32,
    },
    FunctionArgument(u32),
    GlobalVariable(Handle<tag::GlobalVariable>),
    LocalVariable(Handle<tag::LocalVariable>),
    Load {
        pointer: Handle<tag::Expression>,
    },
    CallResult(Handle<tag::Function>),
    AtomicResult {
        ty: Handle<tag::Type>,
        comparison: bool,
    },
    WorkGroupUniformLoadResult {
        ty: Handle<tag::Type>,
    },
    RayQueryProceedResult,
    SubgroupBallotResult,
    SubgroupOperationResult {
        ty: Handle<tag::Type>,
    },
    Splat {
        detail: u32,
        operands: Operands,
    },
    Swizzle {
        detail: u32,
        operands: Operands,
    },
    ImageSample {
        detail: u32,
        operands: Operands,
    },
    ImageLoad {
        detail: u32,
        operands: Operands,
    },
    ImageQuery {
        detail: u32,
        operands: Operands,
    },
    Unary {
        detail: u32,
        operands: Operands,
    },
    Binary {
        detail: u32,
        operands: Operands,
    },
    Select {
        detail: u32,
        operands: Operands,
    },
    Derivative {
        detail: u32,
        operands: Operands,
    },
    Relational {
        detail: u32,
        operands: Operands,
    },
    Math {
        detail: u32,
        operands: Operands,
    },
    As {
        detail: u32,
        operands: Operands,
    },
    ArrayLength {
        detail: u32,
        operands: Operands,
    },
    RayQueryGetIntersection {
        detail: u32,
        operands: Operands,
    },
    RayQueryVertexPositions {
        detail: u32,
        operands: Operands,
    },
    CooperativeLoad {
        detail: u32,
        operands: Operands,
    },
    CooperativeMultiplyAdd {
        detail: u32,
        operands: Operands,
    },
}

impl Tagged for Expression {
    type Tag = tag::Expression;
}

impl Expression {
    /// Clones the expression. An Err is out of memory.
    pub fn clone(&self, alloc: Global) -> Result<Self, AllocError>
        ensures { IfOk result (λ made. made ≡ self.now) }
    {
        match self {
            Expression::Literal(literal) => Ok(Expression::Literal(*literal)),
            Expression::Constant(handle) => Ok(Expression::Constant(*handle)),
            Expression::Override(handle) => Ok(Expression::Override(*handle)),
            Expression::ZeroValue(ty) => Ok(Expression::ZeroValue(*ty)),
            Expression::Compose { ty, components } => Ok(Expression::Compose {
                ty: *ty,
                components: components.clone(alloc)?,
            }),
            Expression::Access { base, index } => Ok(Expression::Access {
                base: *base,
                index: *index,
            }),
            Expression::AccessIndex { base, index } => Ok(Expression::AccessIndex {
                base: *base,
                index: *index,
            }),
            Expression::FunctionArgument(index) => Ok(Expression::FunctionArgument(*index)),
            Expression::GlobalVariable(handle) => Ok(Expression::GlobalVariable(*handle)),
            Expression::LocalVariable(handle) => Ok(Expression::LocalVariable(*handle)),
            Expression::Load { pointer } => Ok(Expression::Load { pointer: *pointer }),
            Expression::CallResult(function) => Ok(Expression::CallResult(*function)),
            Expression::AtomicResult { ty, comparison } => Ok(Expression::AtomicResult {
                ty: *ty,
                comparison: *comparison,
            }),
            Expression::WorkGroupUniformLoadResult { ty } => {
                Ok(Expression::WorkGroupUniformLoadResult { ty: *ty })
            }
            Expression::RayQueryProceedResult => Ok(Expression::RayQueryProceedResult),
            Expression::SubgroupBallotResult => Ok(Expression::SubgroupBallotResult),
            Expression::SubgroupOperationResult { ty } => {
                Ok(Expression::SubgroupOperationResult { ty: *ty })
            }
            Expression::Splat { operands, detail } => Ok(Expression::Splat {
                operands: operands.clone(alloc)?,
                detail: *detail,
            }),
            Expression::Swizzle { operands, detail } => Ok(Expression::Swizzle {
                operands: operands.clone(alloc)?,
                detail: *detail,
            }),
            Expression::ImageSample { operands, detail } => Ok(Expression::ImageSample {
                operands: operands.clone(alloc)?,
                detail: *detail,
            }),
            Expression::ImageLoad { operands, detail } => Ok(Expression::ImageLoad {
                operands: operands.clone(alloc)?,
                detail: *detail,
            }),
            Expression::ImageQuery { operands, detail } => Ok(Expression::ImageQuery {
                operands: operands.clone(alloc)?,
                detail: *detail,
            }),
            Expression::Unary { operands, detail } => Ok(Expression::Unary {
                operands: operands.clone(alloc)?,
                detail: *detail,
            }),
            Expression::Binary { operands, detail } => Ok(Expression::Binary {
                operands: operands.clone(alloc)?,
                detail: *detail,
            }),
            Expression::Select { operands, detail } => Ok(Expression::Select {
                operands: operands.clone(alloc)?,
                detail: *detail,
            }),
            Expression::Derivative { operands, detail } => Ok(Expression::Derivative {
                operands: operands.clone(alloc)?,
                detail: *detail,
            }),
            Expression::Relational { operands, detail } => Ok(Expression::Relational {
                operands: operands.clone(alloc)?,
                detail: *detail,
            }),
            Expression::Math { operands, detail } => Ok(Expression::Math {
                operands: operands.clone(alloc)?,
                detail: *detail,
            }),
            Expression::As { operands, detail } => Ok(Expression::As {
                operands: operands.clone(alloc)?,
                detail: *detail,
            }),
            Expression::ArrayLength { operands, detail } => Ok(Expression::ArrayLength {
                operands: operands.clone(alloc)?,
                detail: *detail,
            }),
            Expression::RayQueryGetIntersection { operands, detail } => Ok(
                Expression::RayQueryGetIntersection {
                    operands: operands.clone(alloc)?,
                    detail: *detail,
                },
            ),
            Expression::RayQueryVertexPositions { operands, detail } => Ok(
                Expression::RayQueryVertexPositions {
                    operands: operands.clone(alloc)?,
                    detail: *detail,
                },
            ),
            Expression::CooperativeLoad { operands, detail } => Ok(Expression::CooperativeLoad {
                operands: operands.clone(alloc)?,
                detail: *detail,
            }),
            Expression::CooperativeMultiplyAdd { operands, detail } => Ok(
                Expression::CooperativeMultiplyAdd {
                    operands: operands.clone(alloc)?,
                    detail: *detail,
                },
            ),
        }
    }
}

impl Duplicate for Expression {
    fn duplicate(&self, alloc: Global) -> Result<Self, AllocError> {
        self.clone(alloc)
    }
}
