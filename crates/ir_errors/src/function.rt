//! The errors of functions: those of naga 30.0.1's `valid::function`, with its variants and fields.

ghost use Rattle.std.specs.Prelude.{◌≡◌};
ghost use Rattle.ir_errors.specs.declared.function.FunctionError.TheVariants.{InvalidAtomic, InvalidSubgroup};

mod clones;
mod parts;
mod texts;

use crate::analyzer::{UniformityDisruptor, UniformityRequirements};
use crate::expression::ExpressionError;
use ir_arena::handle::Handle;
use ir_arena::tag;
use ir_flags::capabilities::Capabilities;
use ir_flags::valid::SubgroupOperationSet;
use ir_leaves::name::Name;
use ir_statements::operations::{AtomicFunction, SwitchValue};
use ir_types::types::{AddressSpace, TypeInner};

/// What is wrong with a call of a function.
#[derive(Clone, Copy, PartialEq, Debug)]
pub enum CallError {
    /// An argument, counted from 0, has this fault: it isn't in scope.
    Argument {
        index: usize,
        source: ExpressionError,
    },
    /// The result is in scope before the call.
    ResultAlreadyInScope(Handle<tag::Expression>),
    /// An earlier call or atomic operation has this result, or the flag EXPRESSIONS is off.
    ResultAlreadyPopulated(Handle<tag::Expression>),
    /// The call passes another number of arguments than the function declares.
    ArgumentCount {
        required: usize,
        seen: usize,
    },
    /// An argument, counted from 0, is of another type than the function declares.
    ArgumentType {
        index: usize,
        required: Handle<tag::Type>,
        seen_expression: Handle<tag::Expression>,
    },
    /// The call must have a result, a `CallResult` of its function, exactly if the function returns a value.
    ExpressionMismatch(Option<Handle<tag::Expression>>),
}

/// What is wrong with an atomic operation.
#[derive(Clone, Copy, PartialEq, Debug)]
pub enum AtomicError {
    /// The pointer doesn't point to an atomic.
    InvalidPointer(Handle<tag::Expression>),
    /// The operation isn't supported on this scalar type in this address space.
    InvalidAddressSpace(AddressSpace),
    /// The value, or the value to compare with, is not of the atomic's scalar type.
    InvalidOperand(Handle<tag::Expression>),
    /// The operation isn't supported on the atomic's scalar type.
    InvalidOperator(AtomicFunction),
    /// The result is not an `AtomicResult`.
    InvalidResultExpression(Handle<tag::Expression>),
    /// The result is marked as that of a compare exchange, and the operation compares nothing.
    ResultExpressionExchange(Handle<tag::Expression>),
    /// The operation is a compare exchange, and the result isn't marked as that of one.
    ResultExpressionNotExchange(Handle<tag::Expression>),
    /// The result is of another type than the operation returns.
    ResultTypeMismatch(Handle<tag::Expression>),
    /// An exchange that compares nothing must have a result.
    MissingReturnValue,
    /// The target lacks a capability that the operation needs.
    MissingCapability(Capabilities),
    /// An earlier call or atomic operation has this result, or the flag EXPRESSIONS is off.
    ResultAlreadyPopulated(Handle<tag::Expression>),
}

/// What is wrong with an operation among the invocations of a subgroup.
#[derive(Clone, Copy, PartialEq, Debug)]
pub enum SubgroupError {
    /// The operation isn't supported on the operand's type.
    InvalidOperand(Handle<tag::Expression>),
    /// The result is of another kind or type than the operation returns.
    ResultTypeMismatch(Handle<tag::Expression>),
    /// The target doesn't support these subgroup operations.
    UnsupportedOperation(SubgroupOperationSet),
    /// A scan supports only Add and Mul.
    UnknownOperation,
    /// The index of a broadcast must be a constant.
    InvalidInvocationIdExprType(Handle<tag::Expression>),
}

/// What is wrong with a local variable.
#[derive(Clone, Copy, PartialEq, Debug)]
pub enum LocalVariableError {
    /// The type of a local variable must be constructible.
    InvalidType(Handle<tag::Type>),
    /// The initializer is of another type than the variable.
    InitializerType,
    /// The initializer must be a constant or an override expression.
    NonConstOrOverrideInitializer,
}

/// What is wrong with a function: the first fault in the order of its checks.
#[derive(PartialEq, Debug, Drop)]
pub enum FunctionError {
    /// An expression, or an operand of a statement, has this fault.
    Expression {
        handle: Handle<tag::Expression>,
        source: ExpressionError,
    },
    /// A statement brings an expression into scope that is already in scope.
    ExpressionAlreadyInScope(Handle<tag::Expression>),
    /// A local variable has this fault.
    LocalVariable {
        handle: Handle<tag::LocalVariable>,
        name: Name,
        source: LocalVariableError,
    },
    /// An argument, counted from 0, is of a type that can't be passed.
    InvalidArgumentType {
        index: usize,
        name: Name,
    },
    /// The return type must be constructible.
    NonConstructibleReturnType,
    /// A pointer argument, counted from 0, points into an address space other than `Function` and `Private`.
    InvalidArgumentPointerSpace {
        index: usize,
        name: Name,
        space: AddressSpace,
    },
    /// A break must be inside a loop body or a switch case, with no continuing block between.
    BreakOutsideOfLoopOrSwitch,
    /// A continue must be inside a loop body, with no continuing block between.
    ContinueOutsideOfLoop,
    /// A return stands in a continuing block.
    InvalidReturnSpot,
    /// The returned value doesn't match the declared return type, or only one of them is there.
    InvalidReturnType {
        expression: Option<Handle<tag::Expression>>,
        expected_ty: Option<Handle<tag::Type>>,
    },
    /// The condition of an if, or the `break_if` of a loop, is not a bool.
    InvalidIfType(Handle<tag::Expression>),
    /// The selector of a switch is not made of integers.
    InvalidSwitchType(Handle<tag::Expression>),
    /// Two cases of a switch have this value.
    ConflictingSwitchCase(SwitchValue),
    /// A case value is signed and the selector isn't, or the other way round.
    ConflictingCaseType,
    /// A switch has no default case.
    MissingDefaultCase,
    /// A switch has more than one default case.
    MultipleDefaultCases,
    /// The last case of a switch falls through.
    LastCaseFallTrough,
    /// The pointer doesn't lead to a variable or an argument (this is where it ends), or its address space is not
    /// writable.
    InvalidStorePointer(Handle<tag::Expression>),
    /// The stored value is an image or a sampler.
    InvalidStoreTexture {
        actual: Handle<tag::Expression>,
        actual_ty: TypeInner,
    },
    /// The value of an image store is of another type than the image's format has.
    InvalidStoreValue {
        actual: Handle<tag::Expression>,
        actual_ty: TypeInner,
        expected_ty: TypeInner,
    },
    /// The stored value is not of the type that the pointer points to.
    InvalidStoreTypes {
        pointer: Handle<tag::Expression>,
        value: Handle<tag::Expression>,
    },
    /// The image, the coordinate or the array index of an image store has this fault.
    InvalidImageStore(ExpressionError),
    /// The image, the coordinate or the array index of an image atomic has this fault.
    InvalidImageAtomic(ExpressionError),
    /// The image's format doesn't support this atomic operation.
    InvalidImageAtomicFunction(AtomicFunction),
    /// The value of an image atomic is not of the scalar type of the image's format.
    InvalidImageAtomicValue(Handle<tag::Expression>),
    /// A call of this function has this fault.
    InvalidCall {
        function: Handle<tag::Function>,
        error: CallError,
    },
    /// An atomic operation has this fault.
    InvalidAtomic(AtomicError),
    /// The ray query is not a local variable.
    InvalidRayQueryExpression(Handle<tag::Expression>),
    /// The expression is not an acceleration structure.
    InvalidAccelerationStructure(Handle<tag::Expression>),
    /// The ray query (second) returns vertices, and the acceleration structure (first) doesn't.
    MissingAccelerationStructureVertexReturn(Handle<tag::Expression>, Handle<tag::Expression>),
    /// The ray query doesn't return vertices. Only a lower layer reports it.
    MissingRayQueryVertexReturn(Handle<tag::Expression>),
    /// The expression is not of the module's ray descriptor type.
    InvalidRayDescriptor(Handle<tag::Expression>),
    /// The ray query is a variable of this other type.
    InvalidRayQueryType(Handle<tag::Type>),
    /// The hit distance is not a float.
    InvalidHitDistanceType(Handle<tag::Expression>),
    /// The target lacks a capability that a statement needs.
    MissingCapability(Capabilities),
    /// The expression needs uniform control flow. Only a lower layer reports it.
    NonUniformControlFlow(UniformityRequirements, Handle<tag::Expression>, UniformityDisruptor),
    /// An argument has a binding, and the function is not an entry point.
    PipelineInputRegularFunction {
        name: Name,
    },
    /// The result has a binding, and the function is not an entry point.
    PipelineOutputRegularFunction,
    /// A workgroup uniform load needs uniform control flow. Only a lower layer reports it.
    NonUniformWorkgroupUniformLoad(UniformityDisruptor),
    /// The result of a workgroup uniform load is not a `WorkGroupUniformLoadResult`.
    WorkgroupUniformLoadExpressionMismatch(Handle<tag::Expression>),
    /// A workgroup uniform load reads outside of `WorkGroup`, or another type than its result has.
    WorkgroupUniformLoadInvalidPointer(Handle<tag::Expression>),
    /// A subgroup operation or a subgroup barrier has this fault.
    InvalidSubgroup(SubgroupError),
    /// The target of a cooperative store is not a cooperative matrix.
    InvalidCooperativeStoreTarget(Handle<tag::Expression>),
    /// The data pointer of a cooperative store points to another scalar type than the matrix has.
    InvalidCooperativeDataPointer(Handle<tag::Expression>),
    /// An emit covers the result of another statement, which alone brings it into scope.
    EmitResult(Handle<tag::Expression>),
    /// No call and no atomic operation of the body has this result.
    UnvisitedExpression(Handle<tag::Expression>),
    /// A count that a mesh shader sets is not a `u32`. Only a lower layer reports it.
    InvalidMeshFunctionCall(Handle<tag::Expression>),
    /// A mesh shader has outputs of two types. Only a lower layer reports it.
    ConflictingMeshOutputTypes(Handle<tag::Expression>, Handle<tag::Expression>),
    /// A function uses two task payloads. Only a lower layer reports it.
    ConflictingTaskPayloadVariables(Handle<tag::Expression>, Handle<tag::Expression>),
    /// An output of a mesh shader is not a struct. Only a lower layer reports it.
    InvalidMeshShaderOutputType(Handle<tag::Expression>),
    /// The payload of a ray is not a pointer.
    InvalidPayloadType,
    /// The payload of a ray is in this address space, which is not for ray payloads.
    InvalidPayloadAddressSpace(AddressSpace),
    /// The payload of this ray is of the first type, and that of an earlier ray of the second.
    MismatchedPayloadType(Handle<tag::Type>, Handle<tag::Type>),
    /// The payload of a ray is not a global variable.
    PayloadPointerNotGlobal,
}

impl From<AtomicError> for FunctionError {
    ghost from_gives = { λ atomic error. error ≡ InvalidAtomic atomic };

    fn from(atomic: AtomicError) -> Self {
        FunctionError::InvalidAtomic(atomic)
    }
}

impl From<SubgroupError> for FunctionError {
    ghost from_gives = { λ subgroup error. error ≡ InvalidSubgroup subgroup };

    fn from(subgroup: SubgroupError) -> Self {
        FunctionError::InvalidSubgroup(subgroup)
    }
}
