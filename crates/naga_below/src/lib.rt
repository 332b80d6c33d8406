//! For users: the shader IR, what is known of it, questions about types, and tests that handles are in range (`fits_function`).
//! It holds no code: it passes on the `ir_` crates.
#![tactic(auto)]

pub use ir_arena::{
    Arena, Duplicate, Handle, MAX_LEN, Range, Refusal, Sequence, Span, Tagged, WithSpan, tag,
};
pub use ir_errors::ExpressionError;
pub use ir_facts::{ExpressionKind, ExpressionKindTracker, FunctionInfo, ModuleInfo, Settings};
pub use ir_fits::{fits_entry, fits_function, fits_globals, fits_types};
pub use ir_flags::{
    Barrier, Capabilities, GlobalUse, MemoryDecorations, ShaderStages, StorageAccess,
    SubgroupOperationSet, TypeFlags, ValidationFlags,
};
pub use ir_leaves::{
    Binding, BuiltIn, ImageDimension, Interpolation, Name, Sampling, Scalar, ScalarKind,
    ShaderStage, StorageFormat, VectorSize, clone_name,
};
pub use ir_module::{
    Constant, EarlyDepthTest, EntryPoint, Expression, Function, FunctionArgument, FunctionResult,
    GlobalVariable, Literal, LocalVariable, MeshOutputTopology, MeshStageInfo, Module, Override,
    ResourceBinding, SpecialTypes, listed_operands, operand, operand_count,
};
pub use ir_statements::{
    AtomicFunction, Block, CollectiveOperation, CooperativeData, GatherMode, Located, Operands,
    RayPipelineFunction, RayQueryFunction, Statement, SubgroupOperation, SwitchCase, SwitchValue,
};
pub use ir_types::{
    AddressSpace, ArraySize, Disalignment, Identical, ImageClass, ImmediateError, Members,
    StructMember, Type, TypeInfo, TypeInner, TypeResolution, UniqueArena, compare_types,
    type_tests_law,
};
