//! What a misfit is: a place of a module or of what is given beside it, and what is wrong there. All numbers count from 0.

/// What has expressions: the module its global ones; a function by its handle; that of an entry point by its index.
#[derive(Clone, Copy, PartialEq, Eq, Debug)]
pub enum Owner {
    Module,
    Function(usize),
    EntryPoint(usize),
}

/// A type of the module by its handle, or the type that is given of a global expression.
#[derive(Clone, Copy, PartialEq, Eq, Debug)]
pub enum TypeOwner {
    OfModule(usize),
    OfGlobalExpression(usize),
}

/// A field of a type.
#[derive(Clone, Copy, PartialEq, Eq, Debug)]
pub enum TypeField {
    /// The handle by which a type is given.
    Whole,
    /// What a pointer points to, or what an array or a binding array is of.
    Base,
    /// The type of the member with this index.
    Member(usize),
    /// The list of a struct's members.
    Members,
}

/// A field of a global or local variable.
#[derive(Clone, Copy, PartialEq, Eq, Debug)]
pub enum VariableField {
    Ty,
    Init,
    Space,
}

/// A field of a statement, or of the operation, the mode or the source that it holds.
#[derive(Clone, Copy, PartialEq, Eq, Debug)]
pub enum StatementField {
    /// The range of an Emit.
    Range,
    Condition,
    Selector,
    BreakIf,
    Value,
    Pointer,
    Image,
    Coordinate,
    ArrayIndex,
    /// What an exchange compares with.
    Compare,
    Result,
    Function,
    /// The argument of a Call with this index.
    CallArgument(usize),
    /// The argument of an operation over a subgroup.
    Argument,
    Predicate,
    /// The index that the mode of a gather holds.
    Mode,
    Query,
    AccelerationStructure,
    Descriptor,
    HitT,
    Payload,
    Target,
    /// The pointer of the source of a CooperativeStore.
    Source,
}

/// A field of an entry point, or of what it says of its mesh.
#[derive(Clone, Copy, PartialEq, Eq, Debug)]
pub enum EntryField {
    TaskPayload,
    MaxVerticesOverride,
    MaxPrimitivesOverride,
    VertexOutputType,
    PrimitiveOutputType,
    OutputVariable,
}

/// Where something stands that doesn't fit.
#[derive(Clone, Copy, PartialEq, Eq, Debug)]
pub enum Place {
    /// The list of the infos of types.
    TypeInfos,
    /// The layout in storage of the info with this index.
    StorageLayout(usize),
    /// The layout in uniform buffers of the info with this index.
    UniformLayout(usize),
    InType(TypeOwner, TypeField),
    /// The type of ray descriptors.
    RayDesc,
    /// The type of the constant with this handle.
    ConstantType(usize),
    /// The type of the override with this handle.
    OverrideType(usize),
    /// A field of the global variable with this handle.
    InGlobal(usize, VariableField),
    /// The list of the types of global expressions.
    GlobalTypes,
    /// The list of arguments.
    Arguments(Owner),
    /// The type of the argument with this index.
    ArgumentType(Owner, usize),
    /// The type of the result.
    ResultType(Owner),
    /// A field of the local variable with this handle.
    InLocal(Owner, usize, VariableField),
    /// Of the expression with this handle the operand with this index, as `operand` of `ir_module` counts.
    Operand(Owner, usize, usize),
    /// What the expression with this handle names besides its operands: a type, constant, override, variable or function.
    Reference(Owner, usize),
    /// A field of the statement with this number. Statements are counted in visit order, at any depth: each before those
    /// that it holds, a body before its continuing part, a case before the next.
    InStatement(Owner, usize, StatementField),
    /// A field of the entry point with this index.
    InEntryPoint(usize, EntryField),
}

/// A list that handles index.
#[derive(Clone, Copy, PartialEq, Eq, Debug)]
pub enum HandleOf {
    Types,
    Constants,
    Overrides,
    GlobalVariables,
    GlobalExpressions,
    Functions,
    LocalVariables,
    Expressions,
}

/// What is wrong at a place.
#[derive(Clone, Copy, PartialEq, Eq, Debug)]
pub enum Problem {
    /// The handle that stands there has this index, and has to lie below `below`. This is how many items the list has, or
    /// the index of what the handle stands in, since only earlier ones may be named there.
    Handle {
        of: HandleOf,
        index: usize,
        below: usize,
    },
    /// The list has another length than the one that it belongs to.
    Length {
        found: usize,
        wanted: usize,
    },
    /// The list is longer than 32 bits can count.
    TooMany {
        found: usize,
    },
    /// The range starts after its end.
    Backwards {
        start: usize,
        end: usize,
    },
    /// The range ends after the last of so many expressions.
    PastEnd {
        end: usize,
        count: usize,
    },
    /// The variable is in Handle, and a binding array of external images or of ray queries.
    Unbindable,
    /// The global variable is in Function.
    InFunctionSpace,
    /// The size of this type isn't known, and the variable is a task payload.
    UnknownSize {
        ty: usize,
    },
}

/// Something that doesn't fit: where it stands, and what is wrong there.
#[derive(Clone, Copy, PartialEq, Eq, Debug)]
pub struct Misfit {
    pub place: Place,
    pub problem: Problem,
}
