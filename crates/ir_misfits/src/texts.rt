//! Misfits in words, each on one line without a newline: `operand 0 of expression 7 of function 2 names expression 9, and only
//! those below 7 may stand there`.

use crate::misfit::{
    EntryField, HandleOf, Misfit, Owner, Place, Problem, StatementField, TypeField, TypeOwner,
    VariableField,
};
use std::fmt;

impl fmt::Display for Owner {
    fn fmt<W: fmt::Write>(&self, f: &mut fmt::Formatter<W>) -> fmt::Result {
        match self {
            Owner::Module => f.write_str("the module"),
            Owner::Function(function) => write!(f, "function {function}"),
            Owner::EntryPoint(index) => write!(f, "entry point {index}"),
        }
    }
}

impl fmt::Display for TypeOwner {
    fn fmt<W: fmt::Write>(&self, f: &mut fmt::Formatter<W>) -> fmt::Result {
        match self {
            TypeOwner::OfModule(ty) => write!(f, "type {ty}"),
            TypeOwner::OfGlobalExpression(expression) => {
                write!(f, "the type of global expression {expression}")
            }
        }
    }
}

impl fmt::Display for VariableField {
    fn fmt<W: fmt::Write>(&self, f: &mut fmt::Formatter<W>) -> fmt::Result {
        f.write_str(match self {
            VariableField::Ty => "type",
            VariableField::Init => "initializer",
            VariableField::Space => "space",
        })
    }
}

impl fmt::Display for StatementField {
    fn fmt<W: fmt::Write>(&self, f: &mut fmt::Formatter<W>) -> fmt::Result {
        if let StatementField::CallArgument(index) = self {
            return write!(f, "argument {index}");
        }
        f.write_str(match self {
            StatementField::Range => "range",
            StatementField::Condition => "condition",
            StatementField::Selector => "selector",
            StatementField::BreakIf => "break condition",
            StatementField::Value => "value",
            StatementField::Pointer => "pointer",
            StatementField::Image => "image",
            StatementField::Coordinate => "coordinate",
            StatementField::ArrayIndex => "array index",
            StatementField::Compare => "compare value",
            StatementField::Result => "result",
            StatementField::Function => "function",
            StatementField::CallArgument(_) | StatementField::Argument => "argument",
            StatementField::Predicate => "predicate",
            StatementField::Mode => "index",
            StatementField::Query => "query",
            StatementField::AccelerationStructure => "acceleration structure",
            StatementField::Descriptor => "descriptor",
            StatementField::HitT => "hit distance",
            StatementField::Payload => "payload",
            StatementField::Target => "target",
            StatementField::Source => "source",
        })
    }
}

impl fmt::Display for EntryField {
    fn fmt<W: fmt::Write>(&self, f: &mut fmt::Formatter<W>) -> fmt::Result {
        f.write_str(match self {
            EntryField::TaskPayload => "task payload",
            EntryField::MaxVerticesOverride => "override of the maximum of vertices",
            EntryField::MaxPrimitivesOverride => "override of the maximum of primitives",
            EntryField::VertexOutputType => "vertex output type",
            EntryField::PrimitiveOutputType => "primitive output type",
            EntryField::OutputVariable => "output variable",
        })
    }
}

/// Writes which part of a type it is.
fn write_type_field<W: fmt::Write>(
    f: &mut fmt::Formatter<W>,
    owner: &TypeOwner,
    field: &TypeField,
) -> fmt::Result {
    match field {
        TypeField::Whole => write!(f, "{owner}"),
        TypeField::Base => write!(f, "the base of {owner}"),
        TypeField::Member(index) => write!(f, "the type of member {index} of {owner}"),
        TypeField::Members => write!(f, "the list of members of {owner}"),
    }
}

/// Writes what something is, and its number: `the type of constant 3`.
fn write_numbered<W: fmt::Write>(
    f: &mut fmt::Formatter<W>,
    what: &str,
    number: usize,
) -> fmt::Result {
    write!(f, "{what} {number}")
}

/// Writes a part of something: `operand 0 of expression 7`.
fn write_part<W: fmt::Write>(
    f: &mut fmt::Formatter<W>,
    part: &str,
    index: usize,
    whole: &str,
    number: usize,
) -> fmt::Result {
    write!(f, "{part} {index} of {whole} {number}")
}

/// Writes a field of something: `the space of global 2`.
fn write_field<F: fmt::Display, W: fmt::Write>(
    f: &mut fmt::Formatter<W>,
    field: &F,
    whole: &str,
    number: usize,
) -> fmt::Result {
    write!(f, "the {field} of {whole} {number}")
}

/// Writes whose it is: ` of function 2`.
fn write_owner<W: fmt::Write>(f: &mut fmt::Formatter<W>, owner: &Owner) -> fmt::Result {
    write!(f, " of {owner}")
}

/// Writes the place of an operand.
fn write_operand<W: fmt::Write>(
    f: &mut fmt::Formatter<W>,
    owner: &Owner,
    expression: usize,
    index: usize,
) -> fmt::Result {
    if let Owner::Module = owner {
        return write_part(f, "operand", index, "global expression", expression);
    }
    write_part(f, "operand", index, "expression", expression)?;
    write_owner(f, owner)
}

/// Writes the place of a field of a statement.
fn write_in_statement<W: fmt::Write>(
    f: &mut fmt::Formatter<W>,
    owner: &Owner,
    number: usize,
    field: &StatementField,
) -> fmt::Result {
    match field {
        StatementField::CallArgument(index) => {
            write_part(f, "argument", *index, "statement", number)?;
        }
        field => write_field(f, field, "statement", number)?,
    }
    write_owner(f, owner)
}

/// Writes what belongs to an owner: `the type of argument 1 of function 2`.
fn write_owned<W: fmt::Write>(
    f: &mut fmt::Formatter<W>,
    what: &str,
    number: usize,
    owner: &Owner,
) -> fmt::Result {
    write_numbered(f, what, number)?;
    write_owner(f, owner)
}

/// Writes the place as a noun: `the value of statement 3 of function 2`.
impl fmt::Display for Place {
    fn fmt<W: fmt::Write>(&self, f: &mut fmt::Formatter<W>) -> fmt::Result {
        match self {
            Place::TypeInfos => f.write_str("the list of type infos"),
            Place::StorageLayout(info) => {
                write_numbered(f, "the storage layout of type info", *info)
            }
            Place::UniformLayout(info) => {
                write_numbered(f, "the uniform layout of type info", *info)
            }
            Place::InType(owner, field) => write_type_field(f, owner, field),
            Place::RayDesc => f.write_str("the type of ray descriptors"),
            Place::ConstantType(constant) => write_numbered(f, "the type of constant", *constant),
            Place::OverrideType(item) => write_numbered(f, "the type of override", *item),
            Place::InGlobal(global, field) => write_field(f, field, "global", *global),
            Place::GlobalTypes => f.write_str("the list of types of global expressions"),
            Place::Arguments(owner) => write!(f, "the list of arguments of {owner}"),
            Place::ArgumentType(owner, index) => {
                write_owned(f, "the type of argument", *index, owner)
            }
            Place::ResultType(owner) => write!(f, "the type of the result of {owner}"),
            Place::InLocal(owner, local, field) => {
                write_field(f, field, "local", *local)?;
                write_owner(f, owner)
            }
            Place::Operand(owner, expression, index) => {
                write_operand(f, owner, *expression, *index)
            }
            Place::Reference(owner, expression) => write_owned(f, "expression", *expression, owner),
            Place::InStatement(owner, number, field) => {
                write_in_statement(f, owner, *number, field)
            }
            Place::InEntryPoint(index, field) => write_field(f, field, "entry point", *index),
        }
    }
}

/// Writes what one item of the list is called.
impl fmt::Display for HandleOf {
    fn fmt<W: fmt::Write>(&self, f: &mut fmt::Formatter<W>) -> fmt::Result {
        f.write_str(match self {
            HandleOf::Types => "type",
            HandleOf::Constants => "constant",
            HandleOf::Overrides => "override",
            HandleOf::GlobalVariables => "global",
            HandleOf::GlobalExpressions => "global expression",
            HandleOf::Functions => "function",
            HandleOf::LocalVariables => "local",
            HandleOf::Expressions => "expression",
        })
    }
}

/// Writes how long a list is, and how long it has to be. The list is named before, with a space.
pub(crate) fn write_length<W: fmt::Write>(
    f: &mut fmt::Formatter<W>,
    list: &str,
    found: usize,
    wanted: usize,
) -> fmt::Result {
    write!(f, "{list}has {found} items, and {wanted} are wanted")
}

/// Writes that a handle is out of range.
fn write_handle<W: fmt::Write>(
    f: &mut fmt::Formatter<W>,
    of: &HandleOf,
    index: usize,
    below: usize,
) -> fmt::Result {
    write!(f, "names {of} {index}, and ")?;
    if below == 0 {
        return f.write_str("none may stand there");
    }
    write!(f, "only those below {below} may stand there")
}

/// Writes what is said of a place: `names expression 9, and only those below 7 may stand there`.
impl fmt::Display for Problem {
    fn fmt<W: fmt::Write>(&self, f: &mut fmt::Formatter<W>) -> fmt::Result {
        match self {
            Problem::Handle { of, index, below } => write_handle(f, of, *index, *below),
            Problem::Length { found, wanted } => write_length(f, "", *found, *wanted),
            Problem::TooMany { found } => write!(f, "has {found} items, more than 32 bits count"),
            Problem::Backwards { start, end } => write!(f, "starts at {start} and ends at {end}"),
            Problem::PastEnd { end, count } => {
                write!(f, "ends at {end}, and there are {count} expressions")
            }
            Problem::Unbindable => f.write_str(
                "is a binding array of external images or ray queries, and the space is Handle",
            ),
            Problem::InFunctionSpace => f.write_str("is Function, where no global may lie"),
            Problem::UnknownSize { ty } => write!(
                f,
                "is type {ty}, whose size isn't known, and the space is TaskPayload"
            ),
        }
    }
}

impl fmt::Display for Misfit {
    fn fmt<W: fmt::Write>(&self, f: &mut fmt::Formatter<W>) -> fmt::Result {
        let (place, problem) = (&self.place, &self.problem);
        write!(f, "{place} {problem}")
    }
}
