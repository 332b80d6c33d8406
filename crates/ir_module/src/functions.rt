//! Functions.

ghost use Rattle.std.specs.Prelude.{◌≡◌, IfOk};
ghost use Rattle.ir_module.specs.Empty.{empty_function};

use crate::expressions::Expression;
use ir_arena::arena::Arena;
use ir_arena::duplicate::{Duplicate, duplicates};
use ir_arena::handle::{Handle, Tagged};
use ir_arena::sequence::Sequence;
use ir_arena::tag;
use ir_leaves::bindings::Binding;
use ir_leaves::name::{Name, clone_name};
use ir_statements::statements::Block;
use std::alloc::{AllocError, Global};

/// A local variable of a function. `init` is an expression of the function.
///
/// In an accepted module it is a constant or override expression, and of the variable's type.
#[derive(PartialEq, Debug, Drop)]
pub struct LocalVariable {
    pub name: Option<Name>,
    pub ty: Handle<tag::Type>,
    pub init: Option<Handle<tag::Expression>>,
}

impl Tagged for LocalVariable {
    type Tag = tag::LocalVariable;
}

/// An argument of a function.
#[derive(PartialEq, Debug, Drop)]
pub struct FunctionArgument {
    pub name: Option<Name>,
    pub ty: Handle<tag::Type>,
    /// In an accepted module only an argument of an entry point has one.
    pub binding: Option<Binding>,
}

/// The result of a function.
#[derive(Clone, Copy, PartialEq, Eq, Debug)]
pub struct FunctionResult {
    pub ty: Handle<tag::Type>,
    /// In an accepted module only the result of an entry point has one.
    pub binding: Option<Binding>,
}

/// A function of a module, or that of an entry point.
#[derive(Drop)]
pub struct Function {
    /// `Expression::FunctionArgument` holds an index in this list, counted from 0.
    pub arguments: Sequence<FunctionArgument>,
    pub result: Option<FunctionResult>,
    pub local_variables: Arena<LocalVariable>,
    /// In an accepted module the operands of each are earlier ones.
    pub expressions: Arena<Expression>,
    pub body: Block,
}

impl Tagged for Function {
    type Tag = tag::Function;
}

impl LocalVariable {
    /// Clones the variable. An Err is out of memory.
    pub fn clone(&self, alloc: Global) -> Result<Self, AllocError>
        ensures { IfOk result (λ made. made ≡ self.now) }
    {
        Ok(LocalVariable {
            name: clone_name(alloc, &self.name)?,
            ty: self.ty,
            init: self.init,
        })
    }
}

impl FunctionArgument {
    /// Clones the argument. An Err is out of memory.
    pub fn clone(&self, alloc: Global) -> Result<Self, AllocError>
        ensures { IfOk result (λ made. made ≡ self.now) }
    {
        Ok(FunctionArgument {
            name: clone_name(alloc, &self.name)?,
            ty: self.ty,
            binding: self.binding,
        })
    }
}

impl Duplicate for LocalVariable {
    fn duplicate(&self, alloc: Global) -> Result<Self, AllocError> {
        self.clone(alloc)
    }
}

impl Duplicate for FunctionArgument {
    fn duplicate(&self, alloc: Global) -> Result<Self, AllocError> {
        self.clone(alloc)
    }
}

impl Function {
    /// An empty function, which keeps the allocator.
    pub fn new(alloc: Global) -> Self
        ensures { result ≡ empty_function }
    {
        Function {
            arguments: Sequence::new(alloc),
            result: None,
            local_variables: Arena::new(alloc),
            expressions: Arena::new(alloc),
            body: Block::new(alloc),
        }
    }

    /// Clones the function. An Err is out of memory.
    pub fn clone(&self, alloc: Global) -> Result<Self, AllocError>
        ensures { IfOk result (λ made. made ≡ self.now) }
    {
        let arguments = duplicates(alloc, self.arguments.as_slice())?;
        Ok(Function {
            arguments: Sequence::from(arguments),
            result: self.result,
            local_variables: self.local_variables.clone(alloc)?,
            expressions: self.expressions.clone(alloc)?,
            body: self.body.clone(alloc)?,
        })
    }
}

impl Duplicate for Function {
    fn duplicate(&self, alloc: Global) -> Result<Self, AllocError> {
        self.clone(alloc)
    }
}
