//! Empty types, one for each kind of handle: so a handle of one arena can't be used with another.

/// A type of a module.
#[derive(Clone, Copy, PartialEq, Eq, Debug)]
pub struct Type;

/// A constant of a module.
#[derive(Clone, Copy, PartialEq, Eq, Debug)]
pub struct Constant;

/// A constant of a module that the pipeline may override.
#[derive(Clone, Copy, PartialEq, Eq, Debug)]
pub struct Override;

/// A variable of a module.
#[derive(Clone, Copy, PartialEq, Eq, Debug)]
pub struct GlobalVariable;

/// A variable of one function.
#[derive(Clone, Copy, PartialEq, Eq, Debug)]
pub struct LocalVariable;

/// An expression of one function, or a global expression of a module.
#[derive(Clone, Copy, PartialEq, Eq, Debug)]
pub struct Expression;

/// A function of a module; the functions of entry points have no handles.
#[derive(Clone, Copy, PartialEq, Eq, Debug)]
pub struct Function;
