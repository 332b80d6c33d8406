//! The names of the errors inside those of functions, which they print.

ghost use Rattle.std.specs.Prelude.{◌≡◌};
ghost use Rattle.ir_errors.specs.Names.{atomic_error_name, call_error_name, local_error_name, subgroup_error_name};

use crate::function::{AtomicError, CallError, LocalVariableError, SubgroupError};
use std::fmt;

impl CallError {
    /// The variant's name, as naga has it.
    #[tactic(auto, unfolding(crate::specs::Names::call_error_name))]
    pub fn name(&self) -> &'static str
        ensures { result.now ≡ call_error_name self.now }
    {
        match self {
            CallError::Argument { .. } => "Argument",
            CallError::ResultAlreadyInScope(_) => "ResultAlreadyInScope",
            CallError::ResultAlreadyPopulated(_) => "ResultAlreadyPopulated",
            CallError::ArgumentCount { .. } => "ArgumentCount",
            CallError::ArgumentType { .. } => "ArgumentType",
            CallError::ExpressionMismatch(_) => "ExpressionMismatch",
        }
    }
}

/// Writes the variant's name.
impl fmt::Display for CallError {
    fn fmt<W: fmt::Write>(&self, f: &mut fmt::Formatter<W>) -> fmt::Result {
        f.write_str(self.name())
    }
}

impl std::error::Error for CallError {}

impl AtomicError {
    /// The variant's name, as naga has it.
    #[tactic(auto, unfolding(crate::specs::Names::atomic_error_name))]
    pub fn name(&self) -> &'static str
        ensures { result.now ≡ atomic_error_name self.now }
    {
        match self {
            AtomicError::InvalidPointer(_) => "InvalidPointer",
            AtomicError::InvalidAddressSpace(_) => "InvalidAddressSpace",
            AtomicError::InvalidOperand(_) => "InvalidOperand",
            AtomicError::InvalidOperator(_) => "InvalidOperator",
            AtomicError::InvalidResultExpression(_) => "InvalidResultExpression",
            AtomicError::ResultExpressionExchange(_) => "ResultExpressionExchange",
            AtomicError::ResultExpressionNotExchange(_) => "ResultExpressionNotExchange",
            AtomicError::ResultTypeMismatch(_) => "ResultTypeMismatch",
            AtomicError::MissingReturnValue => "MissingReturnValue",
            AtomicError::MissingCapability(_) => "MissingCapability",
            AtomicError::ResultAlreadyPopulated(_) => "ResultAlreadyPopulated",
        }
    }
}

/// Writes the variant's name.
impl fmt::Display for AtomicError {
    fn fmt<W: fmt::Write>(&self, f: &mut fmt::Formatter<W>) -> fmt::Result {
        f.write_str(self.name())
    }
}

impl std::error::Error for AtomicError {}

impl SubgroupError {
    /// The variant's name, as naga has it.
    #[tactic(auto, unfolding(crate::specs::Names::subgroup_error_name))]
    pub fn name(&self) -> &'static str
        ensures { result.now ≡ subgroup_error_name self.now }
    {
        match self {
            SubgroupError::InvalidOperand(_) => "InvalidOperand",
            SubgroupError::ResultTypeMismatch(_) => "ResultTypeMismatch",
            SubgroupError::UnsupportedOperation(_) => "UnsupportedOperation",
            SubgroupError::UnknownOperation => "UnknownOperation",
            SubgroupError::InvalidInvocationIdExprType(_) => "InvalidInvocationIdExprType",
        }
    }
}

/// Writes the variant's name.
impl fmt::Display for SubgroupError {
    fn fmt<W: fmt::Write>(&self, f: &mut fmt::Formatter<W>) -> fmt::Result {
        f.write_str(self.name())
    }
}

impl std::error::Error for SubgroupError {}

impl LocalVariableError {
    /// The variant's name, as naga has it.
    #[tactic(auto, unfolding(crate::specs::Names::local_error_name))]
    pub fn name(&self) -> &'static str
        ensures { result.now ≡ local_error_name self.now }
    {
        match self {
            LocalVariableError::InvalidType(_) => "InvalidType",
            LocalVariableError::InitializerType => "InitializerType",
            LocalVariableError::NonConstOrOverrideInitializer => "NonConstOrOverrideInitializer",
        }
    }
}

/// Writes the variant's name.
impl fmt::Display for LocalVariableError {
    fn fmt<W: fmt::Write>(&self, f: &mut fmt::Formatter<W>) -> fmt::Result {
        f.write_str(self.name())
    }
}

impl std::error::Error for LocalVariableError {}
