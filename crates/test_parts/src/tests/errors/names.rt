//! What each error prints: its name. Which name each of its variants has is a clause of its `name`.

use crate::tests::expect_said;
use ir_arena::Handle;
use ir_errors::{
    AtomicError, CallError, ExpressionError, FunctionError, GlobalVariableError,
    LocalVariableError, MeshFault, SubgroupError, VaryingError,
};
use std::process::Abort;

#[test]
fn errors_of_functions_print_their_names(rt: HostRuntime) {
    let handle = Handle::new(1);
    expect_said(&rt, FunctionError::EmitResult(handle), "EmitResult");
    expect_said(
        &rt,
        CallError::ExpressionMismatch(None),
        "ExpressionMismatch",
    );
    expect_said(&rt, AtomicError::InvalidOperand(handle), "InvalidOperand");
    expect_said(&rt, SubgroupError::UnknownOperation, "UnknownOperation");
    expect_said(&rt, LocalVariableError::InitializerType, "InitializerType");
}

#[test]
fn other_errors_print_their_names(rt: HostRuntime) {
    expect_said(&rt, ExpressionError::Lower(7), "Lower");
    expect_said(&rt, GlobalVariableError::InvalidBinding, "InvalidBinding");
    expect_said(&rt, VaryingError::MissingBinding, "MissingBinding");
    expect_said(&rt, MeshFault::OutputType, "OutputType");
    expect_said(&rt, MeshFault::OutputField, "OutputField");
}
