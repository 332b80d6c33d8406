//! Functions.

ghost use Rattle.json_document.specs.Document.Functions.{function_argument_of, function_of, function_result_of, local_variable_of};
ghost use Rattle.json_expressions.specs.Expressions.{expression_of};
ghost use Rattle.json_statements.specs.Statements.{block_of};

use crate::document::Documents;
use ir_module::{Expression, Function, FunctionArgument, FunctionResult, LocalVariable};
use ir_statements::Block;
use json_expressions::read_expression;
use json_statements::read_body;
use json_values::{FromJson, Held, ReadError};

impl FromJson<Documents> for LocalVariable {
    ghost stands_for = { local_variable_of };

    fn from_json(_: Documents, held: Held) -> Result<Self, ReadError> {
        match held.three(Documents, &("name", "ty", "init")) {
            Ok((name, ty, init)) => Ok(LocalVariable { name, ty, init }),
            Err(error) => Err(error),
        }
    }
}

impl FromJson<Documents> for FunctionArgument {
    ghost stands_for = { function_argument_of };

    fn from_json(_: Documents, held: Held) -> Result<Self, ReadError> {
        match held.three(Documents, &("name", "ty", "binding")) {
            Ok((name, ty, binding)) => Ok(FunctionArgument { name, ty, binding }),
            Err(error) => Err(error),
        }
    }
}

impl FromJson<Documents> for FunctionResult {
    ghost stands_for = { function_result_of };

    fn from_json(_: Documents, held: Held) -> Result<Self, ReadError> {
        match held.two(Documents, &("ty", "binding")) {
            Ok((ty, binding)) => Ok(FunctionResult { ty, binding }),
            Err(error) => Err(error),
        }
    }
}

impl FromJson<Documents> for Expression {
    ghost stands_for = { expression_of };

    fn from_json(_: Documents, held: Held) -> Result<Self, ReadError> {
        read_expression(held.alloc, held.value)
    }
}

impl FromJson<Documents> for Block {
    ghost stands_for = { block_of };

    fn from_json(_: Documents, held: Held) -> Result<Self, ReadError> {
        read_body(held.alloc, held.value)
    }
}

impl FromJson<Documents> for Function {
    ghost stands_for = { function_of };

    fn from_json(_: Documents, held: Held) -> Result<Self, ReadError> {
        match held.five(
            Documents,
            &(
                "arguments",
                "result",
                "local_variables",
                "expressions",
                "body",
            ),
        ) {
            Ok((arguments, result, local_variables, expressions, body)) => Ok(Function {
                arguments,
                result,
                local_variables,
                expressions,
                body,
            }),
            Err(error) => Err(error),
        }
    }
}
