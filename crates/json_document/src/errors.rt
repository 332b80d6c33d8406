//! Faults of expressions and functions that a lower layer finds.

ghost use Rattle.json_nodes.specs.Nodes.{data_of};
ghost use Rattle.json_values.specs.Reads.{ReadsMeaning};
ghost use Rattle.json_document.specs.Document.Errors.{control_flow_of, coordinate_of, error_in_expression_of, expression_error_from, expression_error_of, lower_function_error_from, lower_function_error_of, output_types_of, payloads_of, uniform_load_of};

use crate::document::Documents;
use ir_errors::{ExpressionError, UniformityDisruptor, UniformityRequirements};
use ir_facts::LowerFunctionError;
use json_values::{FromJson, Held, Holding, ReadError, read_either, read_holding};

fn read_coordinate(held: Held) -> Result<ExpressionError, ReadError>
    ensures { ReadsMeaning (coordinate_of (data_of held.entry.value.now)) result }
{
    match held.read(Documents) {
        Ok((dim, coordinate)) => Ok(ExpressionError::InvalidImageCoordinateType(dim, coordinate)),
        Err(error) => Err(error),
    }
}

/// The faults of expressions of which no more is said.
const BARE_ERRORS: [(&str, ExpressionError); 3] = [
    ("NotInScope", ExpressionError::NotInScope),
    (
        "ExpectedGlobalVariable",
        ExpressionError::ExpectedGlobalVariable,
    ),
    (
        "InvalidImageArrayIndex",
        ExpressionError::InvalidImageArrayIndex,
    ),
];

/// The faults of expressions of which more is said.
#[derive(Clone, Copy)]
enum ExpressionErrorName {
    ExpectedBindingArrayType,
    ExpectedImageType,
    InvalidImageClass,
    InvalidImageCoordinateType,
    InvalidImageArrayIndexType,
    InvalidImageStorageAccess,
    InvalidImageFormat,
    Lower,
}

/// Their names.
const EXPRESSION_ERRORS: [(&str, ExpressionErrorName); 8] = [
    (
        "ExpectedBindingArrayType",
        ExpressionErrorName::ExpectedBindingArrayType,
    ),
    ("ExpectedImageType", ExpressionErrorName::ExpectedImageType),
    ("InvalidImageClass", ExpressionErrorName::InvalidImageClass),
    (
        "InvalidImageCoordinateType",
        ExpressionErrorName::InvalidImageCoordinateType,
    ),
    (
        "InvalidImageArrayIndexType",
        ExpressionErrorName::InvalidImageArrayIndexType,
    ),
    (
        "InvalidImageStorageAccess",
        ExpressionErrorName::InvalidImageStorageAccess,
    ),
    (
        "InvalidImageFormat",
        ExpressionErrorName::InvalidImageFormat,
    ),
    ("Lower", ExpressionErrorName::Lower),
];

impl Holding<ExpressionErrorName, Documents> for ExpressionError {
    ghost held_of = { expression_error_from };

    fn read_held(name: ExpressionErrorName, _: Documents, held: Held) -> Result<Self, ReadError> {
        match name {
            ExpressionErrorName::ExpectedBindingArrayType => match held.read(Documents) {
                Ok(ty) => Ok(ExpressionError::ExpectedBindingArrayType(ty)),
                Err(error) => Err(error),
            },
            ExpressionErrorName::ExpectedImageType => match held.read(Documents) {
                Ok(ty) => Ok(ExpressionError::ExpectedImageType(ty)),
                Err(error) => Err(error),
            },
            ExpressionErrorName::InvalidImageClass => match held.read(Documents) {
                Ok(class) => Ok(ExpressionError::InvalidImageClass(class)),
                Err(error) => Err(error),
            },
            ExpressionErrorName::InvalidImageCoordinateType => read_coordinate(held),
            ExpressionErrorName::InvalidImageArrayIndexType => match held.read(Documents) {
                Ok(index) => Ok(ExpressionError::InvalidImageArrayIndexType(index)),
                Err(error) => Err(error),
            },
            ExpressionErrorName::InvalidImageStorageAccess => match held.read(Documents) {
                Ok(access) => Ok(ExpressionError::InvalidImageStorageAccess(access)),
                Err(error) => Err(error),
            },
            ExpressionErrorName::InvalidImageFormat => match held.read(Documents) {
                Ok(format) => Ok(ExpressionError::InvalidImageFormat(format)),
                Err(error) => Err(error),
            },
            ExpressionErrorName::Lower => match held.read(Documents) {
                Ok(fault) => Ok(ExpressionError::Lower(fault)),
                Err(error) => Err(error),
            },
        }
    }
}

impl FromJson<Documents> for ExpressionError {
    ghost stands_for = { expression_error_of };

    fn from_json(_: Documents, held: Held) -> Result<Self, ReadError> {
        read_either(Documents, held, &BARE_ERRORS, &EXPRESSION_ERRORS)
    }
}

/// The faults of functions that a lower layer finds.
#[derive(Clone, Copy)]
enum LowerErrorName {
    Expression,
    MissingRayQueryVertexReturn,
    NonUniformControlFlow,
    NonUniformWorkgroupUniformLoad,
    InvalidMeshFunctionCall,
    ConflictingMeshOutputTypes,
    ConflictingTaskPayloadVariables,
    InvalidMeshShaderOutputType,
}

/// Their names.
const LOWER_ERRORS: [(&str, LowerErrorName); 8] = [
    ("Expression", LowerErrorName::Expression),
    (
        "MissingRayQueryVertexReturn",
        LowerErrorName::MissingRayQueryVertexReturn,
    ),
    (
        "NonUniformControlFlow",
        LowerErrorName::NonUniformControlFlow,
    ),
    (
        "NonUniformWorkgroupUniformLoad",
        LowerErrorName::NonUniformWorkgroupUniformLoad,
    ),
    (
        "InvalidMeshFunctionCall",
        LowerErrorName::InvalidMeshFunctionCall,
    ),
    (
        "ConflictingMeshOutputTypes",
        LowerErrorName::ConflictingMeshOutputTypes,
    ),
    (
        "ConflictingTaskPayloadVariables",
        LowerErrorName::ConflictingTaskPayloadVariables,
    ),
    (
        "InvalidMeshShaderOutputType",
        LowerErrorName::InvalidMeshShaderOutputType,
    ),
];

fn read_expression(held: Held) -> Result<LowerFunctionError, ReadError>
    ensures { ReadsMeaning (error_in_expression_of (data_of held.entry.value.now)) result }
{
    match held.two(Documents, &("handle", "source")) {
        Ok((handle, source)) => Ok(LowerFunctionError::Expression { handle, source }),
        Err(error) => Err(error),
    }
}

fn read_control_flow(held: Held) -> Result<LowerFunctionError, ReadError>
    ensures { ReadsMeaning (control_flow_of (data_of held.entry.value.now)) result }
{
    match held.read(Documents) {
        Ok((requirements, at, disruptor)) => Ok(LowerFunctionError::NonUniformControlFlow(
            UniformityRequirements(requirements),
            at,
            UniformityDisruptor(disruptor),
        )),
        Err(error) => Err(error),
    }
}

fn read_uniform_load(held: Held) -> Result<LowerFunctionError, ReadError>
    ensures { ReadsMeaning (uniform_load_of (data_of held.entry.value.now)) result }
{
    match held.read(Documents) {
        Ok(disruptor) => Ok(LowerFunctionError::NonUniformWorkgroupUniformLoad(UniformityDisruptor(
            disruptor,
        ))),
        Err(error) => Err(error),
    }
}

fn read_output_types(held: Held) -> Result<LowerFunctionError, ReadError>
    ensures { ReadsMeaning (output_types_of (data_of held.entry.value.now)) result }
{
    match held.read(Documents) {
        Ok((one, other)) => Ok(LowerFunctionError::ConflictingMeshOutputTypes(one, other)),
        Err(error) => Err(error),
    }
}

fn read_payloads(held: Held) -> Result<LowerFunctionError, ReadError>
    ensures { ReadsMeaning (payloads_of (data_of held.entry.value.now)) result }
{
    match held.read(Documents) {
        Ok((one, other)) => Ok(LowerFunctionError::ConflictingTaskPayloadVariables(one, other)),
        Err(error) => Err(error),
    }
}

impl Holding<LowerErrorName, Documents> for LowerFunctionError {
    ghost held_of = { lower_function_error_from };

    fn read_held(name: LowerErrorName, _: Documents, held: Held) -> Result<Self, ReadError> {
        match name {
            LowerErrorName::Expression => read_expression(held),
            LowerErrorName::MissingRayQueryVertexReturn => match held.read(Documents) {
                Ok(at) => Ok(LowerFunctionError::MissingRayQueryVertexReturn(at)),
                Err(error) => Err(error),
            },
            LowerErrorName::NonUniformControlFlow => read_control_flow(held),
            LowerErrorName::NonUniformWorkgroupUniformLoad => read_uniform_load(held),
            LowerErrorName::InvalidMeshFunctionCall => match held.read(Documents) {
                Ok(at) => Ok(LowerFunctionError::InvalidMeshFunctionCall(at)),
                Err(error) => Err(error),
            },
            LowerErrorName::ConflictingMeshOutputTypes => read_output_types(held),
            LowerErrorName::ConflictingTaskPayloadVariables => read_payloads(held),
            LowerErrorName::InvalidMeshShaderOutputType => match held.read(Documents) {
                Ok(at) => Ok(LowerFunctionError::InvalidMeshShaderOutputType(at)),
                Err(error) => Err(error),
            },
        }
    }
}

impl FromJson<Documents> for LowerFunctionError {
    ghost stands_for = { lower_function_error_of };

    fn from_json(_: Documents, held: Held) -> Result<Self, ReadError> {
        read_holding(Documents, held, &LOWER_ERRORS)
    }
}
