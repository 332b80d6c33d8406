//! Facts: what lower layers say of a module.

ghost use Rattle.serde_json.specs.Find.{as_null};
ghost use Rattle.json_document.specs.Document.Facts.{expression_fact_from, expression_fact_of, function_fact_from, function_fact_of, immediates_from, immediates_of, info_fact_of, layout_from, layout_of, mesh_analysis_fact_of, mesh_fault_of, type_info_of};

use crate::document::Documents;
use ir_arena::{Handle, tag};
use ir_errors::MeshFault;
use ir_facts::{ExpressionFact, FunctionFact, InfoFact, MeshAnalysisFact};
use ir_types::{Disalignment, ImmediateError, TypeInfo};
use json_values::{FromJson, Held, Holding, ReadError, read_holding, read_name};

/// The faults of outputs of mesh shaders.
const MESH_FAULTS: [(&str, MeshFault); 2] = [
    ("OutputType", MeshFault::OutputType),
    ("OutputField", MeshFault::OutputField),
];

impl FromJson<Documents> for MeshFault {
    ghost stands_for = { mesh_fault_of };

    fn from_json(_: Documents, held: Held) -> Result<Self, ReadError> {
        read_name(held.alloc, held.value, &MESH_FAULTS)
    }
}

/// Whether something is good.
#[derive(Clone, Copy)]
enum OutcomeName {
    Ok,
    Err,
}

/// Their names.
const OUTCOMES: [(&str, OutcomeName); 2] = [("Ok", OutcomeName::Ok), ("Err", OutcomeName::Err)];

/// The alignment of a layout, or the type that spoils it and why.
impl FromJson<Documents> for Result<u32, (Handle<tag::Type>, Disalignment)> {
    ghost stands_for = { layout_of };

    fn from_json(_: Documents, held: Held) -> Result<Self, ReadError> {
        read_holding(Documents, held, &OUTCOMES)
    }
}

impl Holding<OutcomeName, Documents> for Result<u32, (Handle<tag::Type>, Disalignment)> {
    ghost held_of = { layout_from };

    fn read_held(name: OutcomeName, _: Documents, held: Held) -> Result<Self, ReadError> {
        match name {
            OutcomeName::Ok => match held.read(Documents) {
                Ok(alignment) => Ok(Ok(alignment)),
                Err(error) => Err(error),
            },
            OutcomeName::Err => match held.read(Documents) {
                Ok((ty, reason)) => Ok(Err((ty, Disalignment(reason)))),
                Err(error) => Err(error),
            },
        }
    }
}

/// Whether a type can be an immediate, and why not.
impl FromJson<Documents> for Result<(), ImmediateError> {
    ghost stands_for = { immediates_of };

    fn from_json(_: Documents, held: Held) -> Result<Self, ReadError> {
        read_holding(Documents, held, &OUTCOMES)
    }
}

impl Holding<OutcomeName, Documents> for Result<(), ImmediateError> {
    ghost held_of = { immediates_from };

    fn read_held(name: OutcomeName, _: Documents, held: Held) -> Result<Self, ReadError> {
        match name {
            OutcomeName::Ok => match held.read(Documents) {
                Ok(()) => Ok(Ok(())),
                Err(error) => Err(error),
            },
            OutcomeName::Err => match held.read(Documents) {
                Ok(reason) => Ok(Err(ImmediateError(reason))),
                Err(error) => Err(error),
            },
        }
    }
}

/// Null alone.
impl FromJson<Documents> for () {
    ghost stands_for = { as_null };

    fn from_json(_: Documents, held: Held) -> Result<Self, ReadError> {
        match held.value.is_null() {
            true => Ok(()),
            false => Err(ReadError::expected(held.alloc, "null")),
        }
    }
}

impl FromJson<Documents> for TypeInfo {
    ghost stands_for = { type_info_of };

    fn from_json(_: Documents, held: Held) -> Result<Self, ReadError> {
        match held.four(
            Documents,
            &(
                "flags",
                "storage_layout",
                "uniform_layout",
                "immediates_compatibility",
            ),
        ) {
            Ok((flags, storage_layout, uniform_layout, immediates_compatibility)) => Ok(TypeInfo {
                flags,
                storage_layout,
                uniform_layout,
                immediates_compatibility,
            }),
            Err(error) => Err(error),
        }
    }
}

impl FromJson<Documents> for MeshAnalysisFact {
    ghost stands_for = { mesh_analysis_fact_of };

    fn from_json(_: Documents, held: Held) -> Result<Self, ReadError> {
        match held.three(Documents, &("implied", "overrides", "fault")) {
            Ok((implied, two, fault)) => {
                let (vertices, primitives) = two;
                let overrides = [vertices, primitives];
                Ok(MeshAnalysisFact {
                    implied,
                    overrides,
                    fault,
                })
            }
            Err(error) => Err(error),
        }
    }
}

/// What is known of an expression.
#[derive(Clone, Copy)]
enum ExpressionFactName {
    Stages,
    Error,
}

/// Their names.
const EXPRESSION_FACTS: [(&str, ExpressionFactName); 2] = [
    ("stages", ExpressionFactName::Stages),
    ("error", ExpressionFactName::Error),
];

impl FromJson<Documents> for ExpressionFact {
    ghost stands_for = { expression_fact_of };

    fn from_json(_: Documents, held: Held) -> Result<Self, ReadError> {
        read_holding(Documents, held, &EXPRESSION_FACTS)
    }
}

impl Holding<ExpressionFactName, Documents> for ExpressionFact {
    ghost held_of = { expression_fact_from };

    fn read_held(name: ExpressionFactName, _: Documents, held: Held) -> Result<Self, ReadError> {
        match name {
            ExpressionFactName::Stages => match held.read(Documents) {
                Ok(stages) => Ok(ExpressionFact::Stages(stages)),
                Err(error) => Err(error),
            },
            ExpressionFactName::Error => match held.read(Documents) {
                Ok(fault) => Ok(ExpressionFact::Error(fault)),
                Err(error) => Err(error),
            },
        }
    }
}

impl FromJson<Documents> for InfoFact {
    ghost stands_for = { info_fact_of };

    fn from_json(_: Documents, held: Held) -> Result<Self, ReadError> {
        match held.five(
            Documents,
            &(
                "types",
                "uses",
                "stages",
                "dual_source_blending",
                "expressions",
            ),
        ) {
            Ok((types, uses, stages, dual_source_blending, expressions)) => Ok(InfoFact {
                types,
                uses,
                stages,
                dual_source_blending,
                expressions,
            }),
            Err(error) => Err(error),
        }
    }
}

/// What is known of a function, or what is wrong with it.
#[derive(Clone, Copy)]
enum FunctionFactName {
    Info,
    Error,
}

/// Their names.
const FUNCTION_FACTS: [(&str, FunctionFactName); 2] = [
    ("info", FunctionFactName::Info),
    ("error", FunctionFactName::Error),
];

impl FromJson<Documents> for FunctionFact {
    ghost stands_for = { function_fact_of };

    fn from_json(_: Documents, held: Held) -> Result<Self, ReadError> {
        read_holding(Documents, held, &FUNCTION_FACTS)
    }
}

impl Holding<FunctionFactName, Documents> for FunctionFact {
    ghost held_of = { function_fact_from };

    fn read_held(name: FunctionFactName, _: Documents, held: Held) -> Result<Self, ReadError> {
        match name {
            FunctionFactName::Info => match held.read(Documents) {
                Ok(info) => Ok(FunctionFact::Info(info)),
                Err(error) => Err(error),
            },
            FunctionFactName::Error => match held.read(Documents) {
                Ok(fault) => Ok(FunctionFact::Error(fault)),
                Err(error) => Err(error),
            },
        }
    }
}
