//! Operations of atomics, subgroups and rays, and what else statements name.

ghost use Rattle.std.specs.Prelude.{◌≡◌};
ghost use Rattle.json_statements.specs.ReadOperations.{atomic_function_from, atomic_function_of, collective_operation_of, cooperative_data_of, gather_from, gather_mode_from, gather_mode_of, range_of, ray_pipeline_function_from, ray_pipeline_function_of, ray_query_function_from, ray_query_function_of, subgroup_operation_of, switch_value_from, switch_value_of};

use crate::statements::Statements;
use ir_arena::{Handle, Range, tag};
use ir_statements::{
    AtomicFunction, CollectiveOperation, CooperativeData, GatherMode, RayPipelineFunction,
    RayQueryFunction, SubgroupOperation, SwitchValue,
};
use json_values::{FromJson, Held, Holding, ReadError, read_either, read_holding, read_name};

/// The atomic operations of which no more is said.
const ATOMIC_FUNCTIONS: [(&str, AtomicFunction); 7] = [
    ("Add", AtomicFunction::Add),
    ("Subtract", AtomicFunction::Subtract),
    ("And", AtomicFunction::And),
    ("ExclusiveOr", AtomicFunction::ExclusiveOr),
    ("InclusiveOr", AtomicFunction::InclusiveOr),
    ("Min", AtomicFunction::Min),
    ("Max", AtomicFunction::Max),
];

/// The exchange, which may compare.
const EXCHANGE: [(&str, ()); 1] = [("Exchange", ())];

impl FromJson<Statements> for AtomicFunction {
    ghost stands_for = { atomic_function_of };

    fn from_json(_: Statements, held: Held) -> Result<Self, ReadError> {
        read_either(Statements, held, &ATOMIC_FUNCTIONS, &EXCHANGE)
    }
}

impl Holding<(), Statements> for AtomicFunction {
    ghost held_of = { atomic_function_from };

    fn read_held(_: (), _: Statements, held: Held) -> Result<Self, ReadError> {
        match held.one(Statements, "compare") {
            Ok(compare) => Ok(AtomicFunction::Exchange { compare }),
            Err(error) => Err(error),
        }
    }
}

/// The operations of subgroups.
const SUBGROUP_OPERATIONS: [(&str, SubgroupOperation); 9] = [
    ("All", SubgroupOperation::All),
    ("Any", SubgroupOperation::Any),
    ("Add", SubgroupOperation::Add),
    ("Mul", SubgroupOperation::Mul),
    ("Min", SubgroupOperation::Min),
    ("Max", SubgroupOperation::Max),
    ("And", SubgroupOperation::And),
    ("Or", SubgroupOperation::Or),
    ("Xor", SubgroupOperation::Xor),
];

impl FromJson<Statements> for SubgroupOperation {
    ghost stands_for = { subgroup_operation_of };

    fn from_json(_: Statements, held: Held) -> Result<Self, ReadError> {
        read_name(held.alloc, held.value, &SUBGROUP_OPERATIONS)
    }
}

/// Over which invocations an operation goes.
const COLLECTIVE_OPERATIONS: [(&str, CollectiveOperation); 3] = [
    ("Reduce", CollectiveOperation::Reduce),
    ("InclusiveScan", CollectiveOperation::InclusiveScan),
    ("ExclusiveScan", CollectiveOperation::ExclusiveScan),
];

impl FromJson<Statements> for CollectiveOperation {
    ghost stands_for = { collective_operation_of };

    fn from_json(_: Statements, held: Held) -> Result<Self, ReadError> {
        read_name(held.alloc, held.value, &COLLECTIVE_OPERATIONS)
    }
}

/// The gather of which no more is said.
const BARE_GATHERS: [(&str, GatherMode); 1] = [("BroadcastFirst", GatherMode::BroadcastFirst)];

/// From where a gather takes its value, which an expression says.
#[derive(Clone, Copy)]
enum GatherPlace {
    Broadcast,
    Shuffle,
    ShuffleDown,
    ShuffleUp,
    ShuffleXor,
    QuadBroadcast,
}

/// The gathers of which more is said.
#[derive(Clone, Copy)]
enum GatherName {
    QuadSwap,
    From(GatherPlace),
}

/// Their names.
const GATHER_MODES: [(&str, GatherName); 7] = [
    ("QuadSwap", GatherName::QuadSwap),
    ("Broadcast", GatherName::From(GatherPlace::Broadcast)),
    ("Shuffle", GatherName::From(GatherPlace::Shuffle)),
    ("ShuffleDown", GatherName::From(GatherPlace::ShuffleDown)),
    ("ShuffleUp", GatherName::From(GatherPlace::ShuffleUp)),
    ("ShuffleXor", GatherName::From(GatherPlace::ShuffleXor)),
    (
        "QuadBroadcast",
        GatherName::From(GatherPlace::QuadBroadcast),
    ),
];

/// The gather of a place, which an expression says.
fn gather_from(place: GatherPlace, index: Handle<tag::Expression>) -> GatherMode
    ensures { result ≡ gather_from place index }
{
    match place {
        GatherPlace::Broadcast => GatherMode::Broadcast(index),
        GatherPlace::Shuffle => GatherMode::Shuffle(index),
        GatherPlace::ShuffleDown => GatherMode::ShuffleDown(index),
        GatherPlace::ShuffleUp => GatherMode::ShuffleUp(index),
        GatherPlace::ShuffleXor => GatherMode::ShuffleXor(index),
        GatherPlace::QuadBroadcast => GatherMode::QuadBroadcast(index),
    }
}

impl Holding<GatherName, Statements> for GatherMode {
    ghost held_of = { gather_mode_from };

    fn read_held(name: GatherName, _: Statements, held: Held) -> Result<Self, ReadError> {
        match name {
            GatherName::QuadSwap => match held.read(Statements) {
                Ok(direction) => Ok(GatherMode::QuadSwap(direction)),
                Err(error) => Err(error),
            },
            GatherName::From(place) => match held.read(Statements) {
                Ok(index) => Ok(gather_from(place, index)),
                Err(error) => Err(error),
            },
        }
    }
}

impl FromJson<Statements> for GatherMode {
    ghost stands_for = { gather_mode_of };

    fn from_json(_: Statements, held: Held) -> Result<Self, ReadError> {
        read_either(Statements, held, &BARE_GATHERS, &GATHER_MODES)
    }
}

/// What is done with a ray query, and needs nothing.
const BARE_QUERIES: [(&str, RayQueryFunction); 2] = [
    ("ConfirmIntersection", RayQueryFunction::ConfirmIntersection),
    ("Terminate", RayQueryFunction::Terminate),
];

/// What is done with a ray query by expressions.
#[derive(Clone, Copy)]
enum RayQueryName {
    Initialize,
    Proceed,
    GenerateIntersection,
}

/// Their names.
const RAY_QUERIES: [(&str, RayQueryName); 3] = [
    ("Initialize", RayQueryName::Initialize),
    ("Proceed", RayQueryName::Proceed),
    ("GenerateIntersection", RayQueryName::GenerateIntersection),
];

impl Holding<RayQueryName, Statements> for RayQueryFunction {
    ghost held_of = { ray_query_function_from };

    fn read_held(name: RayQueryName, _: Statements, held: Held) -> Result<Self, ReadError> {
        match name {
            RayQueryName::Initialize => match held.two(
                Statements,
                &("acceleration_structure", "descriptor"),
            ) {
                Ok((acceleration_structure, descriptor)) => Ok(RayQueryFunction::Initialize {
                    acceleration_structure,
                    descriptor,
                }),
                Err(error) => Err(error),
            },
            RayQueryName::Proceed => match held.one(Statements, "result") {
                Ok(result) => Ok(RayQueryFunction::Proceed { result }),
                Err(error) => Err(error),
            },
            RayQueryName::GenerateIntersection => match held.one(Statements, "hit_t") {
                Ok(hit_t) => Ok(RayQueryFunction::GenerateIntersection { hit_t }),
                Err(error) => Err(error),
            },
        }
    }
}

impl FromJson<Statements> for RayQueryFunction {
    ghost stands_for = { ray_query_function_of };

    fn from_json(_: Statements, held: Held) -> Result<Self, ReadError> {
        read_either(Statements, held, &BARE_QUERIES, &RAY_QUERIES)
    }
}

/// What a ray pipeline does.
const RAY_PIPELINES: [(&str, ()); 1] = [("TraceRay", ())];

impl FromJson<Statements> for RayPipelineFunction {
    ghost stands_for = { ray_pipeline_function_of };

    fn from_json(_: Statements, held: Held) -> Result<Self, ReadError> {
        read_holding(Statements, held, &RAY_PIPELINES)
    }
}

impl Holding<(), Statements> for RayPipelineFunction {
    ghost held_of = { ray_pipeline_function_from };

    fn read_held(_: (), _: Statements, held: Held) -> Result<Self, ReadError> {
        match held.three(
            Statements,
            &("acceleration_structure", "descriptor", "payload"),
        ) {
            Ok((acceleration_structure, descriptor, payload)) => Ok(
                RayPipelineFunction::TraceRay {
                    acceleration_structure,
                    descriptor,
                    payload,
                },
            ),
            Err(error) => Err(error),
        }
    }
}

impl FromJson<Statements> for CooperativeData {
    ghost stands_for = { cooperative_data_of };

    fn from_json(_: Statements, held: Held) -> Result<Self, ReadError> {
        match held.two(Statements, &("pointer", "detail")) {
            Ok((pointer, detail)) => Ok(CooperativeData { pointer, detail }),
            Err(error) => Err(error),
        }
    }
}

/// The value of a default case.
const BARE_VALUES: [(&str, SwitchValue); 1] = [("Default", SwitchValue::Default)];

/// The values of the other cases.
#[derive(Clone, Copy)]
enum ValueName {
    I32,
    U32,
}

/// Their names.
const SWITCH_VALUES: [(&str, ValueName); 2] = [("I32", ValueName::I32), ("U32", ValueName::U32)];

impl FromJson<Statements> for SwitchValue {
    ghost stands_for = { switch_value_of };

    fn from_json(_: Statements, held: Held) -> Result<Self, ReadError> {
        read_either(Statements, held, &BARE_VALUES, &SWITCH_VALUES)
    }
}

impl Holding<ValueName, Statements> for SwitchValue {
    ghost held_of = { switch_value_from };

    fn read_held(name: ValueName, _: Statements, held: Held) -> Result<Self, ReadError> {
        match name {
            ValueName::I32 => match held.read(Statements) {
                Ok(number) => Ok(SwitchValue::I32(number)),
                Err(error) => Err(error),
            },
            ValueName::U32 => match held.read(Statements) {
                Ok(number) => Ok(SwitchValue::U32(number)),
                Err(error) => Err(error),
            },
        }
    }
}

impl FromJson<Statements> for Range {
    ghost stands_for = { range_of };

    fn from_json(_: Statements, held: Held) -> Result<Self, ReadError> {
        match held.two(Statements, &("start", "end")) {
            Ok((start, end)) => Ok(Range { start, end }),
            Err(error) => Err(error),
        }
    }
}
