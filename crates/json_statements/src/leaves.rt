//! Statements that hold no others.

ghost use Rattle.json_nodes.specs.Nodes.{data_of};
ghost use Rattle.json_values.specs.Reads.{ReadsMeaning};
ghost use Rattle.json_statements.specs.ReadLeaves.{atomic_of, call_of, cooperative_store_of, image_atomic_of, image_store_of, leaf_from, ray_query_statement_of, return_of, store_of, subgroup_ballot_of, subgroup_collective_operation_of, subgroup_gather_of, work_group_uniform_load_of};

use crate::statements::Statements;
use ir_statements::Statement;
use json_values::{Held, ReadError};

/// The statements that hold something, and no others.
#[derive(Clone, Copy)]
pub(crate) enum LeafName {
    Emit,
    Return,
    ControlBarrier,
    MemoryBarrier,
    Store,
    ImageStore,
    Atomic,
    ImageAtomic,
    WorkGroupUniformLoad,
    Call,
    RayQuery,
    SubgroupBallot,
    SubgroupCollectiveOperation,
    SubgroupGather,
    CooperativeStore,
    RayPipelineFunction,
}

fn read_return(held: Held) -> Result<Statement, ReadError>
    ensures { ReadsMeaning (return_of (data_of held.entry.value.now)) result }
{
    match held.one(Statements, "value") {
        Ok(value) => Ok(Statement::Return { value }),
        Err(error) => Err(error),
    }
}

fn read_store(held: Held) -> Result<Statement, ReadError>
    ensures { ReadsMeaning (store_of (data_of held.entry.value.now)) result }
{
    match held.two(Statements, &("pointer", "value")) {
        Ok((pointer, value)) => Ok(Statement::Store { pointer, value }),
        Err(error) => Err(error),
    }
}

fn read_image_store(held: Held) -> Result<Statement, ReadError>
    ensures { ReadsMeaning (image_store_of (data_of held.entry.value.now)) result }
{
    match held.four(Statements, &("image", "coordinate", "array_index", "value")) {
        Ok((image, coordinate, array_index, value)) => Ok(Statement::ImageStore {
            image,
            coordinate,
            array_index,
            value,
        }),
        Err(error) => Err(error),
    }
}

fn read_atomic(held: Held) -> Result<Statement, ReadError>
    ensures { ReadsMeaning (atomic_of (data_of held.entry.value.now)) result }
{
    match held.four(Statements, &("pointer", "fun", "value", "result")) {
        Ok((pointer, fun, value, result)) => Ok(Statement::Atomic {
            pointer,
            fun,
            value,
            result,
        }),
        Err(error) => Err(error),
    }
}

fn read_image_atomic(held: Held) -> Result<Statement, ReadError>
    ensures { ReadsMeaning (image_atomic_of (data_of held.entry.value.now)) result }
{
    match held.five(
        Statements,
        &("image", "coordinate", "array_index", "fun", "value"),
    ) {
        Ok((image, coordinate, array_index, fun, value)) => Ok(Statement::ImageAtomic {
            image,
            coordinate,
            array_index,
            fun,
            value,
        }),
        Err(error) => Err(error),
    }
}

fn read_work_group_uniform_load(held: Held) -> Result<Statement, ReadError>
    ensures { ReadsMeaning (work_group_uniform_load_of (data_of held.entry.value.now)) result }
{
    match held.two(Statements, &("pointer", "result")) {
        Ok((pointer, result)) => Ok(Statement::WorkGroupUniformLoad { pointer, result }),
        Err(error) => Err(error),
    }
}

fn read_call(held: Held) -> Result<Statement, ReadError>
    ensures { ReadsMeaning (call_of (data_of held.entry.value.now)) result }
{
    match held.three(Statements, &("function", "arguments", "result")) {
        Ok((function, arguments, result)) => Ok(Statement::Call {
            function,
            arguments,
            result,
        }),
        Err(error) => Err(error),
    }
}

fn read_ray_query(held: Held) -> Result<Statement, ReadError>
    ensures { ReadsMeaning (ray_query_statement_of (data_of held.entry.value.now)) result }
{
    match held.two(Statements, &("query", "fun")) {
        Ok((query, fun)) => Ok(Statement::RayQuery { query, fun }),
        Err(error) => Err(error),
    }
}

fn read_subgroup_ballot(held: Held) -> Result<Statement, ReadError>
    ensures { ReadsMeaning (subgroup_ballot_of (data_of held.entry.value.now)) result }
{
    match held.two(Statements, &("result", "predicate")) {
        Ok((result, predicate)) => Ok(Statement::SubgroupBallot { result, predicate }),
        Err(error) => Err(error),
    }
}

fn read_subgroup_collective_operation(held: Held) -> Result<Statement, ReadError>
    ensures { ReadsMeaning (subgroup_collective_operation_of (data_of held.entry.value.now)) result }
{
    match held.four(Statements, &("op", "collective_op", "argument", "result")) {
        Ok((op, collective_op, argument, result)) => Ok(Statement::SubgroupCollectiveOperation {
            op,
            collective_op,
            argument,
            result,
        }),
        Err(error) => Err(error),
    }
}

fn read_subgroup_gather(held: Held) -> Result<Statement, ReadError>
    ensures { ReadsMeaning (subgroup_gather_of (data_of held.entry.value.now)) result }
{
    match held.three(Statements, &("mode", "argument", "result")) {
        Ok((mode, argument, result)) => Ok(Statement::SubgroupGather {
            mode,
            argument,
            result,
        }),
        Err(error) => Err(error),
    }
}

fn read_cooperative_store(held: Held) -> Result<Statement, ReadError>
    ensures { ReadsMeaning (cooperative_store_of (data_of held.entry.value.now)) result }
{
    match held.two(Statements, &("target", "source")) {
        Ok((target, source)) => Ok(Statement::CooperativeStore { target, source }),
        Err(error) => Err(error),
    }
}

/// The statement of this kind, by what it holds.
pub(crate) fn read_leaf(kind: LeafName, held: Held) -> Result<Statement, ReadError>
    ensures { ReadsMeaning (leaf_from kind (data_of held.entry.value.now)) result }
{
    match kind {
        LeafName::Emit => match held.read(Statements) {
            Ok(range) => Ok(Statement::Emit(range)),
            Err(error) => Err(error),
        },
        LeafName::Return => read_return(held),
        LeafName::ControlBarrier => match held.read(Statements) {
            Ok(barrier) => Ok(Statement::ControlBarrier(barrier)),
            Err(error) => Err(error),
        },
        LeafName::MemoryBarrier => match held.read(Statements) {
            Ok(barrier) => Ok(Statement::MemoryBarrier(barrier)),
            Err(error) => Err(error),
        },
        LeafName::Store => read_store(held),
        LeafName::ImageStore => read_image_store(held),
        LeafName::Atomic => read_atomic(held),
        LeafName::ImageAtomic => read_image_atomic(held),
        LeafName::WorkGroupUniformLoad => read_work_group_uniform_load(held),
        LeafName::Call => read_call(held),
        LeafName::RayQuery => read_ray_query(held),
        LeafName::SubgroupBallot => read_subgroup_ballot(held),
        LeafName::SubgroupCollectiveOperation => read_subgroup_collective_operation(held),
        LeafName::SubgroupGather => read_subgroup_gather(held),
        LeafName::CooperativeStore => read_cooperative_store(held),
        LeafName::RayPipelineFunction => match held.read(Statements) {
            Ok(function) => Ok(Statement::RayPipelineFunction(function)),
            Err(error) => Err(error),
        },
    }
}
