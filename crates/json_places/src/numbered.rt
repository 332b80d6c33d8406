//! A module whose spans number its statements.

use ir_arena::duplicate::duplicates;
use naga_below::{
    Arena, Block, EntryPoint, Function, Located, Module, Sequence, Span, Statement, SwitchCase,
};
use std::alloc::{AllocError, Global};

/// The module, with the number of each statement in its body as the span of the statement. An Err is out of memory.
///
/// Numbers are those of [`statements_of`](crate::statements::statements_of). No check reads spans, so both modules have one
/// judgement, and the span of a fault in a body is the number of its statement.
pub fn numbered_module(alloc: Global, module: &Module) -> Result<Module, AllocError> {
    let mut numbered = Module::new(alloc);
    match number_to(alloc, module, &mut numbered) {
        Ok(()) => Ok(numbered),
        Err(refused) => {
            drop(numbered);
            Err(refused)
        }
    }
}

/// Makes another module the numbered one.
fn number_to(alloc: Global, module: &Module, numbered: &mut Module) -> Result<(), AllocError> {
    numbered.types = module.types.clone(alloc)?;
    numbered.special_types = module.special_types;
    numbered.constants = module.constants.clone(alloc)?;
    numbered.overrides = module.overrides.clone(alloc)?;
    numbered.global_variables = module.global_variables.clone(alloc)?;
    numbered.global_expressions = module.global_expressions.clone(alloc)?;
    numbered.functions = numbered_functions(alloc, module.functions.as_slice())?;
    numbered.entry_points = numbered_entries(alloc, module.entry_points.as_slice())?;
    Ok(())
}

fn numbered_functions(
    alloc: Global,
    functions: &[Function],
) -> Result<Arena<Function>, AllocError> {
    let mut made = Arena::new(alloc);
    for function in functions {
        let function = numbered_function(alloc, function)?;
        if !made.is_full() {
            made.append(function, Span::UNDEFINED)?;
        }
    }
    Ok(made)
}

fn numbered_entries(
    alloc: Global,
    entry_points: &[EntryPoint],
) -> Result<Sequence<EntryPoint>, AllocError> {
    let mut made = Sequence::new(alloc);
    for ep in entry_points {
        made.push(EntryPoint {
            stage: ep.stage,
            early_depth_test: ep.early_depth_test,
            workgroup_size: ep.workgroup_size,
            function: numbered_function(alloc, &ep.function)?,
            mesh_info: ep.mesh_info,
            task_payload: ep.task_payload,
        })?;
    }
    Ok(made)
}

fn numbered_function(alloc: Global, function: &Function) -> Result<Function, AllocError> {
    let mut next = 0u32;
    Ok(Function {
        arguments: Sequence::from(duplicates(alloc, function.arguments.as_slice())?),
        result: function.result,
        local_variables: function.local_variables.clone(alloc)?,
        expressions: function.expressions.clone(alloc)?,
        body: numbered_block(alloc, &mut next, &function.body)?,
    })
}

/// The statements of a list, from this number on.
#[cycle(numbered)]
fn numbered_block(alloc: Global, next: &mut u32, block: &Block) -> Result<Block, AllocError> {
    let mut list = Sequence::new(alloc);
    for located in block.list.as_slice() {
        let span = Span {
            start: *next,
            end: *next,
        };
        *next = next.saturating_add(1);
        let statement = numbered_statement(alloc, next, located)?;
        list.push(Located { statement, span })?;
    }
    Ok(Block { list })
}

#[cycle(numbered)]
fn numbered_statement(
    alloc: Global,
    next: &mut u32,
    located: &Located,
) -> Result<Statement, AllocError> {
    match &located.statement {
        Statement::Block(block) => {
            let block = numbered_block(alloc, next, block)?;
            Ok(Statement::Block(block))
        }
        Statement::If {
            condition,
            accept,
            reject,
        } => {
            let accept = numbered_block(alloc, next, accept)?;
            let reject = numbered_block(alloc, next, reject)?;
            Ok(Statement::If {
                condition: *condition,
                accept,
                reject,
            })
        }
        Statement::Switch { selector, cases } => {
            let cases = numbered_cases(alloc, next, cases.as_slice())?;
            Ok(Statement::Switch {
                selector: *selector,
                cases,
            })
        }
        Statement::Loop {
            body,
            continuing,
            break_if,
        } => {
            let body = numbered_block(alloc, next, body)?;
            let continuing = numbered_block(alloc, next, continuing)?;
            Ok(Statement::Loop {
                body,
                continuing,
                break_if: *break_if,
            })
        }
        Statement::Emit(_)
        | Statement::Break
        | Statement::Continue
        | Statement::Return { .. }
        | Statement::Kill
        | Statement::ControlBarrier(_)
        | Statement::MemoryBarrier(_)
        | Statement::Store { .. }
        | Statement::ImageStore { .. }
        | Statement::Atomic { .. }
        | Statement::ImageAtomic { .. }
        | Statement::WorkGroupUniformLoad { .. }
        | Statement::Call { .. }
        | Statement::RayQuery { .. }
        | Statement::RayPipelineFunction(_)
        | Statement::SubgroupBallot { .. }
        | Statement::SubgroupGather { .. }
        | Statement::SubgroupCollectiveOperation { .. }
        | Statement::CooperativeStore { .. } => located.statement.clone(alloc),
    }
}

#[cycle(numbered)]
fn numbered_cases(
    alloc: Global,
    next: &mut u32,
    cases: &[SwitchCase],
) -> Result<Sequence<SwitchCase>, AllocError> {
    let mut made = Sequence::new(alloc);
    for case in cases {
        let body = numbered_block(alloc, next, &case.body)?;
        made.push(SwitchCase {
            value: case.value,
            body,
            fall_through: case.fall_through,
        })?;
    }
    Ok(made)
}
