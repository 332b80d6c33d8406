//! Statements and blocks.

ghost use Rattle.std.specs.Prelude.{◌≡◌, IfOk, OnOk, OnErr};
ghost use Rattle.ir_statements.specs.Blocks.{block_of, empty_block, with_last};

use crate::operations::{
    AtomicFunction, CollectiveOperation, CooperativeData, GatherMode, RayPipelineFunction,
    RayQueryFunction, SubgroupOperation, SwitchValue,
};
use ir_arena::handle::Handle;
use ir_arena::range::Range;
use ir_arena::sequence::Sequence;
use ir_arena::span::Span;
use ir_arena::tag;
use ir_flags::ir::Barrier;
use std::alloc::{AllocError, Global};

/// The operands of an expression, or the arguments of a call, in order.
pub type Operands = Sequence<Handle<tag::Expression>>;

/// A statement with its span.
#[cycle(statement)]
#[derive(PartialEq, Debug, Drop)]
pub struct Located {
    pub statement: Statement,
    pub span: Span,
}

/// A list of statements.
#[cycle(statement)]
#[derive(PartialEq, Debug, Drop)]
pub struct Block {
    pub list: Sequence<Located>,
}

/// A case of a switch. If it falls through, the next case runs after its body.
///
/// In an accepted module the last case doesn't.
#[cycle(statement)]
#[derive(PartialEq, Debug, Drop)]
pub struct SwitchCase {
    pub value: SwitchValue,
    pub body: Block,
    pub fall_through: bool,
}

/// A statement. The kinds and their fields are naga's. Handles of expressions belong to the same function.
///
/// In an accepted module they are in scope where they are used.
#[cycle(statement)]
#[derive(PartialEq, Debug, Drop)]
pub enum Statement {
    Emit(Range),
    Block(Block),
    If {
        condition: Handle<tag::Expression>,
        accept: Block,
        reject: Block,
    },
    Switch {
        selector: Handle<tag::Expression>,
        cases: Sequence<SwitchCase>,
    },
    Loop {
        body: Block,
        continuing: Block,
        break_if: Option<Handle<tag::Expression>>,
    },
    Break,
    Continue,
    Return {
        value: Option<Handle<tag::Expression>>,
    },
    Kill,
    ControlBarrier(Barrier),
    MemoryBarrier(Barrier),
    Store {
        pointer: Handle<tag::Expression>,
        value: Handle<tag::Expression>,
    },
    ImageStore {
        image: Handle<tag::Expression>,
        coordinate: Handle<tag::Expression>,
        array_index: Option<Handle<tag::Expression>>,
        value: Handle<tag::Expression>,
    },
    Atomic {
        pointer: Handle<tag::Expression>,
        fun: AtomicFunction,
        value: Handle<tag::Expression>,
        result: Option<Handle<tag::Expression>>,
    },
    ImageAtomic {
        image: Handle<tag::Expression>,
        coordinate: Handle<tag::Expression>,
        array_index: Option<Handle<tag::Expression>>,
        fun: AtomicFunction,
        value: Handle<tag::Expression>,
    },
    WorkGroupUniformLoad {
        pointer: Handle<tag::Expression>,
        result: Handle<tag::Expression>,
    },
    Call {
        function: Handle<tag::Function>,
        arguments: Operands,
        result: Option<Handle<tag::Expression>>,
    },
    RayQuery {
        query: Handle<tag::Expression>,
        fun: RayQueryFunction,
    },
    SubgroupBallot {
        result: Handle<tag::Expression>,
        predicate: Option<Handle<tag::Expression>>,
    },
    SubgroupCollectiveOperation {
        op: SubgroupOperation,
        collective_op: CollectiveOperation,
        argument: Handle<tag::Expression>,
        result: Handle<tag::Expression>,
    },
    SubgroupGather {
        mode: GatherMode,
        argument: Handle<tag::Expression>,
        result: Handle<tag::Expression>,
    },
    CooperativeStore {
        target: Handle<tag::Expression>,
        source: CooperativeData,
    },
    RayPipelineFunction(RayPipelineFunction),
}

impl Block {
    /// An empty block, which keeps the allocator.
    pub fn new(alloc: Global) -> Self
        ensures { result ≡ empty_block }
    {
        Block {
            list: Sequence::new(alloc),
        }
    }

    /// Adds a statement at the end. An Err is out of memory, and leaves the block as it was.
    pub fn push(&mut self, statement: Statement, span: Span) -> Result<(), AllocError>
        ensures pushed { OnOk result (self.new ≡ with_last self.old statement span) }
        ensures err { OnErr result (self.new ≡ self.old) }
    {
        self.list.push(Located { statement, span })
    }

    /// Clones the block. An Err is out of memory.
    #[cycle(clone)]
    pub fn clone(&self, alloc: Global) -> Result<Self, AllocError>
        ensures { IfOk result (λ made. made ≡ self.now) }
    {
        let list = clone_list(alloc, self.list.as_slice())?;
        Ok(Block { list })
    }
}

/// The block of these statements, without a copy.
impl From<Vec<Located>> for Block {
    ghost from_gives = { λ list block. block ≡ block_of list.items };

    fn from(list: Vec<Located>) -> Self {
        Block {
            list: Sequence::from(list),
        }
    }
}

/// Clones the statements, in the same order.
#[cycle(clone)]
fn clone_list(alloc: Global, list: &[Located]) -> Result<Sequence<Located>, AllocError>
    ensures { IfOk result (λ made. made ≡ list.now) }
{
    let mut made = Sequence::new(alloc);
    for located in list {
        let statement = located.statement.clone(alloc)?;
        made.push(Located {
            statement,
            span: located.span,
        })?;
    }
    Ok(made)
}

/// Clones the cases, in the same order.
#[cycle(clone)]
fn clone_cases(alloc: Global, cases: &[SwitchCase]) -> Result<Sequence<SwitchCase>, AllocError>
    ensures { IfOk result (λ made. made ≡ cases.now) }
{
    let mut made = Sequence::new(alloc);
    for case in cases {
        made.push(case.clone(alloc)?)?;
    }
    Ok(made)
}

impl SwitchCase {
    /// Clones the case. An Err is out of memory.
    #[cycle(clone)]
    pub fn clone(&self, alloc: Global) -> Result<Self, AllocError>
        ensures { IfOk result (λ made. made ≡ self.now) }
    {
        let body = self.body.clone(alloc)?;
        Ok(SwitchCase {
            value: self.value,
            body,
            fall_through: self.fall_through,
        })
    }
}

impl Statement {
    /// Clones the statement. An Err is out of memory.
    #[cycle(clone)]
    pub fn clone(&self, alloc: Global) -> Result<Self, AllocError>
        ensures { IfOk result (λ made. made ≡ self.now) }
    {
        match self {
            Statement::Emit(range) => Ok(Statement::Emit(*range)),
            Statement::Block(block) => {
                let block = block.clone(alloc)?;
                Ok(Statement::Block(block))
            }
            Statement::If {
                condition,
                accept,
                reject,
            } => {
                let accept = accept.clone(alloc)?;
                let reject = reject.clone(alloc)?;
                Ok(Statement::If {
                    condition: *condition,
                    accept,
                    reject,
                })
            }
            Statement::Switch { selector, cases } => {
                let cases = clone_cases(alloc, cases.as_slice())?;
                Ok(Statement::Switch {
                    selector: *selector,
                    cases,
                })
            }
            Statement::Loop {
                body,
                continuing,
                break_if,
            } => {
                let body = body.clone(alloc)?;
                let continuing = continuing.clone(alloc)?;
                Ok(Statement::Loop {
                    body,
                    continuing,
                    break_if: *break_if,
                })
            }
            Statement::Break => Ok(Statement::Break),
            Statement::Continue => Ok(Statement::Continue),
            Statement::Return { value } => Ok(Statement::Return { value: *value }),
            Statement::Kill => Ok(Statement::Kill),
            Statement::ControlBarrier(barrier) => Ok(Statement::ControlBarrier(*barrier)),
            Statement::MemoryBarrier(barrier) => Ok(Statement::MemoryBarrier(*barrier)),
            Statement::Store { pointer, value } => Ok(Statement::Store {
                pointer: *pointer,
                value: *value,
            }),
            Statement::ImageStore {
                image,
                coordinate,
                array_index,
                value,
            } => Ok(Statement::ImageStore {
                image: *image,
                coordinate: *coordinate,
                array_index: *array_index,
                value: *value,
            }),
            Statement::Atomic {
                pointer,
                fun,
                value,
                result: answer,
            } => Ok(Statement::Atomic {
                pointer: *pointer,
                fun: *fun,
                value: *value,
                result: *answer,
            }),
            Statement::ImageAtomic {
                image,
                coordinate,
                array_index,
                fun,
                value,
            } => Ok(Statement::ImageAtomic {
                image: *image,
                coordinate: *coordinate,
                array_index: *array_index,
                fun: *fun,
                value: *value,
            }),
            Statement::WorkGroupUniformLoad {
                pointer,
                result: answer,
            } => Ok(Statement::WorkGroupUniformLoad {
                pointer: *pointer,
                result: *answer,
            }),
            Statement::Call {
                function,
                arguments,
                result: answer,
            } => {
                let arguments = arguments.clone(alloc)?;
                Ok(Statement::Call {
                    function: *function,
                    arguments,
                    result: *answer,
                })
            }
            Statement::RayQuery { query, fun } => Ok(Statement::RayQuery {
                query: *query,
                fun: *fun,
            }),
            Statement::SubgroupBallot {
                result: answer,
                predicate,
            } => Ok(Statement::SubgroupBallot {
                result: *answer,
                predicate: *predicate,
            }),
            Statement::SubgroupCollectiveOperation {
                op,
                collective_op,
                argument,
                result: answer,
            } => Ok(Statement::SubgroupCollectiveOperation {
                op: *op,
                collective_op: *collective_op,
                argument: *argument,
                result: *answer,
            }),
            Statement::SubgroupGather {
                mode,
                argument,
                result: answer,
            } => Ok(Statement::SubgroupGather {
                mode: *mode,
                argument: *argument,
                result: *answer,
            }),
            Statement::CooperativeStore { target, source } => Ok(Statement::CooperativeStore {
                target: *target,
                source: *source,
            }),
            Statement::RayPipelineFunction(fun) => Ok(Statement::RayPipelineFunction(*fun)),
        }
    }
}
