//! What statements do: atomic operations, values of cases, and the operations of subgroup, ray query, ray pipeline and
//! cooperative store statements.

ghost use Rattle.std.specs.Prelude.{◌≡◌};
ghost use Rattle.ir_statements.specs.Operations.{is_min_or_max};

use ir_arena::handle::Handle;
use ir_arena::tag;

/// An atomic operation. `Exchange` with `compare` stores only if the old value equals it.
#[derive(Clone, Copy, PartialEq, Eq, Debug)]
pub enum AtomicFunction {
    Add,
    Subtract,
    And,
    ExclusiveOr,
    InclusiveOr,
    Min,
    Max,
    Exchange {
        compare: Option<Handle<tag::Expression>>,
    },
}

impl AtomicFunction {
    /// Whether the smaller or the larger of two values is kept.
    pub fn is_min_or_max(&self) -> bool
        ensures { result ≡ is_min_or_max self.now }
    {
        matches!(self, AtomicFunction::Min | AtomicFunction::Max)
    }
}

/// The value of a case. A signed value never equals an unsigned one.
#[derive(Clone, Copy, PartialEq, Eq, PartialOrd, Ord, Hash, Debug)]
pub enum SwitchValue {
    I32(i32),
    U32(u32),
    Default,
}

/// An operation over the values of a subgroup.
#[derive(Clone, Copy, PartialEq, Eq, Hash, Debug)]
pub enum SubgroupOperation {
    All,
    Any,
    Add,
    Mul,
    Min,
    Max,
    And,
    Or,
    Xor,
}

/// The invocations of an operation over a subgroup: all, those up to this one, or those before this one.
#[derive(Clone, Copy, PartialEq, Eq, Hash, Debug)]
pub enum CollectiveOperation {
    Reduce,
    InclusiveScan,
    ExclusiveScan,
}

/// The invocation that a value comes from. An expression is its index, or the distance to it.
///
/// The number of `QuadSwap` stands for its direction, which isn't read.
#[derive(Clone, Copy, PartialEq, Eq, Debug)]
pub enum GatherMode {
    BroadcastFirst,
    QuadSwap(u32),
    Broadcast(Handle<tag::Expression>),
    Shuffle(Handle<tag::Expression>),
    ShuffleDown(Handle<tag::Expression>),
    ShuffleUp(Handle<tag::Expression>),
    ShuffleXor(Handle<tag::Expression>),
    QuadBroadcast(Handle<tag::Expression>),
}

/// An operation of a ray query.
#[derive(Clone, Copy, PartialEq, Eq, Debug)]
pub enum RayQueryFunction {
    Initialize {
        acceleration_structure: Handle<tag::Expression>,
        descriptor: Handle<tag::Expression>,
    },
    Proceed {
        result: Handle<tag::Expression>,
    },
    GenerateIntersection {
        hit_t: Handle<tag::Expression>,
    },
    ConfirmIntersection,
    Terminate,
}

/// An operation of a ray pipeline.
#[derive(Clone, Copy, PartialEq, Eq, Debug)]
pub enum RayPipelineFunction {
    TraceRay {
        acceleration_structure: Handle<tag::Expression>,
        descriptor: Handle<tag::Expression>,
        payload: Handle<tag::Expression>,
    },
}

/// The memory of a cooperative matrix. `detail` stands for stride and order, which aren't read.
#[derive(Clone, Copy, PartialEq, Eq, Debug)]
pub struct CooperativeData {
    pub pointer: Handle<tag::Expression>,
    pub detail: u32,
}
