//! The fields of a statement, by its number: one check list a kind.

ghost use Rattle.ir_arena.specs.Points.{points_of_each};
ghost use Rattle.ir_misfits.specs.OfBodies.{names, names_if, atomic_points, gather_points, query_points, pipeline_points, range_points, store_points, image_store_points, operation_points, image_operation_points, texel_operation_points, uniform_load_points, ray_query_points, ballot_points, collective_points, gathering_points, cooperative_store_points, call_argument_points};
ghost use Rattle.ir_facts.specs.Answers.{Finds, FirstOf};

use crate::misfit::{HandleOf, Misfit, Owner, Place, Problem, StatementField};
use ir_arena::handle::Handle;
use ir_arena::range::Range;
use ir_arena::tag;
use ir_statements::operations::{
    AtomicFunction, GatherMode, RayPipelineFunction, RayQueryFunction,
};

/// A statement of a function by its number, and how many expressions there are.
#[derive(Clone, Copy)]
pub(crate) struct Numbered {
    pub owner: Owner,
    pub number: usize,
    pub expressions: usize,
}

impl Numbered {
    pub(crate) fn names(
        self,
        field: StatementField,
        handle: Handle<tag::Expression>,
    ) -> Result<(), Misfit>
        ensures { Finds (FirstOf (names self.expressions self.owner self.number field handle)) result }
    {
        Place::InStatement(self.owner, self.number, field).names(
            HandleOf::Expressions,
            handle.index(),
            self.expressions,
        )
    }

    pub(crate) fn names_if_any(
        self,
        field: StatementField,
        handle: Option<Handle<tag::Expression>>,
    ) -> Result<(), Misfit>
        ensures { Finds (FirstOf (names_if self.expressions self.owner self.number field handle)) result }
    {
        match handle {
            Some(handle) => self.names(field, handle),
            None => Ok(()),
        }
    }

    /// What an exchange compares with.
    pub(crate) fn check_atomic(self, fun: AtomicFunction) -> Result<(), Misfit>
        ensures { Finds (FirstOf (atomic_points self.expressions self.owner self.number fun)) result }
    {
        match fun {
            AtomicFunction::Exchange { compare } => {
                self.names_if_any(StatementField::Compare, compare)
            }
            AtomicFunction::Add
            | AtomicFunction::Subtract
            | AtomicFunction::And
            | AtomicFunction::ExclusiveOr
            | AtomicFunction::InclusiveOr
            | AtomicFunction::Min
            | AtomicFunction::Max => Ok(()),
        }
    }

    /// The index of a gather, if its mode has one.
    pub(crate) fn check_gather(self, mode: GatherMode) -> Result<(), Misfit>
        ensures { Finds (FirstOf (gather_points self.expressions self.owner self.number mode)) result }
    {
        match mode {
            GatherMode::BroadcastFirst | GatherMode::QuadSwap(_) => Ok(()),
            GatherMode::Broadcast(handle)
            | GatherMode::Shuffle(handle)
            | GatherMode::ShuffleDown(handle)
            | GatherMode::ShuffleUp(handle)
            | GatherMode::ShuffleXor(handle)
            | GatherMode::QuadBroadcast(handle) => self.names(StatementField::Mode, handle),
        }
    }

    /// A step of a ray query.
    pub(crate) fn check_query(self, fun: RayQueryFunction) -> Result<(), Misfit>
        ensures { Finds (FirstOf (query_points self.expressions self.owner self.number fun)) result }
    {
        match fun {
            RayQueryFunction::Initialize {
                acceleration_structure,
                descriptor,
            } => {
                self.names(
                    StatementField::AccelerationStructure,
                    acceleration_structure,
                )?;
                self.names(StatementField::Descriptor, descriptor)
            }
            RayQueryFunction::Proceed { result: handle } => {
                self.names(StatementField::Result, handle)
            }
            RayQueryFunction::GenerateIntersection { hit_t } => {
                self.names(StatementField::HitT, hit_t)
            }
            RayQueryFunction::ConfirmIntersection | RayQueryFunction::Terminate => Ok(()),
        }
    }

    /// A ray that is traced.
    pub(crate) fn check_pipeline(self, fun: RayPipelineFunction) -> Result<(), Misfit>
        ensures { Finds (FirstOf (pipeline_points self.expressions self.owner self.number fun)) result }
    {
        match fun {
            RayPipelineFunction::TraceRay {
                acceleration_structure,
                descriptor,
                payload,
            } => {
                self.names(
                    StatementField::AccelerationStructure,
                    acceleration_structure,
                )?;
                self.names(StatementField::Descriptor, descriptor)?;
                self.names(StatementField::Payload, payload)
            }
        }
    }

    /// The range of an Emit is in order, and ends within the expressions.
    pub(crate) fn check_range(self, range: Range) -> Result<(), Misfit>
        ensures { Finds (FirstOf (range_points self.expressions self.owner self.number range)) result }
    {
        let place = Place::InStatement(self.owner, self.number, StatementField::Range);
        let start = range.start as usize;
        let end = range.end as usize;
        if start > end {
            return place.fails(Problem::Backwards { start, end });
        }
        if end > self.expressions {
            let count = self.expressions;
            return place.fails(Problem::PastEnd { end, count });
        }
        Ok(())
    }

    /// The arguments of a Call.
    pub(crate) fn check_call_arguments(
        self,
        arguments: &[Handle<tag::Expression>],
    ) -> Result<(), Misfit>
        ensures { Finds (FirstOf (points_of_each
            (call_argument_points self.expressions self.owner self.number) arguments.now)) result }
    {
        for (index, handle) in arguments.iter().enumerate() {
            self.names(StatementField::CallArgument(index), *handle)?;
        }
        Ok(())
    }

    /// The fields of a Store.
    pub(crate) fn check_store(
        self,
        pointer: Handle<tag::Expression>,
        value: Handle<tag::Expression>,
    ) -> Result<(), Misfit>
        ensures { Finds (FirstOf (store_points self.expressions self.owner self.number pointer value)) result }
    {
        self.names(StatementField::Pointer, pointer)?;
        self.names(StatementField::Value, value)
    }

    /// The fields of an ImageStore.
    pub(crate) fn check_image_store(
        self,
        image: Handle<tag::Expression>,
        coordinate: Handle<tag::Expression>,
        array_index: Option<Handle<tag::Expression>>,
        value: Handle<tag::Expression>,
    ) -> Result<(), Misfit>
        ensures { Finds (FirstOf (image_store_points self.expressions self.owner self.number
            image coordinate array_index value)) result }
    {
        self.names(StatementField::Image, image)?;
        self.names(StatementField::Coordinate, coordinate)?;
        self.names_if_any(StatementField::ArrayIndex, array_index)?;
        self.names(StatementField::Value, value)
    }

    /// The fields of an Atomic.
    pub(crate) fn check_operation(
        self,
        pointer: Handle<tag::Expression>,
        fun: AtomicFunction,
        value: Handle<tag::Expression>,
        answer: Option<Handle<tag::Expression>>,
    ) -> Result<(), Misfit>
        ensures { Finds (FirstOf (operation_points self.expressions self.owner self.number pointer fun value answer)) result }
    {
        self.names(StatementField::Pointer, pointer)?;
        self.check_atomic(fun)?;
        self.names(StatementField::Value, value)?;
        self.names_if_any(StatementField::Result, answer)
    }

    /// The fields of an ImageAtomic.
    pub(crate) fn check_image_operation(
        self,
        image: Handle<tag::Expression>,
        coordinate: Handle<tag::Expression>,
        array_index: Option<Handle<tag::Expression>>,
        fun: AtomicFunction,
        value: Handle<tag::Expression>,
    ) -> Result<(), Misfit>
        ensures { Finds (FirstOf (image_operation_points self.expressions self.owner self.number
            image coordinate array_index fun value)) result }
    {
        self.names(StatementField::Image, image)?;
        self.names(StatementField::Coordinate, coordinate)?;
        self.names_if_any(StatementField::ArrayIndex, array_index)?;
        self.check_texel_operation(fun, value)
    }

    /// What is done to a texel, and with which value.
    #[tactic(auto, using(ir_arena::proofs::Points::first_of_both))]
    pub(crate) fn check_texel_operation(
        self,
        fun: AtomicFunction,
        value: Handle<tag::Expression>,
    ) -> Result<(), Misfit>
        ensures { Finds (FirstOf (texel_operation_points self.expressions self.owner self.number fun value)) result }
    {
        self.check_atomic(fun)?;
        self.names(StatementField::Value, value)
    }

    /// The fields of a WorkGroupUniformLoad.
    pub(crate) fn check_uniform_load(
        self,
        pointer: Handle<tag::Expression>,
        answer: Handle<tag::Expression>,
    ) -> Result<(), Misfit>
        ensures { Finds (FirstOf (uniform_load_points self.expressions self.owner self.number pointer answer)) result }
    {
        self.names(StatementField::Pointer, pointer)?;
        self.names(StatementField::Result, answer)
    }

    /// The fields of a RayQuery.
    pub(crate) fn check_ray_query(
        self,
        query: Handle<tag::Expression>,
        fun: RayQueryFunction,
    ) -> Result<(), Misfit>
        ensures { Finds (FirstOf (ray_query_points self.expressions self.owner self.number query fun)) result }
    {
        self.names(StatementField::Query, query)?;
        self.check_query(fun)
    }

    /// The fields of a SubgroupBallot.
    pub(crate) fn check_ballot(
        self,
        answer: Handle<tag::Expression>,
        predicate: Option<Handle<tag::Expression>>,
    ) -> Result<(), Misfit>
        ensures { Finds (FirstOf (ballot_points self.expressions self.owner self.number answer predicate)) result }
    {
        self.names(StatementField::Result, answer)?;
        self.names_if_any(StatementField::Predicate, predicate)
    }

    /// The fields of a SubgroupCollectiveOperation.
    pub(crate) fn check_collective(
        self,
        argument: Handle<tag::Expression>,
        answer: Handle<tag::Expression>,
    ) -> Result<(), Misfit>
        ensures { Finds (FirstOf (collective_points self.expressions self.owner self.number argument answer)) result }
    {
        self.names(StatementField::Argument, argument)?;
        self.names(StatementField::Result, answer)
    }

    /// The fields of a SubgroupGather.
    #[tactic(auto, using(ir_arena::proofs::Points::first_of_both))]
    pub(crate) fn check_gathering(
        self,
        mode: GatherMode,
        argument: Handle<tag::Expression>,
        answer: Handle<tag::Expression>,
    ) -> Result<(), Misfit>
        ensures { Finds (FirstOf (gathering_points self.expressions self.owner self.number mode argument answer)) result }
    {
        self.check_gather(mode)?;
        self.names(StatementField::Argument, argument)?;
        self.names(StatementField::Result, answer)
    }

    /// The fields of a CooperativeStore.
    pub(crate) fn check_cooperative_store(
        self,
        target: Handle<tag::Expression>,
        source: Handle<tag::Expression>,
    ) -> Result<(), Misfit>
        ensures { Finds (FirstOf (cooperative_store_points self.expressions self.owner self.number target source)) result }
    {
        self.names(StatementField::Target, target)?;
        self.names(StatementField::Source, source)
    }
}
