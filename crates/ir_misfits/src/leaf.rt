//! What doesn't fit of a statement that is neither a jump nor holds others.

ghost use Rattle.std.specs.Prelude.{◌<◌, ◌↔◌, IsTrue, IfSome, All};
ghost use Rattle.ir_facts.specs.FitsBody.{CalleeFits, LeafFits};
ghost use Rattle.ir_misfits.specs.OfBodies.{call_points, leaf_points};
ghost use Rattle.ir_misfits.specs.FittingSignatures.{MarkFitting};
ghost use Rattle.ir_facts.specs.Answers.{Finds, FirstOf};

use crate::misfit::{HandleOf, Misfit, Owner, Place, StatementField};
use crate::naming::is_below_if_any;
use crate::numbered::Numbered;
use crate::signature::{callee_fits, check_callee};
use ir_arena::handle::Handle;
use ir_arena::tag;
use ir_module::module::Module;
use ir_statements::statements::Statement;

/// In which module a body is, of which of its functions the signature is known to fit, how many expressions there are, and
/// how many functions calls may name.
#[derive(Drop)]
pub(crate) struct BodyRanges<'a> {
    pub module: &'a Module,
    pub fitting: &'a [bool],
    pub expressions: usize,
    pub earlier: usize,
}

impl BodyRanges<'_> {
    /// Whether an expression is there.
    pub(crate) fn has(&self, handle: Handle<tag::Expression>) -> bool
        ensures { IsTrue result ↔ (handle < self.now.expressions) }
    {
        handle.index() < self.expressions
    }

    /// The same of one that may be left out.
    pub(crate) fn has_if_any(&self, handle: Option<Handle<tag::Expression>>) -> bool
        ensures { IsTrue result ↔ IfSome handle (λ h. h < self.now.expressions) }
    {
        is_below_if_any(handle, self.expressions)
    }

    /// Whether each of these is there.
    pub(crate) fn has_all(&self, handles: &[Handle<tag::Expression>]) -> bool
        ensures { IsTrue result ↔ All (λ h. h < self.now.expressions) handles.now }
    {
        handles.iter().all(|handle| self.has(*handle))
    }

    /// Whether a Call names an earlier function, whose signature fits, and expressions that are there.
    pub(crate) fn has_call(
        &self,
        function: Handle<tag::Function>,
        arguments: &[Handle<tag::Expression>],
        answer: Option<Handle<tag::Expression>>,
    ) -> bool
        requires fitting { MarkFitting self.now.module.now self.now.fitting.now }
        ensures { IsTrue result ↔ (function < self.now.earlier) × CalleeFits self.now.module.now function
            × All (λ h. h < self.now.expressions) arguments.now × IfSome answer (λ h. h < self.now.expressions) }
    {
        function.index() < self.earlier
            && callee_fits(function, self.module, self.fitting)
            && self.has_all(arguments)
            && self.has_if_any(answer)
    }
}

/// A Call names an earlier function, whose signature fits, and expressions that are there.
#[tactic(auto, using(ir_arena::proofs::Points::first_of_both))]
fn check_call(
    ranges: &BodyRanges,
    owner: Owner,
    number: usize,
    function: Handle<tag::Function>,
    arguments: &[Handle<tag::Expression>],
    answer: Option<Handle<tag::Expression>>,
) -> Result<(), Misfit>
    requires fitting { MarkFitting ranges.now.module.now ranges.now.fitting.now }
    ensures { Finds (FirstOf (call_points ranges.now.module.now ranges.now.expressions
        ranges.now.earlier owner number function arguments.now answer)) result }
{
    let place = Place::InStatement(owner, number, StatementField::Function);
    let statement = Numbered {
        owner,
        number,
        expressions: ranges.expressions,
    };
    place.names(HandleOf::Functions, function.index(), ranges.earlier)?;
    check_callee(place, function, ranges.module, ranges.fitting)?;
    statement.check_call_arguments(arguments)?;
    statement.names_if_any(StatementField::Result, answer)
}

/// A statement that is neither a jump nor holds others; nothing of any other.
#[tactic(auto, using(ir_arena::proofs::Points::first_of_both))]
pub(crate) fn check_leaf(
    ranges: &BodyRanges,
    owner: Owner,
    number: usize,
    statement: &Statement,
) -> Result<(), Misfit>
    requires fitting { MarkFitting ranges.now.module.now ranges.now.fitting.now }
    ensures { Finds (FirstOf (leaf_points ranges.now.module.now ranges.now.expressions
        ranges.now.earlier owner number statement.now)) result }
{
    let this = Numbered {
        owner,
        number,
        expressions: ranges.expressions,
    };
    match statement {
        Statement::Emit(range) => this.check_range(*range),
        Statement::Store { pointer, value } => this.check_store(*pointer, *value),
        Statement::ImageStore {
            image,
            coordinate,
            array_index,
            value,
        } => this.check_image_store(*image, *coordinate, *array_index, *value),
        Statement::Atomic {
            pointer,
            fun,
            value,
            result: answer,
        } => this.check_operation(*pointer, *fun, *value, *answer),
        Statement::ImageAtomic {
            image,
            coordinate,
            array_index,
            fun,
            value,
        } => this.check_image_operation(*image, *coordinate, *array_index, *fun, *value),
        Statement::WorkGroupUniformLoad {
            pointer,
            result: answer,
        } => this.check_uniform_load(*pointer, *answer),
        Statement::Call {
            function,
            arguments,
            result: answer,
        } => check_call(
            ranges,
            owner,
            number,
            *function,
            arguments.as_slice(),
            *answer,
        ),
        Statement::RayQuery { query, fun } => this.check_ray_query(*query, *fun),
        Statement::SubgroupBallot {
            result: answer,
            predicate,
        } => this.check_ballot(*answer, *predicate),
        Statement::SubgroupCollectiveOperation {
            argument,
            result: answer,
            ..
        } => this.check_collective(*argument, *answer),
        Statement::SubgroupGather {
            mode,
            argument,
            result: answer,
        } => this.check_gathering(*mode, *argument, *answer),
        Statement::CooperativeStore { target, source } => {
            this.check_cooperative_store(*target, source.pointer)
        }
        Statement::RayPipelineFunction(fun) => this.check_pipeline(*fun),
        Statement::ControlBarrier(_)
        | Statement::MemoryBarrier(_)
        | Statement::Block(_)
        | Statement::If { .. }
        | Statement::Switch { .. }
        | Statement::Loop { .. }
        | Statement::Break
        | Statement::Continue
        | Statement::Return { .. }
        | Statement::Kill => Ok(()),
    }
}

/// Whether what a statement that holds no other names is there.
#[inline(never)]
pub(crate) fn leaf_fits(ranges: &BodyRanges, statement: &Statement) -> bool
    requires fitting { MarkFitting ranges.now.module.now ranges.now.fitting.now }
    ensures { IsTrue result ↔ LeafFits ranges.now.module.now ranges.now.expressions ranges.now.earlier statement.now }
{
    // (that doesn't depend on whose it is, nor on its number)
    check_leaf(ranges, Owner::Module, 0, statement).is_ok()
}
