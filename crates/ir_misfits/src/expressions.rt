//! Whether expressions fit, and what doesn't fit of them.

ghost use Rattle.std.specs.Prelude.{◌<◌, ◌≡◌, ◌↔◌, IsTrue, IsSomeAnd, All, slice_get};
ghost use Rattle.ir_arena.specs.Points.{points_of_each};
ghost use Rattle.ir_module.specs.Operands.{operands_of};
ghost use Rattle.ir_facts.specs.Fits.{NameEarlierExpressions, ReferencesFit};
ghost use Rattle.ir_misfits.specs.MisfitPoints.{points_if};
ghost use Rattle.ir_misfits.specs.OfExpressions.{expressions_of, operand_points, operands_points, expressions_points, reference_points};
ghost use Rattle.ir_misfits.specs.FittingSignatures.{MarkFitting};
ghost use Rattle.ir_facts.specs.Answers.{Finds, FirstOf};

use crate::misfit::{HandleOf, Misfit, Owner, Place};
use crate::signature::{callee_fits, check_callee};
use ir_module::expressions::Expression;
use ir_module::functions::Function;
use ir_module::module::Module;
use ir_module::operands::{operand, operand_count};

/// The list that the operands index.
fn expressions_of(owner: Owner) -> HandleOf
    ensures { result ≡ expressions_of owner }
{
    match owner {
        Owner::Module => HandleOf::GlobalExpressions,
        Owner::Function(_) | Owner::EntryPoint(_) => HandleOf::Expressions,
    }
}

/// The operand with this index, if there is one, is an expression before the one at `place`.
fn check_operand(
    owner: Owner,
    place: usize,
    expression: &Expression,
    index: usize,
) -> Result<(), Misfit>
    ensures { Finds (FirstOf (points_if (operand_points owner place index)
        (slice_get (operands_of expression.now) index))) result }
{
    match operand(expression, index) {
        Some(handle) => Place::Operand(owner, place, index).names(
            expressions_of(owner),
            handle.index(),
            place,
        ),
        None => Ok(()),
    }
}

/// Whether this operand is there, and is an expression before the one at `place`.
fn is_earlier(place: usize, expression: &Expression, index: usize) -> bool
    ensures { IsTrue result ↔ IsSomeAnd (slice_get (operands_of expression.now) index) (λ h. h < place) }
{
    match operand(expression, index) {
        Some(handle) => handle.index() < place,
        None => false,
    }
}

/// Whether each operand is an expression before the one at `place`.
fn has_earlier_operands(place: usize, expression: &Expression) -> bool
    ensures { IsTrue result ↔ All (λ h. h < place) (operands_of expression.now) }
{
    for index in 0..operand_count(expression) {
        if !is_earlier(place, expression, index) {
            return false;
        }
    }
    true
}

/// Whether each operand of each expression is an earlier one.
pub fn name_earlier_expressions(expressions: &[Expression]) -> bool
    ensures { IsTrue result ↔ NameEarlierExpressions expressions.now }
{
    for (place, expression) in expressions.iter().enumerate() {
        if !has_earlier_operands(place, expression) {
            return false;
        }
    }
    true
}

/// Each operand of the expression at `place` is an earlier expression.
fn check_operands(owner: Owner, place: usize, expression: &Expression) -> Result<(), Misfit>
    ensures { Finds (FirstOf (operands_points owner place expression.now)) result }
{
    for index in 0..operand_count(expression) {
        check_operand(owner, place, expression, index)?;
    }
    Ok(())
}

/// Each operand of each expression is an earlier one.
pub fn check_expressions(owner: Owner, expressions: &[Expression]) -> Result<(), Misfit>
    ensures { Finds (FirstOf (expressions_points owner expressions.now)) result }
{
    // (asked first for its time: room for a misfit costs more than to see that there is none)
    if name_earlier_expressions(expressions) {
        return Ok(());
    }
    first_misfit_of_expressions(owner, expressions)
}

/// The first operand that isn't an earlier expression.
#[cold]
#[inline(never)]
fn first_misfit_of_expressions(owner: Owner, expressions: &[Expression]) -> Result<(), Misfit>
    ensures { Finds (FirstOf (expressions_points owner expressions.now)) result }
{
    for (place, expression) in expressions.iter().enumerate() {
        check_operands(owner, place, expression)?;
    }
    Ok(())
}

/// What the expressions of a function may name: its locals, and what the module has. A true mark of `fitting`, indexed by
/// handles of functions, says that the signature is known to fit.
#[derive(Drop)]
struct ReferenceRanges<'a> {
    fun: &'a Function,
    module: &'a Module,
    fitting: &'a [bool],
}

impl ReferenceRanges<'_> {
    /// Whether what the expression names besides its operands is there.
    fn has(&self, expression: &Expression) -> bool
        requires fitting { MarkFitting self.now.«module».now self.now.fitting.now }
        ensures { IsTrue result ↔ ReferencesFit self.now.«module».now self.now.fun.now expression.now }
    {
        match expression {
            Expression::Constant(handle) => handle.index() < self.module.constants.len(),
            Expression::Override(handle) => handle.index() < self.module.overrides.len(),
            Expression::ZeroValue(ty)
            | Expression::Compose { ty, .. }
            | Expression::AtomicResult { ty, .. }
            | Expression::WorkGroupUniformLoadResult { ty }
            | Expression::SubgroupOperationResult { ty } => ty.index() < self.module.types.len(),
            Expression::GlobalVariable(handle) => handle.index()
                < self.module.global_variables.len(),
            Expression::LocalVariable(handle) => handle.index() < self.fun.local_variables.len(),
            Expression::CallResult(function) => callee_fits(*function, self.module, self.fitting),
            Expression::Literal(_)
            | Expression::Access { .. }
            | Expression::AccessIndex { .. }
            | Expression::FunctionArgument(_)
            | Expression::Load { .. }
            | Expression::RayQueryProceedResult
            | Expression::SubgroupBallotResult
            | Expression::Splat { .. }
            | Expression::Swizzle { .. }
            | Expression::ImageSample { .. }
            | Expression::ImageLoad { .. }
            | Expression::ImageQuery { .. }
            | Expression::Unary { .. }
            | Expression::Binary { .. }
            | Expression::Select { .. }
            | Expression::Derivative { .. }
            | Expression::Relational { .. }
            | Expression::Math { .. }
            | Expression::As { .. }
            | Expression::ArrayLength { .. }
            | Expression::RayQueryGetIntersection { .. }
            | Expression::RayQueryVertexPositions { .. }
            | Expression::CooperativeLoad { .. }
            | Expression::CooperativeMultiplyAdd { .. } => true,
        }
    }

    /// What the expression at `place` names besides its operands is there.
    fn check(&self, owner: Owner, place: usize, expression: &Expression) -> Result<(), Misfit>
        requires fitting { MarkFitting self.now.«module».now self.now.fitting.now }
        ensures { Finds (FirstOf (reference_points self.now.«module».now self.now.fun.now owner place
            expression.now)) result }
    {
        let place = Place::Reference(owner, place);
        match expression {
            Expression::Constant(handle) => {
                place.names(
                    HandleOf::Constants,
                    handle.index(),
                    self.module.constants.len(),
                )
            }
            Expression::Override(handle) => {
                place.names(
                    HandleOf::Overrides,
                    handle.index(),
                    self.module.overrides.len(),
                )
            }
            Expression::ZeroValue(ty)
            | Expression::Compose { ty, .. }
            | Expression::AtomicResult { ty, .. }
            | Expression::WorkGroupUniformLoadResult { ty }
            | Expression::SubgroupOperationResult { ty } => {
                place.names(HandleOf::Types, ty.index(), self.module.types.len())
            }
            Expression::GlobalVariable(handle) => place.names(
                HandleOf::GlobalVariables,
                handle.index(),
                self.module.global_variables.len(),
            ),
            Expression::LocalVariable(handle) => place.names(
                HandleOf::LocalVariables,
                handle.index(),
                self.fun.local_variables.len(),
            ),
            Expression::CallResult(function) => check_callee(
                place,
                *function,
                self.module,
                self.fitting,
            ),
            Expression::Literal(_)
            | Expression::Access { .. }
            | Expression::AccessIndex { .. }
            | Expression::FunctionArgument(_)
            | Expression::Load { .. }
            | Expression::RayQueryProceedResult
            | Expression::SubgroupBallotResult
            | Expression::Splat { .. }
            | Expression::Swizzle { .. }
            | Expression::ImageSample { .. }
            | Expression::ImageLoad { .. }
            | Expression::ImageQuery { .. }
            | Expression::Unary { .. }
            | Expression::Binary { .. }
            | Expression::Select { .. }
            | Expression::Derivative { .. }
            | Expression::Relational { .. }
            | Expression::Math { .. }
            | Expression::As { .. }
            | Expression::ArrayLength { .. }
            | Expression::RayQueryGetIntersection { .. }
            | Expression::RayQueryVertexPositions { .. }
            | Expression::CooperativeLoad { .. }
            | Expression::CooperativeMultiplyAdd { .. } => Ok(()),
        }
    }
}

/// Whether what each expression of a function names besides its operands is there. A true mark of `fitting`, indexed by
/// handles of functions, says that the signature is known to fit.
pub fn references_fit(
    expressions: &[Expression],
    fun: &Function,
    module: &Module,
    fitting: &[bool],
) -> bool
    requires fitting { MarkFitting «module».now fitting.now }
    ensures { IsTrue result ↔ All (ReferencesFit «module».now fun.now) expressions.now }
{
    let ranges = ReferenceRanges {
        fun,
        module,
        fitting,
    };
    expressions.iter().all(|expression| ranges.has(expression))
}

/// The same of each expression of a function.
pub fn check_references(
    owner: Owner,
    expressions: &[Expression],
    fun: &Function,
    module: &Module,
    fitting: &[bool],
) -> Result<(), Misfit>
    requires fitting { MarkFitting «module».now fitting.now }
    ensures { Finds (FirstOf (points_of_each (reference_points «module».now fun.now owner) expressions.now)) result }
{
    let ranges = ReferenceRanges {
        fun,
        module,
        fitting,
    };
    for (place, expression) in expressions.iter().enumerate() {
        ranges.check(owner, place, expression)?;
    }
    Ok(())
}
