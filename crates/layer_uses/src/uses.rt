//! The uses of globals by a function.

ghost use Rattle.std.specs.Prelude.{◌≡◌, IfOk};
ghost use Rattle.layer_uses.specs.Uses.{operand_use, expression_uses, all_expression_uses, uses_of};

use crate::joins::join;
use crate::roots::{Root, root_at, roots_of};
use crate::walk::use_block;
use bitflags::Flags;
use ir_arena::handle::Handle;
use ir_arena::sequence::Sequence;
use ir_arena::tag;
use ir_facts::valid::info::ModuleInfo;
use ir_flags::valid::GlobalUse;
use ir_module::expressions::Expression;
use ir_module::functions::Function;
use ir_module::module::Module;
use std::alloc::{AllocError, Global};

/// Uses the operand at a place, if there is one.
fn use_operand(
    roots: &[Root],
    uses: &mut Vec<GlobalUse>,
    operands: &[Handle<tag::Expression>],
    place: usize,
    more: GlobalUse,
)
    ensures { uses.new.items ≡ operand_use roots.now uses.old.items operands.now place more }
{
    if let Some(operand) = operands.get(place) {
        join(uses, root_at(roots, *operand), more);
    }
}

/// The uses of an expression.
fn use_expression(roots: &[Root], uses: &mut Vec<GlobalUse>, expression: &Expression)
    ensures { uses.new.items ≡ expression_uses roots.now uses.old.items expression.now }
{
    match expression {
        Expression::Load { pointer } => join(uses, root_at(roots, *pointer), GlobalUse::READ),
        Expression::ImageSample { operands, .. } => {
            use_operand(roots, uses, operands.as_slice(), 0, GlobalUse::READ);
            use_operand(roots, uses, operands.as_slice(), 1, GlobalUse::READ);
        }
        Expression::ImageLoad { operands, .. } | Expression::CooperativeLoad { operands, .. } => {
            use_operand(roots, uses, operands.as_slice(), 0, GlobalUse::READ);
        }
        Expression::ImageQuery { operands, .. } | Expression::ArrayLength { operands, .. } => {
            use_operand(roots, uses, operands.as_slice(), 0, GlobalUse::QUERY);
        }
        Expression::Literal(_)
        | Expression::Constant(_)
        | Expression::Override(_)
        | Expression::ZeroValue(_)
        | Expression::Compose { .. }
        | Expression::Access { .. }
        | Expression::AccessIndex { .. }
        | Expression::FunctionArgument(_)
        | Expression::GlobalVariable(_)
        | Expression::LocalVariable(_)
        | Expression::CallResult(_)
        | Expression::AtomicResult { .. }
        | Expression::WorkGroupUniformLoadResult { .. }
        | Expression::RayQueryProceedResult
        | Expression::SubgroupBallotResult
        | Expression::SubgroupOperationResult { .. }
        | Expression::Splat { .. }
        | Expression::Swizzle { .. }
        | Expression::Unary { .. }
        | Expression::Binary { .. }
        | Expression::Select { .. }
        | Expression::Derivative { .. }
        | Expression::Relational { .. }
        | Expression::Math { .. }
        | Expression::As { .. }
        | Expression::RayQueryGetIntersection { .. }
        | Expression::RayQueryVertexPositions { .. }
        | Expression::CooperativeMultiplyAdd { .. } => {}
    }
}

/// One use for each global of the module: what the expressions and statements of the function do with it, and the functions
/// that it calls.
#[tactic(auto, unfolding(crate::specs::Uses::all_expression_uses))]
pub fn uses_of(
    alloc: Global,
    module: &Module,
    fun: &Function,
    infos: &ModuleInfo,
) -> Result<Sequence<GlobalUse>, AllocError>
    ensures { IfOk result (λ uses. uses ≡ uses_of «module».now fun.now infos.now) }
{
    let globals = module.global_variables.as_slice();
    let roots = roots_of(alloc, fun.expressions.as_slice())?;
    let mut uses = vec![in alloc; GlobalUse::empty(); globals.len()]?;
    for expression in fun.expressions.as_slice() {
        use_expression(roots.as_slice(), &mut uses, expression);
    }
    use_block(globals, infos, roots.as_slice(), &mut uses, &fun.body);
    Ok(Sequence::from(uses))
}
