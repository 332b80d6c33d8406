//! Uses of globals.

ghost use Rattle.std.specs.Prelude.{◌≡◌, IfOk};
ghost use Rattle.naga_layers.specs.Plain.Uses.{uses_of};

use bitflags::Flags;
use ir_arena::sequence::Sequence;
use ir_flags::valid::GlobalUse;
use ir_module::expressions::Expression;
use ir_module::functions::Function;
use ir_module::module::Module;
use std::alloc::{AllocError, Global};

/// One use for each global of the module: that it is read, where an expression of the function names it.
#[tactic(auto, unfolding(crate::specs::Plain::Uses::with_all_named))]
pub(crate) fn uses_of(
    alloc: Global,
    module: &Module,
    fun: &Function,
) -> Result<Sequence<GlobalUse>, AllocError>
    ensures { IfOk result (λ uses. uses ≡ uses_of «module».now fun.now) }
{
    let mut uses = vec![in alloc; GlobalUse::empty(); module.global_variables.len()]?;
    for expression in fun.expressions.as_slice() {
        if let Expression::GlobalVariable(handle) = expression {
            if let Some(global_use) = uses.get_mut(handle.index()) {
                *global_use = GlobalUse::READ;
            }
        }
    }
    Ok(Sequence::from(uses))
}
