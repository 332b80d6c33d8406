//! Where accesses lead.

ghost use Rattle.std.specs.Prelude.{◌≡◌};
ghost use Rattle.std.specs.Option.{option_copied};
ghost use Rattle.check_scope.specs.Context.{ContextFits};
ghost use Rattle.check_scope.specs.Roots.{access_base_in, root_at};
ghost use Rattle.check_scope.specs.walk.SeenContext.{context_of};

use crate::context::BlockContext;
use ir_arena::handle::Handle;
use ir_arena::tag;
use ir_module::expressions::Expression;

/// What an expression takes a part of, where there is one.
#[inline]
pub fn access_base_in(expression: Option<&Expression>) -> Option<Handle<tag::Expression>>
    ensures { result ≡ access_base_in (option_copied expression.entry) }
{
    match expression {
        Some(expression) => expression.access_base(),
        None => None,
    }
}

/// Where the walk from an expression stops, which goes from an access to its base.
pub fn root_at(
    context: &BlockContext,
    expression: Handle<tag::Expression>,
) -> Handle<tag::Expression>
    requires { ContextFits (context_of context.now) }
    ensures { result ≡ root_at (context_of context.now) expression }
{
    let mut handle = expression;
    while let Some(base) = access_base_in(context.expression(handle)) {
        handle = base;
    }
    handle
}
