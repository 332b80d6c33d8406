//! Results of calls and of atomic operations.

ghost use Rattle.std.specs.Prelude.{length};
ghost use Rattle.check_scope.specs.Results.{filled_points_from, filled_points};
ghost use Rattle.check_scope.specs.walk.SeenContext.{context_of};
ghost use Rattle.check_scope.specs.walk.Table.{KnowsResults, count, filled_in};
ghost use Rattle.ir_facts.specs.Answers.{Finds, FirstOf};

use check_scope::context::BlockContext;
use check_scope::table::FilledColumn;
use ir_arena::handle::Handle;
use ir_errors::function::FunctionError;
use ir_flags::valid::ValidationFlags;

/// After a body, with EXPRESSIONS: each result of the function is filled.
pub fn check_filled(filled: &FilledColumn, context: &BlockContext) -> Result<(), FunctionError>
    requires { KnowsResults (context_of context.now) filled.now }
    ensures { Finds (FirstOf (filled_points (context_of context.now) (filled_in filled.now))) result }
{
    let flags = context.settings.flags;
    if flags.contains(ValidationFlags::EXPRESSIONS) {
        check_each_filled(filled, context)
    } else {
        Ok(())
    }
}

fn check_each_filled(filled: &FilledColumn, context: &BlockContext) -> Result<(), FunctionError>
    requires { KnowsResults (context_of context.now) filled.now }
    ensures { Finds (FirstOf (filled_points_from (context_of context.now) (filled_in filled.now) 0
        (length (context_of context.now).fun.expressions))) result }
{
    let count = context.fun.expressions.len() as u32;
    for index in 0..count {
        let handle = Handle::new(index);
        if filled.is_still_to_fill(handle) {
            return Err(FunctionError::UnvisitedExpression(handle));
        }
    }
    Ok(())
}
