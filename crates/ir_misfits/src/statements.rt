//! Whether the statements of a function fit, and what doesn't fit of them.

ghost use Rattle.std.specs.Prelude.{◌↔◌, IsTrue, length};
ghost use Rattle.ir_statements.specs.View.{no_operands, body_of};
ghost use Rattle.ir_facts.specs.FitsBody.{BodyFits};
ghost use Rattle.ir_misfits.specs.OfBodies.{body_points};
ghost use Rattle.ir_misfits.specs.FittingSignatures.{MarkFitting};
ghost use Rattle.ir_facts.specs.Answers.{Finds, FirstOf};

use crate::body::{block_fits, check_block};
use crate::leaf::BodyRanges;
use crate::misfit::{Misfit, Owner};
use ir_module::functions::Function;
use ir_module::module::Module;

/// Whether the statements of a function fit, where its calls may name the first `earlier` functions. A true mark of
/// `fitting`, indexed by handles of functions, says that the signature is known to fit.
pub fn body_fits(fun: &Function, module: &Module, fitting: &[bool], earlier: usize) -> bool
    requires fitting { MarkFitting «module».now fitting.now }
    ensures { IsTrue result ↔ BodyFits «module».now (length fun.now.expressions) earlier
        (body_of no_operands fun.now.body) }
{
    let ranges = BodyRanges {
        module,
        fitting,
        expressions: fun.expressions.len(),
        earlier,
    };
    block_fits(&ranges, &fun.body)
}

/// The first misfit of the statements of a function, which is that of `owner`, in visit order. The first statement has
/// number 0.
pub fn check_body(
    owner: Owner,
    fun: &Function,
    module: &Module,
    fitting: &[bool],
    earlier: usize,
) -> Result<(), Misfit>
    requires fitting { MarkFitting «module».now fitting.now }
    ensures { Finds (FirstOf (body_points «module».now (length fun.now.expressions) earlier owner 0
        (body_of no_operands fun.now.body))) result }
{
    let ranges = BodyRanges {
        module,
        fitting,
        expressions: fun.expressions.len(),
        earlier,
    };
    check_block(&ranges, owner, 0, &fun.body)?;
    Ok(())
}
