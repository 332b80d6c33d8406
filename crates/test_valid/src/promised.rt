//! What `check_module` promises: facts of accepted modules, which a user's crate proves by citing its clauses.

ghost use Rattle.std.specs.Prelude.{IfOk, OnOk};
ghost use Rattle.test_valid.specs.Promised.{BindingsOfFirst, ResultsAreFilledOnce, FirstReturnsElsewhere, FirstIsSound};

use naga_below::{Module, ModuleInfo, Settings};
use naga_module::{Facts, Given, ModuleFault, Recorded, check_module};
use std::alloc::Global;

/// Judges a module over recorded facts.
pub(crate) fn judge(
    alloc: Global,
    facts: Facts,
    settings: Settings,
    given: Given,
    module: &Module,
) -> Result<ModuleInfo, ModuleFault>
    ensures bindings { IfOk result (λ infos. BindingsOfFirst settings «module».now infos) }
    ensures filled { OnOk result (ResultsAreFilledOnce settings «module».now) }
    ensures returns { OnOk result (FirstReturnsElsewhere settings «module».now) }
    ensures sound { OnOk result (FirstIsSound settings «module».now) }
{
    let infos = check_module(alloc, Recorded { facts }, settings, given, module)?;
    Ok(infos)
}
