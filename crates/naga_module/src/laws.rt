//! Laws of the judgement of modules: they compute nothing, and a caller calls them to cite them.

ghost use Rattle.naga_module.specs.ModuleLaw.{AcceptedModuleIsJudged, AcceptedModuleHolds, AcceptedModuleFillsOnce, AcceptedModuleBindsApart, FunctionsAloneAreReported};
ghost use Rattle.naga_module.specs.OneJudgement.{ModuleHasOneJudgement};

/// Law of modules. Of one that the judgement accepts it says what `check_module` does, clause by clause.
///
/// - `infos`: each info of an accepted module is the answer of its own judgement, with the infos before it.
/// - `holds`: with BLOCKS all runs of all bodies of an accepted module are sound, each entry point keeps to its stage
///   along all chains of calls, and bodies have their shape.
/// - `filled`: with BLOCKS and EXPRESSIONS each result is filled once.
/// - `bindings`: with BINDINGS the bindings of used globals, and the locations of a group, are distinct.
/// - `one`: a module has one judgement.
/// - `reported`: a module without globals and entry points in which everything fits is refused only for the fault of a function,
///   or for out of memory.
pub fn module_law()
    ensures infos { AcceptedModuleIsJudged }
    ensures holds { AcceptedModuleHolds }
    ensures filled { AcceptedModuleFillsOnce }
    ensures bindings { AcceptedModuleBindsApart }
    ensures one { ModuleHasOneJudgement }
    ensures reported { FunctionsAloneAreReported }
{}
