//! Laws of what the judgements accept, and of some that they refuse: they compute nothing, and a caller calls them to cite them.

ghost use Rattle.check_laws.specs.Chains.{ChainsAreKept, NoneIsVetted, OneMoreIsVetted, CallsOfFittingAreBelow};
ghost use Rattle.check_laws.specs.FunctionLaw.{AcceptedIsSound, AcceptedFillsOnce, AcceptedIsOfAllStages, AcceptedHasNoReturnInContinuing, AcceptedHasWholeSwitches, AcceptedKeepsInfo, AcceptedHasEveryMask, AcceptedStagesAreMet};
ghost use Rattle.check_laws.specs.FunctionRefusals.{RefusedUseIsWitnessed, RefusedJumpIsStuck};
ghost use Rattle.check_laws.specs.EntryBodies.{AcceptedEntryFillsOnce, AcceptedEntryIsOfAllStages, AcceptedEntryHasNoReturnInContinuing, AcceptedEntryHasWholeSwitches};
ghost use Rattle.check_laws.specs.EntryChains.{AcceptedEntryIsSound, AcceptedEntryKeepsItsStage};
ghost use Rattle.check_laws.specs.EntryFacts.{AcceptedHasAcceptedFunction, AcceptedBindingsAreDistinct, AcceptedLocationsAreDistinct, AcceptedBuiltInsAreDistinct, AcceptedVertexHasPosition};

/// Law of each function that the judgement accepts with BLOCKS, and of some that it refuses.
///
/// Of an accepted function:
/// - `sound`: all runs of its body are sound.
/// - `filled`: with EXPRESSIONS each of its results is filled once.
/// - `stages`: its stages are stages of each statement, and of each function that it calls.
/// - `returns`, `switches`: no Return stands in a continuing part. Each Switch has one default, distinct values of its
///   selector's sign, and a last case that doesn't fall through.
/// - `info`: its info is the lower layer's but for the stages.
/// - `masks`: with EXPRESSIONS the lower layer refuses none of its expressions.
/// - `met`: a stage is among its stages exactly if it is one of the lower layer's, and each statement may run in it, and,
///   with EXPRESSIONS, each expression.
///
/// Of a function whose body it refuses with BLOCKS, and whose body has no dead code:
/// - `witnessed`: if the fault is a use that isn't in scope, some run of the body uses what isn't live.
/// - `stuck`: if the fault is a jump, some run is stuck by it.
pub fn function_law()
    ensures sound { AcceptedIsSound }
    ensures filled { AcceptedFillsOnce }
    ensures stages { AcceptedIsOfAllStages }
    ensures returns { AcceptedHasNoReturnInContinuing }
    ensures switches { AcceptedHasWholeSwitches }
    ensures info { AcceptedKeepsInfo }
    ensures masks { AcceptedHasEveryMask }
    ensures met { AcceptedStagesAreMet }
    ensures witnessed { RefusedUseIsWitnessed }
    ensures stuck { RefusedJumpIsStuck }
{}

/// Law of chains of calls.
///
/// - `kept`: with BLOCKS and vetted infos, an accepted function whose calls name only functions that have infos keeps to
///   each of its stages. So each stage is one of every statement of its body and of the bodies that it reaches, and, with
///   EXPRESSIONS, of every expression. Without the condition on calls this is false: a Kill in a function without an info
///   takes no stage away.
/// - `none`: infos are vetted if no function has one.
/// - `more`: they stay so with the info of the next function of the module, if it fits and is judged with them, and no entry
///   point has an info.
/// - `calls`: a function that fits calls earlier functions only.
pub fn chains_law()
    ensures kept { ChainsAreKept }
    ensures none { NoneIsVetted }
    ensures more { OneMoreIsVetted }
    ensures calls { CallsOfFittingAreBelow }
{}

/// Law of each entry point that the judgement accepts.
///
/// - `function`: its function is accepted.
/// - `sound`: with BLOCKS all runs of its body are sound.
/// - `filled`: with BLOCKS and EXPRESSIONS each result of its body is filled once.
/// - `stages`: with BLOCKS its stages are stages of each statement, and of each function that it calls.
/// - `returns`, `switches`: with BLOCKS no Return stands in a continuing part. Each Switch has one default, distinct values of
///   its selector's sign, and a last case that doesn't fall through.
/// - `chains`: with BLOCKS and vetted infos, if its calls name only functions that have infos, it keeps to its stage along
///   all chains of calls.
/// - `bindings`: with BINDINGS no two globals that are used have one binding.
/// - `locations`: with BINDINGS no two parts of a group of inputs or outputs take one location.
/// - `built_ins`: if the types of the module and of its signature fit, no two parts of its arguments are one built-in.
/// - `position`: at the vertex stage it returns a position.
pub fn entry_law()
    ensures function { AcceptedHasAcceptedFunction }
    ensures sound { AcceptedEntryIsSound }
    ensures filled { AcceptedEntryFillsOnce }
    ensures stages { AcceptedEntryIsOfAllStages }
    ensures returns { AcceptedEntryHasNoReturnInContinuing }
    ensures switches { AcceptedEntryHasWholeSwitches }
    ensures chains { AcceptedEntryKeepsItsStage }
    ensures bindings { AcceptedBindingsAreDistinct }
    ensures locations { AcceptedLocationsAreDistinct }
    ensures built_ins { AcceptedBuiltInsAreDistinct }
    ensures position { AcceptedVertexHasPosition }
{}
