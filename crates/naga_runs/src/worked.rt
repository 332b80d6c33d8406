//! Facts about small bodies, worked by hand from the definitions in words and not printed by them, so that an edit of a
//! definition is noticed. Each clause is one body or one run; the bodies are in `specs/Samples`.

ghost use Rattle.naga_runs.specs.StatementActs.{ActsOfStatements};
ghost use Rattle.naga_runs.specs.WorkedContinues.{InnerBlockContinues, ContinuingContinues, ReturnsFirst, ContinuesTwice, InnerContinues, EmitsRoundContinue, RowsRun};
ghost use Rattle.naga_runs.specs.WorkedJudgements.{JumpRows, ScopeRows, OperandRows, SureRows, StatesGoAlong};
ghost use Rattle.naga_runs.specs.WorkedPlaces.{SiblingsInOrder, SiblingsInScope, LoopInOrder, LoopInScope, LoopInMust, LoopAllows, InnerLoopInOrder, InnerLoopInScope, InnerLoopInMust, InnerLoopAllows, CasesInOrder, CasesInScope, CasesAllow, SkippingLoopInScope, SkippingLoopInMust, SureLoopInMust, InnerContinueInMust, SwitchContinueInMust, DeadContinueInMust, TwiceInScope, TwiceInMust};
ghost use Rattle.naga_runs.specs.WorkedRuns.{SiblingsAccept, SiblingsReject, SiblingsStop, LoopTwice, LoopOnce, LoopNever, FallsThrough, SecondCase, NoSuchCase, ThroughSwitches, SkipsTwice, SkipsOnce, SkipsFromBlock, ActByAct, DoneByAct, SkippedByIndex, JumpsEnd};

/// The positions of bodies, in visit order.
pub fn worked_positions()
    ensures siblings { SiblingsInOrder }
    ensures one_loop { LoopInOrder }
    ensures inner_loop { InnerLoopInOrder }
    ensures cases { CasesInOrder }
{}

/// What is in scope at each position.
pub fn worked_scopes()
    ensures siblings { SiblingsInScope }
    ensures one_loop { LoopInScope }
    ensures inner_loop { InnerLoopInScope }
    ensures cases { CasesInScope }
    ensures skipping { SkippingLoopInScope }
    ensures twice { TwiceInScope }
{}

/// What every run has put at each position.
pub fn worked_musts()
    ensures one_loop { LoopInMust }
    ensures inner_loop { InnerLoopInMust }
    ensures skipping { SkippingLoopInMust }
    ensures sure { SureLoopInMust }
    ensures inner_continue { InnerContinueInMust }
    ensures switch_continue { SwitchContinueInMust }
    ensures dead_continue { DeadContinueInMust }
    ensures twice { TwiceInMust }
{}

/// Which jumps each position allows.
pub fn worked_abilities()
    ensures one_loop { LoopAllows }
    ensures inner_loop { InnerLoopAllows }
    ensures cases { CasesAllow }
{}

/// What runs record, and how they end.
pub fn worked_runs()
    ensures accept { SiblingsAccept }
    ensures reject { SiblingsReject }
    ensures stop { SiblingsStop }
    ensures twice { LoopTwice }
    ensures once { LoopOnce }
    ensures never { LoopNever }
    ensures falls_through { FallsThrough }
    ensures second_case { SecondCase }
    ensures no_such_case { NoSuchCase }
    ensures through_switches { ThroughSwitches }
    ensures act_by_act { ActByAct }
    ensures done { DoneByAct }
    ensures jumps { JumpsEnd }
{}

/// What runs skip.
pub fn worked_skips()
    ensures twice { SkipsTwice }
    ensures once { SkipsOnce }
    ensures from_block { SkipsFromBlock }
    ensures by_index { SkippedByIndex }
{}

/// Where a Continue stands, what it skips, and what it takes away from what every run has put.
#[tactic(auto, unfolding(crate::specs::Judgement::judgement, crate::specs::Judgement::state_after))]
pub fn worked_continues()
    ensures inner_block { InnerBlockContinues }
    ensures continuing { ContinuingContinues }
    ensures behind_return { ReturnsFirst }
    ensures two { ContinuesTwice }
    ensures inner_loop { InnerContinues }
    ensures both_sides { EmitsRoundContinue }
    ensures rows { RowsRun }
{}

/// What each of the 23 kinds of statement uses and puts, in order.
pub fn worked_acts()
    ensures { ActsOfStatements }
{}

/// What the plainest rules answer, and which visit a state belongs to.
#[tactic(auto, unfolding(crate::specs::Judgement::judgement, crate::specs::Judgement::state_after))]
pub fn worked_judgements()
    ensures jumps { JumpRows }
    ensures scopes { ScopeRows }
    ensures operands { OperandRows }
    ensures sure { SureRows }
    ensures states { StatesGoAlong }
{}
