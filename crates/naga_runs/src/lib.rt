//! For users: definitions of the positions, the scope and the runs of a body, and the laws between them.
//!
//! These are definitions and laws. The laws compute nothing: a crate that judges bodies calls them to cite them. What
//! computes here is `Abilities`: which jumps the parts of a body allow.
#![tactic(auto)]

mod worked;

ghost use Rattle.naga_runs.specs.Abilities.{AbilitiesByLastStep};
ghost use Rattle.naga_runs.specs.VisitOrder.{PositionsAreVisits};
ghost use Rattle.naga_runs.specs.Skipped.{SkippedIsUnion};
ghost use Rattle.naga_runs.specs.Unions.{ScopeIsUnion, MustIsUnion};
ghost use Rattle.naga_runs.specs.Judgement.{Rules, FollowedAgrees, EarlierAgrees, EarlierIsAll};
ghost use Rattle.naga_runs.specs.ByTree.{body_abilities, case_abilities, loop_abilities, continuing_abilities, VisitsAreByTree, JudgementIsByTree, Compositional};
ghost use Rattle.std.specs.Prelude.{◌≡◌};
ghost use Rattle.naga_runs.specs.Soundness.{SurelyFitIsSure};
ghost use Rattle.naga_runs.specs.Exactness.{TrailIsOfRun, MustIsLive, MustIsExact, JumpsAreExact, EarlierIsLive, DeadCodeIsExact};
ghost use Rattle.naga_runs.specs.ExactnessFacts.{DeadCodeIsRefused, PutIsRefused, LawApplies};
ghost use Rattle.naga_runs.specs.Guards.{AcceptedIsSure, AcceptedBlockIsSure, BlocksAreRead};
ghost use Rattle.naga_runs.specs.PlainRules.{PlainRulesGuard};
ghost use Rattle.naga_runs.specs.Witnesses.{UsesAreWitnessed, JumpsAreWitnessed, FaultIsOfAVisit};
ghost use Rattle.naga_runs.specs.SkippedEmission.{SkippedIsUsed, PutIsUsed, StopsAtTurnTwo, SkippingLoopIsNotSure, SureLoopIsSurelyFit};

pub use crate::worked::{
    worked_abilities, worked_acts, worked_continues, worked_judgements, worked_musts,
    worked_positions, worked_runs, worked_scopes, worked_skips,
};

/// Which jumps a place in a body allows: a `Return`, a `Break`, a `Continue`.
#[derive(Clone, Copy, PartialEq, Eq, Debug)]
pub struct Abilities {
    pub can_return: bool,
    pub can_break: bool,
    pub can_continue: bool,
}

impl Abilities {
    /// Where the body of a function begins.
    pub fn at_begin() -> Self
        ensures { result ≡ body_abilities }
    {
        Abilities {
            can_return: true,
            can_break: false,
            can_continue: false,
        }
    }

    /// In a case of a `Switch` that stands here.
    pub fn in_case(self) -> Self
        ensures { result ≡ case_abilities self }
    {
        Abilities {
            can_break: true,
            ..self
        }
    }

    /// In the body of a `Loop` that stands here.
    pub fn in_loop(self) -> Self
        ensures { result ≡ loop_abilities self }
    {
        Abilities {
            can_break: true,
            can_continue: true,
            ..self
        }
    }

    /// In the continuing part of a `Loop`, wherever it stands.
    pub fn in_continuing() -> Self
        ensures { result ≡ continuing_abilities }
    {
        Abilities {
            can_return: false,
            can_break: false,
            can_continue: false,
        }
    }
}

/// Law over runs: if the conditions hold at every position of a body, each of its runs is sound.
///
/// The conditions ask that each use is among the handles that every run has emitted. Further clauses: what two bodies
/// do, so that the law isn't empty; and that the scope is the union of what earlier siblings and the lists of Loops
/// emit.
pub fn runs_law()
    ensures sure { SurelyFitIsSure }
    ensures skipped { SkippedIsUsed }
    ensures put { PutIsUsed }
    ensures stops { StopsAtTurnTwo }
    ensures not_sure { SkippingLoopIsNotSure }
    ensures surely_fit { SureLoopIsSurelyFit }
    ensures scope { ScopeIsUnion }
{}

/// The law over refusals. In a body without dead code, a handle is in Must exactly where it is live in every run that
/// comes to the position, and a jump has its ability exactly where no run is stuck by it. What is in Must is live so in
/// every body, dead code or not; so is what an earlier sibling put. What is used and not in Must has a run that uses it
/// while it isn't live, and a jump without its ability has one that is stuck by it. The trail, off which "comes to" is
/// read, is that of the run; and dead code is computed over the tree.
///
/// Two things aren't exact: a body with dead code may be refused for what no run comes to, and a put may be refused
/// where no run has the handle live. The law says something of a Loop with a Continue and of a Switch that falls
/// through.
pub fn exactness_law()
    ensures trail { TrailIsOfRun }
    ensures live { MustIsLive }
    ensures must { MustIsExact }
    ensures jumps { JumpsAreExact }
    ensures uses { UsesAreWitnessed }
    ensures stuck { JumpsAreWitnessed }
    ensures earlier { EarlierIsLive }
    ensures dead_code { DeadCodeIsExact }
    ensures dead { DeadCodeIsRefused }
    ensures puts { PutIsRefused }
    ensures applies { LawApplies }
{}

/// Laws of positions: those of a body are where something stands, in visit order.
///
/// What every run has emitted, and what a run skipped, are unions as the scope is. The jumps that are allowed depend
/// on the last step of certain parts.
pub fn positions_law()
    ensures visits { PositionsAreVisits }
    ensures must { MustIsUnion }
    ensures skipped { SkippedIsUnion }
    ensures abilities { AbilitiesByLastStep }
{}

/// The law over judgements, for every state that goes along the visits of a body and every list of points that asks
/// for it. The judgement by positions is the one along the tree, which has one equation for each form of statement;
/// what rules accept that guard the acts and the jump of each visit has sure runs. Of a block of the IR it is enough
/// that they guard what has the acts that are read off its statement.
/// A fault is the first of one of the visits.
pub fn judgement_law<State, Fault>()
    ensures by_tree { (R : Rules State Fault) → JudgementIsByTree R }
    ensures compositional { (R : Rules State Fault) → Compositional R }
    ensures sure { (R : Rules State Fault) → AcceptedIsSure R }
    ensures block_sure { (R : Rules State Fault) → AcceptedBlockIsSure R }
    ensures refused { (R : Rules State Fault) → FaultIsOfAVisit R }
{}

/// Judgements over two states of which one is a view of the other agree; so do one over the earlier visits themselves
/// and one over a view of them.
pub fn view_law<State, Seen, Fault>()
    ensures follows { FollowedAgrees State Seen Fault }
    ensures earlier { EarlierAgrees Seen Fault }
    ensures all { EarlierIsAll Fault }
{}

/// The visits that are read off the positions are those along the tree; and in the tree of a block every leaf has the
/// acts that are read off its statement.
pub fn visits_law()
    ensures by_tree { VisitsAreByTree }
    ensures read { BlocksAreRead }
{}

/// There are rules that guard what stands at a visit, and that accept some bodies and refuse others.
pub fn plain_rules_law()
    ensures { PlainRulesGuard }
{}
