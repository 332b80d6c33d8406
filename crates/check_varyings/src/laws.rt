//! Laws of the judgement of inputs and outputs as a whole.

ghost use Rattle.check_varyings.specs.DistinctVaryings.{AcceptedHasNoLocationTwice, AcceptedHasNoBuiltInTwice};
ghost use Rattle.check_varyings.specs.Varyings.{StartsEmpty, PointsAreByPosition, LeavesTheNext, SeesLocationsAlone};

/// What a state has seen and what is seen by position hang together. Where no point of a group fails, no location is
/// taken twice, and no built-in is there twice.
pub fn varyings_law()
    ensures start { StartsEmpty }
    ensures points { PointsAreByPosition }
    ensures next { LeavesTheNext }
    ensures other { SeesLocationsAlone }
    ensures locations { AcceptedHasNoLocationTwice }
    ensures built_ins { AcceptedHasNoBuiltInTwice }
{}
