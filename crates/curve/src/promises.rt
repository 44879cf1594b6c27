//! What is promised of the curve: each function does nothing, and its contract is the promise.

ghost use Rattle.curve.specs.Laws.{PowerIsLeast, PowerNeverFalls, TableHoldsPowers, KindsCarry, CapacityWithinEnds, CapacityReachesEnds};
ghost use Rattle.curve.specs.Laws.{ClearWeatherChangesNothing, CurveUnderIsWellFormed, SpeedIsAboveZero, SpeedNeverBelowCapacitySpeed};
ghost use Rattle.curve.specs.Laws.{SpeedNeverRisesWithFlow, SpeedNeverFallsWithFreeFlowSpeed, DensityNeverFallsWithFlow, DensityAtMost450};
ghost use Rattle.curve.specs.Laws.{DensityMeetsLimitByExactSpeed, LetterNeverBetterWithFlow, LetterNeverBetter};

/// CURVE-5, FORM-6: T(i) is the least number that reaches the power 1.31, T never falls, and the constant
/// table is T.
pub fn powers()
    ensures least { PowerIsLeast }
    ensures never_falls { PowerNeverFalls }
    ensures table { TableHoldsPowers }
{}

/// KIND-1, FORM-7: what each kind carries, in figures.
pub fn kinds()
    ensures { KindsCarry }
{}

/// CURVE-1, KIND-1: capacity lies between the ends of its kind, and reaches both.
pub fn capacities()
    ensures within { CapacityWithinEnds }
    ensures reached { CapacityReachesEnds }
{}

/// WEATHER-1, WEATHER-2, WEATHER-3, CURVE-3: clear weather changes no curve, and under weather that is fit a
/// curve is well formed.
pub fn weather()
    ensures clear { ClearWeatherChangesNothing }
    ensures well_formed { CurveUnderIsWellFormed }
{}

/// CURVE-3: up to capacity the speed is above 0 and at least that at capacity. It never rises with more flow,
/// and in clear weather it never falls with a higher free-flow speed.
pub fn speeds()
    ensures above_zero { SpeedIsAboveZero }
    ensures at_capacity { SpeedNeverBelowCapacitySpeed }
    ensures with_flow { SpeedNeverRisesWithFlow }
    ensures with_free_flow_speed { SpeedNeverFallsWithFreeFlowSpeed }
{}

/// CURVE-7, LETTER-1: up to capacity the density never falls with more flow and is at most 450, and the
/// letter rests on the exact speed.
pub fn densities()
    ensures with_flow { DensityNeverFallsWithFlow }
    ensures most { DensityAtMost450 }
    ensures by_exact_speed { DensityMeetsLimitByExactSpeed }
{}

/// SHAPE-1, LETTER-3: more flow never gets a better letter, nor does in clear weather more flow at a
/// free-flow speed that is no higher.
pub fn letters()
    ensures with_flow { LetterNeverBetterWithFlow }
    ensures with_free_flow_speed { LetterNeverBetter }
{}
