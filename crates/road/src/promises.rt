//! What is promised of a road: each function does nothing, and its contract is the promise.

ghost use Rattle.road.specs.Laws.{StraightBetweenEntries, ClearancesAreWhole, RightClearanceByTenths, RampTermIsNearest};
ghost use Rattle.road.specs.Laws.{EstimateNeverBelowZero, FreeFlowSpeedNeverFallsWithLanes, WeatherFitsExactly};

/// FFS-9, FFS-4, FFS-5: what a clearance takes off lies straight between the entries of its row, and is
/// whole: nothing is rounded.
pub fn clearances()
    ensures straight { StraightBetweenEntries }
    ensures whole { ClearancesAreWhole }
    ensures by_tenths { RightClearanceByTenths }
{}

/// FFS-8: the ramp term is the one whole number that fits its rule.
pub fn ramps()
    ensures { RampTermIsNearest }
{}

/// FFS-2, FFS-10: no estimate of free-flow speed is cut at 0, and free-flow speed never falls with more lanes.
pub fn free_flow_speed()
    ensures above_zero { EstimateNeverBelowZero }
    ensures with_lanes { FreeFlowSpeedNeverFallsWithLanes }
{}

/// REFUSAL-19, WEATHER-1: refusal 19 lets pass exactly the factors within the kind's ends.
pub fn weather()
    ensures { WeatherFitsExactly }
{}
