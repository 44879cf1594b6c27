//! What is promised of the method: each function does nothing, and its contract is the promise.

ghost use Rattle.refusals.specs.Facts.{Shown};
ghost use Rattle.method.specs.Boundary.{boundary_facts};
ghost use Rattle.method.specs.Laws.{AcceptedCurveIsWellFormed, MultilaneIsInClearWeather, FlowRateNeverFallsWithLoad, NoDemandGetsA};
ghost use Rattle.method.specs.Laws.{RefusalsInOrder};

/// ORDER-2: what refuses a case: 1 to 9, 19 and 10, in this order.
pub fn refusals()
    ensures { RefusalsInOrder }
{}

/// CURVE-3, WEATHER-1, FLOW-2, LETTER-1: the curve of an accepted case is well formed, and on kind M the
/// weather is clear. The flow rate never falls with more load, and without demand the letter is A.
pub fn accepted_cases()
    ensures curve { AcceptedCurveIsWellFormed }
    ensures multilane { MultilaneIsInClearWeather }
    ensures flow_rate { FlowRateNeverFallsWithLoad }
    ensures no_demand { NoDemandGetsA }
{}

/// FIGURE-1: each figure is what is printed for it.
pub fn boundary_sections()
    ensures { Shown boundary_facts }
{}
