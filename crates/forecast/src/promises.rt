//! What is promised of a forecast: each function does nothing, and its contract is a theorem.

ghost use Rattle.refusals.specs.Facts.{Shown};
ghost use Rattle.forecast.specs.Promises.{EveryLetterBetween, ShownAtTheEnds, MetThroughout, EqualEnds};
ghost use Rattle.forecast.specs.Promises.{OwnLoadIsNotRead, AcceptedExactly, RefusalsInOrder, RefusedExactly};
ghost use Rattle.forecast.specs.Instances.{LetterBetween, TargetKept, TargetMissed};
ghost use Rattle.forecast.specs.Instances.{computed_instances, refusal_instances, forecast_instances};

/// FORECAST-2, FORECAST-3, FORECAST-5: every whole combination within the ranges is accepted, its letter is
/// between the best and the worst, and these are the engine's letters at the two ends. So the two letters
/// tell of a target whether it is met whatever comes, and whether it is missed whatever comes.
pub fn best_and_worst()
    ensures every_letter_between { EveryLetterBetween }
    ensures shown_at_the_ends { ShownAtTheEnds }
    ensures met_throughout { MetThroughout }
{}

/// FORECAST-5, FORECAST-1: where each range is a single number both letters, or the refusal, are those of the
/// plain case, and the load that the case carries is not read.
pub fn plain_cases()
    ensures equal_ends { EqualEnds }
    ensures own_load_is_not_read { OwnLoadIsNotRead }
{}

/// FORECAST-4: a forecast is accepted exactly where no range is reversed and every whole combination within
/// the ranges is accepted; which number refuses it, in which order, and exactly when.
pub fn refusals_in_order()
    ensures accepted_exactly { AcceptedExactly }
    ensures refusals_in_order { RefusalsInOrder }
    ensures refused_exactly { RefusedExactly }
{}

/// FORECAST-2 to FORECAST-5, FIGURE-1: forecasts that meet every hypothesis above, with what is worked out of
/// them.
pub fn instances()
    ensures letter_between { LetterBetween }
    ensures target_kept { TargetKept }
    ensures target_missed { TargetMissed }
    ensures letters_by_definition { Shown computed_instances }
    ensures refusals { Shown refusal_instances }
    ensures answers { Shown forecast_instances }
{}
