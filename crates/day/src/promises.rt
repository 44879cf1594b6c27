//! What is promised of a day: each function does nothing, and its contract is a theorem.

ghost use Rattle.refusals.specs.Facts.{Shown};
ghost use Rattle.day.specs.Promises.{DayIsTheSingleCalls, PositionHoldsTheAnswer, FiguresTellTheAnswer};
ghost use Rattle.day.specs.Promises.{PositionNumbers, NoBetterWithMoreDemand, PastTheDemandsKept};
ghost use Rattle.day.specs.Promises.{RefusedDayChangesNothing, LentFitsExactly};
ghost use Rattle.day.specs.Instances.{day_instances, refused_instances};
ghost use Rattle.day.specs.Instances.{NumbersOfPositions, NoBetterWith2643, TwoNinesKept};

/// DAY-1, DAY-2: a day is the answers of the single call with each demand, each in its position, and twelve
/// numbers are those of one answer only.
pub fn day_is_the_single_calls()
    ensures day_is_the_single_calls { DayIsTheSingleCalls }
    ensures position_holds_the_answer { PositionHoldsTheAnswer }
    ensures figures_tell_the_answer { FiguresTellTheAnswer }
{}

/// DAY-3, DAY-4: the number in a position is that of the road's refusal, or 7 where the demand is too large
/// and 1 to 6 do not refuse the road; on an accepted road a position with more demand has no better a letter.
pub fn positions()
    ensures position_numbers { PositionNumbers }
    ensures no_better_with_more_demand { NoBetterWithMoreDemand }
{}

/// REFUSAL-18, CALL-5: 18 refuses no demand, more than 24 and room for fewer answers, and leaves every number
/// as it was; else what is behind the answers stays.
pub fn lent_numbers()
    ensures past_the_demands_kept { PastTheDemandsKept }
    ensures refused_day_changes_nothing { RefusedDayChangesNothing }
    ensures lent_fits_exactly { LentFitsExactly }
{}

/// DAY-1 to DAY-4: days that meet every hypothesis above, with what they are worked out to be.
pub fn instances()
    ensures days { Shown day_instances }
    ensures refused { Shown refused_instances }
    ensures numbers_of_positions { NumbersOfPositions }
    ensures no_better_with_2643 { NoBetterWith2643 }
    ensures two_nines_kept { TwoNinesKept }
{}
