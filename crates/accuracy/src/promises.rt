//! What is promised of the shown multilane speed: each function does nothing, and its contract is a theorem.

ghost use Rattle.accuracy.specs.Promises.{ShownSpeedJustBelow, AnswerJustBelow, AToEUpToCapacity};
ghost use Rattle.accuracy.specs.Promises.{AToEJustBelow, NoSpeedAboveCapacity};
ghost use Rattle.accuracy.specs.Laws.{LowerSpeedsAtMost, FreeFlowSpeedUpToBreakpoint};
ghost use Rattle.accuracy.specs.Laws.{CapacitySpeedAtCapacity, NoFasterWithMoreFlow};
ghost use Rattle.accuracy.specs.Laws.{TableStepAtMost1310, TableStepReaches1310};
ghost use Rattle.accuracy.specs.Distances.{DistancesShown, FarthestJustBelow};
ghost use Rattle.accuracy.specs.Instances.{AnswerToFarthest, AnswerAtCapacity, AnswerAboveCapacity};

/// ACCURACY-2: for every free-flow speed from 45,000 to 70,000 and every flow rate up to capacity, the shown
/// speed does not pass the manual's and stays within 26 thousandths of mi/h below it.
pub fn shown_speed_just_below()
    ensures { ShownSpeedJustBelow }
{}

/// ACCURACY-2, LETTER-2: the same of the speed in the answer to an accepted multilane case, up to capacity
/// and so with a letter from A to E. Above capacity the speed in an answer is 0.
pub fn answer_just_below()
    ensures answer_just_below { AnswerJustBelow }
    ensures a_to_e_up_to_capacity { AToEUpToCapacity }
    ensures a_to_e_just_below { AToEJustBelow }
    ensures no_speed_above_capacity { NoSpeedAboveCapacity }
{}

/// ACCURACY-1: the manual's curve is the free-flow speed up to the breakpoint and 10c/45 at capacity, it
/// never rises with more flow, and what is below a speed at most the curve is at most the curve too.
pub fn manual_curve()
    ensures lower_speeds_at_most { LowerSpeedsAtMost }
    ensures free_flow_speed_up_to_breakpoint { FreeFlowSpeedUpToBreakpoint }
    ensures capacity_speed_at_capacity { CapacitySpeedAtCapacity }
    ensures no_faster_with_more_flow { NoFasterWithMoreFlow }
{}

/// ACCURACY-3: from one entry of the table of powers to the next is at most 1,310 millionths, and once it is
/// that.
pub fn table_step()
    ensures table_step_at_most_1310 { TableStepAtMost1310 }
    ensures table_step_reaches_1310 { TableStepReaches1310 }
{}

/// ACCURACY-3: how many whole thousandths of mi/h the shown speed is below the manual's curve at nine points,
/// 22 at the farthest.
pub fn distances()
    ensures distances_shown { DistancesShown }
    ensures farthest_just_below { FarthestJustBelow }
{}

/// ACCURACY-2, LETTER-2: three cases meet what the theorems ask: the farthest, one at capacity, one above it.
pub fn instances()
    ensures answer_to_farthest { AnswerToFarthest }
    ensures answer_at_capacity { AnswerAtCapacity }
    ensures answer_above_capacity { AnswerAboveCapacity }
{}
