//! What is promised of a surveyed speed: each function does nothing, and its contract is a theorem.

ghost use Rattle.refusals.specs.Facts.{Shown};
ghost use Rattle.survey.specs.Laws.{AnswersWithinEnds, BelowZeroRoundsDown};
ghost use Rattle.survey.specs.Boundary.{survey_facts};

/// SURVEY-3, SURVEY-2: every survey gets a speed from 30,000 to 90,000 thousandths of mi/h or a refusal from
/// 11 to 13, and a speed below 0 is rounded down, away from 0, as every other is.
pub fn survey_laws()
    ensures answers_within_ends { AnswersWithinEnds }
    ensures below_zero_rounds_down { BelowZeroRoundsDown }
{}

/// SURVEY-2, SURVEY-3, FIGURE-1: surveyed speeds have the figures that are listed.
pub fn survey_figures()
    ensures { Shown survey_facts }
{}
