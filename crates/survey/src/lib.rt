//! A surveyed speed: the exact value of a float in mi/h or km/h, rounded down to thousandths of mi/h, or
//! refusal 11, 12 or 13.

#![tactic(auto)]

pub mod promises;

ghost use Rattle.std.specs.Prelude.{◌≡◌};
ghost use Rattle.std.specs.Float.{binary32};
ghost use Rattle.std.specs.Float.Ieee.{of_bits};
ghost use Rattle.survey.specs.Survey.{rounded_in, survey_answer};
ghost use Rattle.survey.specs.Laws.{AnswerWithinEnds};
ghost use Rattle.survey.specs.Units.{UnitFits, speed_answer};

use numbers::Fraction;
use numbers::units::{FlowRate, Speed};
use refusals::Refusal;

/// REFUSAL-11: fewer cars are refused.
const FEWEST_CARS: u64 = 100;

/// REFUSAL-12: a flow from here on is refused.
const FLOW_LIMIT: FlowRate = 1_000;

/// How many thousandths of mi/h one mi/h is.
const THOUSANDTHS: u64 = 1_000;

/// SURVEY-2: a mile in millimetres: 1 mi = 1.609344 km.
const MILE: u64 = 1_609_344;

/// A kilometre in millimetres.
const KILOMETRE: u64 = 1_000_000;

/// 1 mi/h, in thousandths of mi/h.
const MILE_AN_HOUR: Fraction = Fraction {
    numerator: THOUSANDTHS,
    denominator: 1,
};

/// 1 km/h, in thousandths of mi/h.
const KILOMETRE_AN_HOUR: Fraction = Fraction {
    numerator: THOUSANDTHS * KILOMETRE,
    denominator: MILE,
};

/// SURVEY-2: what the leading digit of an f32 weighs: of its bits 1 is the sign, 8 are the exponent, and 23
/// the digits behind the leading one.
const LEADING: u64 = 1 << 23;

/// SURVEY-1, FORM-9: a speed in the unit in which it was surveyed.
#[derive(Clone, Copy, PartialEq)]
pub enum SurveyedSpeed {
    /// mi/h
    MilesPerHour(f32),
    /// km/h
    KilometresPerHour(f32),
}

/// SURVEY-1, FORM-3: what a survey holds.
#[derive(Clone, Copy, PartialEq)]
pub struct Survey {
    pub speed: SurveyedSpeed,
    /// how many cars were counted
    pub cars: u64,
    pub flow: FlowRate,
}

/// SURVEY-2, FORM-2: the speed of a float with these bits, or 13.
#[tactic(auto, using(crate::proofs::FloatLaws::by_bits))]
fn speed_of_bits(bits: u64, unit: Fraction) -> Result<Speed, Refusal>
    requires { UnitFits unit }
    ensures { result ≡ speed_answer (rounded_in unit (of_bits binary32 bits)) }
{
    let exponent = bits / LEADING;
    let digits = bits % LEADING;
    // below 1, or 512 or more, infinite, or with the sign's bit: negative
    if !(127..=135).contains(&exponent) {
        return Err(Refusal::SurveyedSpeedOutOfRange);
    }
    // a step of the last digit is 2^(exponent - 150): so many make 1
    let steps = 1 << (150 - exponent);
    let thousandths = (LEADING + digits) * unit.numerator / (steps * unit.denominator);
    if !(30_000..=90_000).contains(&thousandths) {
        return Err(Refusal::SurveyedSpeedOutOfRange);
    }
    Ok(thousandths)
}

/// SURVEY-2, FORM-2: the speed of a float, or 13. A NaN has no bits of its own, so it is refused first.
#[tactic(auto, using(crate::proofs::FloatLaws::by_float))]
fn speed_of_float(x: f32, unit: Fraction) -> Result<Speed, Refusal>
    requires { UnitFits unit }
    ensures { result ≡ speed_answer (rounded_in unit x) }
{
    if x.is_nan() {
        return Err(Refusal::SurveyedSpeedOutOfRange);
    }
    speed_of_bits(u64::from(x.to_bits()), unit)
}

/// SURVEY-3, REFUSAL-11 to REFUSAL-13: the surveyed speed, from 30,000 to 90,000 thousandths of mi/h, or the
/// first refusal: 11 for fewer than 100 cars, 12 for a flow of 1,000 or more, 13 for a speed that is not finite
/// or, rounded down, not within these ends. FORM-3: the survey is handed over by value.
#[tactic(auto, using(crate::proofs::SurveyLaws::by_survey))]
pub fn surveyed_speed(survey: Survey) -> Result<Speed, Refusal>
    ensures value { result ≡ survey_answer survey }
    ensures within_ends { AnswerWithinEnds result }
{
    if survey.cars < FEWEST_CARS {
        return Err(Refusal::CarsTooFew);
    }
    if survey.flow >= FLOW_LIMIT {
        return Err(Refusal::FlowTooLarge);
    }
    // FORM-9: by the unit, before the exact conversion
    match survey.speed {
        SurveyedSpeed::MilesPerHour(x) => speed_of_float(x, MILE_AN_HOUR),
        SurveyedSpeed::KilometresPerHour(x) => speed_of_float(x, KILOMETRE_AN_HOUR),
    }
}
