//! A surveyed speed for a host in C, who gets thousandths of mi/h.

ghost use Rattle.std.specs.Prelude.{◌≡◌};
ghost use Rattle.survey.specs.Survey.{survey_answer};
ghost use Rattle.survey.specs.declared.SurveyedSpeed.TheVariants.{MilesPerHour, KilometresPerHour};
ghost use Rattle.marehour.specs.Calls.{handed_back, CanBeHandedBack, survey_result};

use crate::calls::handed_back;
use refusals::Refusal;
use survey::{Survey, SurveyedSpeed};

/// CALL-6: thousandths of mi/h; 11, 12 or 13.
fn survey_speed(speed: SurveyedSpeed, cars: u32, flow: u32) -> Result<usize, Refusal>
    ensures fits { CanBeHandedBack result }
    ensures result { handed_back result
        ≡ survey_result (survey_answer (record { speed = speed; cars = cars; flow = flow })) }
{
    let survey = Survey {
        speed,
        cars: u64::from(cars),
        flow: u64::from(flow),
    };
    let thousandths = survey::surveyed_speed(survey)?;
    Ok(thousandths as usize)
}

/// CALL-6, SAFE-1: the exact value of a float in miles per hour, rounded down, of so many cars at a flow
/// rate in passenger cars per hour per lane. The speed, or minus the refusal's number.
#[unsafe(no_mangle)]
pub extern "C" fn marehour_survey_mph(speed: f32, cars: u32, flow: u32) -> i32
    ensures { result
        ≡ survey_result (survey_answer (record { speed = MilesPerHour speed; cars = cars; flow = flow })) }
{
    handed_back(survey_speed(SurveyedSpeed::MilesPerHour(speed), cars, flow))
}

/// CALL-6, SAFE-1: as `marehour_survey_mph`, of a float in kilometres per hour.
#[unsafe(no_mangle)]
pub extern "C" fn marehour_survey_kmh(speed: f32, cars: u32, flow: u32) -> i32
    ensures { result
        ≡ survey_result (survey_answer
        (record { speed = KilometresPerHour speed; cars = cars; flow = flow })) }
{
    handed_back(survey_speed(SurveyedSpeed::KilometresPerHour(speed), cars, flow))
}
