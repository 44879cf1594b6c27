//! The best and the worst letter of a case whose demand, heavy share and peak-hour factor are known within
//! ranges.

#![tactic(auto)]

pub mod promises;

ghost use Rattle.std.specs.Prelude.{◌≡◌, ◌≤◌, length, IfOk};
ghost use Rattle.refusals.specs.Refusals.{first_refusal};
ghost use Rattle.refusals.specs.Numbers.{refusal_number};
ghost use Rattle.text.specs.Buffer.{Wrote};
ghost use Rattle.road.specs.declared.Case.{Case};
ghost use Rattle.forecast.specs.Forecasts.{with_combination, best_combination, worst_combination};
ghost use Rattle.forecast.specs.Forecasts.{is_reversed, range_refusals, forecast_refusals};
ghost use Rattle.forecast.specs.Forecasts.{forecast_answer, figure_count, outcome_figures};
ghost use Rattle.forecast.specs.Ends.{outcome_of};

use curve::service::Letter;
use method::accepted::AcceptedCase;
use numbers::units::{Demand, Share};
use refusals::Refusal;
use road::Case;
use road::refusal::{FitCase, GREATEST_DEMAND};
use text::buffer;

/// FORECAST-3: how many figures an answer has: two letters, each with a demand, a heavy share and a peak-hour
/// factor.
pub const FIGURE_COUNT: usize = 8;

/// FORECAST-1: every whole number from the low to the high end.
#[derive(Clone, Copy, PartialEq, Eq)]
pub struct Range {
    pub low: u64,
    pub high: u64,
}

/// FORECAST-1: what a forecast knows of a case.
#[derive(Clone, Copy, PartialEq, Eq)]
pub struct Forecast {
    /// vehicles per hour
    pub demand: Range,
    /// thousandths
    pub heavy_share: Range,
    /// thousandths
    pub peak_hour_factor: Range,
}

/// FORECAST-1: one number of each range.
#[derive(Clone, Copy, PartialEq, Eq)]
pub struct Combination {
    pub demand: Demand,
    pub heavy_share: Share,
    pub peak_hour_factor: Share,
}

/// FORECAST-3: a letter, and a combination that gets it.
#[derive(Clone, Copy, PartialEq, Eq)]
pub struct Outcome {
    pub letter: Letter,
    pub combination: Combination,
}

/// FORECAST-2: what a case gets at best and at worst.
#[derive(Clone, Copy, PartialEq, Eq)]
pub struct Outcomes {
    pub best: Outcome,
    pub worst: Outcome,
}

impl Range {
    /// REFUSAL-22.
    fn is_reversed(self) -> bool
        ensures { result ≡ is_reversed self }
    {
        self.high < self.low
    }
}

impl Forecast {
    /// FORECAST-3: low demand, low share and high factor.
    fn best_combination(self) -> Combination
        ensures { result ≡ best_combination self }
    {
        Combination {
            demand: self.demand.low,
            heavy_share: self.heavy_share.low,
            peak_hour_factor: self.peak_hour_factor.high,
        }
    }

    /// FORECAST-3: the opposite ends.
    fn worst_combination(self) -> Combination
        ensures { result ≡ worst_combination self }
    {
        Combination {
            demand: self.demand.high,
            heavy_share: self.heavy_share.high,
            peak_hour_factor: self.peak_hour_factor.low,
        }
    }

    /// FORECAST-4: 22 of the ranges, and then 7, 8 and 9, each of both ends of its range.
    #[tactic(auto, unfolding(crate::specs::Forecasts::range_refusals, road::specs::Refusals::load_refusals))]
    fn check_ranges(self) -> Result<(), Refusal>
        ensures { (case : Case) → refusal_number result ≡ first_refusal (range_refusals case self) }
    {
        let Forecast {
            demand,
            heavy_share,
            peak_hour_factor,
        } = self;
        if demand.is_reversed() || heavy_share.is_reversed() || peak_hour_factor.is_reversed() {
            return Err(Refusal::EndsReversed);
        }
        if GREATEST_DEMAND < demand.high {
            return Err(Refusal::DemandTooLarge);
        }
        if peak_hour_factor.low < 250 || 1_000 < peak_hour_factor.high {
            return Err(Refusal::FactorOutOfRange);
        }
        if 1_000 < heavy_share.high {
            return Err(Refusal::ShareTooLarge);
        }
        Ok(())
    }

    /// FORECAST-4: the case at its best, or the first refusal: 1 to 6, 22, 7 to 9 of both ends, 19, 10.
    #[tactic(auto, using(crate::proofs::ForecastLaws::in_their_order), unfolding(crate::specs::Forecasts::forecast_refusals))]
    fn check(self, case: Case) -> Result<AcceptedCase, Refusal>
        ensures refusal { refusal_number result ≡ first_refusal (forecast_refusals case self) }
        ensures kept { IfOk result (λ best. best.case ≡ with_combination case (best_combination self)) }
    {
        case.check_section()?;
        self.check_ranges()?;
        case.check_weather()?;
        AcceptedCase::of(FitCase {
            case: with_combination(case, self.best_combination()),
        })
    }
}

impl Outcome {
    /// FORECAST-3: what an accepted case gets, and its own load.
    fn of(accepted: &AcceptedCase) -> Outcome
        ensures { result ≡ outcome_of accepted.now.case }
    {
        let Case {
            demand,
            heavy_share,
            peak_hour_factor,
            ..
        } = accepted.case;
        Outcome {
            letter: accepted.measures().performance.letter,
            combination: Combination {
                demand,
                heavy_share,
                peak_hour_factor,
            },
        }
    }
}

impl Outcomes {
    /// FORECAST-3: the eight figures, letters by their numbers.
    pub fn figures(&self) -> [u64; FIGURE_COUNT]
        ensures { result ≡ outcome_figures (Ok self.now) }
    {
        let Outcomes { best, worst } = *self;
        [
            best.letter.number(),
            best.combination.demand,
            best.combination.heavy_share,
            best.combination.peak_hour_factor,
            worst.letter.number(),
            worst.combination.demand,
            worst.combination.heavy_share,
            worst.combination.peak_hour_factor,
        ]
    }

    /// FORECAST-3, TEXT-5: puts the eight figures at the start of lent numbers; answers how many they are.
    pub fn put_figures(&self, out: &mut [u64]) -> usize
        requires { figure_count ≤ length out.old }
        ensures { Wrote (outcome_figures (Ok self.now)) out.old out.new result }
    {
        buffer::put_numbers(&self.figures(), out)
    }
}

/// FORECAST-1, CASE-3.
fn with_combination(case: Case, combination: Combination) -> Case
    ensures { result ≡ with_combination case combination }
{
    case.with_load(
        combination.demand,
        combination.peak_hour_factor,
        combination.heavy_share,
    )
}

/// FORECAST-2: the letters nearest to A and to F that any combination within the ranges gets, each with a
/// combination that gets it, or the first refusal, in the order of FORECAST-4. The case's own demand, share
/// and factor are not read. Two combinations are looked at, on one curve: SHAPE-1 carries over to all.
pub fn evaluate_forecast(case: Case, forecast: Forecast) -> Result<Outcomes, Refusal>
    ensures { result ≡ forecast_answer case forecast }
{
    // a match, since `?` would copy the accepted case
    match forecast.check(case) {
        Ok(best) => {
            let Combination {
                demand,
                heavy_share,
                peak_hour_factor,
            } = forecast.worst_combination();
            let worst = best.with_load(demand, peak_hour_factor, heavy_share);
            Ok(Outcomes {
                best: Outcome::of(&best),
                worst: Outcome::of(&worst),
            })
        }
        Err(refusal) => Err(refusal),
    }
}
