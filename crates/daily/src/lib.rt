//! The answer to a case with the hourly demand of a daily traffic in the place of its own, and the daily
//! service volumes that go with it.

#![tactic(auto)]

pub mod promises;

ghost use Rattle.std.specs.Prelude.{◌≡◌, ◌≤◌, length};
ghost use Rattle.refusals.specs.Refusals.{first_refusal};
ghost use Rattle.refusals.specs.Numbers.{refusal_number};
ghost use Rattle.text.specs.Buffer.{Wrote};
ghost use Rattle.road.specs.Refusals.{greatest_demand};
ghost use Rattle.daily.specs.Daily.{SharesInRange, traffic_refusals, TrafficFits, hourly_demand, daily_answer};
ghost use Rattle.daily.specs.Daily.{figure_count, daily_figures};
ghost use Rattle.daily.specs.Within.{traffic_within, VolumesFit, volumes_within};

use answer::evaluate;
use answer::evaluate::{Grade, Volumes};
use numbers::units::{Demand, Share};
use refusals::Refusal;
use road::Case;
use text::buffer;

/// REFUSAL-21: the greatest daily traffic that 21 lets pass.
pub const GREATEST_DAILY_TRAFFIC: DailyTraffic = 4_000_000_000;

/// DAILY-1: what one is in millionths, the unit of K × D.
const MILLION: u64 = 1_000_000;

/// DAILY-3: how many numbers an answer is: eleven figures and five daily service volumes.
pub const FIGURE_COUNT: usize = 16;

/// DAILY-1: the shares K and D.
#[derive(Clone, Copy, PartialEq, Eq)]
pub struct Shares {
    /// K: the peak hour's share of the daily traffic
    pub peak: Share,
    /// D: the busier direction's share of the peak hour
    pub direction: Share,
}

/// DAILY-1, DAILY-2, UNIT-1: a daily traffic or a daily service volume, in vehicles a day.
pub type DailyTraffic = u64;

/// DAILY-3: what a case gets with a daily traffic.
#[derive(Clone, Copy, PartialEq, Eq)]
pub struct DailyGrade {
    /// with the hourly demand
    pub grade: Grade,
    /// daily service volumes
    pub volumes: Volumes,
}

impl Shares {
    /// DAILY-6: asks 20, of shares that are not from 1 to 1,000, and then 21, of a traffic above its end.
    #[tactic(auto, unfolding(crate::specs::Daily::shares_unfit, crate::specs::Daily::traffic_refusals))]
    fn check_traffic(self, daily_traffic: DailyTraffic) -> Result<(), Refusal>
        ensures { refusal_number result ≡ first_refusal (traffic_refusals self daily_traffic) }
    {
        let fit = 1..=1_000;
        if !fit.contains(&self.peak) || !fit.contains(&self.direction) {
            return Err(Refusal::SharesUnfit);
        }
        if GREATEST_DAILY_TRAFFIC < daily_traffic {
            return Err(Refusal::DailyTrafficTooLarge);
        }
        Ok(())
    }

    /// DAILY-1: the hourly demand of a daily traffic: rounded up once, behind both shares.
    #[tactic(auto, using(crate::proofs::WithinLaws::rounded_up), unfolding(crate::specs::Daily::hourly_demand))]
    fn hourly_demand(self, daily_traffic: DailyTraffic) -> Demand
        requires { TrafficFits self daily_traffic }
        ensures { result ≡ hourly_demand self daily_traffic }
    {
        (daily_traffic * self.peak * self.direction).div_ceil(MILLION)
    }

    /// DAILY-2, DAILY-3: the greatest daily traffic whose hourly demand is at most a volume, by division.
    #[tactic(auto, using(crate::proofs::WithinLaws::by_division))]
    fn traffic_within(self, volume: Demand) -> DailyTraffic
        requires { SharesInRange self × (volume ≤ greatest_demand) }
        ensures { result ≡ traffic_within self volume }
    {
        (volume * MILLION / (self.peak * self.direction)).min(GREATEST_DAILY_TRAFFIC)
    }

    /// DAILY-2: `traffic_within` of each service volume. No search: SHAPE-2 carries over to the daily traffic.
    fn volumes_within(self, volumes: Volumes) -> Volumes
        requires { SharesInRange self × VolumesFit volumes }
        ensures { result ≡ volumes_within self volumes }
    {
        Volumes {
            a: self.traffic_within(volumes.a),
            b: self.traffic_within(volumes.b),
            c: self.traffic_within(volumes.c),
            d: self.traffic_within(volumes.d),
            e: self.traffic_within(volumes.e),
        }
    }
}

impl DailyGrade {
    /// DAILY-3: puts its sixteen numbers: the eleven figures of its grade, the letter by its number, and the
    /// daily service volumes A to E. Answers how many they are.
    pub fn put_figures(&self, out: &mut [u64]) -> usize
        requires { figure_count ≤ length out.old }
        ensures { Wrote (daily_figures (Ok self.now)) out.old out.new result }
    {
        let count = buffer::put_numbers(&self.grade.figures(), out);
        let Volumes { a, b, c, d, e } = self.volumes;
        count + buffer::put_numbers(&[a, b, c, d, e], &mut out[count..])
    }
}

/// DAILY-3, DAILY-6: what the case gets with a daily traffic, or the first refusal: 20 of the shares, 21 of
/// the daily traffic, and those of the case with the hourly demand. The case's own demand is not read.
#[tactic(auto, using(crate::proofs::DailyLaws::by_engine))]
pub fn evaluate_daily(
    case: Case,
    shares: Shares,
    daily_traffic: DailyTraffic,
) -> Result<DailyGrade, Refusal>
    ensures { result ≡ daily_answer case shares daily_traffic }
{
    shares.check_traffic(daily_traffic)?;
    let hourly_demand = shares.hourly_demand(daily_traffic);
    let grade = evaluate::evaluate(case.with_demand(hourly_demand))?;
    let volumes = shares.volumes_within(grade.volumes);
    Ok(DailyGrade { grade, volumes })
}
