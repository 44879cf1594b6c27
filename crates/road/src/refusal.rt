//! Which roads and cases are fit: refusals 1 to 9 and 19, in their order.

ghost use Rattle.std.specs.Prelude.{◌≡◌, IfOk};
ghost use Rattle.refusals.specs.Refusals.{first_refusal};
ghost use Rattle.refusals.specs.Numbers.{refusal_number};
ghost use Rattle.road.specs.Refusals.{median_unfit, most_access, weather_unfit, road_refusals, section_refusals, load_refusals};
ghost use Rattle.road.specs.Refusals.{weather_refusals, field_refusals, FieldsFit};

use crate::{Case, Median, Road};
use curve::Weather;
use curve::kind::Kind;
use numbers::units::Demand;
use refusals::Refusal;

/// REFUSAL-7: the greatest demand that 7 lets pass.
pub const GREATEST_DEMAND: Demand = 999_999;

/// REFUSAL-4: a median other than D on kind F.
fn median_unfit(kind: Kind, median: Median) -> bool
    ensures { result ≡ median_unfit kind median }
{
    kind == Kind::Freeway && median != Median::Divided
}

/// REFUSAL-5: the most ramps or access points that 5 lets pass.
fn most_access(kind: Kind) -> u64
    ensures { result ≡ most_access kind }
{
    match kind {
        Kind::Freeway => 48,
        Kind::Multilane => 200,
    }
}

/// REFUSAL-19: whether a factor is outside the kind's ends.
#[tactic(auto, unfolding(crate::specs::Refusals::weather_unfit))]
fn weather_unfit(kind: Kind, weather: Weather) -> bool
    ensures { result ≡ weather_unfit kind weather }
{
    let fit = kind.limits().lowest_factor..=1_000;
    !fit.contains(&weather.speed_factor) || !fit.contains(&weather.capacity_factor)
}

impl Road {
    /// REFUSAL-1 to REFUSAL-5: whether the road is fit: the first of them that refuses it, if any does.
    #[tactic(auto, unfolding(crate::specs::Refusals::road_refusals))]
    fn check(&self) -> Result<(), Refusal>
        ensures { refusal_number result ≡ first_refusal (road_refusals self.now) }
    {
        if !(30_000..=90_000).contains(&self.speed) {
            return Err(Refusal::SpeedOutOfRange);
        }
        if !(100..=200).contains(&self.lane_width) {
            return Err(Refusal::WidthOutOfRange);
        }
        if 400 < self.right_clearance || 400 < self.left_clearance {
            return Err(Refusal::ClearanceTooLarge);
        }
        if median_unfit(self.kind, self.median) {
            return Err(Refusal::MedianUnfit);
        }
        if most_access(self.kind) < self.access {
            return Err(Refusal::AccessTooLarge);
        }
        Ok(())
    }
}

impl Case {
    /// REFUSAL-1 to REFUSAL-6: whether the section is fit: the first of them that refuses the case, if any
    /// does.
    #[tactic(auto, using(crate::proofs::RefusalLaws::section_in_turn))]
    pub fn check_section(&self) -> Result<(), Refusal>
        ensures { refusal_number result ≡ first_refusal (section_refusals self.now) }
    {
        self.road.check()?;
        let limits = self.road.kind.limits();
        if !(limits.fewest_lanes..=limits.most_lanes).contains(&self.lanes) {
            return Err(Refusal::LanesNotOfTheKind);
        }
        Ok(())
    }

    /// REFUSAL-7 to REFUSAL-9: whether the load is fit: the first of them that refuses the case, if any does.
    #[tactic(auto, unfolding(crate::specs::Refusals::load_refusals))]
    pub fn check_load(&self) -> Result<(), Refusal>
        ensures { refusal_number result ≡ first_refusal (load_refusals self.now) }
    {
        if GREATEST_DEMAND < self.demand {
            return Err(Refusal::DemandTooLarge);
        }
        if !(250..=1_000).contains(&self.peak_hour_factor) {
            return Err(Refusal::FactorOutOfRange);
        }
        if 1_000 < self.heavy_share {
            return Err(Refusal::ShareTooLarge);
        }
        Ok(())
    }

    /// REFUSAL-19: whether the weather is fit, or 19.
    pub fn check_weather(&self) -> Result<(), Refusal>
        ensures { refusal_number result ≡ first_refusal (weather_refusals self.now) }
    {
        if weather_unfit(self.road.kind, self.weather) {
            return Err(Refusal::WeatherUnfit);
        }
        Ok(())
    }
}

/// A case that none of REFUSAL-1 to REFUSAL-9 nor REFUSAL-19 refuses.
#[derive(Clone, Copy)]
pub struct FitCase {
    pub case: Case,
    pub ghost fits: { FieldsFit case },
}

impl FitCase {
    /// ORDER-2: the case, or the first of 1 to 9 and 19 that refuses it.
    #[tactic(auto, using(crate::proofs::RefusalLaws::fields_in_turn), unfolding(crate::specs::Refusals::field_refusals))]
    pub fn check(case: Case) -> Result<FitCase, Refusal>
        ensures refusal { refusal_number result ≡ first_refusal (field_refusals case) }
        ensures kept { IfOk result (λ fit. fit.case ≡ case) }
    {
        case.check_section()?;
        case.check_load()?;
        case.check_weather()?;
        Ok(FitCase { case })
    }
}
