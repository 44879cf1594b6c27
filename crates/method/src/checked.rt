//! REFUSAL-10, and the curve of a case that it lets pass.

ghost use Rattle.std.specs.Prelude.{◌≡◌};
ghost use Rattle.curve.specs.Weather.{FactorsFit};
ghost use Rattle.road.specs.Refusals.{RoadFits};
ghost use Rattle.method.specs.Checked.{checked_curve};

use curve::{Curve, Weather};
use refusals::Refusal;
use road::Road;
use road::refusal::FitCase;

/// REFUSAL-10: the curve of a road with a lane count under weather, or 10, where 1 to 5 let the road pass and
/// 19 the weather. No load is asked.
#[tactic(auto, using(crate::proofs::RefusalLaws::ten_laws), unfolding(crate::specs::Refusals::speed_refusals, crate::specs::Checked::curve_of))]
pub fn checked_curve_under(road: &Road, weather: Weather, lanes: u64) -> Result<Curve, Refusal>
    requires road { RoadFits road.now }
    requires weather { FactorsFit road.now.kind weather }
    ensures { result ≡ checked_curve road.now weather lanes }
{
    let limits = road.kind.limits();
    let speed = road.free_flow_speed(lanes);
    if speed < limits.lowest_speed {
        return Err(Refusal::SpeedBelowLowerEnd);
    }
    let curve = Curve::under(weather, road.kind, speed);
    if curve.free_flow_speed < limits.lowest_adjusted_speed {
        return Err(Refusal::SpeedBelowLowerEnd);
    }
    Ok(curve)
}

/// REFUSAL-10: the curve of a fit case with a lane count, or 10.
#[tactic(auto, using(road::proofs::RefusalLaws::fit_road))]
pub fn checked_curve(fit: &FitCase, lanes: u64) -> Result<Curve, Refusal>
    ensures { result ≡ checked_curve fit.now.case.road fit.now.case.weather lanes }
{
    checked_curve_under(&fit.case.road, fit.case.weather, lanes)
}
