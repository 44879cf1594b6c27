//! A forecast for a host in C: a load known within ends, answered in eight lent numbers.

ghost use Rattle.std.specs.Prelude.{◌≡◌, length};
ghost use Rattle.forecast.specs.Forecasts.{forecast_of};
ghost use Rattle.marehour.specs.Calls.{forecast_call, call_result, content, handed_back, CanBeHandedBack};

use crate::calls::{check_room, handed_back};
use forecast::{FIGURE_COUNT, Forecast, Range};
use lines::read;
use refusals::Refusal;

/// CALL-9, CALL-4: eight numbers; 17, 15, one of 1 to 6, 22, one of 7 to 9, 19 or 10.
#[tactic(auto, using(crate::proofs::CallLaws::call_laws))]
fn forecast_in(line: &[u8], forecast: Forecast, figures: &mut [u64]) -> Result<usize, Refusal>
    ensures fits { CanBeHandedBack result }
    ensures result { handed_back result ≡ call_result (forecast_call line.now forecast (length figures.old)) }
    ensures figures { figures.new
        ≡ content (forecast_call line.now forecast (length figures.old)) figures.old }
{
    check_room(figures.len(), FIGURE_COUNT)?;
    let case = read::read_line(line)?;
    let outcomes = forecast::evaluate_forecast(case, forecast)?;
    Ok(outcomes.put_figures(figures))
}

/// CALL-9, SAFE-1: the best and the worst letter of the line's section within the ends of its demand, in
/// vehicles per hour, its heavy share and its peak-hour factor, in thousandths, each with the combination
/// that gets it. 8, or minus the refusal's number.
#[unsafe(no_mangle)]
pub extern "C" fn marehour_forecast(
    line: &[u8],
    demand_low: u64,
    demand_high: u64,
    share_low: u64,
    share_high: u64,
    factor_low: u64,
    factor_high: u64,
    figures: &mut [u64],
) -> i32
    ensures result { result ≡ call_result (forecast_call line.now
        (forecast_of demand_low demand_high share_low share_high factor_low factor_high)
        (length figures.old)) }
    ensures figures { figures.new ≡ content (forecast_call line.now
        (forecast_of demand_low demand_high share_low share_high factor_low factor_high)
        (length figures.old)) figures.old }
{
    let forecast = Forecast {
        demand: Range {
            low: demand_low,
            high: demand_high,
        },
        heavy_share: Range {
            low: share_low,
            high: share_high,
        },
        peak_hour_factor: Range {
            low: factor_low,
            high: factor_high,
        },
    };
    handed_back(forecast_in(line, forecast, figures))
}
