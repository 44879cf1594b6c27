//! A daily traffic for a host in C, answered in sixteen lent numbers.

ghost use Rattle.std.specs.Prelude.{◌≡◌, length};
ghost use Rattle.daily.specs.Daily.{shares_of};
ghost use Rattle.marehour.specs.Calls.{daily_call, call_result, content, handed_back, CanBeHandedBack};

use crate::calls::{check_room, handed_back};
use daily::{FIGURE_COUNT, Shares};
use lines::read;
use refusals::Refusal;

/// CALL-8, CALL-4: sixteen numbers; 17, 15, 20, 21, or one of 1 to 9, 19 and 10.
#[tactic(auto, using(crate::proofs::CallLaws::call_laws))]
fn daily_in(
    line: &[u8],
    shares: Shares,
    daily_traffic: u64,
    figures: &mut [u64],
) -> Result<usize, Refusal>
    ensures fits { CanBeHandedBack result }
    ensures result { handed_back result
        ≡ call_result (daily_call line.now shares daily_traffic (length figures.old)) }
    ensures figures { figures.new
        ≡ content (daily_call line.now shares daily_traffic (length figures.old)) figures.old }
{
    check_room(figures.len(), FIGURE_COUNT)?;
    let case = read::read_line(line)?;
    let grade = daily::evaluate_daily(case, shares, daily_traffic)?;
    Ok(grade.put_figures(figures))
}

/// CALL-8, SAFE-1: the answer to the line's section with the hourly demand of a daily traffic, in
/// vehicles per day, and its daily service volumes. The shares are in thousandths. 16, or minus the
/// refusal's number.
#[unsafe(no_mangle)]
pub extern "C" fn marehour_daily(
    line: &[u8],
    daily_traffic: u64,
    peak_share: u32,
    direction_share: u32,
    figures: &mut [u64],
) -> i32
    ensures result { result ≡ call_result (daily_call line.now (shares_of peak_share direction_share)
        daily_traffic (length figures.old)) }
    ensures figures { figures.new ≡ content (daily_call line.now (shares_of peak_share direction_share)
        daily_traffic (length figures.old)) figures.old }
{
    let shares = Shares {
        peak: u64::from(peak_share),
        direction: u64::from(direction_share),
    };
    handed_back(daily_in(line, shares, daily_traffic, figures))
}
