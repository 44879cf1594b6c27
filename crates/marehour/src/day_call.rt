//! A whole day for a host in C: lent demands, answered in twelve lent numbers each.

ghost use Rattle.std.specs.Prelude.{◌≡◌, length};
ghost use Rattle.marehour.specs.Calls.{day_call, day_result, content, handed_back, CanBeHandedBack};

use crate::calls::handed_back;
use lines::read;
use refusals::Refusal;

/// CALL-7, CALL-4: as many answers as demands; 18 or 15. A refusal of the case stands in its position.
#[tactic(auto, using(crate::proofs::CallLaws::call_laws))]
fn day_in(line: &[u8], demands: &[u64], answers: &mut [u64]) -> Result<usize, Refusal>
    ensures fits { CanBeHandedBack result }
    ensures result { handed_back result ≡ day_result (day_call line.now demands.now (length answers.old)) }
    ensures answers { answers.new
        ≡ content (day_call line.now demands.now (length answers.old)) answers.old }
{
    day::check_lent(demands.len(), answers.len())?;
    let case = read::read_line(line)?;
    day::put_day(case, demands, answers);
    Ok(demands.len())
}

/// CALL-7, SAFE-1: the answers to the line's section with each demand, in vehicles per hour, in its
/// position. The count of the answers, or minus the refusal's number.
#[unsafe(no_mangle)]
pub extern "C" fn marehour_day(line: &[u8], demands: &[u64], answers: &mut [u64]) -> i32
    ensures result { result ≡ day_result (day_call line.now demands.now (length answers.old)) }
    ensures answers { answers.new
        ≡ content (day_call line.now demands.now (length answers.old)) answers.old }
{
    handed_back(day_in(line, demands, answers))
}
