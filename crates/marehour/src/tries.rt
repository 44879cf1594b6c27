//! The demands that the search for the service volumes tries, counted for a host in C.

ghost use Rattle.std.specs.Prelude.{◌≡◌};
ghost use Rattle.marehour.specs.Calls.{handed_back, CanBeHandedBack};
ghost use Rattle.marehour.specs.Tries.{tries_call};

use crate::calls::handed_back;
use answer::evaluate;
use lines::read;
use refusals::Refusal;

/// CALL-10, CALL-4: the count; 15, or one of 1 to 6, 8, 9, 19 and 10.
#[tactic(auto, using(crate::proofs::CallLaws::call_laws))]
fn tries_for(line: &[u8]) -> Result<usize, Refusal>
    ensures fits { CanBeHandedBack result }
    ensures result { handed_back result ≡ tries_call line.now }
{
    let case = read::read_line(line)?;
    let counted = evaluate::evaluate_counted(case);
    counted.value?;
    Ok(counted.tries as usize)
}

/// CALL-10, SAFE-1: how many demands are tried for the service volumes of a line's section, 1 to 80, or
/// minus the refusal's number.
#[unsafe(no_mangle)]
pub extern "C" fn marehour_tries(line: &[u8]) -> i32
    ensures { result ≡ tries_call line.now }
{
    handed_back(tries_for(line))
}
