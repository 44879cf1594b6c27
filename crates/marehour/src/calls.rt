//! What the calls of a host in C have in common, and the two that write text into a lent buffer.

ghost use Rattle.std.specs.Prelude.{◌≡◌, length};
ghost use Rattle.refusals.specs.Refusals.{first_refusal};
ghost use Rattle.refusals.specs.Numbers.{refusal_number};
ghost use Rattle.marehour.specs.Calls.{answer_call, lanes_call, call_result, content, buffer_refusals, handed_back, CanBeHandedBack};

use answer::{evaluate, lanes};
use lines::read;
use refusals::Refusal;
use replies::write;
use replies::write::LONGEST_ANSWER;

/// REFUSAL-17: room for so many bytes or numbers at least, or 17.
#[tactic(auto, unfolding(crate::specs::Calls::buffer_refusals))]
pub(crate) fn check_room(room: usize, least: usize) -> Result<(), Refusal>
    ensures { refusal_number result ≡ first_refusal (buffer_refusals least room) }
{
    if room < least {
        return Err(Refusal::BufferTooShort);
    }
    Ok(())
}

/// CALL-3: the number that the host gets: what was found, or minus the number of the refusal.
pub(crate) fn handed_back(found: Result<usize, Refusal>) -> i32
    requires { CanBeHandedBack found }
    ensures { result ≡ handed_back found }
{
    match found {
        Ok(count) => count as i32,
        Err(refusal) => -(refusal.number() as i32),
    }
}

/// CALL-1, CALL-4: how many bytes of the answer are written; 17, 15, or one of 1 to 6, 8, 9, 19 and 10.
#[tactic(auto, using(crate::proofs::CallLaws::call_laws))]
fn answer_in(line: &[u8], answer: &mut [u8]) -> Result<usize, Refusal>
    ensures fits { CanBeHandedBack result }
    ensures result { handed_back result ≡ call_result (answer_call line.now (length answer.old)) }
    ensures buffer { answer.new
        ≡ content (answer_call line.now (length answer.old)) answer.old }
{
    check_room(answer.len(), LONGEST_ANSWER)?;
    let case = read::read_line(line)?;
    let grade = evaluate::evaluate(case)?;
    Ok(write::write_grade(&grade, answer))
}

/// CALL-2, CALL-4: a digit and a newline, two bytes; 17, 15, 16, one of 1 to 6, 8, 9 and 19, or 14.
#[tactic(auto, using(crate::proofs::CallLaws::call_laws))]
fn lanes_in(line: &[u8], letter: u64, answer: &mut [u8]) -> Result<usize, Refusal>
    ensures fits { CanBeHandedBack result }
    ensures result { handed_back result ≡ call_result (lanes_call line.now letter (length answer.old)) }
    ensures buffer { answer.new
        ≡ content (lanes_call line.now letter (length answer.old)) answer.old }
{
    check_room(answer.len(), LONGEST_ANSWER)?;
    let case = read::read_line(line)?;
    let count = lanes::lanes_needed(case, letter)?;
    answer[0] = b'0' + count as u8;
    answer[1] = b'\n';
    Ok(2)
}

/// CALL-1, SAFE-1, FORM-1: the answer to a line without its newline, as text: its letter, free-flow
/// speed, capacity, flow rate, speed, density and service volumes. The count of its bytes, or minus the
/// refusal's number.
#[unsafe(no_mangle)]
pub extern "C" fn marehour_answer(line: &[u8], answer: &mut [u8]) -> i32
    ensures result { result ≡ call_result (answer_call line.now (length answer.old)) }
    ensures buffer { answer.new
        ≡ content (answer_call line.now (length answer.old)) answer.old }
{
    handed_back(answer_in(line, answer))
}

/// CALL-2, SAFE-1, FORM-1: the least lane count with which a line's section meets a letter, 1 for A to 5
/// for E, as text: 2 for its two bytes, or minus the refusal's number.
#[unsafe(no_mangle)]
pub extern "C" fn marehour_lanes(line: &[u8], letter: u32, answer: &mut [u8]) -> i32
    ensures result { result ≡ call_result (lanes_call line.now letter (length answer.old)) }
    ensures buffer { answer.new
        ≡ content (lanes_call line.now letter (length answer.old)) answer.old }
{
    handed_back(lanes_in(line, u64::from(letter), answer))
}
