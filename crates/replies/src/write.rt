//! An answer written as text into a lent buffer.

ghost use Rattle.std.specs.Prelude.{◌≡◌, ◌≤◌, length};
ghost use Rattle.text.specs.Buffer.{Wrote};
ghost use Rattle.curve.specs.Service.{letter_number};
ghost use Rattle.refusals.specs.Numbers.{number};
ghost use Rattle.replies.specs.Texts.{letter_byte, answer_text, refusal_text, longest_answer, line_text};

use answer::evaluate;
use answer::evaluate::Grade;
use curve::service::Letter;
use lines::read;
use refusals::Refusal;

/// TEXT-4: how many bytes any answer has at most.
pub const LONGEST_ANSWER: usize = 64;

fn letter_byte(letter: Letter) -> u8
    ensures { result ≡ letter_byte (letter_number letter) }
{
    match letter {
        Letter::A => b'A',
        Letter::B => b'B',
        Letter::C => b'C',
        Letter::D => b'D',
        Letter::E => b'E',
        Letter::F => b'F',
    }
}

/// TEXT-2: writes the letter and the ten numbers of an answer to the start of a buffer that has room for
/// them; answers how many bytes it wrote.
#[tactic(auto, unfolding(crate::specs::Texts::text_of))]
pub fn write_grade(grade: &Grade, out: &mut [u8]) -> usize
    requires { length (answer_text (Ok grade.now)) ≤ length out.old }
    ensures { Wrote (answer_text (Ok grade.now)) out.old out.new result }
{
    text::decimal::put_row(letter_byte(grade.letter), &grade.figures()[1..], out)
}

/// TEXT-3.
#[tactic(auto, using(text::proofs::RowLaws::pieces), unfolding(crate::specs::Texts::refusal_text))]
fn write_refusal(refusal: Refusal, out: &mut [u8]) -> usize
    requires { length (refusal_text (number refusal)) ≤ length out.old }
    ensures { Wrote (refusal_text (number refusal)) out.old out.new result }
{
    text::decimal::put_row(b'X', &[refusal.number()], out)
}

/// TEXT-2, TEXT-3: writes an answer, or X and its refusal's number, to the start of a buffer that has room
/// for it; answers how many bytes it wrote.
#[tactic(auto, unfolding(crate::specs::Texts::text_of))]
pub fn write_answer(answer: Result<Grade, Refusal>, out: &mut [u8]) -> usize
    requires { length (answer_text answer) ≤ length out.old }
    ensures { Wrote (answer_text answer) out.old out.new result }
{
    match answer {
        Ok(grade) => write_grade(&grade, out),
        Err(refusal) => write_refusal(refusal, out),
    }
}

/// LOS-2: writes the answer to a line to the start of a buffer of 64 bytes or more; answers how many bytes it
/// wrote. A malformed line gets X and 15.
#[tactic(auto, using(crate::proofs::TextsLaws::by_line))]
pub fn answer_line(line: &[u8], out: &mut [u8]) -> usize
    requires { longest_answer ≤ length out.old }
    ensures { Wrote (line_text line.now) out.old out.new result }
{
    let read = read::read_line(line);
    // FORM-4: taken apart before evaluation
    let Ok(case) = read else {
        return write_refusal(read.unwrap_err(), out);
    };
    write_answer(evaluate::evaluate(case), out)
}
