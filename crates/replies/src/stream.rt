//! The lines of an input answered on an output.

ghost use Rattle.std.specs.Prelude.{◌≡◌, ◌≢◌, ℕ, ◌+◌, ◌≤◌, ◌<◌, List, ◌++◌, length, OnOk, OnErr, IfErr, IsErrOf};
ghost use Rattle.std.specs.Io.KnownBytes.{Appends};
ghost use Rattle.text.specs.Buffer.{Wrote};
ghost use Rattle.text.specs.Stream.{texts, output_of};
ghost use Rattle.text.specs.Held.{answered, carried, IsHalfLine, StandsFor};
ghost use Rattle.text.specs.Answering.{AppendsAStart, AnswersInput, AnswersAStart, AnswersWholeLines};
ghost use Rattle.lines.specs.Reading.{longest_line};
ghost use Rattle.replies.specs.Texts.{longest_answer};
ghost use Rattle.replies.specs.Output.{line_texts};

use crate::block::{Progress, answer_block, answer_last};
use lines::read::LONGEST_LINE;
use std::io::{Read, Write};
use text::stream::{Held, Stop, write_whole};

/// How many bytes of answers are written at once.
const ANSWERS: usize = 131072;

/// LOS-2, LOS-3: answers whole lines that are held, while there is room, and carries over the rest; answers
/// how many bytes it wrote.
#[tactic(auto, unfolding(text::specs::Held::carried))]
fn answer_turn(held: &mut Held, out: &mut [u8]) -> usize
    requires { longest_answer ≤ length out.old }
    ensures held { held.new ≡ carried line_texts (length out.old) held.old }
    ensures text { Wrote (texts line_texts (answered line_texts (length out.old) held.old))
        out.old out.new result }
    ensures upper_bound { result ≤ length out.old }
    ensures less { 0 < result → length held.new < length held.old }
    ensures none_left { result ≡ 0 → IsHalfLine held.new × (length held.new ≤ longest_line + 1) }
{
    let Progress { read, written } = answer_block(held.bytes(), out);
    held.carry_over(read, LONGEST_LINE + 1);
    written
}

/// LOS-2, LOS-4: answers all whole lines that are held. Where the output can't be written, a start of their
/// answers was appended.
fn answer_lines<W: Write>(
    held: &mut Held,
    output: &mut W,
    out: &mut [u8; ANSWERS],
) -> Result<(), Stop>
    ensures answered { OnOk result ((texts : List ℕ) × StandsFor line_texts held.old held.new texts
        × Appends (W.contents output.old) (W.contents output.new) texts) }
    ensures none_left { OnOk result (IsHalfLine held.new × (length held.new ≤ longest_line + 1)) }
    ensures unwritten { OnErr result ((more : List ℕ) → AppendsAStart
        (W.contents output.old) (W.contents output.new) (output_of line_texts (held.old ++ more))) }
    ensures stop { IfErr result (λ stop. stop ≢ Stop.InputUnread) }
{
    loop {
        let written = answer_turn(held, out);
        if written == 0 {
            return Ok(());
        }
        write_whole(output, &out[..written])?;
    }
}

/// LOS-2: answers the lines of an input, one answer a line, to its end, in whatever pieces it comes (LOS-3).
/// LOS-4: where it stops early, a start of the answers was appended, and nothing twice: where the input can't
/// be read, the answers of the whole lines that were read, and half a line is not answered. 65,536 bytes of
/// the input are held at most. The output is not flushed.
#[tactic(auto, using(text::proofs::AnsweringLaws::stopped))]
pub fn answer_input<R: Read, W: Write>(input: &mut R, output: &mut W) -> Result<(), Stop>
    ensures answered { OnOk result (AnswersInput line_texts (R.remaining input.old) (R.remaining input.new)
        (W.contents output.old) (W.contents output.new)) }
    ensures stopped { OnErr result (AnswersAStart line_texts (R.remaining input.old)
        (W.contents output.old) (W.contents output.new)) }
    ensures unread { IsErrOf result Stop.InputUnread → AnswersWholeLines line_texts
        (R.remaining input.old) (R.remaining input.new) (W.contents output.old) (W.contents output.new) }
{
    let mut held = Held::new();
    let mut out = [0u8; ANSWERS];
    // every loop is proved to end: this one by a count that no input reaches
    for _ in 0..u64::MAX {
        if !held.read_more(input)? {
            let written = answer_last(held.bytes(), &mut out);
            return write_whole(output, &out[..written]);
        }
        answer_lines(&mut held, output, &mut out)?;
    }
    Err(Stop::InputUnread)
}
