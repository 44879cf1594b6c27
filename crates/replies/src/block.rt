//! The lines of a block of bytes answered.

ghost use Rattle.std.specs.Prelude.{◌≡◌, ◌++◌, ◌+◌, ◌≤◌, length, drop};
ghost use Rattle.text.specs.Buffer.{Wrote};
ghost use Rattle.lines.specs.Reading.{longest_line};
ghost use Rattle.replies.specs.Texts.{longest_answer};
ghost use Rattle.text.specs.Stream.{texts, output_of};
ghost use Rattle.text.specs.Held.{answered, size, carried, IsHalfLine};
ghost use Rattle.replies.specs.Output.{line_texts};

use crate::write::{LONGEST_ANSWER, answer_line};
use lines::read::LONGEST_LINE;
use text::stream::carry_over;

/// LOS-2: how far a block was answered: the bytes of its answered lines with their newlines, and the bytes of
/// the answers.
#[derive(Clone, Copy)]
pub struct Progress {
    pub read: usize,
    pub written: usize,
}

/// LOS-2: answers the whole lines at the start of a block, while there is room for an answer: none where
/// there is no room for one.
pub fn answer_block(block: &[u8], out: &mut [u8]) -> Progress
    ensures read { result.read ≡ size (answered line_texts (length out.old) block.now) }
    ensures text { Wrote (texts line_texts (answered line_texts (length out.old) block.now))
        out.old out.new result.written }
    ensures read_in_bounds { (result.read ≤ length block.now) × (result.written ≤ length out.old) }
{
    let mut read = 0;
    let mut written = 0;
    while written + LONGEST_ANSWER <= out.len() {
        let rest = &block[read..];
        let Some(length) = rest.iter().position(|b| *b == b'\n') else {
            break;
        };
        written += answer_line(&rest[..length], &mut out[written..]);
        read += length + 1;
    }
    Progress { read, written }
}

/// LOS-2, LOS-3: after a turn over the bytes held of an input: how many of them are carried over, and the
/// bytes of the answers.
#[derive(Clone, Copy)]
pub struct Turn {
    pub carried: usize,
    pub written: usize,
}

/// LOS-2, LOS-3: answers whole lines that are held, while there is room, and carries over the rest, for a
/// program that holds the bytes in a buffer of its own.
#[tactic(auto, unfolding(text::specs::Held::carried))]
pub fn answer_turn(held: &mut [u8], out: &mut [u8]) -> Turn
    ensures carried { result.carried ≡ length (carried line_texts (length out.old) held.old) }
    ensures held { held.new
        ≡ carried line_texts (length out.old) held.old ++ drop result.carried held.old }
    ensures text { Wrote (texts line_texts (answered line_texts (length out.old) held.old))
        out.old out.new result.written }
    ensures carried_le_held { (result.carried ≤ length held.old) × (result.written ≤ length out.old) }
    ensures room { longest_answer ≤ length out.old → result.written ≡ 0
        → result.carried ≤ longest_line + 1 }
{
    let Progress { read, written } = answer_block(held, out);
    let carried = carry_over(held, read, LONGEST_LINE + 1);
    Turn { carried, written }
}

/// LOS-1: answers what is held at the end of the input, a last line without newline or nothing; answers how
/// many bytes it wrote.
#[tactic(auto, using(crate::proofs::TextsLaws::by_last))]
pub fn answer_last(held: &[u8], out: &mut [u8]) -> usize
    requires { (longest_answer ≤ length out.old) × IsHalfLine held.now }
    ensures wrote { Wrote (output_of line_texts held.now) out.old out.new result }
    ensures upper_bound { result ≤ length out.old }
{
    if held.len() == 0 {
        return 0;
    }
    answer_line(held, out)
}
