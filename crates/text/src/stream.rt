//! From an input to an output: the bytes held of the input, what is appended to the output, and what stops a
//! program.

ghost use Rattle.std.specs.Prelude.{◌≡◌, ◌≢◌, false, ◌↔◌, ℕ, ◌≤◌, ◌<◌, List, [], ◌++◌, length, take, drop, OnOk, OnErr, IfOk, IfErr};
ghost use Rattle.std.specs.Io.KnownBytes.{Consumes, IsAtEnd, Keeps, Appends};
ghost use Rattle.text.specs.Held.{cut_off};
ghost use Rattle.text.specs.Answering.{AppendsAStart};

use std::io::{ErrorKind, Read, Write};
use std::marker::Model;

/// LOS-4: what stops a program before it has read and written all.
#[derive(Clone, Copy, Debug)]
pub enum Stop {
    /// The input can't be read.
    InputUnread,
    /// The output can't be written.
    OutputUnwritten,
    /// Nobody reads the output any more: the pipe that it goes into is closed.
    NobodyReads,
}

/// LOS-3: how many bytes are held at most.
pub const HELD: usize = 65536;

/// LOS-3: the bytes of an input that are held, at most 65,536.
#[derive(Drop)]
pub struct Held {
    buffer: [u8; HELD],
    count: usize,
}

impl Model for Held {
    ghost Value = { List ℕ };

    ghost view = { λ held. take held.count held.buffer };

    ghost invariant = { λ held. held.count ≤ 65536 };
}

impl Held {
    /// LOS-3: no bytes.
    pub fn new() -> Held
        ensures { result ≡ [] }
    {
        Held {
            buffer: [0; HELD],
            count: 0,
        }
    }

    /// LOS-3: the bytes held.
    pub fn bytes(&self) -> &[u8]
        ensures { result.now ≡ self.now }
    {
        &self.buffer[..self.count]
    }

    /// LOS-3, LOS-4: reads a piece behind the bytes held, and tells whether there may be more: nothing read
    /// is the end of the input, and nothing else is. There has to be room. A read that fails changes nothing;
    /// one that a signal interrupts is tried again.
    pub fn read_more<R: Read>(&mut self, input: &mut R) -> Result<bool, Stop>
        requires { length self.old < HELD }
        ensures piece { OnOk result ((piece : List ℕ) × (self.new ≡ self.old ++ piece)
            × Consumes (R.remaining input.old) (R.remaining input.new) piece) }
        ensures ended { IfOk result (λ more. (more ≡ false) ↔ (self.new ≡ self.old)) }
        ensures end { IfOk result (λ more. more ≡ false → IsAtEnd (R.remaining input.new)) }
        ensures unread { OnErr result ((self.new ≡ self.old)
            × Keeps (R.remaining input.old) (R.remaining input.new)) }
        ensures stop { IfErr result (λ stop. stop ≡ Stop.InputUnread) }
    {
        let n = read_piece(input, &mut self.buffer[self.count..])?;
        self.count += n;
        Ok(0 < n)
    }

    /// LOS-3, LINE-5: lets go of the bytes before `from`. Where more than `kept` are left, and no newline
    /// among them, only `kept` stay: enough to tell that a line is too long.
    pub fn carry_over(&mut self, from: usize, kept: usize)
        requires { from ≤ length self.old }
        ensures { self.new ≡ cut_off kept (drop from self.old) }
    {
        self.count = carry_over(&mut self.buffer[..self.count], from, kept);
    }
}

/// LOS-4: reads once into the start of a buffer, again where a signal interrupts; answers how many bytes were
/// read.
fn read_piece<R: Read>(input: &mut R, room: &mut [u8]) -> Result<usize, Stop>
    ensures count { IfOk result (λ n. n ≤ length room.new) }
    ensures piece { IfOk result (λ n.
        Consumes (R.remaining input.old) (R.remaining input.new) (take n room.new)) }
    ensures end { IfOk result (λ n. n ≡ 0 → 0 < length room.old → IsAtEnd (R.remaining input.new)) }
    ensures unread { OnErr result (Keeps (R.remaining input.old) (R.remaining input.new)) }
    ensures stop { IfErr result (λ stop. stop ≡ Stop.InputUnread) }
{
    // every loop is proved to end: this one by a count that no program reaches
    for _ in 0..u64::MAX {
        match input.read(room) {
            Ok(n) => return Ok(n),
            Err(error) => {
                if error.kind() != ErrorKind::Interrupted {
                    return Err(Stop::InputUnread);
                }
            }
        }
    }
    Err(Stop::InputUnread)
}

/// How many of some bytes are carried over: `kept` at most where no newline is among them.
#[tactic(auto, using(crate::proofs::CarryLaws::length_cut_off))]
fn carried_length(bytes: &[u8], kept: usize) -> usize
    ensures { result ≡ length (cut_off kept bytes.now) }
{
    if bytes.len() <= kept || bytes.contains(&b'\n') {
        bytes.len()
    } else {
        kept
    }
}

/// LOS-3, LINE-5: carries over the bytes held from `from` on, to the start of those held, or the first `kept`
/// of them where no newline is among them; answers how many they are. What lies behind them stays.
#[tactic(auto, using(crate::proofs::CarryLaws::length_cut_off))]
pub fn carry_over(held: &mut [u8], from: usize, kept: usize) -> usize
    requires { from ≤ length held.old }
    ensures count { result ≡ length (cut_off kept (drop from held.old)) }
    ensures held { held.new ≡ cut_off kept (drop from held.old) ++ drop result held.old }
{
    let n = carried_length(&held[from..], kept);
    held.copy_within(from..from + n, 0);
    n
}

/// LOS-4: appends bytes to an output. Where that fails, a start of them was appended, and nothing twice. A
/// write that a signal interrupts is tried again.
pub fn write_whole<W: Write>(output: &mut W, bytes: &[u8]) -> Result<(), Stop>
    ensures whole { OnOk result (Appends (W.contents output.old) (W.contents output.new) bytes.now) }
    ensures start { OnErr result (AppendsAStart (W.contents output.old) (W.contents output.new) bytes.now) }
    ensures stop { IfErr result (λ stop. stop ≢ Stop.InputUnread) }
{
    let mut rest = bytes;
    for _ in 0..u64::MAX {
        if rest.is_empty() {
            return Ok(());
        }
        match output.write(rest) {
            Ok(0) => return Err(Stop::OutputUnwritten),
            Ok(n) => rest = &rest[n..],
            Err(error) => match error.kind() {
                ErrorKind::Interrupted => {}
                ErrorKind::BrokenPipe => return Err(Stop::NobodyReads),
                _ => return Err(Stop::OutputUnwritten),
            },
        }
    }
    Err(Stop::OutputUnwritten)
}
