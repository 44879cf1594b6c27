//! LOS-2: los answers each line of its input. What it prints is proved of `answer_input`. LOS-4: where its input
//! can't be read or its output can't be written it says so.

#![tactic(auto)]

use replies::stream::answer_input;
use std::io::Write;
use text::stream::Stop;

/// LOS-4: tells on standard error what stopped it, as far as that can be written. Where nobody reads its
/// output it says nothing.
fn tell(rt: HostRuntime, stop: Stop) {
    let message: &[u8] = match stop {
        Stop::InputUnread => b"los: standard input can't be read\n",
        Stop::OutputUnwritten => b"los: standard output can't be written\n",
        Stop::NobodyReads => return,
    };
    let mut errors = rt.stderr();
    let _ = errors.write_all(message).is_ok();
}

fn main(rt: HostRuntime) {
    if let Err(stop) = answer_input(&mut rt.stdin(), &mut rt.stdout()) {
        tell(rt, stop);
    }
}
