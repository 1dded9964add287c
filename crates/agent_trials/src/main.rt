//! Two threads take turns with one agent, which is alone in its view and has read its log.
//!
//! The first thread makes `x` with its first turn; all other turns look for `y`, which is never there. In the first four lines
//! the threads' passes meet, in the second of them with the second pass before the first: how many turns were answered as
//! they should be, how many each pass has then seen, and the status of the second pass's look for `x`. In the third the first
//! thread takes no turn, so `x` isn't there. In the last two lines the gate is closed, first without the second pass: how
//! many passes came back, and how many turns were taken.
//!
//! The answers are worked out by hand, and are the same whatever the schedule. `no answer` means out of memory.
#![tactic(auto)]

mod agents;
mod asking;
mod brought;

use agents::{close, meet};
use std::io;

fn main(rt: HostRuntime) -> io::Result<()> {
    for (first, second, is_second_first) in [
        (1, 0, false),
        (1, 0, true),
        (0, 1, false),
        (50, 50, false),
    ] {
        match meet(&rt, rt.alloc(), first, second, is_second_first) {
            Some(met) => {
                let (answered, status) = (met.answered, met.status);
                let (first, second) = (met.first_seen, met.second_seen);
                println!(rt; "answered {answered}, seen {first} and {second}, status {status}")?;
            }
            None => println!(rt; "no answer")?,
        }
    }
    for (first, second) in [(50, 50), (0, 0)] {
        match close(&rt, rt.alloc(), first, second) {
            Some((came_back, turns)) => println!(rt; "passes back {came_back}, turns {turns}")?,
            None => println!(rt; "no answer")?,
        }
    }
    Ok(())
}
