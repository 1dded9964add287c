//! Two threads take turns at one gate, with a tally in place of an agent.
//!
//! Each line is a trial, in which two threads take turns of one each and end. In the first two their passes meet: how many
//! turns the second thread's pass has then seen, and what its next turn, which adds four, replies. In the first one thread
//! takes one turn and the other none; in the second both take fifty. In the others the gate is closed, first without the
//! second pass: how many passes came back, and, closed with these and the second pass, the length of the history and the
//! sum. The last line is of one thread, whose second turn is too large: which turns were taken, how many turns its pass has
//! then seen, and the sum, which a visit reads. The answers are worked out by hand, and are the same whatever the schedule.
#![tactic(auto)]

mod tally;
mod trials;

use std::io;
use trials::{close, meet, two_turns};

fn main(rt: HostRuntime) -> io::Result<()> {
    for (first, second) in [(1, 0), (50, 50)] {
        let (seen, reply) = meet(&rt, rt.alloc(), first, second)?;
        println!(rt; "turns {seen}, reply {reply}")?;
    }
    for (first, second) in [(50, 50), (0, 0)] {
        let (came_back, _, closed) = close(&rt, rt.alloc(), first, second)?;
        let turns = closed.turns;
        let sum = closed.value.sum;
        println!(rt; "passes back {came_back}, turns {turns}, sum {sum}")?;
    }
    let (one, other, seen, sum) = two_turns(&rt, rt.alloc(), u64::MAX - 4, 3, 2)?;
    let (first, second) = (one.is_ok(), other.is_ok());
    println!(rt; "taken {first} and {second}, turns {seen}, sum {sum}")?;
    Ok(())
}
