//! The trials.

ghost use Rattle.std.specs.Prelude.{◌≡◌, ◌+◌, ◌-◌, ◌≤◌, ◌^◌, length, IfOk, OnErr};
ghost use Rattle.value_gate.specs.Passes.{IsPassOf};
ghost use Rattle.gate_trials.specs.Tallies.{sum_after};

use crate::tally::{Adding, Reading, Tally, TooLarge};
use std::alloc::{AllocError, Global};
use std::sync::Wait;
use std::thread::{Threads, join};
use value_gate::{Closed, Gate, Pass, Unclosed};

/// Takes turns of one each, and gives the pass back and how many turns it took.
pub fn turns<W: Wait>(
    rt: &W,
    gate: &Gate<Tally>,
    mut pass: Pass<Tally>,
    count: u32,
) -> (Pass<Tally>, u64)
    requires { IsPassOf gate.now pass }
    ensures pass { IsPassOf gate.now result.0 × (result.0.parts ≡ pass.parts) }
    ensures taken { length result.0.calls ≡ length pass.calls + result.1 }
    ensures bounded { result.1 ≤ count }
{
    let mut taken = 0u64;
    for _ in 0..count {
        if gate.take_turn(rt, &mut pass, Adding(&1)).is_ok() {
            taken += 1;
        }
    }
    (pass, taken)
}

/// A gate, and two passes that have all its parts and took so many turns between them.
#[derive(Drop)]
pub struct Ended {
    pub gate: Gate<Tally>,
    pub first: Pass<Tally>,
    pub second: Pass<Tally>,
    pub taken: u64,
}

/// Two threads take so many turns of one each, and end.
pub fn two_threads<R: Threads + Wait + Sync>(
    rt: &R,
    alloc: Global,
    first: u32,
    second: u32,
) -> Result<Ended, AllocError>
    ensures passes { IfOk result (λ e. IsPassOf e.gate e.first × IsPassOf e.gate e.second) }
    ensures parts { IfOk result (λ e. (e.first.parts ≡ 2 ^ 32 - 1) × (e.second.parts ≡ 1)) }
    ensures taken { IfOk result (λ e. length e.first.calls + length e.second.calls ≡ e.taken) }
{
    let (gate, mut pass) = Gate::make(alloc, Tally { sum: 0, refused: 0 })?;
    let other = gate.split(&mut pass);
    let (mine, theirs) = join(
        rt,
        || -> (Pass<Tally>, u64)
            requires { IsPassOf gate pass }
            ensures pass { IsPassOf gate result.0 × (result.0.parts ≡ pass.parts) }
            ensures taken { length result.0.calls ≡ length pass.calls + result.1 }
            ensures bounded { result.1 ≤ first }
        { turns(rt, &gate, pass, first) },
        || -> (Pass<Tally>, u64)
            requires { IsPassOf gate other }
            ensures pass { IsPassOf gate result.0 × (result.0.parts ≡ other.parts) }
            ensures taken { length result.0.calls ≡ length other.calls + result.1 }
            ensures bounded { result.1 ≤ second }
        { turns(rt, &gate, other, second) },
    );
    Ok(Ended {
        gate,
        first: mine.0,
        second: theirs.0,
        taken: mine.1 + theirs.1,
    })
}

/// Two threads take so many turns of one each and end, and their passes meet. How many turns the second pass has then
/// seen, and what its next turn, of four, replies.
pub fn meet<R: Threads + Wait + Sync>(
    rt: &R,
    alloc: Global,
    first: u32,
    second: u32,
) -> Result<(u64, u64), AllocError> {
    let Ended {
        gate,
        first: mut mine,
        second: mut theirs,
        ..
    } = two_threads(rt, alloc, first, second)?;
    gate.meet(&mut mine, &mut theirs);
    let seen = gate.seen(&theirs);
    match gate.take_turn(rt, &mut theirs, Adding(&4)) {
        Ok(reply) => Ok((seen, reply)),
        Err(_) => Ok((seen, 0)),
    }
}

/// A turn with a pass. Where it is refused, the sum after all turns that the pass has then seen is too large for it.
pub fn add<W: Wait>(
    rt: &W,
    gate: &Gate<Tally>,
    pass: &mut Pass<Tally>,
    amount: u64,
) -> Result<u64, TooLarge>
    requires { IsPassOf gate.now pass.old }
    ensures gate { IsPassOf gate.now pass.new }
    ensures replied { IfOk result (λ sum. sum ≡ sum_after gate.now.opening.sum pass.new.history) }
    ensures refused { OnErr result (2 ^ 64 ≤ sum_after gate.now.opening.sum pass.new.history + amount) }
{
    gate.take_turn(rt, pass, Adding(&amount))
}

/// The sum after all turns that the pass has then seen.
pub fn read<W: Wait>(rt: &W, gate: &Gate<Tally>, pass: &mut Pass<Tally>) -> u64
    requires { IsPassOf gate.now pass.old }
    ensures gate { IsPassOf gate.now pass.new }
    ensures sum { result ≡ sum_after gate.now.opening.sum pass.new.history }
{
    gate.visit(rt, pass, Reading)
}

/// Two turns at a gate that was opened with this sum: what each replied, how many turns the pass has then seen, and the sum
/// then.
pub fn two_turns<W: Wait>(
    rt: &W,
    alloc: Global,
    opening: u64,
    first: u64,
    second: u64,
) -> Result<(Result<u64, TooLarge>, Result<u64, TooLarge>, u64, u64), AllocError> {
    let (gate, mut pass) = Gate::make(
        alloc,
        Tally {
            sum: opening,
            refused: 0,
        },
    )?;
    let one = add(rt, &gate, &mut pass, first);
    let other = add(rt, &gate, &mut pass, second);
    let sum = read(rt, &gate, &mut pass);
    Ok((one, other, gate.seen(&pass), sum))
}

/// Two threads take so many turns of one each and end, and the gate is closed: first without the second pass, which gives
/// gate and first pass back, and with these and the second pass then. How many passes came back, how many turns were
/// taken, and what is left.
pub fn close<R: Threads + Wait + Sync>(
    rt: &R,
    alloc: Global,
    first: u32,
    second: u32,
) -> Result<(usize, u64, Closed<Tally>), AllocError>
    ensures came_back { IfOk result (λ r. r.0 ≡ 1) }
    ensures turns { IfOk result (λ r. r.2.turns ≡ r.1) }
{
    let Ended {
        gate,
        first: mine,
        second: theirs,
        taken,
    } = two_threads(rt, alloc, first, second)?;
    let mut passes = Vec::new(alloc);
    passes.push(mine)?;
    let Err(Unclosed { gate, mut passes }) = gate.close(passes) else {
        unreachable!()
    };
    let came_back = passes.len();
    passes.push(theirs)?;
    let Ok(closed) = gate.close(passes) else {
        unreachable!()
    };
    Ok((came_back, taken, closed))
}
