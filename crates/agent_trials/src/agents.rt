//! Two threads take turns with one agent.

ghost use Rattle.std.specs.Prelude.{◌≡◌, ◌^◌, None, length, IfSome, IsSomeAnd};
ghost use Rattle.value_gate.specs.Passes.{IsPassOf};
ghost use Rattle.ivy_agent.specs.Turns.{IsFetchedIn};
ghost use Rattle.agent_trials.specs.Agents.{IsAsked, MayBegin};

use crate::asking::{NOW, lookup, make_directory, root_of};
use crate::brought::{nothing, opening};
use agent_gate::{Closed, Gate, Pass, Unclosed};
use hss_keys::Hss;
use ivy_agent::{Agent, Turns, turn_alone};
use ivy_base::Bytes;
use ivy_io::MemKeeper;
use lms_core::{Height, Set, Width};
use log_fetch::{Asked, Refresh};
use std::alloc::Global;
use std::sync::Wait;
use std::thread::{Threads, join};
use view_blocks::View;

/// No answer.
const NONE: u32 = 9_999;

/// An agent with 32 signatures, in the view of its own log alone. None means out of memory.
fn agent(alloc: Global) -> Option<Agent<MemKeeper, Hss>> {
    let set = Set {
        w: Width::W8,
        h: Height::H5,
    };
    let signer = Hss::grow(alloc, &[1; 16], &[2; 32], &[set]).ok()?;
    let Ok(mut agent) = Agent::create(alloc, MemKeeper::new(alloc), signer, NOW) else {
        return None;
    };
    let view = View::make(alloc, &[agent.owner()], &[]).ok()?;
    agent.enter(alloc, view).ok()?;
    Some(agent)
}

/// What an agent begins with: what its first refresh brings, and the handle of its root.
#[derive(Drop)]
struct Start {
    refresh: Refresh,
    root: Bytes,
}

/// What the agent begins with. None means out of memory, or that it is in no view.
fn start_of(alloc: Global, agent: &Agent<MemKeeper, Hss>) -> Option<Start>
    ensures { IfSome result (λ f. MayBegin agent.now f.refresh f.root) }
{
    let view = agent.view()?;
    let root = root_of(alloc, view)?;
    let standing = agent.standing(alloc).ok()?;
    let refresh = opening(alloc, &standing)?;
    Some(Start { refresh, root })
}

/// Whether the agent answers a first call, before which it reads its own log. It stays in its view.
fn begins(alloc: Global, agent: &mut Agent<MemKeeper, Hss>, refresh: Refresh, asked: &Asked) -> bool
    requires batch { IsSomeAnd agent.old.agent.view (λ view. IsFetchedIn view refresh.batch) }
    requires basis { refresh.basis ≡ None }
    requires asked { IsAsked asked.now }
    ensures { IsSomeAnd agent.new.agent.view (λ view. Unit {0}) }
{
    turn_alone(alloc, agent, refresh, asked, NOW).is_ok()
}

/// A gate over an agent that has read its own log, its first pass, and the handle of the root.
#[derive(Drop)]
pub struct Begun {
    pub gate: Gate<MemKeeper, Hss>,
    pub pass: Pass<MemKeeper, Hss>,
    pub root: Bytes,
}

/// A gate that was just opened. None means out of memory.
fn begin(alloc: Global) -> Option<Begun>
    ensures pass { IfSome result (λ b. IsPassOf b.gate b.pass × (b.pass.parts ≡ 2 ^ 32)) }
    ensures view { IfSome result (λ b. IsSomeAnd b.gate.opening.agent.view (λ view. Unit {0})) }
    ensures root { IfSome result (λ b. length b.root ≡ 44) }
{
    let mut agent = agent(alloc)?;
    let Start { refresh, root } = start_of(alloc, &agent)?;
    let asked = lookup(alloc, &root, b'x')?;
    if !begins(alloc, &mut agent, refresh, &asked) {
        return None;
    }
    let Ok((gate, pass)) = Gate::make(alloc, agent) else {
        return None;
    };
    Some(Begun { gate, pass, root })
}

/// The status of the reply to the call, or [`NONE`] where the turn is refused.
fn take<R: Wait>(
    rt: &R,
    alloc: Global,
    gate: &Gate<MemKeeper, Hss>,
    pass: &mut Pass<MemKeeper, Hss>,
    refresh: Refresh,
    asked: &Asked,
) -> u32
    requires pass { IsPassOf gate.now pass.old }
    requires batch { IsSomeAnd gate.now.opening.agent.view (λ view. IsFetchedIn view refresh.batch) }
    requires basis { refresh.basis ≡ None }
    requires asked { IsAsked asked.now }
    ensures { IsPassOf gate.now pass.new }
{
    match gate.turn(rt, alloc, pass, refresh, asked, NOW) {
        Ok(turned) => status_of(&turned.reply),
        Err(_) => NONE,
    }
}

/// The status that a reply begins with.
fn status_of(reply: &Bytes) -> u32 {
    match reply.as_slice() {
        [a, b, c, d, ..] => u32::from_be_bytes([*a, *b, *c, *d]),
        _ => NONE,
    }
}

/// The status of the reply to the call, for which nothing was fetched; or [`NONE`].
fn ask<R: Wait>(
    rt: &R,
    alloc: Global,
    gate: &Gate<MemKeeper, Hss>,
    pass: &mut Pass<MemKeeper, Hss>,
    asked: Option<Asked>,
) -> u32
    requires pass { IsPassOf gate.now pass.old }
    requires view { IsSomeAnd gate.now.opening.agent.view (λ view. Unit {0}) }
    requires asked { IfSome asked IsAsked }
    ensures { IsPassOf gate.now pass.new }
{
    let Some(asked) = asked else {
        return NONE;
    };
    let Some(refresh) = nothing(alloc) else {
        return NONE;
    };
    take(rt, alloc, gate, pass, refresh, &asked)
}

/// Makes `x`, where it is to, and else looks for `y`, which nobody makes. Says whether that was answered as it should be.
fn is_answered<R: Wait>(
    rt: &R,
    alloc: Global,
    gate: &Gate<MemKeeper, Hss>,
    pass: &mut Pass<MemKeeper, Hss>,
    root: &Bytes,
    makes: bool,
) -> bool
    requires pass { IsPassOf gate.now pass.old }
    requires view { IsSomeAnd gate.now.opening.agent.view (λ view. Unit {0}) }
    requires root { length root.now ≡ 44 }
    ensures { IsPassOf gate.now pass.new }
{
    if makes {
        ask(rt, alloc, gate, pass, make_directory(alloc, root, b'x')) == 0
    } else {
        ask(rt, alloc, gate, pass, lookup(alloc, root, b'y')) == 2
    }
}

/// Takes so many turns, the first of which makes `x` where it is to. Gives the pass back, and how many were answered as
/// they should be.
fn turns<R: Wait>(
    rt: &R,
    alloc: Global,
    gate: &Gate<MemKeeper, Hss>,
    mut pass: Pass<MemKeeper, Hss>,
    root: &Bytes,
    makes: bool,
    count: u32,
) -> (Pass<MemKeeper, Hss>, u32)
    requires pass { IsPassOf gate.now pass }
    requires view { IsSomeAnd gate.now.opening.agent.view (λ view. Unit {0}) }
    requires root { length root.now ≡ 44 }
    ensures { IsPassOf gate.now result.0 }
{
    let mut answered = 0u32;
    for turn in 0..count {
        if is_answered(rt, alloc, gate, &mut pass, root, makes && turn == 0) {
            answered = answered.saturating_add(1);
        }
    }
    (pass, answered)
}

/// A gate over an agent, two passes that have all its parts, the handle of the root, and how many turns were answered as
/// they should be.
#[derive(Drop)]
pub struct Ended {
    pub gate: Gate<MemKeeper, Hss>,
    pub first: Pass<MemKeeper, Hss>,
    pub second: Pass<MemKeeper, Hss>,
    pub root: Bytes,
    pub answered: u32,
}

/// Two threads take so many turns, and end. The first turn of the first thread makes `x`. None means out of
/// memory.
fn two_threads<R: Threads + Wait + Sync>(
    rt: &R,
    alloc: Global,
    first: u32,
    second: u32,
) -> Option<Ended>
    ensures passes { IfSome result (λ e. IsPassOf e.gate e.first × IsPassOf e.gate e.second) }
    ensures view { IfSome result (λ e. IsSomeAnd e.gate.opening.agent.view (λ view. Unit {0})) }
    ensures root { IfSome result (λ e. length e.root ≡ 44) }
{
    let Begun {
        gate,
        mut pass,
        root,
    } = begin(alloc)?;
    let other = gate.split(&mut pass);
    let (mine, theirs) = join(
        rt,
        || -> (Pass<MemKeeper, Hss>, u32)
            requires pass { IsPassOf gate pass }
            requires view { IsSomeAnd gate.opening.agent.view (λ view. Unit {0}) }
            requires root { length root ≡ 44 }
            ensures { IsPassOf gate result.0 }
        { turns(rt, alloc, &gate, pass, &root, true, first) },
        || -> (Pass<MemKeeper, Hss>, u32)
            requires pass { IsPassOf gate other }
            requires view { IsSomeAnd gate.opening.agent.view (λ view. Unit {0}) }
            requires root { length root ≡ 44 }
            ensures { IsPassOf gate result.0 }
        { turns(rt, alloc, &gate, other, &root, false, second) },
    );
    Some(Ended {
        gate,
        first: mine.0,
        second: theirs.0,
        root,
        answered: mine.1.saturating_add(theirs.1),
    })
}

/// How two passes met.
#[derive(Drop)]
pub struct Meeting {
    /// How many turns were answered as they should be.
    pub answered: u32,
    /// How many turns the first pass has then seen.
    pub first_seen: u64,
    /// How many the second has.
    pub second_seen: u64,
    /// The status of the second pass's look for `x`, or [`NONE`].
    pub status: u32,
}

/// Two threads take so many turns and end, and their passes meet, the one or the other first.
pub fn meet<R: Threads + Wait + Sync>(
    rt: &R,
    alloc: Global,
    first: u32,
    second: u32,
    is_second_first: bool,
) -> Option<Meeting> {
    let Ended {
        gate,
        first: mut mine,
        second: mut theirs,
        root,
        answered,
    } = two_threads(rt, alloc, first, second)?;
    if is_second_first {
        gate.meet(&mut theirs, &mut mine);
    } else {
        gate.meet(&mut mine, &mut theirs);
    }
    let first_seen = gate.seen(&mine);
    let second_seen = gate.seen(&theirs);
    let status = ask(rt, alloc, &gate, &mut theirs, lookup(alloc, &root, b'x'));
    Some(Meeting {
        answered,
        first_seen,
        second_seen,
        status,
    })
}

/// Two threads take so many turns and end, and the gate is closed, first without the second pass. How many passes came
/// back, and how many turns were taken.
pub fn close<R: Threads + Wait + Sync>(
    rt: &R,
    alloc: Global,
    first: u32,
    second: u32,
) -> Option<(usize, u64)> {
    let Ended {
        gate,
        first: mine,
        second: theirs,
        ..
    } = two_threads(rt, alloc, first, second)?;
    let mut passes = Vec::new(alloc);
    passes.push(mine).ok()?;
    let Err(Unclosed { gate, mut passes }) = gate.close(passes) else {
        return None;
    };
    let came_back = passes.len();
    passes.push(theirs).ok()?;
    let Ok(Closed { turns, .. }) = gate.close(passes) else {
        return None;
    };
    Some((came_back, turns))
}
