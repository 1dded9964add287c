//! A session of a link, step by step.

ghost use Rattle.std.specs.Prelude.{◌≡◌, ◌≢◌, ◌<◌, ℕ, List, [], false, Option, None, IsSomeAnd};
ghost use Rattle.dht_ids.specs.declared.ask.Heard.{Heard};
ghost use Rattle.dht_ids.specs.declared.peer.Peer.{Peer};
ghost use Rattle.dht_ids.specs.Asked.{IsForData};
ghost use Rattle.ivy_session.specs.Left.{session_left};
ghost use Rattle.ivy_session.specs.States.{is_turning, session_awaited};
ghost use Rattle.ivy_server.specs.Passes.{passes};
ghost use Rattle.ivy_server.specs.Sessions.{BeginsWith, HasHadTurn, HasHeardOf, IsInProgress, MayTurn, StepsFrom, place_of};

use block_cache::BlockCache;
use dht_ids::{Ask, Mesh, Peer, Peers};
use hss_keys::Signs;
use ivy_agent::Turns;
use ivy_base::Moment;
use ivy_io::{Clock, Keeper};
use ivy_session::{Next, Served, Session};
use log_fetch::Refresh;
use log_heads::HssJudge;
use std::alloc::Global;
use std::sync::Wait;

/// A session with that message, of an agent that the pass comes to. None means out of memory.
pub(crate) fn begin<R: Wait, K: Keeper, S: Signs + Drop, T: Turns<K, S>>(
    rt: &R,
    alloc: Global,
    turns: &T,
    pass: &mut T::Pass,
    replicas: u32,
    entries: &Peers,
    message: &[u8],
) -> Option<Session<HssJudge>>
    requires fits { T.fits turns.now pass.old }
    requires view { IsSomeAnd (T.view turns.now pass.old) (λ view. Unit {0}) }
    requires entries { entries.now ≢ [] }
    ensures fits { T.fits turns.now pass.new }
    ensures view { T.view turns.now pass.new ≡ T.view turns.now pass.old }
    ensures made { T.made turns.now pass.new ≡ T.made turns.now pass.old }
    ensures begun { BeginsWith (passes S.signing S.is_whole K.saves (T.comes turns.now) (T.leaves turns.now))
        (place_of replicas entries.now (T.view turns.now pass.old)) message.now pass.old pass.new result }
{
    let Ok(standing) = turns.standing(rt, alloc, pass) else {
        return None;
    };
    let Ok(entries) = entries.copy(alloc) else {
        drop(standing);
        return None;
    };
    let Ok(session) = Session::begin(alloc, HssJudge, replicas, entries, standing, message) else {
        return None;
    };
    Some(session)
}

/// One step of the session: an ask of a node, a turn of its agent, or a settling. Or it is over, and this is how. Less is
/// left of it with each step.
pub(crate) fn step<R: Wait, K: Keeper, S: Signs + Drop, T: Turns<K, S>, M: Mesh, C: Clock>(
    rt: &R,
    alloc: Global,
    turns: &T,
    pass: &mut T::Pass,
    mesh: &mut M,
    cache: &mut BlockCache,
    session: &mut Session<HssJudge>,
    clock: &mut C,
) -> Option<Served>
    requires fits { T.fits turns.now pass.old }
    requires in_progress { IsInProgress (place_of (M.owners_of_a_key mesh.old) (M.made mesh.old) (T.view turns.now pass.old))
        (record { session = session.old; cache = cache.old }) }
    ensures fits { T.fits turns.now pass.new }
    ensures view { T.view turns.now pass.new ≡ T.view turns.now pass.old }
    ensures owners { M.owners_of_a_key mesh.new ≡ M.owners_of_a_key mesh.old }
    ensures made { M.made mesh.new ≡ M.made mesh.old }
    ensures steps { StepsFrom (record {
      by = passes S.signing S.is_whole K.saves (T.comes turns.now) (T.leaves turns.now);
      gives = C.gives;
      place = place_of (M.owners_of_a_key mesh.old) (M.made mesh.old) (T.view turns.now pass.old);
    })
        (record { session = session.old; cache = cache.old }) (record { session = session.new; cache = cache.new })
        (record { pass = pass.old; marks = record { made = T.made turns.now pass.old; trail = M.trail mesh.old; clock = clock.old } })
        (record { pass = pass.new; marks = record { made = T.made turns.now pass.new; trail = M.trail mesh.new; clock = clock.new } })
        result }
    ensures less { result ≡ None → session_left session.new < session_left session.old }
{
    match session.next(cache) {
        Next::Ask(node, question) => {
            ask(alloc, mesh, cache, session, &node, &question);
            None
        }
        Next::Turn(refresh) => {
            turn(rt, alloc, turns, pass, session, refresh, clock);
            None
        }
        Next::Settle(acks) => {
            turns.settle(rt, pass, &acks);
            None
        }
        Next::Done(served) => Some(served),
    }
}

/// The node is asked, and the session hears what it answers, or that there was no memory for that.
fn ask<M: Mesh>(
    alloc: Global,
    mesh: &mut M,
    cache: &mut BlockCache,
    session: &mut Session<HssJudge>,
    node: &Peer,
    question: &Ask,
)
    requires awaited { session_awaited session.old ≢ None }
    requires data { IsForData question.now }
    ensures owners { M.owners_of_a_key mesh.new ≡ M.owners_of_a_key mesh.old }
    ensures made { M.made mesh.new ≡ M.made mesh.old }
    ensures heard { HasHeardOf (node.now, question.now) (record { session = session.old; cache = cache.old })
        (record { session = session.new; cache = cache.new }) (M.trail mesh.old) (M.trail mesh.new) }
    ensures turning { is_turning session.new.stage ≡ false }
    ensures less { session_left session.new < session_left session.old }
{
    let answer = mesh.ask(alloc, node, question);
    session.heard(cache, answer);
}

/// A turn on what the session is asked, at a moment that the clock gives before the agent is waited for; the session is told
/// what came of it.
fn turn<R: Wait, K: Keeper, S: Signs + Drop, T: Turns<K, S>, C: Clock>(
    rt: &R,
    alloc: Global,
    turns: &T,
    pass: &mut T::Pass,
    session: &mut Session<HssJudge>,
    refresh: Refresh,
    clock: &mut C,
)
    requires fits { T.fits turns.now pass.old }
    requires may { MayTurn (T.view turns.now pass.old) refresh session.old }
    ensures fits { T.fits turns.now pass.new }
    ensures view { T.view turns.now pass.new ≡ T.view turns.now pass.old }
    ensures turned { (replicas : ℕ) (entries : List Peer) (trail : Option (List Heard)) → HasHadTurn (record {
      by = passes S.signing S.is_whole K.saves (T.comes turns.now) (T.leaves turns.now);
      gives = C.gives;
      place = place_of replicas entries (T.view turns.now pass.old);
    })
        refresh session.old session.new
        (record { pass = pass.old; marks = record { made = T.made turns.now pass.old; trail = trail; clock = clock.old } })
        (record { pass = pass.new; marks = record { made = T.made turns.now pass.new; trail = trail; clock = clock.new } }) }
    ensures turning { is_turning session.new.stage ≡ false }
    ensures less { session_left session.new < session_left session.old }
{
    let (sec, nsec) = clock.now();
    let Some(asked) = session.asked() else {
        unreachable!();
    };
    let turned = turns.turn(rt, alloc, pass, refresh, asked, Moment { sec, nsec });
    session.turned(turned);
}
