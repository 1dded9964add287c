//! One message of a link.

ghost use Rattle.std.specs.Prelude.{◌≡◌, ◌≢◌, [], IsSomeAnd};
ghost use Rattle.ivy_server.specs.Passes.{passes};
ghost use Rattle.ivy_server.specs.Sessions.{CameOf, outcome_for, place_of};

use crate::driving::{begin, step};
use block_cache::BlockCache;
use dht_ids::{Mesh, Peers};
use hss_keys::Signs;
use ivy_agent::Turns;
use ivy_base::Bytes;
use ivy_io::{Clock, Keeper};
use ivy_session::Served;
use std::alloc::Global;
use std::sync::Wait;

/// What came of a message.
#[derive(Drop)]
pub(crate) enum Outcome {
    /// This is the reply, and whether the session was cut.
    Reply(Bytes, bool),
    /// It is no call.
    NotACall,
    /// No session could begin.
    Memory,
}

/// Serves one message: its session goes its way to its end.
pub(crate) fn serve_message<R: Wait, K: Keeper, S: Signs + Drop, T: Turns<K, S>, M: Mesh, C: Clock>(
    rt: &R,
    alloc: Global,
    turns: &T,
    pass: &mut T::Pass,
    mesh: &mut M,
    cache: &mut BlockCache,
    entries: &Peers,
    clock: &mut C,
    message: &Bytes,
) -> Outcome
    requires fits { T.fits turns.now pass.old }
    requires view { IsSomeAnd (T.view turns.now pass.old) (λ view. Unit {0}) }
    requires nodes { M.made mesh.old ≢ [] }
    requires entries { entries.now ≡ M.made mesh.old }
    ensures fits { T.fits turns.now pass.new }
    ensures view { T.view turns.now pass.new ≡ T.view turns.now pass.old }
    ensures owners { M.owners_of_a_key mesh.new ≡ M.owners_of_a_key mesh.old }
    ensures made { M.made mesh.new ≡ M.made mesh.old }
    ensures came { CameOf (record {
      by = passes S.signing S.is_whole K.saves (T.comes turns.now) (T.leaves turns.now);
      gives = C.gives;
      place = place_of (M.owners_of_a_key mesh.old) (M.made mesh.old) (T.view turns.now pass.old);
    })
        message.now cache.old cache.new
        (record { pass = pass.old; marks = record { made = T.made turns.now pass.old; trail = M.trail mesh.old; clock = clock.old } })
        (record { pass = pass.new; marks = record { made = T.made turns.now pass.new; trail = M.trail mesh.new; clock = clock.new } })
        result }
{
    let replicas = mesh.replicas();
    let Some(mut session) = begin(
        rt,
        alloc,
        turns,
        pass,
        replicas,
        entries,
        message.as_slice(),
    ) else {
        return Outcome::Memory;
    };
    // Its measure is `session_left`.
    'steps: loop {
        let ended = step(rt, alloc, turns, pass, mesh, cache, &mut session, clock);
        if let Some(served) = ended {
            return outcome_of(served, session.is_cut());
        }
    }
}

/// What came of a message whose session ended so.
fn outcome_of(served: Served, is_cut: bool) -> Outcome
    ensures { result ≡ outcome_for served is_cut }
{
    match served {
        Served::Reply(reply) => Outcome::Reply(reply, is_cut),
        _ => Outcome::NotACall,
    }
}
