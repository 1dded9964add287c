//! The second part of a round: lists are renewed, and the first of each new list is notified.

ghost use Rattle.std.specs.Prelude.{◌≡◌, ◌≤◌, ◌*◌, suc, IfOk};
ghost use Rattle.ring_model.specs.Members.{IsAmong};
ghost use Rattle.world_model.specs.Rounds.{EachDoes, ManyDo, Stabilises};
ghost use Rattle.world_model.specs.World.{World};
ghost use Rattle.ring_nodes.specs.NodesState.{AreAllAmong, IsNodesOf, made_peers, with_nodes};
ghost use Rattle.ring_nodes.specs.Parts.{NotifiesFirst};

use crate::RingNodes;
use crate::heard::is_silent;
use dht_ids::{Ask, Judge, Peer};
use ivy_base::Memory;
use std::alloc::Global;

/// So many passes over these peers' nodes, 2r + 1, where r, at most 8, nodes own a key. The error is: out of memory, or 2^64
/// asks.
pub fn renew_lists<J: Judge>(
    nodes: &mut RingNodes,
    alloc: Global,
    judge: &J,
    replicas: u32,
    live: &[Peer],
) -> Result<(), Memory>
    requires few { replicas ≤ 8 }
    requires made { AreAllAmong (made_peers nodes.old) live.now }
    ensures passes { IfOk result (λ _. (w : World) → IsNodesOf w nodes.old → ManyDo (EachDoes (λ v p. Stabilises (J.judges judge.now) p v)) live.now (suc (2 * replicas)) w (with_nodes w nodes.new)) }
    ensures made { made_peers nodes.new ≡ made_peers nodes.old }
{
    'passes: for _ in 0..2 * replicas + 1 {
        pass(nodes, alloc, judge, live)?;
    }
    Ok(())
}

/// One pass: each of these peers' nodes, one after the other, renews its list.
fn pass<J: Judge>(
    nodes: &mut RingNodes,
    alloc: Global,
    judge: &J,
    live: &[Peer],
) -> Result<(), Memory>
    requires { AreAllAmong (made_peers nodes.old) live.now }
    ensures passes { IfOk result (λ _. (w : World) → IsNodesOf w nodes.old → EachDoes (λ v p. Stabilises (J.judges judge.now) p v) w live.now (with_nodes w nodes.new)) }
    ensures made { made_peers nodes.new ≡ made_peers nodes.old }
{
    'peers: for peer in live {
        stabilise(nodes, alloc, judge, peer)?;
    }
    Ok(())
}

/// A peer's node renews its list by the first entry that answers, and notifies the first of the new list. Entries that are
/// silent are dropped.
fn stabilise<J: Judge>(
    nodes: &mut RingNodes,
    alloc: Global,
    judge: &J,
    peer: &Peer,
) -> Result<(), Memory>
    requires { IsAmong peer.now (made_peers nodes.old) }
    ensures stabilises { IfOk result (λ _. (w : World) → IsNodesOf w nodes.old → Stabilises (J.judges judge.now) peer.now w (with_nodes w nodes.new)) }
    ensures made { made_peers nodes.new ≡ made_peers nodes.old }
{
    'silent: while let Some(first) = nodes.first(peer) {
        nodes.are_sound();
        let heard = nodes.ask(alloc, judge, &first, &Ask::Near)?;
        nodes.renew(alloc, peer, &heard)?;
        if !is_silent(&heard) {
            return notify_first(nodes, alloc, judge, peer);
        }
    }
    Ok(())
}

/// The first entry of a peer's list hears of the peer.
fn notify_first<J: Judge>(
    nodes: &mut RingNodes,
    alloc: Global,
    judge: &J,
    peer: &Peer,
) -> Result<(), Memory>
    requires { IsAmong peer.now (made_peers nodes.old) }
    ensures notifies { IfOk result (λ _. (w : World) → IsNodesOf w nodes.old → NotifiesFirst (J.judges judge.now) peer.now w (with_nodes w nodes.new)) }
    ensures made { made_peers nodes.new ≡ made_peers nodes.old }
{
    if let Some(first) = nodes.first(peer) {
        nodes.ask(alloc, judge, &first, &Ask::Notify(*peer))?;
    }
    Ok(())
}
