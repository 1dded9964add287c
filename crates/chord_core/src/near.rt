//! What a node makes of the peers that it hears of.

ghost use Rattle.std.specs.Prelude.{◌≡◌, ◌≤◌, ◌*◌, take, filter, IfOk};
ghost use Rattle.dht_ids.specs.Peers.{place};
ghost use Rattle.ring_model.specs.Members.{is_other};
ghost use Rattle.ring_model.specs.Pass.{renewed, nearest_before};

use dht_ids::{Peer, inside, same};
use ivy_base::Memory;
use std::alloc::Global;

/// The list that a node makes of what the first entry of its list answers.
pub(crate) fn renew(
    alloc: Global,
    replicas: u32,
    me: Peer,
    first: Peer,
    before: Option<Peer>,
    list: &[Peer],
) -> Result<Vec<Peer>, Memory>
    requires { (1 ≤ replicas) × (replicas ≤ 8) }
    ensures { IfOk result (λ entries. entries.items ≡ renewed place replicas me first before list.now) }
{
    let room = 2 * replicas as usize;
    let mut entries = Vec::with_capacity(alloc, room)?;
    if let Some(peer) = before
        && inside(&me.id, &peer.id, &first.id)
    {
        entries.push(peer)?;
    }
    if same(&first.id, &me.id) {
        return Ok(entries);
    }
    entries.push(first)?;
    for peer in list {
        if entries.len() == room || same(&peer.id, &me.id) {
            break;
        }
        entries.push(*peer)?;
    }
    Ok(entries)
}

/// The entries that stand elsewhere than the node, at most 2r.
pub(crate) fn others(
    alloc: Global,
    replicas: u32,
    me: Peer,
    list: &[Peer],
) -> Result<Vec<Peer>, Memory>
    requires { (1 ≤ replicas) × (replicas ≤ 8) }
    ensures { IfOk result (λ entries. entries.items ≡ take (2 * replicas) (filter (is_other place me) list.now)) }
{
    let room = 2 * replicas as usize;
    let mut entries = Vec::with_capacity(alloc, room)?;
    for peer in list {
        if entries.len() == room {
            break;
        }
        if !same(&peer.id, &me.id) {
            entries.push(*peer)?;
        }
    }
    Ok(entries)
}

/// The predecessor after a notice of the peer.
pub(crate) fn notice(me: Peer, before: Option<Peer>, peer: Peer) -> Option<Peer>
    ensures { result ≡ nearest_before place me before peer }
{
    match before {
        Some(old) if !inside(&old.id, &peer.id, &me.id) => Some(old),
        _ => Some(peer),
    }
}
