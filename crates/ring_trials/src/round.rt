//! Rounds of maintenance, and whether a ring is settled after them.

ghost use Rattle.std.specs.Prelude.{◌≤◌};
ghost use Rattle.chord_core.specs.State.{IsOfNear};

use crate::execution::look_up;
use crate::line::{Line, peer};
use crate::lookups::key;
use crate::one_node::put_answered;
use crate::ring::{Nodes, Ring};
use chord_core::Node;
use dht_ids::{Answer, Ask, Peer, finger_start, node_id};

/// How many keys the nodes are asked for the routes to.
const ROUTES: u32 = 20;

/// The most entries of a node's list.
const MOST_ENTRIES: u32 = 16;

/// Has the node forget its predecessor where that is stopped.
fn forget_stopped(nodes: &mut Nodes, me: Peer) {
    let before = match nodes.get(&me.number) {
        Some(node) => node.before(),
        None => None,
    };
    if let Some(before) = before
        && !nodes.contains_key(&before.number)
        && let Some(node) = nodes.get_mut(&me.number)
    {
        node.forget();
    }
}

/// The first entry of the node's list.
fn first_of(nodes: &Nodes, me: Peer) -> Option<Peer> {
    match nodes.get(&me.number) {
        Some(node) => node.list().as_slice().first().copied(),
        None => None,
    }
}

/// Has the node hear what the first of its list answers to Near.
fn hear(line: &mut Line<'_>, nodes: &mut Nodes, me: Peer, heard: &Answer)
    requires { IsOfNear heard.now }
{
    if let Some(node) = nodes.get_mut(&me.number) {
        let renewed = node.stabilise(line.alloc, heard);
        line.done(renewed);
    }
}

/// Has the node drop the stopped entries at the head of its list.
fn drop_stopped(line: &mut Line<'_>, nodes: &mut Nodes, me: Peer) {
    for _ in 0..MOST_ENTRIES {
        if let Some(first) = first_of(nodes, me)
            && !nodes.contains_key(&first.number)
        {
            hear(line, nodes, me, &Answer::Silent);
        }
    }
}

/// Has the node renew its list by what the first of it answers.
fn hear_first(line: &mut Line<'_>, nodes: &mut Nodes, me: Peer) {
    if let Some(first) = first_of(nodes, me)
        && let Some(asked) = nodes.get(&first.number)
    {
        match asked.answer(line.alloc, &Ask::Near) {
            Ok(heard) => hear(line, nodes, me, &heard),
            Err(_) => line.fail(),
        }
    }
}

/// What a node does in a pass: it renews its list by its first live entry, and notifies the first of the new list.
fn renew(line: &mut Line<'_>, nodes: &mut Nodes, me: Peer) {
    drop_stopped(line, nodes, me);
    hear_first(line, nodes, me);
    if let Some(first) = first_of(nodes, me)
        && let Some(told) = nodes.get_mut(&first.number)
    {
        told.notify(me);
    }
}

/// Has the node fix its fingers by look-ups from itself.
fn fix_fingers(line: &mut Line<'_>, nodes: &mut Nodes, me: Peer) {
    for k in 1..161 {
        let execution = look_up(line, nodes, finger_start(&me.id, k), me);
        if let Ok(owners) = &execution.found
            && let Some(owner) = owners.as_slice().first()
            && let Some(node) = nodes.get_mut(&me.number)
        {
            node.fix_finger(k, *owner);
        }
    }
}

/// Does a round of maintenance with that many passes.
pub fn round(line: &mut Line<'_>, ring: &mut Ring, passes: u32) {
    for me in ring.live.as_slice() {
        forget_stopped(&mut ring.nodes, *me);
    }
    for _ in 0..passes {
        for me in ring.live.as_slice() {
            renew(line, &mut ring.nodes, *me);
        }
    }
    for me in ring.live.as_slice() {
        fix_fingers(line, &mut ring.nodes, *me);
    }
}

/// Has the node of that number join: it finds its first list by a look-up from the node 0, which never stops.
pub fn join(line: &mut Line<'_>, ring: &mut Ring, number: u32, replicas: u32)
    requires { (1 ≤ replicas) × (replicas ≤ 8) }
{
    let me = peer(number);
    match Node::alone(line.alloc, me, replicas) {
        Ok(mut node) => {
            let execution = look_up(line, &ring.nodes, me.id, peer(0));
            if let Ok(owners) = &execution.found {
                line.done(node.adopt(line.alloc, owners));
            }
            ring.add(line, me, node);
        }
        Err(_) => line.fail(),
    }
}

/// What the nodes of the ring answer, one after the other: each to Near, and to Route for a few keys and for its own
/// identifier, for which a node names all that it knows.
fn told(line: &mut Line<'_>, ring: &Ring) -> String {
    let mut told = Line::new(line.alloc, "");
    for (number, node) in ring.nodes.iter() {
        put_answered(&mut told, node, Ask::Near);
        for i in 0..ROUTES {
            put_answered(&mut told, node, Ask::Route(key(i)));
        }
        put_answered(&mut told, node, Ask::Route(node_id(*number)));
    }
    line.follow(told)
}

/// Whether each node is as in a settled ring of the live members.
pub fn is_settled(line: &mut Line<'_>, ring: &Ring, replicas: u32) -> bool
    requires { (1 ≤ replicas) × (replicas ≤ 8) }
{
    let settled = Ring::settled(line, &ring.live, replicas, 0);
    let found = told(line, ring);
    let wanted = told(line, &settled);
    found.as_str() == wanted.as_str()
}
