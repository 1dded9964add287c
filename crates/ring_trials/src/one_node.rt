//! What one node makes of what it hears, and what it answers.

ghost use Rattle.std.specs.Prelude.{◌≤◌};
ghost use Rattle.chord_core.specs.State.{IsOfNear, IsOfRing};

use crate::line::Line;
use crate::words::near;
use chord_core::Node;
use dht_ids::{Answer, Ask, Peer, Peers};
use ivy_base::Key;

/// The node of a settled ring of the members, where it is one of them.
fn settled(line: &mut Line<'_>, me: Peer, replicas: u32, members: &Peers) -> Option<Node>
    requires { (1 ≤ replicas) × (replicas ≤ 8) }
{
    for member in members.as_slice() {
        if *member == me {
            return Node::settled(line.alloc, *member, replicas, members).ok();
        }
    }
    None
}

/// The node that a line makes, alone or among members.
fn made(line: &mut Line<'_>, is_alone: bool) -> Option<Node> {
    let me: Peer = line.read();
    let replicas: u32 = line.read();
    if replicas == 0 || replicas > 8 {
        return None;
    }
    if is_alone {
        Node::alone(line.alloc, me, replicas).ok()
    } else {
        let members = Peers::of(line.list());
        settled(line, me, replicas, &members)
    }
}

/// Has the node hear what the first of its list answers to Near.
fn hear(line: &mut Line<'_>, node: &mut Node, heard: &Answer)
    requires { IsOfNear heard.now }
{
    let renewed = node.stabilise(line.alloc, heard);
    line.done(renewed);
}

/// Has the node hear or take what the line says.
fn change(line: &mut Line<'_>, node: &mut Node, how: &str) {
    match how {
        "near" => {
            let heard = near(line);
            hear(line, node, &heard);
        }
        "silent" => hear(line, node, &Answer::Silent),
        "notify" => {
            let peer: Peer = line.read();
            node.notify(peer);
        }
        "forget" => node.forget(),
        "adopt" => {
            let list = Peers::of(line.list());
            let adopted = node.adopt(line.alloc, &list);
            line.done(adopted);
        }
        "finger" => {
            let k: u32 = line.read();
            let owner: Peer = line.read();
            if k == 0 || k > 160 {
                return line.fail();
            }
            node.fix_finger(k, owner);
        }
        _ => line.fail(),
    }
}

/// Writes what the node answers.
pub fn put_answered(line: &mut Line<'_>, node: &Node, ask: Ask)
    requires { IsOfRing ask }
{
    let answer = node.answer(line.alloc, &ask);
    line.put_made(&answer);
}

/// Writes what the node answers to Route, or what it answers to Near after what the line says.
fn put_known(line: &mut Line<'_>, node: &mut Node, how: &str) {
    if how == "route" {
        let key: Key = line.read();
        put_answered(line, node, Ask::Route(key));
    } else {
        change(line, node, how);
        put_answered(line, node, Ask::Near);
    }
}

/// Begins again, with the node that a line makes, and writes what it answers to Near.
fn make(line: &mut Line<'_>, held: &mut Option<Node>, is_alone: bool) {
    *held = made(line, is_alone);
    match held {
        Some(node) => put_answered(line, node, Ask::Near),
        None => line.fail(),
    }
}

/// Writes the answer to a line.
pub fn answer(line: &mut Line<'_>, held: &mut Option<Node>) {
    match line.word() {
        "alone" => make(line, held, true),
        "settled" => make(line, held, false),
        how => match held {
            Some(node) => put_known(line, node, how),
            None => line.fail(),
        },
    }
}
