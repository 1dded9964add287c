//! The repair of a node's blocks.

ghost use Rattle.std.specs.Prelude.{◌≡◌, ◌≢◌, ◌<◌, ◌≤◌, [], Some, None, IfOk, OnOk};
ghost use Rattle.dhash_repair.specs.Repairing.{RepairHasHeard, RepairIsAfter, RepairIsWanted, RepairSteps, concluded, repair_awaited, repair_begun, repair_left};

use crate::put::Put;
use dht_ids::{Ack, Acks, Answer, Peer, Post, Posts, Want};
use ivy_base::Memory;
use std::alloc::Global;
use std::collections::VecDeque;
use std::marker::Model;
use std::mem;

/// The blocks of a node, which are put at their owners one after the other.
pub struct Repair {
    alloc: Global,
    node: Peer,
    replicas: u32,
    put: Option<Put>,
    left: VecDeque<Post>,
    dropped: Vec<Ack>,
}

/// One function, so that whatever drops it calls this and isn't proved over all of its parts once more.
impl Drop for Repair {
    fn drop(self) {
        let Repair {
            alloc: _,
            node: _,
            replicas: _,
            put: _,
            left: _,
            dropped: _,
        } = self;
    }
}

impl Model for Repair {
    ghost use Rattle.dhash_repair.specs.Repairing.{RepairState};

    ghost Value = { RepairState };

    ghost view = { λ r. record { node = r.node; replicas = r.replicas; put = r.put; left = r.left.items; dropped = r.dropped.items } };
}

impl Repair {
    /// A repair of these blocks, which the node holds. Each put begins its look-up at the node and is content with that
    /// many answers.
    pub fn start(alloc: Global, node: Peer, held: Posts, replicas: u32) -> Repair
        ensures begun { result ≡ repair_begun node held replicas }
        ensures after { RepairIsAfter held [] result }
    {
        Repair {
            alloc,
            node,
            replicas,
            put: None,
            left: VecDeque::from(held.into_vec()),
            dropped: Vec::new(alloc),
        }
    }

    /// What is wanted next: an ask, for the first block that isn't put yet, or nothing more, since all were put: the keys of
    /// the blocks that may go, in the order of the blocks, and the names of their bytes. The node itself is asked for routes
    /// alone. An ask that was not yet heard is wanted again. The error is: out of memory; nothing is put after it, nor after
    /// the end.
    pub fn next(&mut self) -> Result<Want<Acks>, Memory>
        ensures wanted { IfOk result (λ want. RepairIsWanted self.old self.new want) }
        ensures left { IfOk result (λ _. repair_left self.new ≤ repair_left self.old) }
    {
        'steps: loop {
            if let Some(want) = self.step()? {
                return Ok(want);
            }
        }
    }

    /// Hears what the node answered that was asked last. It is called once after each ask. The error is: out of memory;
    /// nothing is put after it.
    pub fn heard(&mut self, answer: Answer) -> Result<(), Memory>
        requires { repair_awaited self.old ≢ None }
        ensures heard { IfOk result (λ _. RepairHasHeard self.old self.new answer) }
        ensures left { IfOk result (λ _. repair_left self.new < repair_left self.old) }
    {
        match &mut self.put {
            Some(put) => put.heard(answer),
            None => Ok(()),
        }
    }

    /// One step: what is wanted, or a put begins or is over. The error is: out of memory.
    fn step(&mut self) -> Result<Option<Want<Acks>>, Memory>
        ensures { IfOk result (λ want. RepairSteps self.old self.new want) }
    {
        match self.put.take() {
            Some(put) => self.go_on(put),
            None => self.begin(),
        }
    }

    /// The put on its way, which was taken out, goes on and asks a node, or it is over. The error is: out of memory.
    fn go_on(&mut self, mut put: Put) -> Result<Option<Want<Acks>>, Memory>
        requires { self.old.put ≡ None }
        ensures { IfOk result (λ want. RepairSteps (record self.old { put = Some put }) self.new want) }
    {
        match put.next()? {
            Want::Ask(node, question) => {
                self.put = Some(put);
                Ok(Some(Want::Ask(node, question)))
            }
            Want::Done(goes) => {
                self.conclude(put.ack(), goes)?;
                Ok(None)
            }
        }
    }

    /// Notes a block whose put is over, where it may go. The error is: out of memory.
    fn conclude(&mut self, ack: Ack, goes: bool) -> Result<(), Memory>
        ensures { OnOk result (self.new ≡ record self.old { dropped = concluded ack goes self.old.dropped }) }
    {
        if goes {
            self.dropped.push(ack)?;
        }
        Ok(())
    }

    /// The put of the first block that is left begins, or there is none. The error is: out of memory.
    fn begin(&mut self) -> Result<Option<Want<Acks>>, Memory>
        requires { self.old.put ≡ None }
        ensures { IfOk result (λ want. RepairSteps self.old self.new want) }
    {
        match self.left.pop_front() {
            Some(post) => {
                self.put = Some(Put::start(self.alloc, self.node, post, self.replicas)?);
                Ok(None)
            }
            None => Ok(Some(Want::Done(self.take_dropped()))),
        }
    }

    /// Takes what is said of the blocks that may go.
    fn take_dropped(&mut self) -> Acks
        ensures acks { result ≡ self.old.dropped }
        ensures others { self.new ≡ record self.old { dropped = [] } }
    {
        Acks::of(mem::replace(&mut self.dropped, Vec::new(self.alloc)))
    }
}
