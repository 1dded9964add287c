//! What a round reads of a node and changes of it, each under the node's lock.

ghost use Rattle.std.specs.Prelude.{◌<◌};
ghost use Rattle.chord_core.specs.State.{IsOfNear};
ghost use Rattle.ring_model.specs.Circle.{identifier_bits};

use crate::seat::Seat;
use dht_ids::{Ack, Answer, Peer, Posts};
use ivy_base::Memory;
use std::alloc::Global;
use std::sync::Wait;

impl Seat {
    /// The predecessor that the node knows.
    pub(crate) fn before<R: Wait>(&self, rt: &R) -> Option<Peer> {
        self.node.lock(rt).before()
    }

    /// The first entry of the node's list.
    pub(crate) fn first<R: Wait>(&self, rt: &R) -> Option<Peer> {
        self.node.lock(rt).first()
    }

    /// Forgets the predecessor, where it is still that one.
    pub(crate) fn forget<R: Wait>(&self, rt: &R, before: &Peer) {
        let mut node = self.node.lock(rt);
        if node.before() == Some(*before) {
            node.forget();
        }
    }

    /// Renews the list by what its first entry answered to Near, where that is still the first. The error is: out of memory,
    /// and the node is as before then.
    pub(crate) fn renew<R: Wait>(
        &self,
        rt: &R,
        alloc: Global,
        first: &Peer,
        heard: &Answer,
    ) -> Result<(), Memory>
        requires { IsOfNear heard.now }
    {
        let mut node = self.node.lock(rt);
        if node.first() == Some(*first) {
            return node.renew(alloc, heard);
        }
        Ok(())
    }

    /// Makes a peer the finger of that index, 0 to 159.
    pub(crate) fn fix_finger<R: Wait>(&self, rt: &R, index: u32, owner: Peer)
        requires { index < identifier_bits }
    {
        self.node.lock(rt).fix_finger(index, owner);
    }

    /// Copies of the blocks that the node holds. The error is: out of memory.
    pub(crate) fn posts<R: Wait>(&self, rt: &R, alloc: Global) -> Result<Posts, Memory> {
        self.node.lock(rt).posts(alloc)
    }

    /// Drops the blocks of these keys that still have the bytes of these names: what came meanwhile stays.
    pub(crate) fn drop_put<R: Wait>(&self, rt: &R, acks: &[Ack]) {
        let mut node = self.node.lock(rt);
        for ack in acks {
            if node.holds(ack) {
                node.drop_blocks(&[ack.key]);
            }
        }
    }
}
