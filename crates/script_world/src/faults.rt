//! Lines of faults.

ghost use Rattle.std.specs.Prelude.{◌≡◌, ◌&&◌, nat_le, nat_lt, IfOk};

use crate::parts::Parts;
use ivy_base::Memory;
use script_driver::Taken;
use script_model::{KeyWord, NodeWord};
use std::alloc::Global;

/// The furthest ask from now that a line loses.
const MOST_ASKS: u64 = 1_000_000;

impl Parts {
    ghost use Rattle.world_model.specs.Faults.{damage_line, lose_line, node_named};
    ghost use Rattle.world_model.specs.Logs.{keep_line};
    ghost use Rattle.world_model.specs.Ring.{stop_line};
    ghost use Rattle.script_world.specs.PartsState.{DoesIn};

    /// The line `stop`: a node that lives stops. The error is: out of memory.
    pub fn stop(&mut self, alloc: Global, node: &NodeWord) -> Result<Taken, Memory>
        ensures { IfOk result (λ taken. DoesIn (λ w outcome. outcome ≡ stop_line w (node_named w node.now)) self.old taken self.new) }
    {
        let Some(peer) = self.peer_named(alloc, node)? else {
            return Ok(Taken::Refused);
        };
        if !self.nodes.stop(&peer.id) {
            return Ok(Taken::Refused);
        }
        Ok(Taken::Went(Vec::new(alloc)))
    }

    /// The line `lose`: the ask of that number from now on, the next one being 1, is lost. The error is: out of memory, or an ask
    /// past 2^64.
    pub fn lose(&mut self, alloc: Global, count: u64) -> Result<Taken, Memory>
        ensures { IfOk result (λ taken. DoesIn (λ w outcome. outcome ≡ lose_line w count) self.old taken self.new) }
    {
        if !is_ask_count(count) {
            return Ok(Taken::Refused);
        }
        self.nodes.lose(count)?;
        Ok(Taken::Went(Vec::new(alloc)))
    }

    /// The line `damage`: sets a byte of the block that a node holds under a key; the block is met as it is then. The error is:
    /// out of memory.
    pub fn damage(
        &mut self,
        alloc: Global,
        node: &NodeWord,
        key: &KeyWord,
        offset: u64,
        byte: u8,
    ) -> Result<Taken, Memory>
        ensures { IfOk result (λ taken. DoesIn (λ w outcome. outcome ≡ damage_line w node.now key.now offset byte) self.old taken self.new) }
    {
        let Some(peer) = self.peer_named(alloc, node)? else {
            return Ok(Taken::Refused);
        };
        let Some(key) = self.key_named(key) else {
            return Ok(Taken::Refused);
        };
        let Some(block) = self.nodes.damage(alloc, &peer.id, &key, offset, byte)? else {
            return Ok(Taken::Refused);
        };
        self.met.meet(alloc, block.as_slice())?;
        Ok(Taken::Went(Vec::new(alloc)))
    }

    /// The line `keep`: the save of that number from now on, the next one being 1, is to fail, and leaves the new bytes or the
    /// old ones. The error is: out of memory.
    pub fn keep(
        &mut self,
        alloc: Global,
        log: &[u8],
        count: u64,
        new: bool,
    ) -> Result<Taken, Memory>
        ensures { IfOk result (λ taken. DoesIn (λ w outcome. outcome ≡ keep_line w log.now count new) self.old taken self.new) }
    {
        if count == 0 {
            return Ok(Taken::Refused);
        }
        let Some(place) = self.participants.place_of(log) else {
            return Ok(Taken::Refused);
        };
        self.participants.at(place).plan_fault(count, new)?;
        Ok(Taken::Went(Vec::new(alloc)))
    }
}

/// Whether a line may lose the ask of that number from now on.
fn is_ask_count(count: u64) -> bool
    ensures { result ≡ (nat_lt 0 count && nat_le count 1000000) }
{
    count > 0 && count <= MOST_ASKS
}
