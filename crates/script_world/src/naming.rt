//! What a line names.

ghost use Rattle.std.specs.Prelude.{◌≡◌, find, option_map, IfOk};
ghost use Rattle.std.specs.Str.{bytes_eq};
ghost use Rattle.ivy_base.specs.Naming.{head_key_of};
ghost use Rattle.log_model.specs.View.{view_name};
ghost use Rattle.world_model.specs.Agents.{own_hss_key};
ghost use Rattle.world_model.specs.Faults as faults;
ghost use Rattle.world_model.specs.World.{World, participant, view_named};
ghost use Rattle.script_model.specs.declared.command.NodeWord.TheVariants as node;
ghost use Rattle.ring_nodes.specs.NodesState.{IsPeerOf};
ghost use Rattle.script_world.specs.PartsState.{HasParts, record_by, snapshot_by};

use crate::parts::{NamedView, Parts};
use dht_ids::Peer;
use ivy_base::{Key, Memory, head_key};
use script_model::{KeyWord, NodeWord};
use std::alloc::Global;
use view_blocks::View;

impl Parts {
    /// The view of that name.
    pub fn view_named(&self, name: &[u8]) -> Option<&View>
        ensures { (w : World) → HasParts w self.now → option_map (λ v. v.now) result ≡ view_named w name.now }
    {
        let named = find_view(self.views.as_slice(), name)?;
        Some(&named.view)
    }

    /// The key that a line names.
    pub(crate) fn key_named(&self, word: &KeyWord) -> Option<Key>
        ensures { (w : World) → HasParts w self.now → result ≡ faults.key_named w word.now }
    {
        match word {
            KeyWord::Itself { key } => Some(*key),
            KeyWord::HeadOf { log } => self.head_key_of(log.as_slice()),
            KeyWord::RecordOf { log, seq } => self.record_named(log.as_slice(), *seq),
            KeyWord::ViewOf { view } => self.view_block_named(view.as_slice()),
            KeyWord::SnapshotOf { log } => self.snapshot_named(log.as_slice()),
        }
    }

    /// The peer of the node that a line names; None where there is no such node. The error is: out of memory.
    pub(crate) fn peer_named(&self, alloc: Global, word: &NodeWord) -> Result<Option<Peer>, Memory>
        ensures { IfOk result (λ peer. (w : World) → HasParts w self.now → IsPeerOf self.now.nodes (faults.node_named w word.now) peer) }
    {
        match word {
            NodeWord::Numbered { number } => Ok(self.nodes.numbered(*number)),
            NodeWord::OwnerOf { place, key } => self.owner_named(alloc, *place, key),
        }
    }

    /// The named key's owner of that number. The error is: out of memory.
    fn owner_named(&self, alloc: Global, place: u64, key: &KeyWord) -> Result<Option<Peer>, Memory>
        ensures { IfOk result (λ peer. (w : World) → HasParts w self.now → IsPeerOf self.now.nodes (faults.node_named w (node.OwnerOf place key.now)) peer) }
    {
        let Some(replicas) = self.replicas else {
            return Ok(None);
        };
        let Some(key) = self.key_named(key) else {
            return Ok(None);
        };
        self.nodes.are_sound();
        self.nodes.owner_of(alloc, replicas, place, &key)
    }

    /// The head key of the log of that name.
    fn head_key_of(&self, log: &[u8]) -> Option<Key>
        ensures { (w : World) → HasParts w self.now → result ≡ option_map (λ p. head_key_of (own_hss_key p.agent)) (participant w log.now) }
    {
        let one = self.participants.named(log)?;
        Some(head_key(&one.owner()))
    }

    /// The name of the record of that number which the log's agent made.
    fn record_named(&self, log: &[u8], seq: u64) -> Option<Key>
        ensures { (w : World) → HasParts w self.now → result ≡ record_by seq (participant w log.now) }
    {
        let one = self.participants.named(log)?;
        one.record_made(seq)
    }

    /// The name of the view of that name in the script.
    fn view_block_named(&self, name: &[u8]) -> Option<Key>
        ensures { (w : World) → HasParts w self.now → result ≡ option_map view_name (view_named w name.now) }
    {
        let view = self.view_named(name)?;
        Some(view.name())
    }

    /// The root of the last snapshot that a line printed of that log.
    fn snapshot_named(&self, log: &[u8]) -> Option<Key>
        ensures { (w : World) → HasParts w self.now → result ≡ snapshot_by (participant w log.now) }
    {
        let one = self.participants.named(log)?;
        one.printed()
    }
}

/// The view of that name.
fn find_view<'a>(views: &'a [NamedView], name: &[u8]) -> Option<&'a NamedView>
    ensures { option_map (λ v. v.now) result ≡ find (λ v. bytes_eq v.name name.now) views.now }
{
    views.iter().find(|one| one.name.as_slice() == name)
}
