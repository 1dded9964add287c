//! What a world has but for its open sessions.

ghost use Rattle.std.specs.Prelude.{◌≡◌, length};
ghost use Rattle.std.specs.List.{sum_by};

use command_messages::ReplyParts;
use ivy_base::{Bytes, Moment};
use ring_nodes::RingNodes;
use script_participants::Participants;
use session_steps::MetBlocks;
use std::alloc::Global;
use std::marker::Model;
use view_blocks::View;

/// A view by its name in the script.
#[derive(Drop)]
pub(crate) struct NamedView {
    pub name: Bytes,
    pub view: View,
}

impl Model for NamedView {
    ghost use Rattle.world_model.specs.World as world;

    ghost Value = { world.NamedView };

    ghost view = { λ v. record { name = v.name; view = v.view } };
}

/// A script's world but for its open sessions: how many nodes own a key, 1 to 8, where a ring was made; the nodes, the participants
/// and the views in the order of their lines; what each reply gave to later lines; the moment; and the blocks that were met. No two
/// participants have one name, and before the ring there are none.
pub struct Parts {
    pub(crate) replicas: Option<u32>,
    pub(crate) nodes: RingNodes,
    pub(crate) participants: Participants,
    pub(crate) views: Vec<NamedView>,
    pub(crate) replies: Vec<ReplyParts>,
    pub(crate) moment: Moment,
    pub(crate) met: MetBlocks,
}

/// One function, so that whatever drops the parts calls it and isn't proved over all of its parts once more.
impl Drop for Parts {
    fn drop(self) {
        let Parts {
            replicas: _,
            nodes: _,
            participants: _,
            views: _,
            replies: _,
            moment: _,
            met: _,
        } = self;
    }
}

impl Model for Parts {
    ghost use Rattle.script_world.specs.PartsState.{AreKept, PartsState};

    ghost Value = { PartsState };

    ghost view = { λ p. record { replicas = p.replicas; nodes = p.nodes; participants = p.participants; views = p.views.items; replies = p.replies.items; moment = p.moment; met = p.met } };

    ghost invariant = { λ p. AreKept p.replicas p.participants };
}

impl Parts {
    ghost use Rattle.world_model.specs.World.{World, empty_world};
    ghost use Rattle.script_world.specs.PartsState.{HasParts};

    /// The parts of the empty world. It takes no memory.
    pub fn new(alloc: Global) -> Parts
        ensures { HasParts empty_world result }
    {
        Parts {
            replicas: None,
            nodes: RingNodes::new(alloc),
            participants: Participants::new(alloc),
            views: Vec::new(alloc),
            replies: Vec::new(alloc),
            moment: Moment { sec: 0, nsec: 0 },
            met: MetBlocks::new(alloc),
        }
    }

    /// How many bytes all blocks have that were met.
    pub fn bytes_met(&self) -> u64
        ensures { (w : World) → HasParts w self.now → result ≡ sum_by (λ block. length block) w.met }
    {
        self.met.bytes()
    }
}
