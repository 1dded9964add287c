//! Calls in progress.

ghost use Rattle.std.specs.Prelude.{◌≡◌, ◌≢◌, [], None, is_some, IfOk, IsSomeAnd};
ghost use Rattle.world_model.specs.Logs.{to_publish};
ghost use Rattle.world_model.specs.World.{Participant as Writer, World};
ghost use Rattle.ring_nodes.specs.NodesState.{IsNodesOf};
ghost use Rattle.script_participants.specs.ParticipantState.{state_of};
ghost use Rattle.session_steps.specs.Representing.{BeginsIn, RepresentsSession};

use command_messages::ReplyParts;
use ivy_base::Memory;
use ivy_session::{Served, Session};
use log_heads::HssJudge;
use ring_nodes::RingNodes;
use script_participants::Participant;
use std::alloc::Global;
use std::marker::Model;

/// A participant's call: its session, what its reply gives to later lines, and what it told once it is over.
pub struct OpenCall {
    pub(crate) session: Session<HssJudge>,
    pub(crate) given: ReplyParts,
    pub(crate) told: Option<Served>,
}

/// One function, so that whatever drops a call calls it and isn't proved over all of its parts once more.
impl Drop for OpenCall {
    fn drop(self) {
        let OpenCall {
            session: _,
            given: _,
            told: _,
        } = self;
    }
}

impl Model for OpenCall {
    ghost use Rattle.session_steps.specs.Representing.{CallState};

    ghost Value = { CallState };

    ghost view = { λ c. record { session = c.session; given = c.given; told = c.told } };
}

impl OpenCall {
    /// A call of a participant in a view that sends this message to a world of these nodes, of which so many own a key. The error
    /// is: out of memory.
    pub fn begin(
        alloc: Global,
        nodes: &RingNodes,
        replicas: u32,
        who: &Participant,
        message: &[u8],
    ) -> Result<OpenCall, Memory>
        requires view { IsSomeAnd who.now.agent.view (λ view. Unit {0}) }
        requires nodes { nodes.now.nodes ≢ [] }
        ensures replicas { IfOk result (λ call. call.session.replicas ≡ replicas) }
        ensures begun { IfOk result (BeginsIn nodes.now who.now message.now) }
    {
        let standing = who.standing(alloc)?;
        let entries = nodes.entries(alloc)?;
        let session = Session::begin(alloc, HssJudge, replicas, entries, standing, message)?;
        Ok(OpenCall::of(session))
    }

    /// The publishing of all that a participant's agent has pending, likewise. The error is: out of memory.
    pub fn publish(
        alloc: Global,
        nodes: &RingNodes,
        replicas: u32,
        who: &Participant,
    ) -> Result<OpenCall, Memory>
        requires nodes { nodes.now.nodes ≢ [] }
        ensures replicas { IfOk result (λ call. call.session.replicas ≡ replicas) }
        ensures begun { IfOk result (λ call. (w : World) (p : Writer) → IsNodesOf w nodes.now → state_of p ≡ who.now → RepresentsSession (to_publish w p) call) }
    {
        let entries = nodes.entries(alloc)?;
        let session = Session::publish(alloc, HssJudge, replicas, entries, who.pending())?;
        Ok(OpenCall::of(session))
    }

    /// The call of that session, which has said nothing yet.
    fn of(session: Session<HssJudge>) -> OpenCall
        ensures session { result.session ≡ session }
        ensures given { result.given ≡ record { handle = None; verifier = None } }
        ensures told { result.told ≡ None }
    {
        OpenCall {
            session,
            given: ReplyParts::of(None, None),
            told: None,
        }
    }

    /// Whether it is over, and told so.
    pub fn is_told(&self) -> bool
        ensures { result ≡ is_some self.now.told }
    {
        self.told.is_some()
    }
}
