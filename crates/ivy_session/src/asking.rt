//! A put whose ask is to be heard.

ghost use Rattle.std.specs.Prelude.{◌≡◌, ◌<◌, Some, IfOk};
ghost use Rattle.dhash_client.specs.Execution.{asks_left};
ghost use Rattle.dhash_client.specs.Puts.{put_awaited};
ghost use Rattle.ivy_session.specs.Putting.{PuttingHasHeard};

use crate::put::Put;
use dht_ids::{Answer, Ask, Peer};
use ivy_base::Memory;
use std::alloc::Global;
use std::marker::Model;

/// A put on its way, with the node that is to be heard and what it is asked. The ask is kept, so that it can be wanted
/// more than once, and `Put::next` isn't called again before the answer.
#[derive(Drop)]
pub(crate) struct Asking {
    put: Put,
    node: Peer,
    question: Ask,
}

impl Model for Asking {
    ghost use Rattle.std.specs.Prelude.{◌≡◌, Some};
    ghost use Rattle.dhash_client.specs.Puts.{put_awaited};
    ghost use Rattle.ivy_session.specs.Putting.{Putting};

    ghost Value = { Putting };

    ghost view = { λ a. a.put };

    ghost invariant = { λ a. put_awaited a.put.put ≡ Some (a.node, a.question) };
}

impl Asking {
    /// The put, which wants this ask.
    pub(crate) fn new(put: Put, node: Peer, question: Ask) -> Asking
        requires { put_awaited put.put ≡ Some (node, question) }
        ensures { result ≡ put }
    {
        Asking {
            put,
            node,
            question,
        }
    }

    /// The node that is to be heard, and what it is asked. The error is: out of memory.
    pub(crate) fn wanted(&self, alloc: Global) -> Result<(Peer, Ask), Memory>
        ensures { IfOk result (λ asked. put_awaited self.now.put ≡ Some asked) }
    {
        Ok((self.node, self.question.copy(alloc)?))
    }

    /// The put, which heard this answer. The error is: out of memory.
    pub(crate) fn heard(self, answer: Answer) -> Result<Put, Memory>
        ensures heard { IfOk result (λ put. PuttingHasHeard self put answer) }
        ensures left { IfOk result (λ put. asks_left put.put.execution < asks_left self.put.execution) }
    {
        let mut put = self.put;
        put.heard(answer)?;
        Ok(put)
    }
}
