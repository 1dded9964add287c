//! What is done with an agent while it is out of its slot.

use crate::shared::Shared;
use dht_ids::Acks;
use hss_keys::Signs;
use ivy_agent::turn_alone;
use ivy_base::{Memory, Moment};
use ivy_io::Keeper;
use log_fetch::{Asked, Refresh, Standing, TurnFault, Turned};
use std::alloc::Global;
use value_gate::{Turn, Visit};

/// A turn on its way to the agent.
pub(crate) struct TakeTurn<'q> {
    pub alloc: Global,
    pub refresh: Refresh,
    pub asked: &'q Asked,
    pub now: Moment,
}

impl<'q, K: Keeper + Drop, S: Signs + Drop> Turn<Shared<K, S>> for TakeTurn<'q> {
    ghost use Rattle.agent_gate.specs.Asking.{Refuses};
    ghost use Rattle.agent_gate.specs.Taking.{kind_of};

    ghost asks = { λ t. record { refresh = t.refresh; asked = t.asked.now; now = t.now } };

    ghost refuses = { λ t found fault. Refuses (kind_of S.signing S.is_whole K.saves) (record { refresh = t.refresh; asked = t.asked.now; now = t.now }) found fault };

    fn take(self, value: &mut Shared<K, S>) -> Result<Turned, TurnFault> {
        let TakeTurn {
            alloc,
            refresh,
            asked,
            now,
        } = self;
        turn_alone(alloc, &mut value.agent, refresh, asked, now)
    }
}

/// What asks for a standing.
pub(crate) struct AskStanding {
    pub alloc: Global,
}

impl<K: Keeper + Drop, S: Signs + Drop> Visit<Shared<K, S>> for AskStanding {
    ghost use Rattle.agent_gate.specs.Asking.{ShowsStanding};
    ghost use Rattle.agent_gate.specs.Taking.{kind_of};

    type Seen = Result<Standing, Memory>;

    ghost sees = { λ _ found seen left. ShowsStanding (kind_of S.signing S.is_whole K.saves) found seen left };

    fn visit(self, value: &mut Shared<K, S>) -> Result<Standing, Memory> {
        let AskStanding { alloc } = self;
        value.agent.standing(alloc)
    }
}

/// What drops posts that are acknowledged.
pub(crate) struct DropPosts<'q> {
    pub acks: &'q Acks,
}

impl<'q, K: Keeper + Drop, S: Signs + Drop> Visit<Shared<K, S>> for DropPosts<'q> {
    ghost use Rattle.agent_gate.specs.Asking.{DropsPosts};

    type Seen = ();

    ghost sees = { λ v found _ left. DropsPosts v.acks.now found left };

    fn visit(self, value: &mut Shared<K, S>) {
        let DropPosts { acks } = self;
        value.agent.settle(acks);
    }
}
