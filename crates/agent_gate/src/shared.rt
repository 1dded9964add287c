//! An agent as what lies behind a gate.

use crate::request::TurnRequest;
use hss_keys::Signs;
use ivy_agent::Agent;
use ivy_io::Keeper;
use log_fetch::{TurnFault, Turned};
use std::marker::Model;
use value_gate::Sequential;

/// An agent behind a gate. Contracts see it as the agent with its keeper.
#[derive(Drop)]
pub struct Shared<K: Keeper + Drop, S: Signs> {
    pub(crate) agent: Agent<K, S>,
}

impl<K: Keeper + Drop, S: Signs> Model for Shared<K, S> {
    ghost use Rattle.ivy_agent.specs.Holders.{Holder};

    ghost Value = { Holder K S };

    ghost view = { λ s. s.agent };
}

impl<K: Keeper + Drop, S: Signs + Drop> Sequential for Shared<K, S> {
    ghost use Rattle.agent_gate.specs.Asking.{MayAsk, MayVisit};
    ghost use Rattle.agent_gate.specs.Taking.{HasTaken, kind_of};

    type Asked = TurnRequest;

    type Reply = Turned;

    type Fault = TurnFault;

    ghost stands = { HasTaken (kind_of S.signing S.is_whole K.saves) };

    ghost may_ask = { MayAsk };

    ghost may_visit = { MayVisit };
}
