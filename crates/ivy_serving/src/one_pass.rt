//! A gate, for one pass alone.

use agent_gate::{Gate, Pass};
use dht_ids::Acks;
use hss_keys::Signs;
use ivy_agent::Turns;
use ivy_base::{Memory, Moment};
use ivy_io::Keeper;
use log_fetch::{Asked, Refresh, Standing, TurnFault, Turned};
use std::alloc::Global;
use std::snapshot::Snapshot;
use std::sync::Wait;

/// A gate, for the passes that come of one by calls alone. They keep their number and their parts.
#[derive(Drop)]
pub(crate) struct OnePass<'a, K: Keeper + Drop, S: Signs + Drop> {
    pub(crate) gate: &'a Gate<K, S>,
    pub(crate) first: Snapshot<Pass<K, S>>,
}

impl<'a, K: Keeper + Drop, S: Signs + Drop> Turns<K, S> for OnePass<'a, K, S> {
    ghost use Rattle.std.specs.Prelude.{Some};
    ghost use Rattle.agent_gate.specs.Sharing.{Comes, Leaves, made_by};
    ghost use Rattle.agent_gate.specs.Taking.{kind_of};
    ghost use Rattle.ivy_serving.specs.Jobs.{CameOf};

    type Pass = Pass<K, S>;

    ghost fits = { λ o p. CameOf o.gate.now o.first.value p };

    ghost comes = { λ o p found. Comes (kind_of S.signing S.is_whole K.saves) o.gate.now p found };

    ghost leaves = { λ o p left. Leaves (kind_of S.signing S.is_whole K.saves) o.gate.now p left };

    ghost view = { λ o _. o.gate.now.opening.agent.view };

    ghost made = { λ _ p. Some (made_by p) };

    fn standing<R: Wait>(
        &self,
        rt: &R,
        alloc: Global,
        pass: &mut Pass<K, S>,
    ) -> Result<Standing, Memory> {
        self.gate.standing(rt, alloc, pass)
    }

    fn turn<R: Wait>(
        &self,
        rt: &R,
        alloc: Global,
        pass: &mut Pass<K, S>,
        refresh: Refresh,
        asked: &Asked,
        now: Moment,
    ) -> Result<Turned, TurnFault> {
        self.gate.take_turn(rt, alloc, pass, refresh, asked, now)
    }

    fn settle<R: Wait>(&self, rt: &R, pass: &mut Pass<K, S>, acks: &Acks) {
        self.gate.settle(rt, pass, acks);
    }
}
