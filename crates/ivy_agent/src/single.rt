//! An agent that nobody shares.

ghost use Rattle.std.specs.Prelude.{◌≡◌, ◌≤◌, ◌<◌, length, None, IfOk, IfSome, IsSomeAnd};
ghost use Rattle.log_fetch.specs.Standings.{asked_of, refresh_of};
ghost use Rattle.ivy_agent.specs.Answering.{IsCall};
ghost use Rattle.ivy_agent.specs.Bounds.{HasBounds};
ghost use Rattle.ivy_agent.specs.Turns.{IsFetchedIn, TakesTurn};
ghost use Rattle.nfs_model.specs.Results.{longest_result};

use crate::agent::Agent;
use crate::turns::Turns;
use dht_ids::Acks;
use hss_keys::Signs;
use ivy_base::{Memory, Moment, Steps};
use ivy_io::Keeper;
use log_fetch::{Asked, Refresh, Standing, TurnFault, Turned};
use std::alloc::Global;
use std::marker::Brand;
use std::sync::Wait;
use std::sync::ledger::{Blank, Ledger};

/// Turns of an agent that nobody shares: the pass is the agent.
#[derive(Clone, Copy)]
pub struct Single;

impl<K: Keeper, S: Signs + Drop> Turns<K, S> for Single {
    type Pass = Agent<K, S>;

    ghost fits = { λ _ _. Unit {0} };

    ghost comes = { λ _ pass found. found ≡ pass };

    ghost leaves = { λ _ pass left. left ≡ pass };

    ghost view = { λ _ pass. pass.agent.view };

    ghost made = { λ _ _. None };

    fn standing<R: Wait>(
        &self,
        _rt: &R,
        alloc: Global,
        pass: &mut Agent<K, S>,
    ) -> Result<Standing, Memory> {
        pass.standing(alloc)
    }

    fn turn<R: Wait>(
        &self,
        _rt: &R,
        alloc: Global,
        pass: &mut Agent<K, S>,
        refresh: Refresh,
        asked: &Asked,
        now: Moment,
    ) -> Result<Turned, TurnFault> {
        turn_alone(alloc, pass, refresh, asked, now)
    }

    fn settle<R: Wait>(&self, _rt: &R, pass: &mut Agent<K, S>, acks: &Acks) {
        pass.settle(acks);
    }
}

/// A turn of the agent, as [`Agent::turn`] takes it; nobody asks how many records were applied.
pub fn turn_alone<K: Keeper, S: Signs + Drop>(
    alloc: Global,
    agent: &mut Agent<K, S>,
    refresh: Refresh,
    asked: &Asked,
    now: Moment,
) -> Result<Turned, TurnFault>
    requires batch { IsSomeAnd agent.old.agent.view (λ view. IsFetchedIn view refresh.batch) }
    requires bounds { IfSome refresh.basis (λ basis. HasBounds basis.tree) }
    requires call { IsCall (asked_of asked.now) now }
    ensures turn { IfSome agent.old.agent.view (λ view. TakesTurn S.signing S.is_whole K.saves view (refresh_of refresh) (asked_of asked.now) now agent.old result agent.new) }
    ensures short { IfOk result (λ turned. length turned.reply ≤ longest_result) }
{
    turn_in::<K, S, Brand>(alloc, agent, refresh, asked, now, Blank::new(1))
}

/// A turn of the agent, whose records are counted in the ledger of the blank.
fn turn_in<K: Keeper, S: Signs + Drop, L: Ledger>(
    alloc: Global,
    agent: &mut Agent<K, S>,
    refresh: Refresh,
    asked: &Asked,
    now: Moment,
    blank: Blank,
) -> Result<Turned, TurnFault>
    requires name { L.name ≡ blank.name }
    requires parts { (L.parts ≡ blank.parts) × (0 < L.parts) }
    requires batch { IsSomeAnd agent.old.agent.view (λ view. IsFetchedIn view refresh.batch) }
    requires bounds { IfSome refresh.basis (λ basis. HasBounds basis.tree) }
    requires call { IsCall (asked_of asked.now) now }
    ensures turn { IfSome agent.old.agent.view (λ view. TakesTurn S.signing S.is_whole K.saves view (refresh_of refresh) (asked_of asked.now) now agent.old result agent.new) }
    ensures short { IfOk result (λ turned. length turned.reply ≤ longest_result) }
{
    let mut steps = Steps::<L>::new(blank);
    agent.turn(alloc, refresh, asked, now, &mut steps)
}
