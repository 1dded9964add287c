//! Who writes a log.

ghost use Rattle.std.specs.Prelude.{◌≡◌, ◌≢◌, ◌≤◌, ◌+◌, ◌==◌, ◌++◌, codes, length, find, option_map, None, IfOk, OnOk, OnErr, IfSome, IsSomeAnd};
ghost use Rattle.std.specs.Borrow.{sem};
ghost use Rattle.std.specs.List.{AllByRecursion};
ghost use Rattle.hash_signature_model.specs.Signer.{left_of};
ghost use Rattle.log_fetch.specs.Standings.{asked_of, refresh_of, standing_of};
ghost use Rattle.log_model.specs.Spelling.{HasSpelling};
ghost use Rattle.log_records.specs.Records.{records_of};
ghost use Rattle.agent_model.specs.Others.{settled};
ghost use Rattle.agent_model.specs.SavedBytes.{HasItsName};
ghost use Rattle.ivy_agent.specs.Answering.{IsCall};
ghost use Rattle.ivy_agent.specs.Bounds.{HasBounds};
ghost use Rattle.ivy_agent.specs.Turns.{IsFetchedIn};
ghost use Rattle.world_model.specs.Agents.{hss_opened, own_hss_key, hss_standing_in};
ghost use Rattle.world_model.specs.Shows.{work_text};
ghost use Rattle.world_model.specs.Keepers.{with_fault};
ghost use Rattle.world_model.specs.Logs.{new_participant};
ghost use Rattle.world_model.specs.World.{Participant as Seen};
ghost use Rattle.script_participants.specs.Opening.{IsOpened};
ghost use Rattle.nfs_model.specs.Results.{longest_result};

mod restarting;
mod snapping;

use crate::end::{EnterEnd, end_of};
use crate::making::count_all;
use crate::text::counted_line;
use block_cache::BlockCache;
use dht_ids::{Acks, Posts};
use hss_keys::Hss;
use ivy_agent::{Agent, MakeFault};
use ivy_base::{Bytes, Key, Memory, Moment, PubKey, Steps};
use ivy_io::{Leave, MemKeeper};
use log_fetch::{Asked, Refresh, Standing, TurnFault, Turned};
use log_records::Record;
use std::alloc::Global;
use std::marker::Model;
use std::sync::ledger::Ledger;
use view_blocks::View;

/// Who writes a log: its name in the script, its agent, which is kept in memory, its cache, the names of the records that its
/// agent made, the last snapshot that a line printed, and how many records its last turn applied.
pub struct Participant {
    name: Bytes,
    agent: Agent<MemKeeper, Hss>,
    cache: BlockCache,
    /// By their numbers, in the order in which they were made.
    made: Vec<(u32, Key)>,
    printed: Option<Key>,
    work: u64,
}

/// One function, so that whatever drops a participant calls it and isn't proved over all of its parts once more.
impl Drop for Participant {
    fn drop(self) {
        let Participant {
            name: _,
            agent: _,
            cache: _,
            made: _,
            printed: _,
            work: _,
        } = self;
    }
}

impl Model for Participant {
    ghost use Rattle.script_participants.specs.ParticipantState.{ParticipantState};

    ghost Value = { ParticipantState };

    ghost view = { λ p. record { name = p.name; agent = p.agent.agent; keeper = p.agent.keeper; cache = p.cache; made = p.made.items; printed = p.printed; work = p.work } };
}

impl Participant {
    ghost use Rattle.script_participants.specs.ParticipantState.{state_of, counting};
    ghost use Rattle.script_participants.specs.InView.{entering_view};
    ghost use Rattle.script_participants.specs.Lending.{LendsCache};
    ghost use Rattle.script_participants.specs.Turning.{TakesTurn};

    /// A participant whose agent opens its log at that moment and is saved; its first posts count as made. The error is: out of
    /// memory; the signer is dropped then.
    pub fn open(alloc: Global, name: Bytes, signer: Hss, now: Moment) -> Result<Participant, Memory>
        requires { left_of signer ≢ 0 }
        ensures { IfOk result (λ p. p ≡ state_of (new_participant name (hss_opened signer now))) }
    {
        let agent = agent_of(alloc, signer, now)?;
        let mut made = Vec::new(alloc);
        count_all(&mut made, agent.pending().as_slice())?;
        let cache = BlockCache::new(alloc)?;
        Ok(Participant::of(name, agent, cache, made))
    }

    /// The participant of these parts, before its first turn.
    fn of(
        name: Bytes,
        agent: Agent<MemKeeper, Hss>,
        cache: BlockCache,
        made: Vec<(u32, Key)>,
    ) -> Participant
        ensures { result ≡ record { name = name; agent = agent.agent; keeper = agent.keeper; cache = cache; made = made.items; printed = None; work = 0 } }
    {
        Participant {
            name,
            agent,
            cache,
            made,
            printed: None,
            work: 0,
        }
    }

    /// Its name in the script.
    pub fn name(&self) -> &[u8]
        ensures { result.now ≡ self.now.name }
    {
        self.name.as_slice()
    }

    /// Its cache, to be changed.
    pub fn cache(&mut self) -> &mut BlockCache
        ensures value { result.now ≡ self.old.cache }
        ensures* lends { sem 𝓛 (LendsCache self.entry result) }
    {
        &mut self.cache
    }

    /// What a session is given of its agent, which is in a view; each block that is pending has its name. The error is: out of
    /// memory.
    pub fn standing(&self, alloc: Global) -> Result<Standing, Memory>
        requires { IsSomeAnd self.now.agent.view (λ view. Unit {0}) }
        ensures stands { IfOk result (λ s. IfSome self.now.agent.view (λ view. standing_of s ≡ hss_standing_in self.now.agent view)) }
        ensures named { IfOk result (λ s. AllByRecursion HasItsName s.pending) }
    {
        self.agent.standing(alloc)
    }

    /// The public key of its log.
    pub fn owner(&self) -> PubKey
        ensures { result ≡ own_hss_key self.now.agent }
    {
        self.agent.owner()
    }

    /// The view that its agent is in.
    pub fn view(&self) -> Option<&View>
        ensures { option_map (λ v. v.now) result ≡ self.now.agent.view }
    {
        self.agent.view()
    }

    /// The blocks that its agent has still to publish, in their order.
    pub fn pending(&self) -> &Posts
        ensures { result.now ≡ self.now.agent.pending }
    {
        self.agent.pending()
    }

    /// The records that it holds above its basis, ascending by rank. Each has a spelling.
    pub fn order(&self) -> &[Record]
        ensures records { records_of result.now ≡ self.now.agent.holding.held }
        ensures spelled { AllByRecursion HasSpelling (records_of result.now) }
    {
        self.agent.order()
    }

    /// The root of the last snapshot that a line printed.
    pub fn printed(&self) -> Option<Key>
        ensures { result ≡ self.now.printed }
    {
        self.printed
    }

    /// Its agent enters a view, and its cache is empty then; or the view is refused; or the keeper fails. The error is: out of
    /// memory; nothing is changed then.
    pub fn enter(&mut self, alloc: Global, view: View) -> Result<EnterEnd, Memory>
        ensures entered { IfOk result (λ end. (end, self.new) ≡ entering_view self.old view) }
        ensures unchanged { OnErr result (self.new ≡ self.old) }
    {
        let nothing = BlockCache::new(alloc)?;
        match self.agent.enter(alloc, view) {
            Ok(()) => {
                self.cache = nothing;
                Ok(EnterEnd::Entered)
            }
            Err(fault) => end_of(fault),
        }
    }

    /// The save of that number from now on is to fail, the next one being 1 and 0 naming none, and leaves the new bytes or the
    /// old ones. The error is: out of memory; nothing is changed then.
    pub fn plan_fault(&mut self, count: u64, new: bool) -> Result<(), Memory>
        ensures planned { OnOk result (self.new ≡ record self.old { keeper = with_fault self.old.keeper count new }) }
        ensures unchanged { OnErr result (self.new ≡ self.old) }
    {
        self.agent.plan_fault(Leave { call: count, new })
    }

    /// The records that its agent has to publish count as made. The error is: out of memory; nothing is changed then.
    pub fn count_made(&mut self) -> Result<(), Memory>
        ensures made { OnOk result (self.new ≡ counting self.old) }
        ensures unchanged { OnErr result (self.new ≡ self.old) }
    {
        count_all(&mut self.made, self.agent.pending().as_slice())
    }

    /// The name of the record of that number that its agent made.
    pub fn record_made(&self, number: u64) -> Option<Key>
        ensures { result ≡ option_map (λ m. m.1) (find (λ m. m.0 == number) self.now.made) }
    {
        let one = find_made(&self.made, number)?;
        Some(one.1)
    }

    /// A turn of its agent, which is in a view, and how many records it applied. There is a step for each of them. A reply has
    /// 32,772 bytes at most.
    ///
    /// # Errors
    ///
    /// Those of an agent's turn. After `Behind` and `Memory` nothing has changed but the steps; after `BelowTide` nothing is held.
    pub fn turn<L: Ledger>(
        &mut self,
        alloc: Global,
        refresh: Refresh,
        asked: &Asked,
        now: Moment,
        steps: &mut Steps<L>,
    ) -> Result<Turned, TurnFault>
        requires batch { IsSomeAnd self.old.agent.view (λ view. IsFetchedIn view refresh.batch) }
        requires bounds { IfSome refresh.basis (λ basis. HasBounds basis.tree) }
        requires call { IsCall (asked_of asked.now) now }
        ensures turn { IfSome self.old.agent.view (λ view. TakesTurn view (refresh_of refresh) (asked_of asked.now) now self.old result self.new) }
        ensures steps { IfOk result (λ turned. steps.new ≡ steps.old + turned.applied) }
        ensures short { IfOk result (λ turned. length turned.reply ≤ longest_result) }
    {
        match self.agent.turn(alloc, refresh, asked, now, steps) {
            Ok(turned) => {
                self.work = turned.applied;
                Ok(turned)
            }
            Err(fault) => Err(fault),
        }
    }

    /// Drops the posts that are acknowledged. It takes no memory.
    pub fn settle(&mut self, acks: &Acks)
        ensures { self.new ≡ record self.old { agent = settled self.old.agent acks.now } }
    {
        self.agent.settle(acks);
    }

    /// What the line `work` shows: how many records its last turn applied. The error is: out of memory.
    pub fn work_text(&self, alloc: Global) -> Result<Vec<u8>, Memory>
        ensures { IfOk result (λ text. (p : Seen) → state_of p ≡ self.now → text.items ≡ codes "work " ++ work_text p) }
    {
        counted_line(alloc, b"work ".as_slice(), self.name.as_slice(), self.work)
    }
}

/// An agent that opens its log at that moment, and is saved in memory. The error is: out of memory.
fn agent_of(alloc: Global, signer: Hss, now: Moment) -> Result<Agent<MemKeeper, Hss>, Memory>
    requires { left_of signer ≢ 0 }
    ensures { IfOk result (λ a. IsOpened signer now a.agent a.keeper) }
{
    match Agent::create(alloc, MemKeeper::new(alloc), signer, now) {
        Ok(agent) => Ok(agent),
        Err((_, MakeFault::Memory)) => Err(Memory),
        // Signatures are left, and no save is planned to fail.
        Err(_) => unreachable!(),
    }
}

/// The record of that number.
fn find_made(made: &[(u32, Key)], number: u64) -> Option<&(u32, Key)>
    ensures { option_map (λ m. m.now) result ≡ find (λ m. m.0 == number) made.now }
{
    made.iter().find(|one| u64::from(one.0) == number)
}
