//! The steps of calls.

ghost use Rattle.std.specs.Prelude.{◌≡◌, ◌≢◌, ◌≤◌, ◌<◌, true, false, None, length, Ok, Err, IfOk, IfErr, OnOk};
ghost use Rattle.ivy_session.specs.States.{asked_at, is_told, is_turning, session_awaited};
ghost use Rattle.ivy_session.specs.Stepping.{IsAgainFor};
ghost use Rattle.session_steps.specs.MetState.{MetState};
ghost use Rattle.script_participants.specs.ParticipantState.{ParticipantState};
ghost use Rattle.session_steps.specs.Representing.{HasConfiguration, ManyStepsFrom, RunsOutFrom, StepsFrom, shown};
ghost use Rattle.session_steps.specs.Within.{CountsAsMade, GivesOf, HasAskedOf, HasHeard, HasNext, HasTurned, IsArm, IsToldOf, Laws, MayAsk, MayTurn, TookTurn, left_to};
ghost use Rattle.nfs_model.specs.Results.{longest_result};

use crate::MetBlocks;
use crate::laws::{
    asked_nodes_are_made, asks_are_steps, configurations_go_on, done_is_over, replies_are_read,
    settlings_are_steps, turns_are_steps, turns_may_be,
};
use crate::open::OpenCall;
use command_messages::parts_of;
use dht_ids::{Answer, Ask, Peer};
use ivy_base::{Memory, Moment, Steps};
use ivy_session::Next;
use log_fetch::{Refresh, TurnFault, Turned};
use log_heads::HssJudge;
use ring_nodes::RingNodes;
use script_participants::Participant;
use std::alloc::Global;
use std::sync::ledger::Ledger;
use world_laws::{headline_holds, publishing_keeps};

impl OpenCall {
    /// One step of the session: an ask of a node, a turn of its agent, or a settling; or it is told to be over, and from then on
    /// stays. Less is left of it with each step until then.
    ///
    /// # Errors
    ///
    /// Running out of memory, which ends all: what the call, the nodes, the participant and the blocks are then isn't told. It
    /// also comes where names clash so that a turn's bytes are no reply of the call's procedure.
    pub fn step<L: Ledger>(
        &mut self,
        alloc: Global,
        nodes: &mut RingNodes,
        who: &mut Participant,
        met: &mut MetBlocks,
        now: Moment,
        steps: &mut Steps<L>,
    ) -> Result<(), Memory>
        requires { HasConfiguration (shown self.old nodes.old who.old met.old now) }
        ensures steps { OnOk result (StepsFrom (shown self.old nodes.old who.old met.old now) (shown self.new nodes.new who.new met.new now)) }
        ensures less { OnOk result (self.old.told ≡ None → left_to self.new < left_to self.old) }
    {
        if self.is_told() {
            return Ok(());
        }
        self.act(alloc, nodes, who, met, now, steps)?;
        self.goes_on()
    }

    /// So many steps. The error is that of [`OpenCall::step`].
    pub fn step_on<L: Ledger>(
        &mut self,
        alloc: Global,
        nodes: &mut RingNodes,
        who: &mut Participant,
        met: &mut MetBlocks,
        now: Moment,
        count: u64,
        steps: &mut Steps<L>,
    ) -> Result<(), Memory>
        requires { HasConfiguration (shown self.old nodes.old who.old met.old now) }
        ensures { OnOk result (ManyStepsFrom count (shown self.old nodes.old who.old met.old now) (shown self.new nodes.new who.new met.new now)) }
    {
        laws();
        'steps: for _ in 0..count {
            self.step(alloc, nodes, who, met, now, steps)?;
        }
        Ok(())
    }

    /// All steps up to its end. The error is that of [`OpenCall::step`].
    pub fn run_out<L: Ledger>(
        &mut self,
        alloc: Global,
        nodes: &mut RingNodes,
        who: &mut Participant,
        met: &mut MetBlocks,
        now: Moment,
        steps: &mut Steps<L>,
    ) -> Result<(), Memory>
        requires { HasConfiguration (shown self.old nodes.old who.old met.old now) }
        ensures { OnOk result (RunsOutFrom (shown self.old nodes.old who.old met.old now) (shown self.new nodes.new who.new met.new now)) }
    {
        laws();
        'steps: while !self.is_told() {
            self.step(alloc, nodes, who, met, now, steps)?;
        }
        Ok(())
    }

    /// A step of a call that isn't told to be over, where memory is left for what is still to be put. The error is that of
    /// [`OpenCall::step`].
    fn act<L: Ledger>(
        &mut self,
        alloc: Global,
        nodes: &mut RingNodes,
        who: &mut Participant,
        met: &mut MetBlocks,
        now: Moment,
        steps: &mut Steps<L>,
    ) -> Result<(), Memory>
        requires configuration { HasConfiguration (shown self.old nodes.old who.old met.old now) }
        requires untold { self.old.told ≡ None }
        ensures { OnOk result (IsArm (shown self.old nodes.old who.old met.old now) (shown self.new nodes.new who.new met.new now)) }
    {
        laws();
        match self.next(who) {
            Next::Ask(node, question) => self.ask(alloc, nodes, who, &node, &question),
            Next::Turn(refresh) => self.turn(alloc, who, met, refresh, now, steps),
            Next::Settle(acks) => {
                who.settle(&acks);
                Ok(())
            }
            Next::Done(told) => {
                self.told = Some(told);
                Ok(())
            }
        }
    }

    /// What the session wants next, with its participant's cache.
    fn next(&mut self, who: &mut Participant) -> Next
        requires turning { is_turning self.old.session.stage ≡ false }
        requires told { is_told self.old.session.stage ≡ false }
        ensures { HasNext self.old self.new who.old who.new result }
    {
        self.session.next(who.cache())
    }

    /// Asks the node, and hears its answer or its silence. The error is that of [`RingNodes::ask`].
    fn ask(
        &mut self,
        alloc: Global,
        nodes: &mut RingNodes,
        who: &mut Participant,
        node: &Peer,
        question: &Ask,
    ) -> Result<(), Memory>
        requires { MayAsk self.old nodes.old node.now question.now }
        ensures { OnOk result (HasAskedOf node.now question.now self.old self.new nodes.old nodes.new who.old who.new) }
    {
        let answer = nodes.ask(alloc, &HssJudge, node, question)?;
        self.hear(who, answer);
        Ok(())
    }

    /// The session hears that answer. A block that came right is kept in its participant's cache.
    fn hear(&mut self, who: &mut Participant, answer: Answer)
        requires { session_awaited self.old.session ≢ None }
        ensures { HasHeard self.old self.new who.old who.new answer }
    {
        self.session.heard(who.cache(), Ok(answer));
    }

    /// The turn of the session's agent, and what the session makes of it. The error is: out of memory, or that what the turn gave
    /// is no reply of the call.
    fn turn<L: Ledger>(
        &mut self,
        alloc: Global,
        who: &mut Participant,
        met: &mut MetBlocks,
        refresh: Refresh,
        now: Moment,
        steps: &mut Steps<L>,
    ) -> Result<(), Memory>
        requires { MayTurn self.old who.old refresh now }
        ensures { OnOk result (HasTurned refresh now self.old self.new who.old who.new met.old met.new) }
    {
        match self.take_turn(alloc, who, refresh, now, steps) {
            Ok(turned) => self.answer(alloc, who, met, turned),
            Err(TurnFault::Memory) => {
                self.lack();
                Ok(())
            }
            Err(fault) => self.refuse(alloc, who, met, fault),
        }
    }

    /// The agent's turn on what the session is asked. A reply has 32,772 bytes at most.
    fn take_turn<L: Ledger>(
        &self,
        alloc: Global,
        who: &mut Participant,
        refresh: Refresh,
        now: Moment,
        steps: &mut Steps<L>,
    ) -> Result<Turned, TurnFault>
        requires { MayTurn self.now who.old refresh now }
        ensures took { TookTurn self.now refresh now result who.old who.new }
        ensures short { IfOk result (λ turned. length turned.reply ≤ longest_result) }
        ensures anew { IfErr result IsAgainFor }
    {
        let Some(asked) = self.session.asked() else {
            unreachable!();
        };
        who.turn(alloc, refresh, asked, now, steps)
    }

    /// The session is told that its turn was answered, by what; and what the agent has to publish then is met. The error is: out
    /// of memory, or that the bytes are no reply of the call.
    fn answer(
        &mut self,
        alloc: Global,
        who: &mut Participant,
        met: &mut MetBlocks,
        turned: Turned,
    ) -> Result<(), Memory>
        requires turning { is_turning self.old.session.stage ≡ true }
        requires short { length turned.reply ≤ longest_result }
        ensures { OnOk result (IsToldOf (Ok turned) self.old self.new who.old who.new met.old met.new) }
    {
        self.read(alloc, &turned)?;
        count_made(alloc, who, met)?;
        self.session.turned(Ok(turned));
        Ok(())
    }

    /// Keeps what the turn's reply gives to later lines. The error is: out of memory, or that the bytes are no reply of the call.
    fn read(&mut self, alloc: Global, turned: &Turned) -> Result<(), Memory>
        requires { is_turning self.old.session.stage ≡ true }
        ensures given { OnOk result (GivesOf self.old turned.now self.new) }
        ensures session { self.new.session ≡ self.old.session }
        ensures told { self.new.told ≡ self.old.told }
    {
        let Some(asked) = self.session.asked() else {
            unreachable!();
        };
        let Some(given) = parts_of(alloc, &asked.args, turned.reply.as_slice())? else {
            return Err(Memory);
        };
        self.given = given;
        Ok(())
    }

    /// The session is told that memory ran out for its turn.
    fn lack(&mut self)
        requires { is_turning self.old.session.stage ≡ true }
        ensures { (who : ParticipantState) (met : MetState) → IsToldOf (Err TurnFault.Memory) self.old self.new who who met met }
    {
        self.session.turned(Err(TurnFault::Memory));
    }

    /// The session is told that its turn was refused, and begins again, or gives up where it did so twice; and what the agent
    /// has to publish then is met. The error is: out of memory.
    fn refuse(
        &mut self,
        alloc: Global,
        who: &mut Participant,
        met: &mut MetBlocks,
        fault: TurnFault,
    ) -> Result<(), Memory>
        requires turning { is_turning self.old.session.stage ≡ true }
        requires anew { IsAgainFor fault }
        requires refused { fault ≢ TurnFault.Memory }
        ensures { OnOk result (IsToldOf (Err fault) self.old self.new who.old who.new met.old met.new) }
    {
        count_made(alloc, who, met)?;
        let may_begin_again = self.session.may_begin_again();
        self.session.turned(Err(fault));
        self.begun_again(may_begin_again)
    }

    /// The error is: no memory to begin again, where the session might.
    fn begun_again(&self, may_begin_again: bool) -> Result<(), Memory>
        ensures { OnOk result (may_begin_again ≡ true → asked_at self.now.session.stage ≢ None) }
    {
        if may_begin_again && self.session.asked().is_none() {
            return Err(Memory);
        }
        Ok(())
    }

    /// The error is: out of memory for what was still to be put.
    fn goes_on(&self) -> Result<(), Memory>
        ensures { OnOk result (self.now.session.is_cut ≡ false) }
    {
        if self.session.is_cut() {
            return Err(Memory);
        }
        Ok(())
    }
}

/// What a participant's agent has to publish is met from now on, and counts as made. The error is: out of memory.
fn count_made(alloc: Global, who: &mut Participant, met: &mut MetBlocks) -> Result<(), Memory>
    ensures { OnOk result (CountsAsMade who.old who.new met.old met.new) }
{
    met.meet_all(alloc, who.pending().as_slice())?;
    who.count_made()
}

/// The laws by which the calls within a step are a step of each configuration that is represented. No code.
fn laws()
    ensures { Laws }
{
    configurations_go_on::<HssJudge>();
    asked_nodes_are_made::<HssJudge>();
    asks_are_steps::<HssJudge>();
    turns_may_be::<HssJudge>();
    turns_are_steps::<HssJudge>();
    replies_are_read::<HssJudge>();
    settlings_are_steps::<HssJudge>();
    done_is_over::<HssJudge>();
    headline_holds();
    publishing_keeps();
}
