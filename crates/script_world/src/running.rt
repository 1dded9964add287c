//! Sessions of participants: how they begin, go on and end.

ghost use Rattle.std.specs.Prelude.{◌≡◌, ◌<◌, [], IfOk, OnErr, OnOk};
ghost use Rattle.world_model.specs.Calls.{sending_of};
ghost use Rattle.world_model.specs.Logs.{Played, to_publish};
ghost use Rattle.world_model.specs.World.{Participant as Seen, World};

use crate::parts::Parts;
use command_messages::{ReplyParts, message};
use ivy_base::{Memory, Steps};
use script_model::Piece;
use script_participants::Participants;
use session_steps::OpenCall;
use std::alloc::Global;
use std::marker::Brand;
use std::sync::ledger::{Blank, Ledger};

impl Parts {
    ghost use Rattle.script_world.specs.PartsState.{HasParts};
    ghost use Rattle.script_world.specs.Running.{BeginsOf, CanPublish, HasPublisher, HasConfigurationIn, IsRepresentedIn, MayCall, PublishesIn, RepliesIn, RunsOutIn, StepsOnIn};

    /// The session that begins with what a line of a call sends; None where the line sends nothing: its participant isn't there
    /// or in no view, or its pieces are no message. The error is: out of memory.
    pub fn begin_call(
        &self,
        alloc: Global,
        log: &[u8],
        pieces: &[Piece],
    ) -> Result<Option<OpenCall>, Memory>
        requires { MayCall self.now }
        ensures { IfOk result (λ call. (w : World) → HasParts w self.now → BeginsOf self.now call w (sending_of w log.now pieces.now)) }
    {
        // Before the ring there is nobody.
        let Some(replicas) = self.replicas else {
            return Ok(None);
        };
        let Some(one) = self.participants.named(log) else {
            return Ok(None);
        };
        let Some(view) = one.view() else {
            return Ok(None);
        };
        let Some(message) = message(alloc, self.replies.as_slice(), view, pieces)? else {
            return Ok(None);
        };
        let call = OpenCall::begin(alloc, &self.nodes, replicas, one, message.as_slice())?;
        Ok(Some(call))
    }

    /// A participant's session goes so many steps. The error is: out of memory.
    pub fn step_on(
        &mut self,
        alloc: Global,
        name: &[u8],
        call: &mut OpenCall,
        count: u64,
    ) -> Result<(), Memory>
        requires { HasConfigurationIn self.old name.now call.old }
        ensures { OnOk result (StepsOnIn name.now self.old call.old self.new call.new count) }
    {
        self.count_steps::<Brand>(alloc, name, call, count, Blank::new(1))
    }

    /// A participant's session goes to its end, which it tells. The error is: out of memory.
    pub fn run_out(&mut self, alloc: Global, name: &[u8], call: &mut OpenCall) -> Result<(), Memory>
        requires { HasConfigurationIn self.old name.now call.old }
        ensures { OnOk result (RunsOutIn name.now self.old call.old self.new call.new) }
    {
        self.count_all_steps::<Brand>(alloc, name, call, Blank::new(1))
    }

    /// [`Parts::step_on`], with the steps of turns counted in the ledger of the blank.
    fn count_steps<L: Ledger>(
        &mut self,
        alloc: Global,
        name: &[u8],
        call: &mut OpenCall,
        count: u64,
        blank: Blank,
    ) -> Result<(), Memory>
        requires name { L.name ≡ blank.name }
        requires parts { (L.parts ≡ blank.parts) × (0 < L.parts) }
        requires configuration { HasConfigurationIn self.old name.now call.old }
        ensures { OnOk result (StepsOnIn name.now self.old call.old self.new call.new count) }
    {
        let Some(place) = self.participants.place_of(name) else {
            unreachable!();
        };
        let mut steps = Steps::<L>::new(blank);
        let who = self.participants.at(place);
        let went = call.step_on(
            alloc,
            &mut self.nodes,
            who,
            &mut self.met,
            self.moment,
            count,
            &mut steps,
        );
        end_steps(alloc, &mut self.participants, went)
    }

    /// [`Parts::run_out`], with the steps of turns counted in the ledger of the blank.
    fn count_all_steps<L: Ledger>(
        &mut self,
        alloc: Global,
        name: &[u8],
        call: &mut OpenCall,
        blank: Blank,
    ) -> Result<(), Memory>
        requires name { L.name ≡ blank.name }
        requires parts { (L.parts ≡ blank.parts) × (0 < L.parts) }
        requires configuration { HasConfigurationIn self.old name.now call.old }
        ensures { OnOk result (RunsOutIn name.now self.old call.old self.new call.new) }
    {
        let Some(place) = self.participants.place_of(name) else {
            unreachable!();
        };
        let mut steps = Steps::<L>::new(blank);
        let who = self.participants.at(place);
        let went = call.run_out(
            alloc,
            &mut self.nodes,
            who,
            &mut self.met,
            self.moment,
            &mut steps,
        );
        end_steps(alloc, &mut self.participants, went)
    }

    /// A participant publishes all that its agent has pending. The error is: out of memory.
    pub fn publish(&mut self, alloc: Global, name: &[u8]) -> Result<(), Memory>
        requires { HasPublisher self.old name.now }
        ensures { OnOk result (PublishesIn name.now self.old self.new) }
    {
        let mut call = self.publishing_of(alloc, name)?;
        self.run_out(alloc, name, &mut call)
    }

    /// The session by which a participant publishes all that its agent has pending. The error is: out of memory.
    fn publishing_of(&self, alloc: Global, name: &[u8]) -> Result<OpenCall, Memory>
        requires { HasPublisher self.now name.now }
        ensures { IfOk result (λ call. (w : Played) (p : Seen) → CanPublish self.now name.now w p → IsRepresentedIn self.now (to_publish w.0 p) call) }
    {
        let Some(replicas) = self.replicas else {
            unreachable!();
        };
        let Some(one) = self.participants.named(name) else {
            unreachable!();
        };
        OpenCall::publish(alloc, &self.nodes, replicas, one)
    }

    /// What a session that is over leaves to later lines. The error is: out of memory.
    pub fn take_reply(&mut self, given: Option<ReplyParts>) -> Result<(), Memory>
        ensures { OnOk result (RepliesIn given self.old self.new) }
    {
        if let Some(given) = given {
            self.replies.push(given)?;
        }
        Ok(())
    }
}

/// What the steps of a session came to. Where memory ran out a call tells no longer who its participant is: nobody is left then.
fn end_steps(
    alloc: Global,
    participants: &mut Participants,
    went: Result<(), Memory>,
) -> Result<(), Memory>
    ensures same { result ≡ went }
    ensures kept { OnOk result (participants.new ≡ participants.old) }
    ensures nobody { OnErr result (participants.new ≡ []) }
{
    match went {
        Ok(()) => Ok(()),
        Err(memory) => {
            *participants = Participants::new(alloc);
            Err(memory)
        }
    }
}
