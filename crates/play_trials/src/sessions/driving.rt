//! Sessions over the table, up to their ends, for whoever takes turns.

ghost use Rattle.std.specs.Prelude.{◌≡◌, ◌≢◌, false, Option, Some, None, IfSome, IsSomeAnd};
ghost use Rattle.std.specs.List.{AllByRecursion};
ghost use Rattle.agent_model.specs.SavedBytes.{HasItsName};
ghost use Rattle.log_model.specs.Spelling.{IsMoment};
ghost use Rattle.log_model.specs.View.{View};
ghost use Rattle.ivy_session.specs.States.{session_awaited};
ghost use Rattle.play_trials.specs.InProgress.{GoesOn, MayHear, MayTurn, MayWant, judges};

use crate::sessions::showing::{show_answer, show_end, show_question, show_settled};
use crate::sessions::table::Table;
use crate::text::Text;
use block_cache::BlockCache;
use dht_ids::{Ask, Peer, Posts};
use hss_keys::Hss;
use ivy_agent::Turns;
use ivy_base::Moment;
use ivy_io::MemKeeper;
use ivy_session::{Next, Session};
use log_fetch::{Refresh, Standing};
use log_heads::HssJudge;
use std::alloc::Global;
use std::sync::Wait;

/// How often a session is told to go on.
const MOST_STEPS: u32 = 100_000;

/// A session with that message. None means out of memory.
pub fn begin<R: Wait, T: Turns<MemKeeper, Hss>>(
    rt: &R,
    alloc: Global,
    turns: &T,
    table: &Table,
    pass: &mut T::Pass,
    message: &[u8],
) -> Option<Session<HssJudge>>
    requires fits { T.fits turns.now pass.old }
    requires entered { IsSomeAnd (T.view turns.now pass.old) (λ view. Unit {0}) }
    ensures goes_on { IfSome result (GoesOn judges (T.view turns.now pass.new)) }
    ensures fits { T.fits turns.now pass.new }
{
    let entries = table.entries.copy(alloc).ok()?;
    let standing = standing(rt, alloc, turns, pass)?;
    let Ok(session) = Session::begin(alloc, HssJudge, table.replicas, entries, standing, message)
    else {
        return None;
    };
    Some(session)
}

/// A session that only publishes these posts, for an agent in whichever view. None means out of memory.
pub fn publishing(alloc: Global, table: &Table, pending: &Posts) -> Option<Session<HssJudge>>
    ensures { (view : Option View) → IsSomeAnd view (λ v. Unit {0}) → IfSome result (GoesOn judges view) }
{
    let entries = table.entries.copy(alloc).ok()?;
    let Ok(session) = Session::publish(alloc, HssJudge, table.replicas, entries, pending) else {
        return None;
    };
    Some(session)
}

/// What a session is given. None means out of memory.
fn standing<R: Wait, T: Turns<MemKeeper, Hss>>(
    rt: &R,
    alloc: Global,
    turns: &T,
    pass: &mut T::Pass,
) -> Option<Standing>
    requires fits { T.fits turns.now pass.old }
    requires entered { IsSomeAnd (T.view turns.now pass.old) (λ view. Unit {0}) }
    ensures named { IfSome result (λ s. AllByRecursion HasItsName s.pending) }
    ensures view { IfSome result (λ s. T.view turns.now pass.new ≡ Some s.view) }
    ensures fits { T.fits turns.now pass.new }
{
    let Ok(standing) = turns.standing(rt, alloc, pass) else {
        return None;
    };
    Some(standing)
}

/// Goes on with a session to its end, and adds its execution to the text.
pub fn drive<R: Wait, T: Turns<MemKeeper, Hss>>(
    rt: &R,
    text: &mut Text,
    turns: &T,
    table: &mut Table,
    pass: &mut T::Pass,
    cache: &mut BlockCache,
    session: &mut Session<HssJudge>,
    now: Moment,
)
    requires moment { IsMoment now }
    requires fits { T.fits turns.now pass.old }
    requires goes_on { GoesOn judges (T.view turns.now pass.old) session.old }
{
    'steps: for _ in 0..MOST_STEPS {
        if step(rt, text, turns, table, pass, cache, session, now) {
            return;
        }
    }
    text.lack();
}

/// A step of the session; says whether it has ended.
fn step<R: Wait, T: Turns<MemKeeper, Hss>>(
    rt: &R,
    text: &mut Text,
    turns: &T,
    table: &mut Table,
    pass: &mut T::Pass,
    cache: &mut BlockCache,
    session: &mut Session<HssJudge>,
    now: Moment,
) -> bool
    requires moment { IsMoment now }
    requires fits { T.fits turns.now pass.old }
    requires goes_on { GoesOn judges (T.view turns.now pass.old) session.old }
    ensures goes_on { result ≡ false → GoesOn judges (T.view turns.now pass.new) session.new }
    ensures fits { T.fits turns.now pass.new }
{
    match next(cache, session) {
        Next::Ask(node, question) => {
            ask(text, table, cache, session, &node, &question);
            return false;
        }
        Next::Turn(refresh) => {
            turn(rt, text.alloc, turns, pass, session, refresh, now);
            text.add("turn\n");
            return false;
        }
        Next::Settle(acks) => {
            turns.settle(rt, pass, &acks);
            show_settled(text, &acks);
            return false;
        }
        Next::Done(served) => {
            show_end(text, session, &served);
            return true;
        }
    }
}

/// What the session wants next.
fn next(cache: &mut BlockCache, session: &mut Session<HssJudge>) -> Next
    requires { (view : Option View) × GoesOn judges view session.old }
    ensures { (view : Option View) → GoesOn judges view session.old → MayWant judges view session.new result }
{
    session.next(cache)
}

/// The node is asked, and the session hears what it answers.
fn ask(
    text: &mut Text,
    table: &mut Table,
    cache: &mut BlockCache,
    session: &mut Session<HssJudge>,
    node: &Peer,
    question: &Ask,
)
    requires { session_awaited session.old ≢ None }
    ensures { (view : Option View) → MayHear judges view session.old → GoesOn judges view session.new }
{
    let answer = table.answer(text.alloc, node, question);
    show_question(text, node.number, question);
    show_answer(text, &answer);
    session.heard(cache, answer);
}

/// A turn on what the session is asked, of which it is told what came of it.
fn turn<R: Wait, T: Turns<MemKeeper, Hss>>(
    rt: &R,
    alloc: Global,
    turns: &T,
    pass: &mut T::Pass,
    session: &mut Session<HssJudge>,
    refresh: Refresh,
    now: Moment,
)
    requires moment { IsMoment now }
    requires fits { T.fits turns.now pass.old }
    requires may { MayTurn judges (T.view turns.now pass.old) session.old refresh }
    ensures goes_on { GoesOn judges (T.view turns.now pass.new) session.new }
    ensures fits { T.fits turns.now pass.new }
{
    let Some(asked) = session.asked() else {
        unreachable!();
    };
    let turned = turns.turn(rt, alloc, pass, refresh, asked, now);
    session.turned(turned);
}
