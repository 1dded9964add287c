//! The refresh of a session: how it begins, what it wants, and what it hears.

ghost use Rattle.std.specs.Prelude.{◌≡◌, ◌≢◌, ◌<◌, ◌≤◌, false, List, [], None, IfOk, IfSome, OnOk, OnErr};
ghost use Rattle.std.specs.List.{AllByRecursion};
ghost use Rattle.agent_model.specs.SavedBytes.{HasItsName};
ghost use Rattle.view_refresh.specs.States.{has_failed, most_refresh, refresh_awaited, refresh_left};
ghost use Rattle.view_refresh.specs.Behind.{RefreshIsAfter};
ghost use Rattle.log_fetch.specs.Standings.{standing_of};
ghost use Rattle.ivy_session.specs.States.{BeginsAs, awaited_at, begun, is_turning, reply_or_none};
ghost use Rattle.ivy_session.specs.Taking.{Advances, IsFailure, RefreshHears, kept_back};

use crate::hand::take_all;
use crate::reading::{Reading, read_message};
use crate::room::ReplyRoom;
use crate::served::{Call, Served};
use crate::session::Stage;
use block_cache::BlockCache;
use dhash_client::Miss;
use dht_ids::{Answer, Judge, Peers, Want};
use ivy_base::{Bytes, Key, Memory, name_of};
use log_fetch::{Asked, Notes, Standing};
use std::alloc::Global;
use view_refresh::{Refreshed, ViewRefresh};

/// How far a session is that begins with that message: its refresh begins, or the message reaches no turn, and what is said
/// of it is to be told. The error is: out of memory.
pub(crate) fn first_stage<J: Judge>(
    alloc: Global,
    judge: J,
    replicas: u32,
    entries: &Peers,
    standing: Standing,
    message: &[u8],
) -> Result<Stage<J>, Memory>
    requires { standing.basis ≢ None → AllByRecursion HasItsName standing.pending }
    ensures begun { IfOk result (λ stage. BeginsAs J.judges message.now (standing_of standing) (begun judge replicas entries.now stage)) }
    ensures free { IfOk result (λ stage. awaited_at stage ≡ None) }
    ensures turning { IfOk result (λ stage. is_turning stage ≡ false) }
{
    match read_message(alloc, &standing.view, message) {
        Ok(Reading::Alone(reply)) => {
            drop(standing);
            Ok(Stage::Over(told(reply)))
        }
        Ok(Reading::Asks { xid, asked }) => {
            let refresh = refresh_for(alloc, judge, replicas, entries, standing);
            let call = call_of(alloc, xid, asked)?;
            Ok(Stage::Refreshing(call, refresh?))
        }
        Err(Memory) => {
            drop(standing);
            Err(Memory)
        }
    }
}

/// How it is told what is said of a message: its reply, or that it has none.
fn told(reply: Option<Bytes>) -> Served
    ensures { result ≡ reply_or_none reply }
{
    match reply {
        Some(reply) => Served::Reply(reply),
        None => Served::NotACall,
    }
}

/// The call, with room for its reply. The error is: out of memory.
fn call_of(alloc: Global, xid: u32, asked: Asked) -> Result<Call, Memory>
    ensures xid { IfOk result (λ call. call.xid ≡ xid) }
    ensures asked { IfOk result (λ call. call.asked ≡ asked) }
{
    match ReplyRoom::take(alloc) {
        Ok(room) => Ok(Call { xid, asked, room }),
        Err(Memory) => {
            drop(asked);
            Err(Memory)
        }
    }
}

/// The refresh for that standing. The error is: out of memory.
pub(crate) fn refresh_for<J: Judge>(
    alloc: Global,
    judge: J,
    replicas: u32,
    entries: &Peers,
    standing: Standing,
) -> Result<ViewRefresh<J>, Memory>
    requires { standing.basis ≢ None → AllByRecursion HasItsName standing.pending }
    ensures by { IfOk result (λ refresh. (refresh.judge ≡ judge) × (refresh.replicas ≡ replicas) × (refresh.entries ≡ entries.now)) }
    ensures started { IfOk result (RefreshIsAfter J.judges (standing_of standing) [] []) }
    ensures free { IfOk result (λ refresh. refresh_awaited refresh ≡ None) }
    ensures unfailed { IfOk result (λ refresh. has_failed refresh ≡ false) }
    ensures left { IfOk result (λ refresh. refresh_left refresh < most_refresh) }
{
    match entries.copy(alloc) {
        Ok(entries) => ViewRefresh::start(alloc, judge, replicas, entries, standing),
        Err(Memory) => {
            drop(standing);
            Err(Memory)
        }
    }
}

/// What the refresh wants once it took what is available. The error is: out of memory; the refresh isn't used after
/// it.
pub(crate) fn advance<J: Judge>(
    refresh: &mut ViewRefresh<J>,
    cache: &mut BlockCache,
) -> Result<Want<Refreshed>, Memory>
    ensures wanted { Advances J.judges refresh.old refresh.new cache.old cache.new result }
    ensures left { IfOk result (λ _. refresh_left refresh.new ≤ refresh_left refresh.old) }
{
    take_all(refresh, cache)?;
    refresh.next()
}

/// The refresh hears the answer, and a block that it brought is kept; says whether the refresh has failed. The error is: out
/// of memory; the refresh isn't used after it.
pub(crate) fn hear<J: Judge>(
    refresh: &mut ViewRefresh<J>,
    cache: &mut BlockCache,
    answer: Result<Answer, Memory>,
) -> Result<bool, Memory>
    requires { refresh_awaited refresh.old ≢ None }
    ensures heard { RefreshHears J.judges refresh.old refresh.new cache.old cache.new answer result }
    ensures left { IfOk result (λ _. refresh_left refresh.new < refresh_left refresh.old) }
{
    let block = refresh.heard(answer?)?;
    keep_back(cache, block)?;
    Ok(refresh.failed())
}

/// Keeps the block that was given back, where one was, under its name. The error is: out of memory.
fn keep_back(cache: &mut BlockCache, block: Option<(Key, Bytes)>) -> Result<(), Memory>
    ensures kept { OnOk result (cache.new ≡ kept_back block cache.old) }
    ensures same { OnErr result (cache.new ≡ cache.old) }
{
    let Some((_, bytes)) = block else {
        return Ok(());
    };
    let key = name_of(bytes.as_slice());
    if cache.keep(key, bytes) {
        Ok(())
    } else {
        Err(Memory)
    }
}

/// Why the refresh failed, which did, and what is noted then. None means out of memory.
pub(crate) fn failure<J: Judge>(refresh: &mut ViewRefresh<J>) -> Option<(Miss, Notes)>
    ensures { IfSome result (IsFailure J.judges refresh.old) }
{
    match refresh.next() {
        Ok(Want::Done(refreshed)) => miss_in(refreshed),
        _ => None,
    }
}

/// The miss and the notes, where something was missed.
fn miss_in(refreshed: Refreshed) -> Option<(Miss, Notes)>
    ensures { IfSome result (λ why. (refreshed.result ≡ Err why.0) × (refreshed.notes ≡ why.1)) }
{
    let Refreshed { result, notes } = refreshed;
    match result {
        Ok(_) => None,
        Err(miss) => Some((miss, notes)),
    }
}
