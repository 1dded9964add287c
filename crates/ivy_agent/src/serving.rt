//! What is answered on a tree, or is to be written.

ghost use Rattle.std.specs.Prelude.{◌≡◌, ◌≤◌, IfOk, Some, None, if◌then◌else◌};
ghost use Rattle.log_model.specs.Spelling.{most_records};
ghost use Rattle.nfs_model.specs.Changing.{Operations};
ghost use Rattle.nfs_model.specs.declared.replies.NfsStatus.TheVariants.{RoFs, ServerFault};
ghost use Rattle.nfs3_writes.specs.Seen.{seen};
ghost use Rattle.log_fetch.specs.Standings.{asked_of};
ghost use Rattle.ivy_agent.specs.Serving.{is_full, serve_on, serve_plan};
ghost use Rattle.ivy_agent.specs.Given.{inputs_of, served_of};

use fs_tree::Tree;
use ivy_base::{Memory, Moment, Op, PubKey};
use log_fetch::Asked;
use nfs_model::{Args, NfsStatus, Reply};
use nfs3_objects::{bare_tail, is_changing};
use nfs3_reads::answer;
use nfs3_writes::{Ops, Plan, plan};
use std::alloc::Global;
use view_blocks::View;

/// The most records of a log.
const MOST_RECORDS: usize = log_records::MOST_RECORDS as usize;

/// What a call is served on: the tree that stands, and what the turn goes by.
#[derive(Clone, Copy)]
pub struct On<'a> {
    /// The tree of the set that was taken.
    pub tree: &'a Tree,
    /// The view that the agent is in.
    pub view: &'a View,
    /// The agent's public key.
    pub own: &'a PubKey,
    /// How far the own log goes in the set: the number of its newest record, 0 where it has none.
    pub seq: u32,
    /// How many signatures the agent's key has left.
    pub leaves: u64,
    /// Whether a save has failed.
    pub has_failed: bool,
}

/// What comes of a call. Contracts see it as what the definition serves (`specs/Given.antt`).
#[derive(Drop)]
pub enum Served {
    /// This is the reply, and nothing is written.
    Replies(Reply),
    /// These operations are to be written, one record each; the reply is of the trees before and after.
    Writes(Ops),
}

/// Serves a call made at that moment: a reading call is answered on the tree; a changing one is planned on it, for records
/// after the own log's newest, and refused, or without effect, or to be written. A plan of operations is refused with
/// `RoFs` where no signature or too few numbers are left for it, and else with `ServerFault` where a save has failed. The
/// error is: out of memory.
pub fn serve(alloc: Global, on: &On<'_>, asked: &Asked, now: Moment) -> Result<Served, Memory>
    requires { on.now.seq ≤ most_records }
    ensures { IfOk result (λ served. served_of served ≡ serve_on (inputs_of on.now) on.now.tree.now on.now.seq (asked_of asked.now) now) }
{
    if !is_changing(&asked.args) {
        let reply = answer(alloc, on.tree, on.view, &asked.caller, &asked.args)?;
        return Ok(Served::Replies(reply));
    }
    let plan = plan(
        alloc,
        on.tree,
        on.view,
        &asked.caller,
        &asked.args,
        now,
        on.own,
        on.seq + 1,
    )?;
    Ok(by_plan(on, &asked.args, plan))
}

/// What is made of a plan for the call with these arguments.
fn by_plan(on: &On<'_>, args: &Args, plan: Plan) -> Served
    requires { on.now.seq ≤ most_records }
    ensures { served_of result ≡ serve_plan (inputs_of on.now) on.now.seq args.now (seen plan) }
{
    match plan {
        Plan::Refuse(reply) => Served::Replies(reply),
        Plan::Nothing(reply) => Served::Replies(reply),
        Plan::Ops(ops) => by_ops(on, args, ops),
    }
}

/// What is made of planned operations.
fn by_ops(on: &On<'_>, args: &Args, ops: Ops) -> Served
    requires { on.now.seq ≤ most_records }
    ensures { served_of result ≡ serve_plan (inputs_of on.now) on.now.seq args.now (Operations ops) }
{
    match write_fault(on, ops.as_slice()) {
        Some(status) => Served::Replies(Reply::Refused {
            status,
            tail: bare_tail(args),
        }),
        None => Served::Writes(ops),
    }
}

/// Why the operations can't be written, where they can't.
fn write_fault(on: &On<'_>, ops: &[Op]) -> Option<NfsStatus>
    requires { on.now.seq ≤ most_records }
    ensures { result ≡ (if is_full on.now.leaves on.now.seq ops.now then Some RoFs else if on.now.has_failed then Some ServerFault else None) }
{
    if is_full(on.leaves, on.seq, ops) {
        Some(NfsStatus::RoFs)
    } else if on.has_failed {
        Some(NfsStatus::ServerFault)
    } else {
        None
    }
}

/// Whether the key signs nothing more, or no numbers are left for the operations after that one.
fn is_full(leaves: u64, seq: u32, ops: &[Op]) -> bool
    requires { seq ≤ most_records }
    ensures { result ≡ is_full leaves seq ops.now }
{
    leaves == 0 || seq as usize + ops.len() > MOST_RECORDS
}
