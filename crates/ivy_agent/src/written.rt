//! The records of planned operations, and what is to be published for them.

ghost use Rattle.std.specs.Prelude.{◌≡◌, ◌+◌, ◌<◌, ◌≤◌, ◌^◌, length, map, option_map, IfOk, IfSome};
ghost use Rattle.std.specs.Option.{option_map_or};
ghost use Rattle.agent_model.specs.Agent.{record_post};
ghost use Rattle.ivy_base.specs.Naming.{head_key_of};
ghost use Rattle.log_model.specs.Spelling.{new_record, no_name};
ghost use Rattle.log_model.specs.Vector.{seq_of, stamp_at};
ghost use Rattle.log_records.specs.Records.{record_of, records_of};
ghost use Rattle.turn_model.specs.Turn.{linked};
ghost use Rattle.ivy_agent.specs.Appended.{heading, written_over};
ghost use Rattle.ivy_agent.specs.Newest.{newest_stamp, stamp_of, with_newest};

use dht_ids::{Post, PostKind};
use ivy_base::{Format, Key, Memory, Moment, Op, PubKey, head_key, name_of};
use log_records::Record;
use std::alloc::Global;
use version_vectors::{Entry, Vector};

/// In place of a name, where there is none.
const NO_NAME: Key = Key([0; 20]);

/// A record by which others stand: the newest one of a log.
#[derive(Clone, Copy)]
pub struct Before {
    /// Its number.
    pub seq: u32,
    /// Its name.
    pub name: Key,
}

/// Records that were made, and the post of each.
#[derive(Drop)]
pub struct Written {
    /// The records, each after the one before it.
    pub records: Vec<Record>,
    /// Their blocks, under their names.
    pub posts: Vec<Post>,
}

/// One record for each operation, made at that moment and citing these records of other logs, the first after `before` and
/// each after the one before it; and their posts. The error is: out of memory; it also comes where a record has no block,
/// as its texts are too long to be counted.
pub fn write_records(
    alloc: Global,
    own: &PubKey,
    cited: &Vector,
    now: Moment,
    before: Before,
    ops: Vec<Op>,
) -> Result<Written, Memory>
    requires { before.seq + length ops.items < 2 ^ 32 }
    ensures records { IfOk result (λ w. records_of w.records.items ≡ linked (heading own.now cited.now now) (before.seq + 1) before.name ops.items) }
    ensures posts { IfOk result (λ w. w.posts.items ≡ map record_post (records_of w.records.items)) }
{
    let mut records = Vec::with_capacity(alloc, ops.len())?;
    let mut posts = Vec::with_capacity(alloc, ops.len())?;
    let mut last = before;
    'ops: for op in ops {
        let (record, post) = write_one(alloc, own, cited, now, last, op)?;
        last = Before {
            seq: record.seq,
            name: post.key,
        };
        records.push(record)?;
        posts.push(post)?;
    }
    Ok(Written { records, posts })
}

/// The records of the operations over a front, and their posts: the first one after the front's record of the own log, and
/// each citing all else of the front. The error is that of [`write_records`].
pub fn write_over(
    alloc: Global,
    own: &PubKey,
    front: &Vector,
    now: Moment,
    ops: Vec<Op>,
) -> Result<Written, Memory>
    requires { seq_of front.now (head_key_of own.now) + length ops.items < 2 ^ 32 }
    ensures records { IfOk result (λ w. records_of w.records.items ≡ written_over own.now now front.now ops.items) }
    ensures posts { IfOk result (λ w. w.posts.items ≡ map record_post (records_of w.records.items)) }
{
    let log = head_key(own);
    let cited = front.without(alloc, &log)?;
    write_records(alloc, own, &cited, now, newest_of_log(front, &log), ops)
}

/// The front's record of that log; number 0 and no name where it has none.
fn newest_of_log(front: &Vector, log: &Key) -> Before
    ensures seq { result.seq ≡ seq_of front.now log.now }
    ensures name { result.name ≡ option_map_or (λ t. t.name) (stamp_at front.now log.now) no_name }
{
    match front.get(log) {
        Some(entry) => Before {
            seq: entry.seq,
            name: entry.name,
        },
        None => Before {
            seq: 0,
            name: NO_NAME,
        },
    }
}

/// The operation's record, after `before`, and its post.
fn write_one(
    alloc: Global,
    own: &PubKey,
    cited: &Vector,
    now: Moment,
    before: Before,
    op: Op,
) -> Result<(Record, Post), Memory>
    requires { before.seq + 1 < 2 ^ 32 }
    ensures record { IfOk result (λ w. record_of w.0 ≡ new_record (heading own.now cited.now now) (before.seq + 1) before.name op) }
    ensures post { IfOk result (λ w. w.1 ≡ record_post (record_of w.0)) }
{
    let record = Record {
        owner: *own,
        seq: before.seq + 1,
        prev: before.name,
        vector: cited.copy(alloc)?,
        moment: now,
        op,
        format: Format::One,
    };
    let bytes = record.write(alloc)?;
    let post = Post {
        key: name_of(bytes.as_slice()),
        bytes,
        kind: PostKind::Log,
    };
    Ok((record, post))
}

/// The last of the records, whose posts these are, by its number and its name.
pub fn newest_of(records: &[Record], posts: &[Post]) -> Option<Before>
    requires { posts.now ≡ map record_post (records_of records.now) }
    ensures { option_map stamp_of result ≡ newest_stamp (records_of records.now) }
{
    let record = records.last()?;
    let post = posts.last()?;
    Some(Before {
        seq: record.seq,
        name: post.key,
    })
}

/// The front with the newest record that was written in the own log, where there is one: what was written cites nothing
/// else that the front doesn't have. The error is: out of memory.
pub fn front_with(
    alloc: Global,
    front: &Vector,
    own: &PubKey,
    newest: Option<Before>,
) -> Result<Vector, Memory>
    requires { IfSome newest (λ before. 1 ≤ before.seq) }
    ensures { IfOk result (λ with. with ≡ with_newest own.now (option_map stamp_of newest) front.now) }
{
    match newest {
        Some(before) => front.with(
            alloc,
            Entry {
                log: head_key(own),
                seq: before.seq,
                name: before.name,
            },
        ),
        None => front.copy(alloc),
    }
}
