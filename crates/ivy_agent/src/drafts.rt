//! What is to be saved once records are written.

ghost use Rattle.std.specs.Prelude.{◌≡◌, ◌≢◌, ◌≤◌, ◌+◌, List, length, map, option_map, IfOk, OnOk, OnErr, IfSome, IsSomeAnd};
ghost use Rattle.ivy_base.specs.Naming.{head_key_of};
ghost use Rattle.log_model.specs.Record.{Record as Seen};
ghost use Rattle.log_model.specs.Spelling.{most_records};
ghost use Rattle.log_model.specs.Vector.{join, seq_of};
ghost use Rattle.log_records.specs.Records.{records_of};
ghost use Rattle.ivy_agent.specs.Newest.{stamp_of, with_newest};
ghost use Rattle.agent_model.specs.Agent.{head_post, own_key, record_post};
ghost use Rattle.agent_model.specs.SavedBytes.{kept_bytes};
ghost use Rattle.ivy_agent.specs.Saves.{HasSaved, IsWholeAfter, saved_of};
ghost use Rattle.ivy_agent.specs.Drafts.{IsDraft, IsSigned, kept_with};

use crate::posting::posts_with;
use crate::saving::{Kept, SaveFault, save};
use crate::written::{Before, front_with, newest_of, write_over};
use dht_ids::{Post, PostKind, Posts};
use hss_keys::Signs;
use ivy_base::{Key, Memory, Moment, Op, PubKey};
use ivy_io::Keeper;
use log_heads::seal;
use log_records::Record;
use std::alloc::Global;
use std::mem::swap;
use version_vectors::Vector;

/// What takes the place of what is kept.
pub struct Next<S> {
    /// The key, which has signed a head over the last record.
    pub signer: S,
    /// The floor, with all that is held then.
    pub floor: Vector,
    /// The blocks that are still to be published.
    pub pending: Posts,
}

/// One function, so that whatever drops it calls this and isn't proved over all of its parts once more.
impl<S: Drop> Drop for Next<S> {
    fn drop(self) {
        let Next {
            signer: _,
            floor: _,
            pending: _,
        } = self;
    }
}

/// Records that are to be written, and what is kept and held with them.
#[derive(Drop)]
pub struct Draft<S> {
    /// The records.
    pub records: Vec<Record>,
    /// What is kept with them.
    pub next: Next<S>,
    /// The front of all that is held with them.
    pub front: Vector,
}

/// The records of the operations over the front, and what is kept and held with them. The error is: out of memory; it also
/// comes where there is no operation, or a block is too long to be counted.
pub fn make_draft<S: Signs + Drop>(
    alloc: Global,
    kept: &Kept<S>,
    front: &Vector,
    now: Moment,
    ops: Vec<Op>,
) -> Result<Draft<S>, Memory>
    requires log { kept.now.log ≡ head_key_of (own_key S.signing kept.now.signer) }
    requires few { seq_of front.now kept.now.log + length ops.items ≤ most_records }
    requires is_left { S.signing.remaining kept.now.signer ≢ 0 }
    ensures { IfOk result (IsDraft S.signing kept.now front.now now ops.items) }
{
    let own = kept.signer.owner();
    let written = write_over(alloc, &own, front, now, ops)?;
    let newest = newest_of(written.records.as_slice(), written.posts.as_slice());
    match follow(alloc, kept, front, &own, newest, written.posts) {
        Ok(next) => Ok(Draft {
            records: written.records,
            next: next.0,
            front: next.1,
        }),
        Err(Memory) => Err(Memory),
    }
}

/// What is kept next, and the front of what is held then, after written records of which that is the newest, and these are
/// the posts. The error is: out of memory; it also comes where there is no newest, or a block is too long to be counted.
fn follow<S: Signs + Drop>(
    alloc: Global,
    kept: &Kept<S>,
    front: &Vector,
    own: &PubKey,
    newest: Option<Before>,
    posts: Vec<Post>,
) -> Result<(Next<S>, Vector), Memory>
    requires log { kept.now.log ≡ head_key_of (own_key S.signing kept.now.signer) }
    requires is_left { S.signing.remaining kept.now.signer ≢ 0 }
    requires some { IfSome newest (λ b. 1 ≤ b.seq) }
    requires few { IfSome newest (λ b. b.seq ≤ most_records) }
    ensures newest { OnOk result (IsSomeAnd newest (λ b. Unit {0})) }
    ensures signed { IfOk result (λ n. IfSome newest (λ b. (written : List Seen) → posts.items ≡ map record_post written → IsSigned S.signing kept.now written (stamp_of b) n.0.signer n.0.pending)) }
    ensures front { IfOk result (λ n. n.1 ≡ with_newest own.now (option_map stamp_of newest) front.now) }
    ensures floor { IfOk result (λ n. n.0.floor ≡ join kept.now.floor n.1) }
{
    let Some(last) = newest else {
        return Err(Memory);
    };
    let (front, floor) = fronts_with(alloc, kept, front, own, newest)?;
    match sign(alloc, kept, posts, last) {
        Ok(signed) => {
            let next = Next {
                signer: signed.0,
                floor,
                pending: signed.1,
            };
            Ok((next, front))
        }
        Err(Memory) => Err(Memory),
    }
}

/// The front with the newest record, and the floor with all that is in that front. The error is: out of memory.
fn fronts_with<S: Signs>(
    alloc: Global,
    kept: &Kept<S>,
    front: &Vector,
    own: &PubKey,
    newest: Option<Before>,
) -> Result<(Vector, Vector), Memory>
    requires { IfSome newest (λ b. 1 ≤ b.seq) }
    ensures front { IfOk result (λ f. f.0 ≡ with_newest own.now (option_map stamp_of newest) front.now) }
    ensures floor { IfOk result (λ f. f.1 ≡ join kept.now.floor f.0) }
{
    let front = front_with(alloc, front, own, newest)?;
    match kept.floor.join(alloc, &front) {
        Ok(floor) => Ok((front, floor)),
        Err(Memory) => Err(Memory),
    }
}

/// The key that has signed a head over the newest record, and what is to be published then: these posts of the written records
/// and the head with what was. The error is: out of memory; it also comes where a block is too long to be counted.
fn sign<S: Signs + Drop>(
    alloc: Global,
    kept: &Kept<S>,
    posts: Vec<Post>,
    newest: Before,
) -> Result<(S, Posts), Memory>
    requires log { kept.now.log ≡ head_key_of (own_key S.signing kept.now.signer) }
    requires is_left { S.signing.remaining kept.now.signer ≢ 0 }
    requires some { 1 ≤ newest.seq }
    requires few { newest.seq ≤ most_records }
    ensures { IfOk result (λ signed. (written : List Seen) → posts.items ≡ map record_post written → IsSigned S.signing kept.now written (stamp_of newest) signed.0 signed.1) }
{
    let mut signer = kept.signer.copy(alloc)?;
    let head = head_over(alloc, &mut signer, kept.log, newest)?;
    let pending = posts_with(alloc, &kept.pending, posts, head)?;
    Ok((signer, pending))
}

/// The post of the head of that log over its newest record, which the key signs. The error is: out of memory.
fn head_over<S: Signs>(
    alloc: Global,
    signer: &mut S,
    log: Key,
    newest: Before,
) -> Result<Post, Memory>
    requires log { log ≡ head_key_of (own_key S.signing signer.old) }
    requires is_left { S.signing.remaining signer.old ≢ 0 }
    requires some { 1 ≤ newest.seq }
    requires few { newest.seq ≤ most_records }
    ensures post { IfOk result (λ post. post ≡ head_post S.signing signer.old (stamp_of newest)) }
    ensures next { OnOk result (signer.new ≡ S.signing.next signer.old) }
    ensures key { S.signing.key signer.new ≡ S.signing.key signer.old }
{
    match seal(alloc, signer, newest.seq, newest.name) {
        Ok(head) => Ok(Post {
            key: log,
            bytes: head.write(alloc)?,
            kind: PostKind::Head,
        }),
        Err(_) => Err(Memory),
    }
}

/// Has the keeper save what is kept with what is next. After an error what is kept is what it was.
pub fn save_next<K: Keeper, S: Signs + Drop>(
    alloc: Global,
    keeper: &mut K,
    kept: &mut Kept<S>,
    mut next: Next<S>,
) -> Result<(), SaveFault>
    requires log { kept.old.log ≡ head_key_of (own_key S.signing kept.old.signer) }
    requires key { S.signing.key next.signer ≡ S.signing.key kept.old.signer }
    ensures saved { HasSaved K.saves keeper.old (kept_bytes S.signing (saved_of (kept_with kept.old next))) result keeper.new }
    ensures whole { IsWholeAfter (S.is_whole next.signer) result }
    ensures ok { OnOk result (kept.new ≡ kept_with kept.old next) }
    ensures err { OnErr result (kept.new ≡ kept.old) }
{
    put(kept, &mut next);
    let saved = save(alloc, keeper, kept);
    if saved.is_err() {
        put(kept, &mut next);
    }
    saved
}

/// Puts what is next in place of what was, and that in its place.
fn put<S>(kept: &mut Kept<S>, next: &mut Next<S>)
    ensures kept { kept.new ≡ kept_with kept.old next.old }
    ensures next { next.new ≡ record { signer = kept.old.signer; floor = kept.old.floor; pending = kept.old.pending } }
{
    swap(&mut kept.signer, &mut next.signer);
    swap(&mut kept.floor, &mut next.floor);
    swap(&mut kept.pending, &mut next.pending);
}
