//! Opening a log.

ghost use Rattle.std.specs.Prelude.{◌≡◌, ◌≢◌, [], ◌∷◌, None, IfOk, OnOk};
ghost use Rattle.ivy_base.specs.Naming.{name};
ghost use Rattle.dht_ids.specs.declared.post.PostKind.TheVariants.{Log, Head};
ghost use Rattle.log_model.specs.Chain.{opening};
ghost use Rattle.log_model.specs.Spelling.{record_block};
ghost use Rattle.log_records.specs.Records.{record_of};
ghost use Rattle.turn_model.specs.Basis.{nothing_held};
ghost use Rattle.replay_engine.specs.Engines.{holding};
ghost use Rattle.agent_model.specs.Agent.{sealed};
ghost use Rattle.agent_model.specs.SavedBytes.{AreOpaque};
ghost use Rattle.ivy_agent.specs.Making.{IsOpening};

use crate::posting::are_counted;
use crate::saving::Kept;
use dht_ids::{Post, PostKind, Posts};
use fs_tree::{Basis, Tree};
use hss_keys::Signs;
use ivy_base::{Bytes, Format, Key, Memory, Moment, Op, PubKey, head_key, name_of};
use log_heads::seal;
use log_records::Record;
use replay_engine::Engine;
use std::alloc::Global;
use version_vectors::{Entry, Vector};

/// In place of a name, where there is none.
const NO_NAME: Key = Key([0; 20]);

/// An agent's parts after the opening of its log.
#[derive(Drop)]
pub struct Opened<S> {
    /// What is saved: the opening record and the head over it are to be published.
    pub kept: Kept<S>,
    /// What is held: nothing.
    pub engine: Engine,
    /// The front of what is held.
    pub front: Vector,
}

/// Opens the signer's log at that moment: its opening record is made, and a head is signed over it. The error is: out of
/// memory, and then the signer is dropped.
pub fn open<S: Signs + Drop>(alloc: Global, mut signer: S, now: Moment) -> Result<Opened<S>, Memory>
    requires { S.signing.remaining signer ≢ 0 }
    ensures { IfOk result (IsOpening S.signing signer now) }
{
    match begin(alloc, &mut signer, now) {
        Ok(
            Begun {
                log,
                floor,
                pending,
                engine,
                front,
            },
        ) => Ok(Opened {
            kept: Kept {
                signer,
                log,
                view: None,
                floor,
                pending,
                snapshot: None,
            },
            engine,
            front,
        }),
        Err(Memory) => Err(Memory),
    }
}

/// What an agent keeps and holds beside its key once its log is opened.
pub struct Begun {
    /// The log's head key.
    pub log: Key,
    /// The floor: the log's first record.
    pub floor: Vector,
    /// That record's block and the head over it.
    pub pending: Posts,
    /// What is held: nothing.
    pub engine: Engine,
    /// The front of what is held.
    pub front: Vector,
}

/// Makes the opening record of the signer's log, and signs a head over it. The error is: out of memory.
fn begin<S: Signs>(alloc: Global, signer: &mut S, now: Moment) -> Result<Begun, Memory>
    requires { S.signing.remaining signer.old ≢ 0 }
    ensures { IfOk result (λ b. IsOpening S.signing signer.old now (record { kept = record { signer = signer.new; log = b.log; view = None; floor = b.floor; pending = b.pending; snapshot = None }; engine = b.engine; front = b.front })) }
{
    let own = signer.owner();
    let log = head_key(&own);
    let (name, pending) = first_posts(alloc, signer, own, log, now)?;
    let floor = floor_of(alloc, log, name)?;
    let engine = hold_nothing(alloc)?;
    Ok(Begun {
        log,
        floor,
        pending,
        engine,
        front: Vector::empty(alloc),
    })
}

/// The name of the first record of the owner's log, and what is to be published: its block and the head over it, which is signed.
/// The error is: out of memory.
fn first_posts<S: Signs>(
    alloc: Global,
    signer: &mut S,
    own: PubKey,
    log: Key,
    now: Moment,
) -> Result<(Key, Posts), Memory>
    requires { S.signing.remaining signer.old ≢ 0 }
    ensures name { IfOk result (λ p. p.0 ≡ name (record_block (opening own now))) }
    ensures posts { IfOk result (λ p. p.1 ≡ record { key = p.0; bytes = record_block (opening own now); kind = Log } ∷ record { key = log; bytes = sealed S.signing signer.old (record { seq = 1; name = p.0 }); kind = Head } ∷ []) }
    ensures block { OnOk result (AreOpaque (record_block (opening own now))) }
    ensures head { IfOk result (λ p. AreOpaque (sealed S.signing signer.old (record { seq = 1; name = p.0 }))) }
    ensures next { OnOk result (signer.new ≡ S.signing.next signer.old) }
    ensures key { S.signing.key signer.new ≡ S.signing.key signer.old }
{
    let block = first_block(alloc, own, now)?;
    let name = name_of(block.as_slice());
    let head = seal_first(alloc, signer, name)?;
    match posts_of(alloc, log, name, block, head) {
        Ok(posts) => Ok((name, posts)),
        Err(Memory) => Err(Memory),
    }
}

/// The block of the first record of the owner's log. The error is: out of memory.
fn first_block(alloc: Global, own: PubKey, now: Moment) -> Result<Bytes, Memory>
    ensures { IfOk result (λ block. block ≡ record_block (opening own now)) }
{
    opening(alloc, own, now).write(alloc)
}

/// The opening record's block of that name, and the head over it. The error is: out of memory; it also comes where no word counts
/// the bytes of one.
fn posts_of(alloc: Global, log: Key, name: Key, block: Bytes, head: Bytes) -> Result<Posts, Memory>
    ensures posts { IfOk result (λ posts. posts ≡ record { key = name; bytes = block; kind = Log } ∷ record { key = log; bytes = head; kind = Head } ∷ []) }
    ensures block { OnOk result (AreOpaque block) }
    ensures head { OnOk result (AreOpaque head) }
{
    let posts = vec![in alloc;
        Post {
            key: name,
            bytes: block,
            kind: PostKind::Log,
        },
        Post {
            key: log,
            bytes: head,
            kind: PostKind::Head,
        },
    ]?;
    if !are_counted(posts.as_slice()) {
        return Err(Memory);
    }
    Ok(Posts::of(posts))
}

/// The first record of the owner's log.
fn opening(alloc: Global, own: PubKey, now: Moment) -> Record
    ensures { record_of result ≡ opening own now }
{
    Record {
        owner: own,
        seq: 1,
        prev: NO_NAME,
        vector: Vector::empty(alloc),
        moment: now,
        op: Op::End,
        format: Format::One,
    }
}

/// The engine that holds nothing. The error is: out of memory.
pub fn hold_nothing(alloc: Global) -> Result<Engine, Memory>
    ensures { IfOk result (λ engine. holding engine ≡ nothing_held) }
{
    let basis = Basis {
        front: Vector::empty(alloc),
        tide: None,
        tree: Tree::empty(alloc)?,
    };
    Engine::over(alloc, basis)
}

/// The floor of a log whose newest record is the first one, of that name. The error is: out of memory.
fn floor_of(alloc: Global, log: Key, name: Key) -> Result<Vector, Memory>
    ensures { IfOk result (λ floor. floor ≡ (log, record { seq = 1; name = name }) ∷ []) }
{
    let entry = Entry { log, seq: 1, name };
    Vector::empty(alloc).with(alloc, entry)
}

/// The head over a log's first record, which is of that name. The error is: out of memory.
fn seal_first<S: Signs>(alloc: Global, signer: &mut S, name: Key) -> Result<Bytes, Memory>
    requires { S.signing.remaining signer.old ≢ 0 }
    ensures head { IfOk result (λ bytes. bytes ≡ sealed S.signing signer.old (record { seq = 1; name = name })) }
    ensures next { OnOk result (signer.new ≡ S.signing.next signer.old) }
    ensures key { S.signing.key signer.new ≡ S.signing.key signer.old }
{
    match seal(alloc, signer, 1, name) {
        Ok(head) => head.write(alloc),
        Err(_) => Err(Memory),
    }
}
