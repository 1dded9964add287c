//! What is saved of an agent: its bytes, and the save.

ghost use Rattle.std.specs.Prelude.{◌≡◌, ◌≤◌, ◌<◌, ◌+◌, ◌^◌, ◌∷◌, ◌++◌, length, IfOk, OnOk, IfSome, OnSome, option_map};
ghost use Rattle.ivy_base.specs.Naming.{head_key_of};
ghost use Rattle.wire_model.specs.Xdr.{word, opaque, array, optional};
ghost use Rattle.xdr_codec.specs.Writing.{padded};
ghost use Rattle.log_model.specs.Spelling.{vector_entry};
ghost use Rattle.agent_model.specs.Agent.{own_key};
ghost use Rattle.agent_model.specs.SavedBytes.{kept_bytes, post_kind_number, post_bytes, view_bytes, saved_tag};
ghost use Rattle.ivy_agent.specs.Saves.{saved_of, AreShort, HasSaved, IsWholeAfter};
ghost use Rattle.ivy_agent.specs.Causes.{SaveHasCause};

use agent_saves::SAVED_TAG;
use block_parts::opaque_len;
use dht_ids::{Post, PostKind, Posts};
use hss_keys::Signs;
use ivy_base::{Bytes, Key, Memory};
use ivy_io::Keeper;
use std::alloc::Global;
use version_vectors::Vector;
use view_blocks::View;
use xdr_codec::XdrWrite;

/// What is saved of an agent.
pub struct Kept<S> {
    /// The key that signs the log's heads.
    pub signer: S,
    /// The log's head key.
    pub log: Key,
    /// The view that was entered.
    pub view: Option<View>,
    /// How far each log was ever known.
    pub floor: Vector,
    /// The blocks that are still to be published.
    pub pending: Posts,
    /// The name of the newest snapshot.
    pub snapshot: Option<Key>,
}

/// One function, so that whatever drops what is kept calls it and isn't proved over all of its parts once more.
impl<S: Drop> Drop for Kept<S> {
    fn drop(self) {
        let Kept {
            signer: _,
            log: _,
            view: _,
            floor: _,
            pending: _,
            snapshot: _,
        } = self;
    }
}

/// Why nothing was saved.
#[derive(Clone, Copy)]
pub enum SaveFault {
    /// The keeper failed.
    Keeper,
    /// Running out of memory: the keeper wasn't asked.
    Memory,
}

/// Has the keeper save the bytes of what is kept. All memory is taken before.
///
/// # Errors
///
/// `Keeper` where the keeper fails. `Memory` where memory runs out before; it also comes where the saved key or a block has
/// 2^32 bytes or more, or the floor or the posts are as many, which no word counts.
pub fn save<K: Keeper, S: Signs>(
    alloc: Global,
    keeper: &mut K,
    kept: &Kept<S>,
) -> Result<(), SaveFault>
    requires { kept.now.log ≡ head_key_of (own_key S.signing kept.now.signer) }
    ensures saved { HasSaved K.saves keeper.old (kept_bytes S.signing (saved_of kept.now)) result keeper.new }
    ensures cause { SaveHasCause K.faults keeper.old result keeper.new }
    ensures whole { IsWholeAfter (S.is_whole kept.now.signer) result }
{
    let Ok(bytes) = bytes_of(alloc, kept) else {
        return Err(SaveFault::Memory);
    };
    match keeper.save(bytes) {
        Ok(()) => Ok(()),
        Err(_) => Err(SaveFault::Keeper),
    }
}

/// The bytes that are saved. The error is that of [`save`] which isn't the keeper's.
fn bytes_of<S: Signs>(alloc: Global, kept: &Kept<S>) -> Result<Bytes, Memory>
    requires { kept.now.log ≡ head_key_of (own_key S.signing kept.now.signer) }
    ensures bytes { IfOk result (λ bytes. bytes ≡ kept_bytes S.signing (saved_of kept.now)) }
    ensures whole { OnOk result (S.is_whole kept.now.signer) }
{
    let signer = kept.signer.save(alloc)?;
    let view = block_of(alloc, kept.view.as_ref())?;
    write(
        alloc,
        signer.as_slice(),
        view.as_slice(),
        kept.floor.seq_of(&kept.log),
        &kept.floor,
        kept.pending.as_slice(),
        kept.snapshot,
    )
}

/// The view's block, or no bytes where there is none. The error is: out of memory.
fn block_of(alloc: Global, view: Option<&View>) -> Result<Bytes, Memory>
    ensures { IfOk result (λ bytes. bytes ≡ view_bytes (option_map (λ v. v.now) view.entry)) }
{
    match view {
        Some(view) => view.write(alloc),
        None => Ok(Bytes::of(Vec::new(alloc))),
    }
}

/// The parts one after the other, in one allocation. The error is that of [`save`] which isn't the keeper's.
fn write(
    alloc: Global,
    signer: &[u8],
    view: &[u8],
    reach: u32,
    floor: &Vector,
    posts: &[Post],
    snapshot: Option<Key>,
) -> Result<Bytes, Memory>
    ensures { IfOk result (λ bytes. bytes ≡ saved_tag ++ opaque signer.now ++ opaque view.now ++ word reach ++ array vector_entry floor.now ++ array post_bytes posts.now ++ optional (λ name. name.0) snapshot) }
{
    let (Some(front), Some(back)) = (front_len(signer, view, floor), posts_len(posts)) else {
        return Err(Memory);
    };
    let Some(len) = back.checked_add(front + 24) else {
        return Err(Memory);
    };
    let mut out = XdrWrite::new(alloc);
    out.reserve(len)?;
    put_front(&mut out, signer, view, reach, floor);
    put_posts(&mut out, posts);
    put_name(&mut out, snapshot);
    Ok(out.into_bytes())
}

/// How many bytes [`put_front`] appends. There is no number where a word can't count a part.
fn front_len(signer: &[u8], view: &[u8], floor: &Vector) -> Option<usize>
    ensures size { IfSome result (λ n. n ≡ 8 + (4 + padded (length signer.now)) + (4 + padded (length view.now)) + length (array vector_entry floor.now)) }
    ensures signer { OnSome result (length signer.now < 2 ^ 32) }
    ensures view { OnSome result (length view.now < 2 ^ 32) }
    ensures floor { OnSome result (length floor.now < 2 ^ 32) }
    ensures bound { IfSome result (λ n. n ≤ 2 ^ 40) }
{
    let opaques = opaque_len(signer)? + opaque_len(view)?;
    if floor.len() > u32::MAX as usize {
        return None;
    }
    Some(8 + opaques + floor.written_len())
}

/// Appends the mark, the saved key, the view's block, how far the own log goes, and the floor.
fn put_front(out: &mut XdrWrite, signer: &[u8], view: &[u8], reach: u32, floor: &Vector)
    requires room { 8 + (4 + padded (length signer.now)) + (4 + padded (length view.now)) + length (array vector_entry floor.now) ≤ out.old.spare }
    requires signer { length signer.now < 2 ^ 32 }
    requires view { length view.now < 2 ^ 32 }
    requires floor { length floor.now < 2 ^ 32 }
    ensures written { out.new.written ≡ out.old.written ++ (saved_tag ++ opaque signer.now ++ opaque view.now ++ word reach ++ array vector_entry floor.now) }
    ensures spare { out.new.spare + (8 + (4 + padded (length signer.now)) + (4 + padded (length view.now)) + length (array vector_entry floor.now)) ≡ out.old.spare }
{
    out.put_fixed(&SAVED_TAG);
    out.put_opaque(signer);
    out.put_opaque(view);
    out.put_u32(reach);
    floor.write(out);
}

/// How many bytes [`put_posts`] appends. There is no number where a word can't count the posts or the bytes of one, or where
/// they are too many.
fn posts_len(posts: &[Post]) -> Option<usize>
    ensures size { IfSome result (λ n. n ≡ length (array post_bytes posts.now)) }
    ensures few { OnSome result (length posts.now < 2 ^ 32) }
    ensures short { OnSome result (AreShort posts.now) }
{
    if posts.len() > u32::MAX as usize {
        return None;
    }
    let mut len: usize = 4;
    'posts: for post in posts {
        len = len.checked_add(post_len(post)?)?;
    }
    Some(len)
}

/// How many bytes [`put_post`] appends. There is no number where a word can't count the bytes of the block.
fn post_len(post: &Post) -> Option<usize>
    ensures size { IfSome result (λ n. n ≡ length (post_bytes post.now)) }
    ensures short { OnSome result (length post.now.bytes < 2 ^ 32) }
{
    let key = post.key.0.as_slice();
    let bytes = opaque_len(post.bytes.as_slice())?;
    Some(4 + key.len() + bytes)
}

/// Appends the count of the posts, and each.
fn put_posts(out: &mut XdrWrite, posts: &[Post])
    requires room { length (array post_bytes posts.now) ≤ out.old.spare }
    requires few { length posts.now < 2 ^ 32 }
    requires short { AreShort posts.now }
    ensures written { out.new.written ≡ out.old.written ++ array post_bytes posts.now }
    ensures spare { out.new.spare + length (array post_bytes posts.now) ≡ out.old.spare }
{
    out.put_u32(posts.len() as u32);
    'posts: for post in posts {
        put_post(out, post);
    }
}

/// Appends a post: what it is, its key and its block.
fn put_post(out: &mut XdrWrite, post: &Post)
    requires room { length (post_bytes post.now) ≤ out.old.spare }
    requires short { length post.now.bytes < 2 ^ 32 }
    ensures written { out.new.written ≡ out.old.written ++ post_bytes post.now }
    ensures spare { out.new.spare + length (post_bytes post.now) ≡ out.old.spare }
{
    out.put_u32(number_of(post.kind));
    out.put_fixed(&post.key.0);
    out.put_opaque(post.bytes.as_slice());
}

/// The number of a kind of posts.
fn number_of(kind: PostKind) -> u32
    ensures { result ≡ post_kind_number kind }
{
    match kind {
        PostKind::Block => 0,
        PostKind::Log => 1,
        PostKind::Head => 2,
    }
}

/// Appends a name, where there is one, after whether there is.
fn put_name(out: &mut XdrWrite, name: Option<Key>)
    requires { 24 ≤ out.old.spare }
    ensures { out.new.written ≡ out.old.written ++ optional (λ name. name.0) name }
{
    out.put_bool(name.is_some());
    if let Some(name) = name {
        out.put_fixed(&name.0);
    }
}
