//! The two procedures.

ghost use Rattle.std.specs.Prelude.{◌≡◌, [], ◌∷◌, ◌&&◌, ◌==◌, not, map, IfOk};
ghost use Rattle.tree_model.specs.Tree.{directory_kind};
ghost use Rattle.rpc_wire.specs.Callers.{identity_of};
ghost use Rattle.nfs_model.specs.Checks.{first_failure, same_bytes};
ghost use Rattle.nfs_model.specs.Objects.{may_read};
ghost use Rattle.nfs_model.specs.declared.replies.NfsStatus.TheVariants as status;
ghost use Rattle.nfs_model.specs.declared.replies.Tail.TheVariants as tails;
ghost use Rattle.nfs_model.specs.declared.replies.Reply.TheVariants as replies;
ghost use Rattle.nfs_model.specs.Pages.{too_small, listed, listed_plus, read_directory, read_directory_plus};
ghost use Rattle.nfs3_reads.specs.Measures.{length_by};
ghost use Rattle.nfs3_reads.specs.Places.{places};

use crate::cuts::{at_least_one, behind, fitting, is_last, is_too_small};
use crate::entries::Entries;
use crate::listing::whole_of;
use crate::measure::{Measure, room_for_entries};
use fs_tree::Tree;
use inode_replay::Content;
use ivy_base::{Kind, Memory};
use nfs_model::{Fattr, Listed, NfsStatus, Page, Reply, Tail};
use nfs3_objects::{attributes, attributes_at, handle_of, leading_number, may_read, object_of};
use rpc_wire::Caller;
use std::alloc::Global;
use view_blocks::View;

/// Where a page begins: after the entry of that cookie, of the listing that has that verifier (RFC 1813, sections
/// 3.3.16 and 3.3.17, cookie and cookieverf).
#[derive(Clone, Copy)]
pub struct PageStart {
    /// The cookie of the last entry that was given; 0 begins at the first.
    pub cookie: u64,
    /// The verifier that was given with it; it isn't looked at where the cookie is 0.
    pub verifier: [u8; 8],
}

/// READDIR (RFC 1813, section 3.3.16): the entries after the start, in at most `count` bytes, of which 32,768 are taken
/// at most.
///
/// Refused are, in this order, a bad or stale handle, what is no directory (`NotDir`), who may not read it (`Acces`), a
/// cookie other than 0 with another verifier than the listing's (`BadCookie`), and a first entry that doesn't fit
/// (`TooSmall`). The error is: out of memory.
pub fn read_directory(
    alloc: Global,
    tree: &Tree,
    view: &View,
    caller: &Caller,
    handle: &[u8],
    start: PageStart,
    count: u32,
) -> Result<Reply, Memory>
    ensures { IfOk result (λ reply. reply ≡ read_directory tree.now view.now (identity_of caller.now) handle.now start.cookie start.verifier count) }
{
    let dir = match object_of(tree, view, handle) {
        Ok(dir) => dir,
        Err(fault) => return Ok(refused(fault, None)),
    };
    let told = Some(attributes(tree, view, &dir));
    if let Some(fault) = reading_fault(caller, dir.content) {
        return Ok(refused(fault, told));
    }
    let whole = whole_of(alloc, tree, &dir.number)?;
    let left = behind(whole.entries.as_slice(), start.cookie);
    if let Some(fault) = start_fault(start, &whole.verifier, &left, Measure::Plain, count) {
        return Ok(refused(fault, told));
    }
    let page = fitting(Measure::Plain, room_for_entries(count), &left);
    Ok(Reply::Directory {
        dir: told,
        verifier: whole.verifier,
        page: plain_page(alloc, &page)?,
        eof: is_last(&page, &left),
    })
}

/// READDIRPLUS (RFC 1813, section 3.3.17): the same with attributes and file handles, in at most `maxcount` bytes, of
/// which 32,768 are taken at most; numbers, names and cookies take at most `dircount`, but one entry is given in any
/// case. It is refused as [`read_directory`] is. The error is: out of memory.
pub fn read_directory_plus(
    alloc: Global,
    tree: &Tree,
    view: &View,
    caller: &Caller,
    handle: &[u8],
    start: PageStart,
    dircount: u32,
    maxcount: u32,
) -> Result<Reply, Memory>
    ensures { IfOk result (λ reply. reply ≡ read_directory_plus tree.now view.now (identity_of caller.now) handle.now start.cookie start.verifier dircount maxcount) }
{
    let dir = match object_of(tree, view, handle) {
        Ok(dir) => dir,
        Err(fault) => return Ok(refused(fault, None)),
    };
    let told = Some(attributes(tree, view, &dir));
    if let Some(fault) = reading_fault(caller, dir.content) {
        return Ok(refused(fault, told));
    }
    let whole = whole_of(alloc, tree, &dir.number)?;
    let left = behind(whole.entries.as_slice(), start.cookie);
    if let Some(fault) = start_fault(start, &whole.verifier, &left, Measure::Long, maxcount) {
        return Ok(refused(fault, told));
    }
    let fit = fitting(Measure::Long, room_for_entries(maxcount), &left);
    let page = at_least_one(&left, &fitting(Measure::Entry, dircount as usize, &fit));
    Ok(Reply::DirectoryPlus {
        dir: told,
        verifier: whole.verifier,
        page: page_plus(alloc, tree, view, &page)?,
        eof: is_last(&page, &left),
    })
}

/// A refusal, with the directory's attributes where they are known.
fn refused(status: NfsStatus, dir: Option<Fattr>) -> Reply
    ensures { result ≡ replies.Refused status (tails.Attributes dir) }
{
    Reply::Refused {
        status,
        tail: Tail::Attributes(dir),
    }
}

/// Why the caller may not read the inode as a directory: `NotDir` or `Acces`.
fn reading_fault(caller: &Caller, content: &Content) -> Option<NfsStatus>
    ensures { result ≡ first_failure ((not (directory_kind content.now.inode.kind), status.NotDir) ∷ (not (may_read (identity_of caller.now) content.now.inode), status.Acces) ∷ []) }
{
    if content.kind() != Kind::Dir {
        return Some(NfsStatus::NotDir);
    }
    if !may_read(caller, content) {
        return Some(NfsStatus::Acces);
    }
    None
}

/// Why no page begins there: `BadCookie` where the verifier isn't the listing's, and else `TooSmall` where the first of
/// the entries that are left doesn't fit.
fn start_fault(
    start: PageStart,
    verifier: &[u8; 8],
    left: &Entries<'_>,
    measure: Measure,
    count: u32,
) -> Option<NfsStatus>
    ensures { result ≡ first_failure ((not (start.cookie == 0) && not (same_bytes start.verifier verifier.now), status.BadCookie) ∷ (too_small (length_by measure) count (places left.now), status.TooSmall) ∷ []) }
{
    if start.cookie != 0 && !are_same(&start.verifier, verifier) {
        return Some(NfsStatus::BadCookie);
    }
    if is_too_small(measure, count, left) {
        return Some(NfsStatus::TooSmall);
    }
    None
}

/// Whether the two verifiers are one.
fn are_same(a: &[u8; 8], b: &[u8; 8]) -> bool
    ensures { result ≡ same_bytes a.now b.now }
{
    a == b
}

/// The page of these entries, with neither attributes nor handles. The error is: out of memory.
fn plain_page(alloc: Global, entries: &Entries<'_>) -> Result<Page, Memory>
    ensures { IfOk result (λ page. page ≡ map listed (places entries.now)) }
{
    let mut page = Vec::with_capacity(alloc, entries.pairs.len())?;
    let mut cookie = entries.before as u64;
    for (name, number) in entries.pairs {
        cookie += 1;
        page.push(Listed {
            fileid: leading_number(number),
            name: name.copy(alloc)?,
            cookie,
            attributes: None,
            handle: None,
        })?;
    }
    Ok(Page::of(page))
}

/// The page of these entries with their attributes and handles. The error is: out of memory.
fn page_plus(alloc: Global, tree: &Tree, view: &View, entries: &Entries<'_>) -> Result<Page, Memory>
    ensures { IfOk result (λ page. page ≡ map (listed_plus tree.now view.now) (places entries.now)) }
{
    let mut page = Vec::with_capacity(alloc, entries.pairs.len())?;
    let mut cookie = entries.before as u64;
    for (name, number) in entries.pairs {
        cookie += 1;
        page.push(Listed {
            fileid: leading_number(number),
            name: name.copy(alloc)?,
            cookie,
            attributes: attributes_at(tree, view, number),
            handle: Some(handle_of(alloc, view, number)?),
        })?;
    }
    Ok(Page::of(page))
}
