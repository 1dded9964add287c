//! What is told of an object: its attributes, and those before and after an operation.

ghost use Rattle.std.specs.Prelude.{◌≡◌, min, length};
ghost use Rattle.tree_model.specs.Tree.{link_count};
ghost use Rattle.nfs_model.specs.Objects.{attributes, attributes_at, before_at, cache_data, no_cache_data, leading_number, size_of};
ghost use Rattle.nfs3_objects.specs.Seen.{seen};

use crate::object::LiveObject;
use fs_tree::Tree;
use inode_replay::Content;
use ivy_base::{Key, Kind};
use nfs_model::{Fattr, Wcc, WccBefore};
use view_blocks::View;

/// The size that is told of each directory.
const DIRECTORY_SIZE: u64 = 4096;

/// The first eight bytes of a key as a number: that of the file system, or of an object in it.
pub fn leading_number(key: &Key) -> u64
    ensures { result ≡ leading_number key.now }
{
    let [a, b, c, d, e, f, g, h, ..] = key.0;
    u64::from_be_bytes([a, b, c, d, e, f, g, h])
}

/// The links of an inode: of a directory its own two and one for each subdirectory, of others the names; at most those
/// that a word counts.
fn links(tree: &Tree, number: &Key) -> u32
    ensures { result ≡ min (link_count tree.now number.now) 4294967295 }
{
    let links = match tree.kind(number) {
        Some(Kind::Dir) => tree.subdirs(number).saturating_add(2),
        _ => tree.names().names_of(number),
    };
    u32::try_from(links).unwrap_or(u32::MAX)
}

/// The size that is told of an inode: of a directory 4,096, of a link its text's length, of a file its length.
fn told_size(content: &Content) -> u64
    ensures { result ≡ size_of content.now.inode }
{
    match content.kind() {
        Kind::Dir => DIRECTORY_SIZE,
        Kind::Reg | Kind::Lnk => content.size(),
    }
}

/// The attributes of the inode of that number, which is this one.
fn attributes_with(tree: &Tree, view: &View, number: &Key, content: &Content) -> Fattr
    ensures { result ≡ attributes tree.now view.now (record { number = number.now; inode = content.now.inode }) }
{
    let attr = content.attr();
    let size = told_size(content);
    Fattr {
        kind: content.kind(),
        mode: attr.mode,
        nlink: links(tree, number),
        uid: attr.uid,
        gid: attr.gid,
        size,
        used: size,
        fsid: leading_number(&view.name()),
        fileid: leading_number(number),
        atime: attr.atime,
        mtime: attr.mtime,
        ctime: attr.ctime,
    }
}

/// The attributes of an object (RFC 1813, section 2.5, fattr3).
pub fn attributes(tree: &Tree, view: &View, object: &LiveObject<'_>) -> Fattr
    ensures { result ≡ attributes tree.now view.now (seen object.now) }
{
    attributes_with(tree, view, &object.number, object.content)
}

/// The attributes of the inode of that number, where there is one.
pub fn attributes_at(tree: &Tree, view: &View, number: &Key) -> Option<Fattr>
    ensures { result ≡ attributes_at tree.now view.now number.now }
{
    Some(attributes_with(tree, view, number, tree.content(number)?))
}

/// What is said of an inode before an operation, where there is one of that number (RFC 1813, section 2.5, wcc_attr).
pub fn before_at(tree: &Tree, number: &Key) -> Option<WccBefore>
    ensures { result ≡ before_at tree.now number.now }
{
    let content = tree.content(number)?;
    let attr = content.attr();
    Some(WccBefore {
        size: told_size(content),
        mtime: attr.mtime,
        ctime: attr.ctime,
    })
}

/// An object before and after an operation, each of its own tree (RFC 1813, section 2.5, wcc_data).
pub fn cache_data(before: &Tree, after: &Tree, view: &View, number: &Key) -> Wcc
    ensures { result ≡ cache_data before.now after.now view.now number.now }
{
    Wcc {
        before: before_at(before, number),
        after: attributes_at(after, view, number),
    }
}

/// What is said where a handle fails its checks: nothing of before, and nothing of after.
pub fn no_cache_data() -> Wcc
    ensures { result ≡ no_cache_data }
{
    Wcc {
        before: None,
        after: None,
    }
}
