//! What is answered with attributes and with numbers that are always the same.

ghost use Rattle.std.specs.Prelude.{◌≡◌};
ghost use Rattle.nfs_model.specs.Reading.{get_attributes, make_node, commit, with_attributes};

use crate::refusal::refused;
use fs_tree::Tree;
use ivy_base::Kind;
use nfs_model::{NfsStatus, Reply, Tail};
use nfs3_objects::{attributes, cache_data, no_cache_data, object_of};
use view_blocks::View;

/// GETATTR (RFC 1813, section 3.3.1): the attributes of an object. Refused is a bad or stale handle.
pub(crate) fn get_attributes(tree: &Tree, view: &View, handle: &[u8]) -> Reply
    ensures { result ≡ get_attributes tree.now view.now handle.now }
{
    match object_of(tree, view, handle) {
        Ok(object) => Reply::Attributes {
            object: attributes(tree, view, &object),
        },
        Err(status) => Reply::Refused {
            status,
            tail: Tail::Empty,
        },
    }
}

/// MKNOD (RFC 1813, section 3.3.11): special nodes are not supported (`NotSupp`), and only the handle is looked at,
/// which may be bad or stale.
pub(crate) fn make_node(tree: &Tree, view: &View, handle: &[u8]) -> Reply
    ensures { result ≡ make_node tree.now view.now handle.now }
{
    match object_of(tree, view, handle) {
        Ok(dir) => Reply::Refused {
            status: NfsStatus::NotSupp,
            tail: Tail::Cache(cache_data(tree, tree, view, &dir.number)),
        },
        Err(status) => Reply::Refused {
            status,
            tail: Tail::Cache(no_cache_data()),
        },
    }
}

/// FSSTAT (RFC 1813, section 3.3.18): how much room there is, with the object's attributes. Refused is a bad or stale
/// handle.
pub(crate) fn room(tree: &Tree, view: &View, handle: &[u8]) -> Reply
    ensures { result ≡ with_attributes tree.now view.now handle.now (λ object. Reply.Space object) }
{
    match object_of(tree, view, handle) {
        Ok(object) => Reply::Space {
            object: Some(attributes(tree, view, &object)),
        },
        Err(status) => refused(status, None),
    }
}

/// FSINFO (RFC 1813, section 3.3.19): the sizes that are taken and given, with the object's attributes. Refused is a
/// bad or stale handle.
pub(crate) fn limits(tree: &Tree, view: &View, handle: &[u8]) -> Reply
    ensures { result ≡ with_attributes tree.now view.now handle.now (λ object. Reply.Limits object) }
{
    match object_of(tree, view, handle) {
        Ok(object) => Reply::Limits {
            object: Some(attributes(tree, view, &object)),
        },
        Err(status) => refused(status, None),
    }
}

/// PATHCONF (RFC 1813, section 3.3.20): the limits of names and links, with the object's attributes. Refused is a bad
/// or stale handle.
pub(crate) fn path_limits(tree: &Tree, view: &View, handle: &[u8]) -> Reply
    ensures { result ≡ with_attributes tree.now view.now handle.now (λ object. Reply.Paths object) }
{
    match object_of(tree, view, handle) {
        Ok(object) => Reply::Paths {
            object: Some(attributes(tree, view, &object)),
        },
        Err(status) => refused(status, None),
    }
}

/// COMMIT (RFC 1813, section 3.3.21): what was written of a file is kept already.
///
/// Refused are, in this order, a bad or stale handle, and what is no regular file (`Inval`).
pub(crate) fn commit(tree: &Tree, view: &View, handle: &[u8]) -> Reply
    ensures { result ≡ commit tree.now view.now handle.now }
{
    let file = match object_of(tree, view, handle) {
        Ok(file) => file,
        Err(status) => {
            return Reply::Refused {
                status,
                tail: Tail::Cache(no_cache_data()),
            };
        }
    };
    let cache = cache_data(tree, tree, view, &file.number);
    if file.content.kind() == Kind::Reg {
        Reply::Committed { cache }
    } else {
        Reply::Refused {
            status: NfsStatus::Inval,
            tail: Tail::Cache(cache),
        }
    }
}
