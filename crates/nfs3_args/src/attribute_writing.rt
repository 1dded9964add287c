//! Writing what is asked of attributes, and how files and special nodes are to be made.

ghost use Rattle.std.specs.Prelude.{◌≡◌, ◌+◌, ◌≤◌, ◌++◌};
ghost use Rattle.nfs_model.specs.Arguments.{set_time, set_what, create_how, special_node};

use crate::part_writing::{
    OPTIONAL, put_moment, put_optional_double_word, put_optional_word, put_verifier,
};
use nfs_model::{How, SetTime, SetWhat, SpecialNode};
use xdr_codec::XdrWrite;

/// The most bytes of sattr3 (RFC 1813, section 2.5): three optional words, a size and two times.
pub const ATTRIBUTES: usize = 60;

/// The most bytes of createhow3 (section 3.3.8).
pub const HOW: usize = 4 + ATTRIBUTES;

/// The most bytes of mknoddata3 (section 3.3.11).
pub const NODE: usize = 4 + ATTRIBUTES + 8;

/// Appends what is asked of a time.
pub fn put_set_time(out: &mut XdrWrite, time: SetTime)
    requires { OPTIONAL ≤ out.old.spare }
    ensures written { out.new.written ≡ out.old.written ++ set_time time }
    ensures spare { out.old.spare ≤ out.new.spare + OPTIONAL }
{
    match time {
        SetTime::Keep => out.put_u32(0),
        SetTime::Server => out.put_u32(1),
        SetTime::Client(m) => {
            out.put_u32(2);
            put_moment(out, m);
        }
    }
}

/// Appends the attributes that are asked for.
pub fn put_set_what(out: &mut XdrWrite, what: &SetWhat)
    requires { ATTRIBUTES ≤ out.old.spare }
    ensures written { out.new.written ≡ out.old.written ++ set_what what.now }
    ensures spare { out.old.spare ≤ out.new.spare + ATTRIBUTES }
{
    put_optional_word(out, what.mode);
    put_optional_word(out, what.uid);
    put_optional_word(out, what.gid);
    put_optional_double_word(out, what.size);
    put_set_time(out, what.atime);
    put_set_time(out, what.mtime);
}

/// Appends how a file is to be created.
pub fn put_how(out: &mut XdrWrite, how: &How)
    requires { HOW ≤ out.old.spare }
    ensures { out.new.written ≡ out.old.written ++ create_how how.now }
{
    match how {
        How::Unchecked(what) => {
            out.put_u32(0);
            put_set_what(out, what);
        }
        How::Guarded(what) => {
            out.put_u32(1);
            put_set_what(out, what);
        }
        How::Exclusive(verifier) => {
            out.put_u32(2);
            put_verifier(out, verifier);
        }
    }
}

/// Appends what kind of special node is to be made.
pub fn put_node(out: &mut XdrWrite, node: &SpecialNode)
    requires { NODE ≤ out.old.spare }
    ensures { out.new.written ≡ out.old.written ++ special_node node.now }
{
    match node {
        SpecialNode::Plain(kind) => out.put_u32(*kind),
        SpecialNode::Device {
            kind,
            what,
            major,
            minor,
        } => {
            out.put_u32(*kind);
            put_set_what(out, what);
            out.put_u32(*major);
            out.put_u32(*minor);
        }
        SpecialNode::Other { kind, what } => {
            out.put_u32(*kind);
            put_set_what(out, what);
        }
    }
}
