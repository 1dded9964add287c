//! Reading what is asked of attributes, and how files and special nodes are to be made.

ghost use Rattle.std.specs.Prelude.{◌≡◌};
ghost use Rattle.wire_model.specs.Parts.{Reads};
ghost use Rattle.nfs_model.specs.Arguments.{set_time, set_what, create_how, special_node, IsTime, IsSetWhat, IsHow, IsNode};

use crate::parts::{read_moment, read_optional_double_word, read_optional_word};
use nfs_model::{How, SetTime, SetWhat, SpecialNode};
use xdr_codec::Parts;

/// What is asked of a time (RFC 1813, section 2.5, set_atime and set_mtime).
pub fn read_set_time(parts: &mut Parts) -> SetTime
    ensures { Reads IsTime set_time parts.old result parts.new }
{
    match parts.u32() {
        0 => SetTime::Keep,
        1 => SetTime::Server,
        2 => SetTime::Client(read_moment(parts)),
        _ => {
            parts.miss();
            SetTime::Keep
        }
    }
}

/// The attributes that are asked for (section 2.5, sattr3).
pub fn read_set_what(parts: &mut Parts) -> SetWhat
    ensures { Reads IsSetWhat set_what parts.old result parts.new }
{
    let mode = read_optional_word(parts);
    let uid = read_optional_word(parts);
    let gid = read_optional_word(parts);
    let size = read_optional_double_word(parts);
    let atime = read_set_time(parts);
    let mtime = read_set_time(parts);
    SetWhat {
        mode,
        uid,
        gid,
        size,
        atime,
        mtime,
    }
}

/// How a file is to be created (section 3.3.8, createhow3).
pub fn read_how(parts: &mut Parts) -> How
    ensures { Reads IsHow create_how parts.old result parts.new }
{
    match parts.u32() {
        0 => How::Unchecked(read_set_what(parts)),
        1 => How::Guarded(read_set_what(parts)),
        2 => How::Exclusive(parts.eight()),
        _ => {
            parts.miss();
            How::Exclusive([0; 8])
        }
    }
}

/// What kind of special node is to be made (section 3.3.11, mknoddata3).
pub fn read_node(parts: &mut Parts) -> SpecialNode
    ensures { Reads IsNode special_node parts.old result parts.new }
{
    let kind = parts.u32();
    match kind {
        1 | 2 | 5 => SpecialNode::Plain(kind),
        3 | 4 => {
            let what = read_set_what(parts);
            let major = parts.u32();
            let minor = parts.u32();
            SpecialNode::Device {
                kind,
                what,
                major,
                minor,
            }
        }
        6 | 7 => {
            let what = read_set_what(parts);
            SpecialNode::Other { kind, what }
        }
        _ => {
            parts.miss();
            SpecialNode::Plain(kind)
        }
    }
}
