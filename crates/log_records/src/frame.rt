//! What stands in front of each record's operation.

ghost use Rattle.std.specs.Prelude.{IfOk, IfErr};
ghost use Rattle.wire_model.specs.OneReading.{IsFront};
ghost use Rattle.log_records.specs.Frames.{frame_block};
ghost use Rattle.log_records.specs.Shapes.{IsFrameShape};
ghost use Rattle.log_records.specs.Reading.{Refuses};

use crate::parts::{read_format, read_key, read_moment, read_same};
use block_parts::BlockFault;
use ivy_base::{Format, Key, Moment};
use std::alloc::Global;
use version_vectors::Vector;
use xdr_codec::{Parts, XdrRead};

/// The most logs that a record cites.
pub const MOST_CITED: u32 = 32;

/// All of a record but its owner and its operation, of which the kind is known.
#[derive(Drop)]
pub struct Frame {
    pub format: Format,
    pub kind: u32,
    pub prev: Key,
    pub seq: u32,
    pub moment: Moment,
    pub vector: Vector,
}

/// The frame of a record of the log with that head key, and the bytes after it. But for how many logs it cites, the bounds
/// of its parts are tested where the record stands as a whole.
pub fn read_frame<'a>(
    alloc: Global,
    bytes: &'a [u8],
    log: &Key,
) -> Result<(Frame, &'a [u8]), BlockFault>
    ensures ok { IfOk result (λ p. IsFront IsFrameShape (frame_block log.now) bytes.now p.0 p.1.now) }
    ensures err { IfErr result (Refuses IsFrameShape (frame_block log.now) bytes.now) }
{
    let mut parts = Parts::of(bytes);
    let format = read_format(&mut parts);
    let kind = parts.u32();
    read_same(&mut parts, log);
    let prev = read_key(&mut parts);
    let seq = parts.u32();
    let moment = read_moment(&mut parts);
    let Some(rest) = parts.rest() else {
        return Err(BlockFault::Malformed);
    };
    let mut reader = XdrRead::new(rest);
    let vector = Vector::read(alloc, &mut reader, MOST_CITED)?;
    let frame = Frame {
        format,
        kind,
        prev,
        seq,
        moment,
        vector,
    };
    Ok((frame, reader.rest()))
}
