//! Records of logs.

ghost use Rattle.std.specs.Prelude.{◌≡◌, ◌^◌, ◌<◌, ◌≤◌, ◌↔◌, IsTrue, length, IfOk, IfErr, OnOk};
ghost use Rattle.ivy_base.specs.Naming.{head_key_of};
ghost use Rattle.log_model.specs.Vector.{weight_of};
ghost use Rattle.log_model.specs.Spelling.{record_block, longest_record, no_name, IsEndOp};
ghost use Rattle.log_model.specs.Rank.{rank};
ghost use Rattle.log_model.specs.Chain.{HasMadeNumber};
ghost use Rattle.version_vectors.specs.Ranks.{rank_of};
ghost use Rattle.log_records.specs.Frames.{parts_block};
ghost use Rattle.log_records.specs.Shapes.{AreShapes};
ghost use Rattle.log_records.specs.Reading.{IsSpelled, RefusesWhole};
ghost use Rattle.log_records.specs.Records.{record_of, IsRead, ReadFault};

use crate::body::read_operation;
use crate::body_writing::{body_len, kind_of, put_body};
use crate::fault::RecordFault;
use crate::frame::{Frame, read_frame};
use crate::parts::put_format;
use crate::spelled::is_spelled;
use block_parts::{BlockFault, put_key, put_moment};
use ivy_base::{Bytes, Format, Key, Memory, Moment, Op, PubKey, head_key, name_of, number_of};
use std::alloc::Global;
use version_vectors::{Rank, Vector};
use xdr_codec::XdrWrite;

/// The most entries of a vector whose record's weight can be told: the sum of so many numbers is one of 64 bits. What was
/// read has 32 at most.
pub const MOST_WEIGHED: usize = 2_147_483_648;

/// The most bytes of a record's block.
const LONGEST_RECORD: usize = 12_288;

/// A record of a log (Ivy): one step of its owner's, written once.
pub struct Record {
    /// The public key of the log's owner.
    pub owner: PubKey,
    /// The record's number in its log, 1 to 1,048,576.
    pub seq: u32,
    /// The name of the record before it; zeros in the first one.
    pub prev: Key,
    /// What the owner held of the other logs, at most 32.
    pub vector: Vector,
    /// When the record was made, by the owner's clock.
    pub moment: Moment,
    /// What it does.
    pub op: Op,
    /// In which format it is written. The first record of a log has format 1.
    pub format: Format,
}

// Written out, so that whatever drops one calls this and isn't proved over all of its parts once more.
impl Drop for Record {
    fn drop(self) {
        let Record {
            owner: _,
            seq: _,
            prev: _,
            vector: _,
            moment: _,
            op: _,
            format: _,
        } = self;
    }
}

impl Record {
    /// The record of the owner's whose block these bytes are.
    ///
    /// `TooLong` comes exactly where there are more than 12,288 bytes, `Malformed` where else the bytes are the
    /// block of no record of the owner's, and `BadNumber` where they are one that makes an inode of another
    /// number than [`number_of`] gives. `Memory` means out of memory.
    pub fn read(alloc: Global, bytes: &[u8], owner: &PubKey) -> Result<Record, RecordFault>
        ensures ok { IfOk result (λ r. IsRead owner.now bytes.now (record_of r)) }
        ensures short { OnOk result (length bytes.now ≤ longest_record) }
        ensures err { IfErr result (ReadFault owner.now bytes.now) }
    {
        if bytes.len() > LONGEST_RECORD {
            return Err(RecordFault::TooLong);
        }
        let log = head_key(owner);
        let (frame, op) = read_parts(alloc, bytes, &log)?;
        let record = Record {
            owner: *owner,
            seq: frame.seq,
            prev: frame.prev,
            vector: frame.vector,
            moment: frame.moment,
            op,
            format: frame.format,
        };
        if !is_spelled(&record, &log) {
            return Err(RecordFault::Malformed);
        }
        if !has_made_number(owner, record.seq, &record.op) {
            return Err(RecordFault::BadNumber);
        }
        Ok(record)
    }

    /// A copy of this record and of what it has. The error is: out of memory.
    pub fn copy(&self, alloc: Global) -> Result<Record, Memory>
        ensures { IfOk result (λ copy. copy ≡ self.now) }
    {
        let Ok(vector) = self.vector.copy(alloc) else {
            return Err(Memory);
        };
        let Ok(op) = self.op.copy(alloc) else {
            return Err(Memory);
        };
        Ok(Record {
            owner: self.owner,
            seq: self.seq,
            prev: self.prev,
            vector,
            moment: self.moment,
            op,
            format: self.format,
        })
    }

    /// The record's block.
    ///
    /// The error is: out of memory; it also comes where a text has 2^32 bytes or more or the vector as many
    /// entries, which no block can count.
    pub fn write(&self, alloc: Global) -> Result<Bytes, Memory>
        ensures { IfOk result (λ block. block ≡ record_block (record_of self.now)) }
    {
        let Some(body_len) = body_len(&self.op) else {
            return Err(Memory);
        };
        if self.vector.len() > u32::MAX as usize {
            return Err(Memory);
        }
        let mut out = XdrWrite::new(alloc);
        let room = 60 + self.vector.written_len() + body_len;
        if out.reserve(room).is_err() {
            return Err(Memory);
        }
        put_format(&mut out, self.format);
        out.put_u32(kind_of(&self.op));
        put_key(&mut out, &head_key(&self.owner));
        put_key(&mut out, &self.prev);
        out.put_u32(self.seq);
        put_moment(&mut out, self.moment);
        self.vector.write(&mut out);
        put_body(&mut out, &self.op);
        Ok(out.into_bytes())
    }

    /// The record's name, a digest of its block: which one, its format tells. The errors are those of [`Record::write`].
    pub fn name(&self, alloc: Global) -> Result<Key, Memory>
        ensures { IfOk result (λ name. name ≡ (record_of self.now).name) }
    {
        match self.write(alloc) {
            Ok(block) => Ok(name_of(block.as_slice())),
            Err(_) => Err(Memory),
        }
    }

    /// What the order of records goes by: the record's number and those of its vector, the owner, the number.
    pub fn rank(&self) -> Rank
        requires { length self.now.vector ≤ 2 ^ 31 }
        ensures { rank_of result ≡ rank (record_of self.now) }
    {
        Rank {
            weight: self.seq as u64 + cited_weight(&self.vector),
            owner: self.owner,
            seq: self.seq,
        }
    }
}

/// The frame and the operation that the bytes are, of a record of the log with that head key.
#[tactic(auto, using(crate::proofs::OneRecord::parts_read))]
fn read_parts(alloc: Global, bytes: &[u8], log: &Key) -> Result<(Frame, Op), BlockFault>
    ensures ok { IfOk result (λ parts. IsSpelled AreShapes (parts_block log.now) bytes.now parts) }
    ensures err { IfErr result (RefusesWhole AreShapes (parts_block log.now) bytes.now) }
{
    match read_frame(alloc, bytes, log) {
        Ok((frame, rest)) => match read_operation(alloc, rest, frame.kind) {
            Ok(op) => Ok((frame, op)),
            Err(fault) => Err(fault),
        },
        Err(fault) => Err(fault),
    }
}

/// The sum of the numbers of a vector's entries.
#[tactic(auto, using(crate::proofs::Weights::weight_bound))]
fn cited_weight(vector: &Vector) -> u64
    requires { length vector.now ≤ 2 ^ 31 }
    ensures weight { result ≡ weight_of vector.now }
    ensures bound { result ≤ 2 ^ 63 }
{
    // That it is a vector, so that its numbers are below 2^32, is said by `len`.
    let _ = vector.len();
    vector.weight()
}

/// Whether the operation is End.
pub(crate) fn is_end(op: &Op) -> bool
    ensures { IsTrue result ↔ IsEndOp op.now }
{
    matches!(op, Op::End)
}

/// Whether the operation makes no inode, or makes it of the number that is that record's.
pub(crate) fn has_made_number(owner: &PubKey, seq: u32, op: &Op) -> bool
    ensures { IsTrue result ↔ HasMadeNumber owner.now seq op.now }
{
    match op {
        Op::Inode { ino, .. } => *ino == number_of(owner, seq),
        _ => true,
    }
}
