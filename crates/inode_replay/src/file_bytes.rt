//! The bytes of a regular file, with marks at those that a Write wrote.

ghost use Rattle.std.specs.Prelude.{◌≡◌, ◌+◌, ◌^◌, ◌<◌, Some, false, length, filter, take, drop, replicate, IfOk, OnOk, OnErr};
ghost use Rattle.tree_model.specs.Apply.{overwritten, resized};
ghost use Rattle.inode_replay.specs.Kept.{places_written, places_below};

use crate::bytes::SharedBytes;
use crate::marks::SharedMarks;
use ivy_base::{Bytes, Memory};
use std::alloc::Global;

/// Bytes, and a mark for each of them, which copies share.
pub struct FileBytes {
    /// The bytes.
    pub bytes: SharedBytes,
    /// Which of them a Write wrote.
    pub marks: SharedMarks,
    ghost as_many: { length marks ≡ length bytes },
}

/// One function, so that whatever drops it calls this and isn't proved over all of its parts once more.
impl Drop for FileBytes {
    fn drop(self) {
        let FileBytes { bytes: _, marks: _ } = self;
    }
}

impl FileBytes {
    /// A copy of the slice's bytes, none of which is written. The error is: out of memory.
    pub fn of(alloc: Global, bytes: &[u8]) -> Result<FileBytes, Memory>
        ensures bytes { IfOk result (λ file. file.bytes ≡ bytes.now) }
        ensures marks { IfOk result (λ file. file.marks ≡ replicate (length bytes.now) false) }
    {
        let mut marks = SharedMarks::new();
        marks.resize(alloc, bytes.len() as u64)?;
        Ok(FileBytes {
            bytes: SharedBytes::of(alloc, bytes)?,
            marks,
        })
    }

    /// The same bytes and marks. It takes no memory: the only error is that a part of them already has as many owners
    /// as can be counted.
    pub fn copy(&self) -> Result<FileBytes, Memory>
        ensures bytes { IfOk result (λ copy. copy.bytes ≡ self.now.bytes) }
        ensures marks { IfOk result (λ copy. copy.marks ≡ self.now.marks) }
    {
        Ok(FileBytes {
            bytes: self.bytes.copy()?,
            marks: self.marks.copy()?,
        })
    }

    /// How many bytes there are.
    pub fn len(&self) -> u64
        ensures { result ≡ length self.now.bytes }
    {
        self.bytes.len()
    }

    /// How many of the bytes a Write wrote.
    pub fn stored(&self) -> u64
        ensures count { result ≡ length (filter (λ m. m) self.now.marks) }
        ensures as_many { length self.now.marks ≡ length self.now.bytes }
    {
        self.marks.count()
    }

    /// The bytes from the offset on, at most so many. The error is: out of memory.
    pub fn read(&self, alloc: Global, offset: u64, count: u32) -> Result<Bytes, Memory>
        ensures { IfOk result (λ bytes. bytes ≡ take count (drop offset self.now.bytes)) }
    {
        self.bytes.read(alloc, offset, count)
    }

    /// Replaces the bytes from the offset on, which are written then, and fills a gap with zeros, which aren't. The
    /// error is: out of memory, and then nothing has changed.
    pub fn overwrite(&mut self, alloc: Global, offset: u64, part: &[u8]) -> Result<(), Memory>
        requires { offset + length part.now < 2 ^ 64 }
        ensures bytes { OnOk result (self.new.bytes ≡ overwritten self.old.bytes offset part.now) }
        ensures marks { OnOk result (self.new.marks ≡ places_written offset (length part.now) self.old.marks) }
        ensures err { OnErr result ((self.new.bytes ≡ self.old.bytes) × (self.new.marks ≡ self.old.marks)) }
    {
        let mut marks = self.marks.copy()?;
        marks.mark(alloc, offset, part.len() as u64)?;
        self.bytes.overwrite(alloc, offset, part)?;
        self.marks = marks;
        Ok(())
    }

    /// Cuts the bytes at that size, or fills them up to it with zeros that no Write wrote. The error is: out of memory,
    /// and then nothing has changed.
    pub fn resize(&mut self, alloc: Global, size: u64) -> Result<(), Memory>
        ensures bytes { OnOk result (self.new.bytes ≡ resized size self.old.bytes) }
        ensures marks { OnOk result (self.new.marks ≡ places_below (Some size) self.old.marks) }
        ensures err { OnErr result ((self.new.bytes ≡ self.old.bytes) × (self.new.marks ≡ self.old.marks)) }
    {
        let mut marks = self.marks.copy()?;
        marks.resize(alloc, size)?;
        self.bytes.resize(alloc, size)?;
        self.marks = marks;
        Ok(())
    }
}
