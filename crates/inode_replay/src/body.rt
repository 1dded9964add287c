//! What the bytes of an inode are kept in.

ghost use Rattle.std.specs.Prelude.{◌≡◌, ◌+◌, ◌^◌, ◌<◌, true, false, Some, length, filter, take, drop, replicate, IfOk, OnOk, OnErr};
ghost use Rattle.tree_model.specs.Apply.{overwritten, resized};
ghost use Rattle.inode_replay.specs.Bodies.{bytes_of, is_file_body, places_of};
ghost use Rattle.inode_replay.specs.Kept.{places_written, places_below};

use crate::file_bytes::FileBytes;
use ivy_base::{Bytes, Memory};
use std::alloc::Global;
use std::sync::Arc;

/// The bytes of an inode, which copies share.
#[derive(Drop)]
pub enum Body {
    /// A regular file's.
    File(FileBytes),
    /// Those that never change, as a symbolic link's text.
    Text(Arc<Vec<u8>>),
    /// None, of an inode that isn't a regular file.
    Nothing,
}

impl Body {
    /// A copy of the slice's bytes, as a regular file's or another inode's, none of which is written. The error is: out
    /// of memory.
    pub fn of(alloc: Global, is_file: bool, bytes: &[u8]) -> Result<Body, Memory>
        ensures bytes { IfOk result (λ body. bytes_of body ≡ bytes.now) }
        ensures places { IfOk result (λ body. places_of body ≡ replicate (length bytes.now) false) }
        ensures kind { IfOk result (λ body. is_file_body body ≡ is_file) }
    {
        if is_file {
            return Ok(Body::File(FileBytes::of(alloc, bytes)?));
        }
        if bytes.is_empty() {
            return Ok(Body::Nothing);
        }
        Ok(Body::Text(Arc::new(alloc, bytes.to_vec(alloc)?)?))
    }

    /// The same bytes, of which the same are written. It takes no memory: the only error is that a part of them already
    /// has as many owners as can be counted.
    pub fn copy(&self) -> Result<Body, Memory>
        ensures bytes { IfOk result (λ copy. bytes_of copy ≡ bytes_of self.now) }
        ensures places { IfOk result (λ copy. places_of copy ≡ places_of self.now) }
        ensures kind { IfOk result (λ copy. is_file_body copy ≡ is_file_body self.now) }
    {
        match self {
            Body::File(file) => Ok(Body::File(file.copy()?)),
            Body::Text(text) => Ok(Body::Text(text.clone()?)),
            Body::Nothing => Ok(Body::Nothing),
        }
    }

    /// How many bytes there are.
    pub fn len(&self) -> u64
        ensures { result ≡ length (bytes_of self.now) }
    {
        match self {
            Body::File(file) => file.len(),
            Body::Text(text) => text.len() as u64,
            Body::Nothing => 0,
        }
    }

    /// How many of the bytes a Write wrote.
    pub fn stored(&self) -> u64
        ensures count { result ≡ length (filter (λ m. m) (places_of self.now)) }
        ensures as_many { length (places_of self.now) ≡ length (bytes_of self.now) }
    {
        match self {
            Body::File(file) => file.stored(),
            Body::Text(_) | Body::Nothing => 0,
        }
    }

    /// The bytes of an inode that isn't a regular file.
    pub fn text(&self) -> &[u8]
        requires { is_file_body self.now ≡ false }
        ensures { result.now ≡ bytes_of self.now }
    {
        match self {
            Body::File(_) => unreachable!(),
            Body::Text(text) => text.as_slice(),
            Body::Nothing => b"".as_slice(),
        }
    }

    /// The bytes from the offset on, at most so many. The error is: out of memory.
    pub fn read(&self, alloc: Global, offset: u64, count: u32) -> Result<Bytes, Memory>
        ensures { IfOk result (λ bytes. bytes ≡ take count (drop offset (bytes_of self.now))) }
    {
        match self {
            Body::File(file) => file.read(alloc, offset, count),
            _ => part_of(alloc, self.text(), offset, count),
        }
    }

    /// Replaces a regular file's bytes from the offset on, which are written then, and fills a gap with zeros, which
    /// aren't. The error is: out of memory, and then nothing has changed.
    pub fn overwrite(&mut self, alloc: Global, offset: u64, part: &[u8]) -> Result<(), Memory>
        requires file { is_file_body self.old ≡ true }
        requires fits { offset + length part.now < 2 ^ 64 }
        ensures bytes { OnOk result (bytes_of self.new ≡ overwritten (bytes_of self.old) offset part.now) }
        ensures places { OnOk result (places_of self.new ≡ places_written offset (length part.now) (places_of self.old)) }
        ensures err { OnErr result ((bytes_of self.new ≡ bytes_of self.old) × (places_of self.new ≡ places_of self.old)) }
        ensures kind { is_file_body self.new ≡ true }
    {
        let Body::File(file) = self else {
            unreachable!()
        };
        file.overwrite(alloc, offset, part)
    }

    /// Cuts a regular file's bytes at that size, or fills them up to it with zeros that no Write wrote. The error is: out
    /// of memory, and then nothing has changed.
    pub fn resize(&mut self, alloc: Global, size: u64) -> Result<(), Memory>
        requires { is_file_body self.old ≡ true }
        ensures bytes { OnOk result (bytes_of self.new ≡ resized size (bytes_of self.old)) }
        ensures places { OnOk result (places_of self.new ≡ places_below (Some size) (places_of self.old)) }
        ensures err { OnErr result ((bytes_of self.new ≡ bytes_of self.old) × (places_of self.new ≡ places_of self.old)) }
        ensures kind { is_file_body self.new ≡ true }
    {
        let Body::File(file) = self else {
            unreachable!()
        };
        file.resize(alloc, size)
    }
}

// The slice's bytes from the offset on, at most so many. The error is: out of memory.
fn part_of(alloc: Global, bytes: &[u8], offset: u64, count: u32) -> Result<Bytes, Memory>
    ensures { IfOk result (λ part. part ≡ take count (drop offset bytes.now)) }
{
    let start = bytes.len().min(offset as usize);
    let rest = &bytes[start..];
    let length = rest.len().min(count as usize);
    Bytes::copy_of(alloc, &rest[..length])
}
