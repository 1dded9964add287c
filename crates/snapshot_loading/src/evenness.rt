//! Even lists, determined by the bytes of their blocks.

ghost use Rattle.std.specs.Prelude.{◌≡◌, map, length, IfOk};
ghost use Rattle.snapshot_loading.specs.WholeLaws.{blocks_read};
ghost use Rattle.snapshot_loading.specs.Evenness.{are_full, full_down, has_two, is_even, is_least, is_next, is_some};

use crate::Read;
use crate::picking::pick;
use ivy_base::Memory;
use std::alloc::Global;

/// How many bytes a list block of 512 names has.
const FULL_LIST: usize = 10_252;

/// How many bytes a list block of two names has.
const TWO_NAMES: usize = 52;

/// Whether these blocks, a list block of that level and all below it, are an even list of the least level. The error is: out of
/// memory.
pub(crate) fn is_even(
    alloc: Global,
    read: &[Read],
    inodes: bool,
    level: u32,
) -> Result<bool, Memory>
    ensures { IfOk result (λ even. even ≡ is_even inodes level (blocks_read read.now)) }
{
    let full = full_down(alloc, read, inodes, level)?;
    Ok(full && is_least(level, read))
}

/// Whether the list blocks are full from that level down, but for the last of each level. The error is: out of memory.
fn full_down(alloc: Global, read: &[Read], inodes: bool, level: u32) -> Result<bool, Memory>
    ensures { IfOk result (λ full. full ≡ full_down inodes level (blocks_read read.now)) }
{
    let mut left = level;
    'levels: while left > 0 {
        let blocks = pick(alloc, read, inodes, left)?;
        if !are_full(blocks.as_slice(), FULL_LIST) {
            return Ok(false);
        }
        left -= 1;
    }
    Ok(true)
}

/// Whether all blocks have so many bytes but the last, which has some and no more.
pub(crate) fn are_full(blocks: &[&[u8]], size: usize) -> bool
    ensures { result ≡ are_full size (map (λ b. b.now) blocks.now) }
{
    let mut before = size;
    'each: for block in blocks {
        if !is_next(size, before, block.len()) {
            return false;
        }
        before = block.len();
    }
    true
}

/// Whether so many may follow so many before.
fn is_next(size: usize, before: usize, count: usize) -> bool
    ensures { result ≡ is_next size before count }
{
    before == size && is_some(size, count)
}

/// Whether it is some, and no more.
fn is_some(size: usize, count: usize) -> bool
    ensures { result ≡ is_some size count }
{
    1 <= count && count <= size
}

/// Whether a level less wouldn't be enough.
fn is_least(level: u32, read: &[Read]) -> bool
    ensures { result ≡ is_least level (blocks_read read.now) }
{
    level < 2 || has_two(read)
}

/// Whether the first block has two names.
fn has_two(read: &[Read]) -> bool
    ensures { result ≡ has_two (blocks_read read.now) }
{
    match read.first() {
        Some(top) => top.bytes.as_slice().len() >= TWO_NAMES,
        None => true,
    }
}
