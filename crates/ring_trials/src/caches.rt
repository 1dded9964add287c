//! What a cache of blocks keeps. A block is two bytes, the big-endian form of a number.

ghost use Rattle.std.specs.Prelude.{◌≡◌, is_some};
ghost use Rattle.dhash_model.specs.Cache.{block_of, moved_to_front};

use crate::line::Line;
use block_cache::BlockCache;
use ivy_base::{Bytes, Key, name_of};

/// Keeps the block of that number.
fn keep(line: &mut Line<'_>, cache: &mut BlockCache, number: u16) {
    match Bytes::copy_of(line.alloc, &number.to_be_bytes()) {
        Ok(block) => line.note(cache.keep(name_of(block.as_slice()), block)),
        Err(_) => line.fail(),
    }
}

/// Begins again, with a full cache: of the blocks 0 to 255, kept in this order.
fn fill(line: &mut Line<'_>, held: &mut Option<BlockCache>) {
    *held = BlockCache::new(line.alloc).ok();
    match held {
        Some(cache) => {
            for number in 0..256 {
                keep(line, cache, number);
            }
        }
        None => line.fail(),
    }
}

/// Whether the block is held, which is then the most recently used: what a caller of `find` learns.
fn holds(cache: &mut BlockCache, key: &Key) -> bool
    ensures held { result ≡ is_some (block_of key.now cache.old) }
    ensures moved { cache.new ≡ moved_to_front key.now cache.old }
{
    cache.find(key).is_some()
}

/// Writes what a cache makes of a block.
fn put_block(line: &mut Line<'_>, cache: &mut BlockCache, what: &str) {
    let number: u32 = line.read();
    if number > 65_535 {
        return line.fail();
    }
    let number = number as u16;
    let key = name_of(&number.to_be_bytes());
    match what {
        "keep" => {
            keep(line, cache, number);
            line.put("kept");
        }
        "has" => line.put(if holds(cache, &key) { "true" } else { "false" }),
        "find" => line.put_found(cache.find(&key)),
        _ => line.fail(),
    }
}

/// Writes the answer to a line.
pub fn answer(line: &mut Line<'_>, held: &mut Option<BlockCache>) {
    match line.word() {
        "full" => {
            fill(line, held);
            line.put("kept");
        }
        what => match held {
            Some(cache) => put_block(line, cache, what),
            None => line.fail(),
        },
    }
}
