//! Snapshots one block of which was changed, and then those that name it.

use crate::lines::Line;
use crate::snapshots::loading::spoil;
use ivy_base::{Bytes, Key};
use snapshot_store::Block;

/// Puts the new name wherever the old one stands.
fn rename(bytes: &mut [u8], old: &Key, new: &Key) {
    for word in 0..bytes.len() / 4 {
        if let Some(name) = bytes.get_mut(4 * word..4 * word + 20) {
            if &*name == old.0.as_slice() {
                name.copy_from_slice(&new.0);
            }
        }
    }
}

/// The block's bytes with the names of the new blocks in place of those of the old ones at their places.
fn renamed(line: &mut Line<'_>, block: &Block, old: &[Block], new: &[Block]) -> Vec<u8> {
    let mut bytes = line.copy_of(block.as_slice()).into_vec();
    for (old, new) in old.iter().zip(new) {
        if old.name() != new.name() {
            rename(&mut bytes, &old.name(), &new.name());
        }
    }
    bytes
}

/// The blocks, which stand after those that they name, with another byte there in the one at that place, and each under its
/// name.
pub fn forged(line: &mut Line<'_>, blocks: &[Block], place: usize, at: usize) -> Vec<Block> {
    let mut all: Vec<Block> = Vec::new(line.alloc);
    for (i, block) in blocks.iter().enumerate() {
        let mut bytes = renamed(line, block, blocks, all.as_slice());
        if i == place {
            spoil(&mut bytes, at);
        }
        if all.push(Block::of(Bytes::of(bytes))).is_err() {
            line.fail();
        }
    }
    all
}
