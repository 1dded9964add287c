//! Ways down a log, from record to record.

ghost use Rattle.std.specs.Prelude.{◌≡◌, IfOk, option_map};
ghost use Rattle.fork_model.specs.Before.{Before, TellsRecords};
ghost use Rattle.fork_model.specs.Finding as model;
ghost use Rattle.fork_proof.specs.Found.{tip_seen, step_seen, way_seen};

use crate::checking::prev_of;
use crate::named::NamedBlocks;
use crate::tips::Tip;
use ivy_base::{Key, Memory, PubKey};
use std::alloc::Global;

/// One record further down.
#[derive(Clone, Copy)]
pub struct Step<'a> {
    /// The record's block.
    pub block: &'a [u8],
    /// The name of the record before it.
    pub prev: Key,
}

/// So many records down from the one that a head names.
#[derive(Drop)]
pub struct Way<'a> {
    /// Their blocks, the newest first.
    pub blocks: Vec<&'a [u8]>,
    /// The name of the record before the last one, or that which the head names, where there is no block.
    pub last: Key,
}

/// The most blocks of a proof.
pub const MOST_BLOCKS: u32 = 1_024;

/// The owner's record of that name and number, where its block is among the blocks. The error is: out of memory.
pub fn step_down<'a>(
    alloc: Global,
    blocks: &NamedBlocks<'a>,
    owner: &PubKey,
    seq: u32,
    name: &Key,
) -> Result<Option<Step<'a>>, Memory>
    ensures { IfOk result (λ found. (before : Before) → TellsRecords before → option_map step_seen found ≡ model.step_down before blocks.now owner.now seq name.now) }
{
    match blocks.get(name) {
        Some(block) => step_by(alloc, owner, seq, block),
        None => Ok(None),
    }
}

/// The step by that block, where it is the owner's record of that number. The error is: out of memory.
fn step_by<'a>(
    alloc: Global,
    owner: &PubKey,
    seq: u32,
    block: &'a [u8],
) -> Result<Option<Step<'a>>, Memory>
    ensures { IfOk result (λ found. (before : Before) → TellsRecords before → option_map step_seen found ≡ option_map (λ prev. (block.now, prev)) (before owner.now seq block.now)) }
{
    match prev_of(alloc, owner, seq, block)? {
        Some(prev) => Ok(Some(Step { block, prev })),
        None => Ok(None),
    }
}

/// So many records down from the one that the head names, where they are all among the blocks. The error is: out of memory.
pub fn way_down<'a>(
    alloc: Global,
    blocks: &NamedBlocks<'a>,
    tip: &Tip<'_>,
    count: u32,
) -> Result<Option<Way<'a>>, Memory>
    ensures { IfOk result (λ found. (before : Before) → TellsRecords before → option_map way_seen found ≡ model.way_down before blocks.now (tip_seen tip.now) count) }
{
    let mut passed = Vec::new(alloc);
    let mut last = tip.name;
    'records: for above in 0..count {
        let seq = tip.seq.saturating_sub(above);
        match step_down(alloc, blocks, &tip.owner, seq, &last)? {
            Some(step) => {
                passed.push(step.block)?;
                last = step.prev;
            }
            None => return Ok(None),
        }
    }
    Ok(Some(Way {
        blocks: passed,
        last,
    }))
}
