//! A snapshot that is loaded from blocks, some of which may be lacking or corrupted.

ghost use Rattle.std.specs.Prelude.{◌≡◌, None, IfOk};
ghost use Rattle.ivy_base.specs.Naming.{name};
ghost use Rattle.snapshot_loading.specs.Loading.{wanted_of};

use crate::lines::Line;
use crate::snapshots::growing::root_of;
use dhash_client::Miss;
use dht_ids::{Peer, Peers};
use fs_tree::Basis;
use ivy_base::{Bytes, Key, name_of};
use snapshot_loading::{Load, LoadMiss, loaded};
use snapshot_store::Block;
use std::alloc::Global;
use view_blocks::View;

/// What is wrong with the blocks: nothing, or that the one at that place lacks, or has another byte there.
#[derive(Clone, Copy)]
pub enum Wrong {
    Nothing,
    Lacks(usize),
    Corrupted(usize, usize),
}

/// What loading came to: a block that is missing or damaged, blocks that are no snapshot, or a basis, with the name of the root
/// of its snapshot.
#[derive(Clone, Copy)]
pub enum End {
    Missing,
    Damaged,
    Malformed,
    Basis(Key),
}

/// Changes the byte there.
pub fn spoil(bytes: &mut [u8], at: usize) {
    if at < bytes.len() {
        bytes[at] = bytes[at].wrapping_add(1);
    }
}

fn missing(alloc: Global, key: Key) -> Miss {
    Miss::Missing {
        key,
        asked: Peers::of(Vec::new(alloc)),
    }
}

/// The bytes, where that is their name.
fn under(bytes: Bytes, key: &Key) -> Result<Bytes, Miss>
    ensures { IfOk result (λ bytes. name bytes ≡ key.now) }
{
    if name_of(bytes.as_slice()) == *key {
        return Ok(bytes);
    }
    Err(Miss::Damaged {
        key: *key,
        node: Peer {
            number: 0,
            id: *key,
        },
    })
}

/// The block of that name and its place.
fn find<'a>(blocks: &'a [Block], key: &Key) -> Option<(usize, &'a Block)> {
    for (place, block) in blocks.iter().enumerate() {
        if block.name() == *key {
            return Some((place, block));
        }
    }
    None
}

/// What comes of the block of that name.
fn came(line: &mut Line<'_>, blocks: &[Block], wrong: Wrong, key: &Key) -> Result<Bytes, Miss>
    ensures { IfOk result (λ bytes. name bytes ≡ key.now) }
{
    let Some((place, block)) = find(blocks, key) else {
        return Err(missing(line.alloc, *key));
    };
    let mut bytes = line.copy_of(block.as_slice()).into_vec();
    match wrong {
        Wrong::Lacks(at) if at == place => return Err(missing(line.alloc, *key)),
        Wrong::Corrupted(at, byte) if at == place => spoil(&mut bytes, byte),
        _ => {}
    }
    under(Bytes::of(bytes), key)
}

/// The most blocks that are read.
const MOST_BLOCKS: u32 = 1_000_000;

/// Reads what is wanted, until nothing is.
fn read_all(line: &mut Line<'_>, blocks: &[Block], wrong: Wrong, load: &mut Load) {
    for _ in 0..MOST_BLOCKS {
        let Some(key) = load.wanted() else {
            return;
        };
        let came = came(line, blocks, wrong, &key);
        if load.give(line.alloc, came).is_err() {
            return;
        }
    }
}

/// What a load that wants nothing more comes to.
fn ended(line: &mut Line<'_>, view: &View, load: Load) -> End
    requires { wanted_of load ≡ None }
{
    match loaded(line.alloc, load) {
        Ok(Ok(basis)) => End::Basis(root_of(line, view, &basis)),
        Ok(Err(LoadMiss::Missing(_))) => End::Missing,
        Ok(Err(LoadMiss::Damaged(_))) => End::Damaged,
        Ok(Err(LoadMiss::Malformed)) => End::Malformed,
        Err(_) => {
            line.fail();
            End::Missing
        }
    }
}

/// What loading goes on to, of which nothing was read.
fn go_on(line: &mut Line<'_>, view: &View, blocks: &[Block], wrong: Wrong, load: Load) -> End {
    let mut load = load;
    read_all(line, blocks, wrong, &mut load);
    if load.wanted().is_some() {
        drop(load);
        line.fail();
        return End::Missing;
    }
    ended(line, view, load)
}

/// The basis that loading the snapshot of that root comes to, where it comes to one.
pub fn basis(line: &mut Line<'_>, blocks: &[Block], root: Key) -> Option<Basis> {
    let mut load = Load::start(line.alloc, root).ok()?;
    read_all(line, blocks, Wrong::Nothing, &mut load);
    if load.wanted().is_some() {
        drop(load);
        return None;
    }
    loaded(line.alloc, load).ok()?.ok()
}

/// What loading the snapshot of that root comes to.
pub fn load(line: &mut Line<'_>, view: &View, blocks: &[Block], wrong: Wrong, root: Key) -> End {
    match Load::start(line.alloc, root) {
        Ok(load) => go_on(line, view, blocks, wrong, load),
        Err(_) => {
            line.fail();
            End::Missing
        }
    }
}
