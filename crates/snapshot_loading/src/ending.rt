//! What blocks that were read come to.

ghost use Rattle.std.specs.Prelude.{◌≡◌, None, IfOk};
ghost use Rattle.ivy_base.specs.declared.key.Key.{Key};
ghost use Rattle.snapshot_loading.specs.Loading.{bytes_of, wanted_of};
ghost use Rattle.snapshot_loading.specs.Causes.{EndsSo};
ghost use Rattle.snapshot_loading.specs.WholeLaws.{blocks_read};
ghost use Rattle.snapshot_loading.specs.Answers.{AreReadFrom, IsABasis, loaded_basis};
ghost use Rattle.snapshot_loading.specs.Ends.{AreOfBasis};

use crate::building::build;
use crate::evenness::is_even;
use crate::inodes::all_inodes;
use crate::{Load, LoadMiss, Read};
use block_parts::BlockFault;
use fs_tree::Basis;
use ivy_base::Memory;
use snapshot_blocks::RootBlock;
use std::alloc::Global;

/// The basis that loading has come to; or why it has come to none: by the first block that failed, or, where none did, since
/// all blocks together are no snapshot. The error around it means out of memory.
pub fn loaded(alloc: Global, load: Load) -> Result<Result<Basis, LoadMiss>, Memory>
    requires { wanted_of load ≡ None }
    ensures { IfOk result (EndsSo load) }
{
    let read = match load.into_read() {
        Ok(read) => read,
        Err(miss) => return Ok(Err(miss)),
    };
    match into_basis(alloc, read)? {
        Some(basis) => Ok(Ok(basis)),
        None => Ok(Err(LoadMiss::Malformed)),
    }
}

/// The basis whose snapshot these blocks are, which were read from a root on until nothing was left; none where they are no
/// snapshot. There is no other such basis. The error is: out of memory.
pub fn into_basis(alloc: Global, read: Vec<Read>) -> Result<Option<Basis>, Memory>
    requires { (root : Key) × AreReadFrom read.items root }
    ensures { IfOk result (λ basis. AreOfBasis (bytes_of read.items) (loaded_basis basis)) }
{
    match read.as_slice().split_first() {
        Some((first, rest)) => basis_in(alloc, first.bytes.as_slice(), rest),
        None => Ok(None),
    }
}

/// The basis of that root, after which these blocks were read; none where they are no basis. The error is: out of memory.
fn basis_in(alloc: Global, block: &[u8], rest: &[Read]) -> Result<Option<Basis>, Memory>
    ensures { IfOk result (λ basis. IsABasis block.now (blocks_read rest.now) (loaded_basis basis)) }
{
    let root = match RootBlock::read(alloc, block) {
        Ok(root) => root,
        Err(BlockFault::Malformed) => return Ok(None),
        Err(BlockFault::Memory) => return Err(Memory),
    };
    if !is_even(alloc, rest, true, root.inodes.level)? {
        return Ok(None);
    }
    let Some(inodes) = all_inodes(alloc, rest)? else {
        return Ok(None);
    };
    let Some(tree) = build(alloc, inodes.as_slice())? else {
        return Ok(None);
    };
    Ok(Some(Basis {
        front: root.front,
        tide: root.tide,
        tree,
    }))
}
