//! All blocks that a node holds.

ghost use Rattle.std.specs.Prelude.{◌≡◌, [], true, false, map, IfOk, OnOk, OnErr, Some, None, MatchBool, option_copied};
ghost use Rattle.std.specs.FinMap.Entries.{put};
ghost use Rattle.dhash_model.specs.Stores.{older as older_than};
ghost use Rattle.ivy_base.specs.Naming.{key_cmp, name};

use crate::fault::PutFault;
use crate::kept::Kept;
use dhash_model::BlockKind;
use dht_ids::{Judge, Judged, Posts, StoreFault};
use ivy_base::{Key, Memory, name_of};
use std::alloc::Global;
use std::collections::BTreeMap;
use std::marker::Model;

/// The most bytes that a store holds: 2^28.
const CAPACITY: u64 = 268_435_456;

/// The blocks of a node by their keys, at most 2^28 bytes in all. A key holds what was put last, as what it was put.
/// Contracts see a store as the list of pairs of a key and a block, in the order of the keys.
#[derive(Drop)]
pub struct Store {
    blocks: BTreeMap<Key, Kept>,
    /// How many bytes the blocks have.
    total: u64,
}

impl Model for Store {
    ghost use Rattle.std.specs.Prelude.{◌≡◌};
    ghost use Rattle.dhash_model.specs.Stores.{Blocks, bytes_held};
    ghost use Rattle.node_store.specs.Stores.{IsStore};

    ghost Value = { Blocks };

    ghost view = { λ s. s.blocks.entries };

    ghost invariant = { λ s. (s.total ≡ bytes_held s.blocks.entries) × IsStore s.blocks.entries };
}

impl Store {
    ghost use Rattle.dhash_model.specs.declared.kind.BlockKind.{BlockKind};
    ghost use Rattle.dhash_model.specs.Stores.{bytes_at, bytes_held, content, content_fault, full, head, head_fault, number_at, with_byte, without};
    ghost use Rattle.node_store.specs.Numbers.{IsBelow};
    ghost use Rattle.node_store.specs.Stores.{IsStore, Tells, post_of};

    /// No blocks. It takes no memory.
    pub fn new(alloc: Global) -> Self
        ensures { result ≡ [] }
    {
        Store {
            blocks: BTreeMap::new(alloc),
            total: 0,
        }
    }

    /// Holds a copy of the bytes as content, in place of what the key held. Refused where the key isn't the SHA-1 of the
    /// bytes (WrongName), and then where more than 2^28 bytes would be held (Full). No error changes anything.
    pub fn put_block(&mut self, alloc: Global, key: &Key, bytes: &[u8]) -> Result<(), PutFault>
        ensures told { Tells (content_fault key.now bytes.now self.old) result }
        ensures stored { OnOk result (self.new ≡ put key_cmp key.now (content bytes.now) self.old) }
        ensures unchanged { OnErr result (self.new ≡ self.old) }
        ensures valid { OnOk result (IsStore self.new) }
    {
        if *key != name_of(bytes) {
            return Err(PutFault::Refused(StoreFault::WrongName));
        }
        self.hold(alloc, key, BlockKind::Content, bytes)
    }

    /// As [`Store::put_block`], for whoever may know that this is the name of the bytes, which aren't hashed then.
    pub fn put_known(
        &mut self,
        alloc: Global,
        key: &Key,
        bytes: &[u8],
        is_named: bool,
    ) -> Result<(), PutFault>
        requires { is_named ≡ true → key.now ≡ name bytes.now }
        ensures told { Tells (content_fault key.now bytes.now self.old) result }
        ensures stored { OnOk result (self.new ≡ put key_cmp key.now (content bytes.now) self.old) }
        ensures unchanged { OnErr result (self.new ≡ self.old) }
        ensures valid { OnOk result (IsStore self.new) }
    {
        if is_named {
            return self.hold(alloc, key, BlockKind::Content, bytes);
        }
        self.put_block(alloc, key, bytes)
    }

    /// Holds a copy of the bytes as a head, in place of what the key held. Refused where the judge takes them for no head
    /// of the key (NotJudged), then where the head that is held has a number which isn't below the new one's (Older; a
    /// head that the judge doesn't take has none), and then where more than 2^28 bytes would be held (Full). No error
    /// changes anything.
    pub fn put_head<J: Judge>(
        &mut self,
        alloc: Global,
        judge: &J,
        key: &Key,
        bytes: &[u8],
    ) -> Result<(), PutFault>
        ensures told { Tells (head_fault (J.judges judge.now) key.now bytes.now self.old) result }
        ensures stored { OnOk result (self.new ≡ put key_cmp key.now (head bytes.now) self.old) }
        ensures unchanged { OnErr result (self.new ≡ self.old) }
        ensures valid { OnOk result (IsStore self.new) }
    {
        let Some(new) = judge.judge(key, bytes) else {
            return Err(PutFault::Refused(StoreFault::NotJudged));
        };
        if let Some(fault) = self.older_at(judge, key, bytes, new) {
            return Err(PutFault::Refused(fault));
        }
        self.hold(alloc, key, BlockKind::Head, bytes)
    }

    /// The bytes that are held under the key.
    pub fn get(&self, key: &Key) -> Option<&[u8]>
        ensures { option_copied result ≡ bytes_at key.now self.now }
    {
        let block = self.blocks.get(key)?;
        Some(block.as_slice())
    }

    /// Drops the block of the key, where there is one.
    pub fn drop_block(&mut self, key: &Key)
        ensures dropped { self.new ≡ without key.now self.old }
        ensures valid { IsStore self.new }
    {
        if let Some(block) = self.blocks.remove(key) {
            self.total -= block.len();
        }
    }

    /// Changes a byte of the block of the key. False where no such byte is held.
    pub fn spoil(&mut self, key: &Key, offset: u64, byte: u8) -> bool
        ensures spoiled { MatchBool result (with_byte key.now offset byte self.old ≡ Some self.new) ((with_byte key.now offset byte self.old ≡ None) × (self.new ≡ self.old)) }
        ensures valid { IsStore self.new }
    {
        match self.blocks.get_mut(key) {
            Some(block) => block.spoil(offset, byte),
            None => false,
        }
    }

    /// Copies of all blocks, as they are put at other nodes, their keys ascending. The error is: out of memory.
    pub fn held(&self, alloc: Global) -> Result<Posts, Memory>
        ensures listed { IfOk result (λ posts. posts ≡ map post_of self.now) }
        ensures valid { IsStore self.now }
    {
        let mut posts = Vec::with_capacity(alloc, self.blocks.len())?;
        'listed: for (key, block) in self.blocks.iter() {
            posts.push(block.post(alloc, key)?)?;
        }
        Ok(Posts::of(posts))
    }

    // Holds a copy of the bytes in place of what the key held, where there is room for it.
    fn hold(
        &mut self,
        alloc: Global,
        key: &Key,
        kind: BlockKind,
        bytes: &[u8],
    ) -> Result<(), PutFault>
        ensures told { Tells (full key.now (record { kind = kind; bytes = bytes.now }) self.old) result }
        ensures stored { OnOk result (self.new ≡ put key_cmp key.now (record { kind = kind; bytes = bytes.now }) self.old) }
        ensures unchanged { OnErr result (self.new ≡ self.old) }
        ensures valid { OnOk result (IsStore self.new) }
    {
        let total = self.total_with(key, bytes);
        if total > CAPACITY {
            return Err(PutFault::Refused(StoreFault::Full));
        }
        let block = Kept::copy_of(alloc, kind, bytes)?;
        self.blocks.insert(*key, block)?;
        self.total = total;
        Ok(())
    }

    // How many bytes are held once the key holds these.
    fn total_with(&self, key: &Key, bytes: &[u8]) -> u64
        ensures { (kind : BlockKind) → result ≡ bytes_held (put key_cmp key.now (record { kind = kind; bytes = bytes.now }) self.now) }
    {
        let replaced = match self.blocks.get(key) {
            Some(block) => block.len(),
            None => 0,
        };
        self.total - replaced + bytes.len() as u64
    }

    // Older, where the head that is held under the key has a number that isn't below the new one's. It is judged only where it
    // may have such a number: in the course of a log's heads never, as their numbers ascend.
    fn older_at<J: Judge>(
        &self,
        judge: &J,
        key: &Key,
        known: &[u8],
        new: Judged,
    ) -> Option<StoreFault>
        requires { J.judges judge.now key.now known.now ≡ Some new }
        ensures { result ≡ older_than (number_at (J.judges judge.now) key.now self.now) (Some new) }
    {
        if !self.may_reach(judge, key, new.seq) {
            return None;
        }
        older(self.number_at(judge, key, known, new), new)
    }

    // Whether a head may be held under the key whose number isn't below that one.
    fn may_reach<J: Judge>(&self, judge: &J, key: &Key, seq: u32) -> bool
        ensures { result ≡ false → IsBelow seq (number_at (J.judges judge.now) key.now self.now) }
    {
        match self.blocks.get(key) {
            Some(block) => judge.may_reach(key, block.as_slice(), seq),
            None => false,
        }
    }

    // The number of the head that is held under the key. It isn't judged again where it has those bytes.
    fn number_at<J: Judge>(&self, judge: &J, key: &Key, known: &[u8], says: Judged) -> Option<u32>
        requires { J.judges judge.now key.now known.now ≡ Some says }
        ensures { result ≡ number_at (J.judges judge.now) key.now self.now }
    {
        self.blocks.get(key)?.number(judge, key, known, says)
    }
}

// Older, where the held head's number isn't below the new one's.
fn older(held: Option<u32>, new: Judged) -> Option<StoreFault>
    ensures { result ≡ older_than held (Some new) }
{
    match held {
        Some(seq) if new.seq <= seq => Some(StoreFault::Older(seq)),
        _ => None,
    }
}
