//! What was saved of an agent.

ghost use Rattle.std.specs.Prelude.{◌≡◌, IfOk, IfErr, MatchOption};
ghost use Rattle.agent_model.specs.SavedBytes.{kept_bytes, IsKept};
ghost use Rattle.hash_signature_model.specs.Saved.{IsSigner, hss};
ghost use Rattle.agent_saves.specs.Saves.{AreSavedOf, AreSavedOfNone, IsCounted, said};
ghost use Rattle.agent_saves.specs.Refusals.{Refuses};

use crate::fault::fault_of_load;
use crate::parts::read_whole;
use crate::testing::are_of;
use block_parts::BlockFault;
use dht_ids::Posts;
use hss_keys::{Hss, Signs};
use ivy_base::{Key, Memory};
use std::alloc::Global;
use version_vectors::Vector;
use view_blocks::View;

/// What was saved of an agent.
#[derive(Drop)]
pub struct Saved<S> {
    /// The key that signs the log's heads. It may sign only where no other one signs.
    pub signer: S,
    /// The view that was entered.
    pub view: Option<View>,
    /// How far each log was ever known.
    pub floor: Vector,
    /// The blocks that are still to be published.
    pub pending: Posts,
    /// The name of the newest snapshot.
    pub snapshot: Option<Key>,
}

/// What was saved of an agent that signs with [`Hss`], of which these are the bytes. There is none where they are saved of
/// no agent. The error is: out of memory.
pub fn read_saved(alloc: Global, bytes: &[u8]) -> Result<Option<Saved<Hss>>, Memory>
    ensures { IfOk result (λ saved. MatchOption saved (AreSavedOfNone hss IsSigner bytes.now) (λ s. AreSavedOf hss IsSigner bytes.now (said s))) }
{
    Saved::read(alloc, bytes)
}

impl<S: Signs + Drop> Saved<S> {
    /// What was saved of an agent, of which these are the bytes. There is none where they are saved of no agent whose key's
    /// own bytes a word can count. The error is: out of memory.
    pub fn read(alloc: Global, bytes: &[u8]) -> Result<Option<Self>, Memory>
        ensures { IfOk result (λ saved. MatchOption saved (AreSavedOfNone S.signing (IsCounted S.is_whole S.signing.saved) bytes.now) (λ s. AreSavedOf S.signing (IsCounted S.is_whole S.signing.saved) bytes.now (said s))) }
    {
        match Saved::load(alloc, bytes) {
            Ok(saved) => Ok(Some(saved)),
            Err(BlockFault::Malformed) => Ok(None),
            Err(BlockFault::Memory) => Err(Memory),
        }
    }

    /// The same, and else why there is nothing.
    fn load(alloc: Global, bytes: &[u8]) -> Result<Self, BlockFault>
        ensures ok { IfOk result (λ s. AreSavedOf S.signing (IsCounted S.is_whole S.signing.saved) bytes.now (said s)) }
        ensures err { IfErr result (Refuses (IsKept S.signing (IsCounted S.is_whole S.signing.saved)) (kept_bytes S.signing) bytes.now) }
    {
        let parts = read_whole(alloc, bytes)?;
        let signer = match S::load(alloc, parts.signer) {
            Ok(signer) => signer,
            Err(fault) => return Err(fault_of_load(fault)),
        };
        if !are_of(&parts, &signer.owner()) {
            return Err(BlockFault::Malformed);
        }
        Ok(Saved {
            signer,
            view: parts.view,
            floor: parts.floor,
            pending: parts.pending,
            snapshot: parts.snapshot,
        })
    }
}
