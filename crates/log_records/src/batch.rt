//! Batches of chains that were fetched.

ghost use Rattle.std.specs.Prelude.{◌≡◌, [], ◌∷◌, ◌++◌, Contains, None, map, IfOk, OnOk, IfErr, OnErr, IfSome};
ghost use Rattle.log_model.specs.Vector.{stamp_at};
ghost use Rattle.log_model.specs.Heads.{stamp};
ghost use Rattle.log_model.specs.Fetched.{owner_of, stamp_in, GoesOnFrom, EndsAtStamp, IsSound, IsOnward, ChainFails};
ghost use Rattle.ivy_base.specs.Naming.{head_key_of};
ghost use Rattle.log_records.specs.Records.{records_of};
ghost use Rattle.log_records.specs.Batches.{owners_in, AreOfOneOwner, IsBatch};

use crate::chain::test_chain;
use crate::edge::Edge;
use crate::record::Record;
use crate::records::Records;
use dht_ids::Judged;
use ivy_base::Memory;
use log_model::ChainFault;
use std::alloc::Global;
use std::marker::Model;
use version_vectors::Vector;
use view_blocks::View;

/// A chain of a batch: what its judged head says, and the records up to the head's, oldest first.
#[derive(Drop)]
pub struct Chain {
    /// The head up to which the records were fetched.
    pub head: Judged,
    /// The records after the held one, or from the log's first on; one at least.
    pub records: Records,
}

/// Chains that were fetched over what is held: of each log one at most. Contracts see the held vector, the floor, and
/// the chains in the order in which they were added.
///
/// Each chain is linked by name from its judged head's record down to the held record of its log, or to the log's first
/// record where none is held; and where the floor is above what is held of the log, the floor's record is one of the
/// chain's. A batch doesn't know under which view its chains were added.
pub struct Batch {
    held: Vector,
    floor: Vector,
    chains: Vec<Chain>,
}

// Written out, so that whatever drops one calls this and isn't proved over all of its parts once more.
impl Drop for Batch {
    fn drop(self) {
        let Batch {
            held: _,
            floor: _,
            chains: _,
        } = self;
    }
}

impl Model for Batch {
    ghost use Rattle.log_records.specs.Batches.{Batch as Seen, IsBatch};
    ghost use Rattle.log_records.specs.Kept.{chains_of};

    ghost Value = { Seen };

    ghost view = { λ b. record { held = b.held; floor = b.floor; chains = chains_of b.chains.items } };

    ghost invariant = { λ b. IsBatch (record { held = b.held; floor = b.floor; chains = chains_of b.chains.items }) };
}

impl Batch {
    ghost use Rattle.log_records.specs.Kept.{chains_of};

    /// A batch of no chains, over what is held, with the floor. The error is: out of memory.
    pub fn over(alloc: Global, held: &Vector, floor: &Vector) -> Result<Batch, Memory>
        ensures { IfOk result (λ batch. batch ≡ record { held = held.now; floor = floor.now; chains = [] }) }
    {
        let Ok(held) = held.copy(alloc) else {
            return Err(Memory);
        };
        let Ok(floor) = floor.copy(alloc) else {
            return Err(Memory);
        };
        Ok(Batch {
            held,
            floor,
            chains: Vec::new(alloc),
        })
    }

    /// Adds a chain after the others: the records of one log, oldest first, that were fetched for a judged head. `edge`
    /// is what is known of the held record, where it is available.
    ///
    /// `Bad` comes exactly where the records don't keep the rules of a chain under the view, from the held record on,
    /// or the newest one hasn't the head's number and name. Each has to be good under the view, numbered next after the
    /// one before it, and has to name it and know all that it knows; the oldest is numbered next after the held record,
    /// knows what the edge knows, and opens the log where nothing is held. Without the edge it isn't tested that the
    /// oldest knows what the held record knows; that is left to whoever has that record.
    ///
    /// `Fork` comes exactly where else the oldest doesn't name the held record, or the floor is above what is held and
    /// its record isn't among the records. `Memory` means out of memory. After an error the batch is as it was.
    pub fn add_chain(
        &mut self,
        alloc: Global,
        view: &View,
        head: Judged,
        chain: Vec<Record>,
        edge: Option<Edge>,
    ) -> Result<(), ChainFault>
        requires owner { AreOfOneOwner (records_of chain.items) }
        requires new_log { Contains (owners_in self.old.chains) (owner_of (records_of chain.items)) → ⊥ }
        requires edge { IfSome edge (λ e. stamp_in e.vector (records_of chain.items) ≡ None) }

        ensures added { OnOk result (self.new ≡ record self.old { chains = self.old.chains ++ (stamp head.seq head.name, records_of chain.items) ∷ [] }) }
        ensures sound { OnOk result (IsSound view.now self.old.held edge (stamp head.seq head.name) (records_of chain.items)) }
        ensures onward { OnOk result (IsOnward self.old.held self.old.floor (records_of chain.items)) }

        ensures fault { IfErr result (ChainFails view.now self.old.held self.old.floor (stamp head.seq head.name) edge (records_of chain.items)) }
        ensures unchanged { OnErr result (self.new ≡ self.old) }
    {
        test_chain(alloc, view, &self.held, &self.floor, &head, &chain, &edge)?;
        let records = Records::of(chain);
        match self.chains.push(Chain { head, records }) {
            Ok(()) => Ok(()),
            Err(_) => Err(ChainFault::Memory),
        }
    }

    /// What was held when the batch was made.
    pub fn started(&self) -> &Vector
        ensures { result.now ≡ self.now.held }
    {
        &self.held
    }

    /// The chains, in the order in which they were added.
    pub fn into_chains(self) -> Vec<Chain>
        ensures chains { chains_of result.items ≡ self.chains }
        ensures legal { IsBatch self }
    {
        let Batch {
            held: _,
            floor: _,
            chains,
        } = self;
        chains
    }
}
