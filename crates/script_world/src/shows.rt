//! Lines that show something.

ghost use Rattle.std.specs.Prelude.{◌≡◌, ◌++◌, [], ◌∷◌, codes, length, take, drop, filter, IfOk, OnOk};
ghost use Rattle.std.specs.Fmt.{decimal};
ghost use Rattle.std.specs.Ordering.{eq_by_cmp};
ghost use Rattle.hex.specs.Hex.{encode_lower};
ghost use Rattle.ivy_base.specs.Naming.{owner_cmp};
ghost use Rattle.log_model.specs.Heads.{owner_in};
ghost use Rattle.world_model.specs.Shows.{proof_text};
ghost use Rattle.script_world.specs.Held.{key_lines};

use crate::parts::Parts;
use dht_ids::Post;
use fork_proof::find;
use ivy_base::{Bytes, Key, Memory, PubKey};
use script_driver::Taken;
use script_model::{NodeWord, Shown};
use std::alloc::Global;

impl Parts {
    ghost use Rattle.script_model.specs.declared.command.Shown.TheVariants as shown;
    ghost use Rattle.fork_model.specs.Before.{Before, TellsRecords};
    ghost use Rattle.world_model.specs.Shows.{Shows, show_line};
    ghost use Rattle.script_world.specs.PartsState.{DoesIn};

    /// A line that shows something. The error is: out of memory.
    pub fn show(&self, alloc: Global, what: &Shown) -> Result<Taken, Memory>
        ensures { IfOk result (λ taken. DoesIn (λ w outcome. Shows w what.now outcome) self.now taken self.now) }
    {
        self.show_by(alloc, what)
    }

    /// The same, by whatever tells which of the blocks met are records. The error is: out of memory.
    fn show_by(&self, alloc: Global, what: &Shown) -> Result<Taken, Memory>
        ensures { (before : Before) → TellsRecords before → IfOk result (λ taken. DoesIn (λ w outcome. outcome ≡ show_line before w what.now) self.now taken self.now) }
    {
        match what {
            Shown::Holds { node } => self.holds(alloc, node),
            Shown::Order { log } => self.order(alloc, log.as_slice()),
            Shown::Work { log } => self.work(alloc, log.as_slice()),
            Shown::Conflicts { log } => self.conflicts(alloc, log.as_slice()),
            Shown::Proof { log } => self.proof(alloc, log.as_slice()),
        }
    }

    /// The line `holds`: shows the keys of the blocks that a live node holds, ascending. The error is: out of memory.
    fn holds(&self, alloc: Global, node: &NodeWord) -> Result<Taken, Memory>
        ensures { (before : Before) → IfOk result (λ taken. DoesIn (λ w outcome. outcome ≡ show_line before w (shown.Holds node.now)) self.now taken self.now) }
    {
        let Some(peer) = self.peer_named(alloc, node)? else {
            return Ok(Taken::Refused);
        };
        let Some(held) = self.nodes.held(alloc, &peer.id)? else {
            return Ok(Taken::Refused);
        };
        Ok(Taken::Went(held_text(alloc, peer.number, held.as_slice())?))
    }

    /// The line `order`: shows the records that a participant in a view holds. The error is: out of memory.
    fn order(&self, alloc: Global, log: &[u8]) -> Result<Taken, Memory>
        ensures { (before : Before) → IfOk result (λ taken. DoesIn (λ w outcome. outcome ≡ show_line before w (shown.Order log.now)) self.now taken self.now) }
    {
        let Some(one) = self.participants.named(log) else {
            return Ok(Taken::Refused);
        };
        if one.view().is_none() {
            return Ok(Taken::Refused);
        }
        Ok(Taken::Went(self.participants.order_text(alloc, one)?))
    }

    /// The line `work`: shows how many records a participant's last turn applied, where it is in a view. The error is: out of
    /// memory.
    fn work(&self, alloc: Global, log: &[u8]) -> Result<Taken, Memory>
        ensures { (before : Before) → IfOk result (λ taken. DoesIn (λ w outcome. outcome ≡ show_line before w (shown.Work log.now)) self.now taken self.now) }
    {
        let Some(one) = self.participants.named(log) else {
            return Ok(Taken::Refused);
        };
        if one.view().is_none() {
            return Ok(Taken::Refused);
        }
        Ok(Taken::Went(one.work_text(alloc)?))
    }

    /// The line `conflicts`: shows which of the records that a participant in a view holds are in conflict. It meets a limit
    /// where there are more than 1,000,000 pairs. The error is: out of memory.
    fn conflicts(&self, alloc: Global, log: &[u8]) -> Result<Taken, Memory>
        ensures { (before : Before) → IfOk result (λ taken. DoesIn (λ w outcome. outcome ≡ show_line before w (shown.Conflicts log.now)) self.now taken self.now) }
    {
        let Some(one) = self.participants.named(log) else {
            return Ok(Taken::Refused);
        };
        if one.view().is_none() {
            return Ok(Taken::Refused);
        }
        match self.participants.conflicts_text(alloc, one)? {
            Some(text) => Ok(Taken::Went(text)),
            None => Ok(Taken::Exceeded),
        }
    }

    /// The line `proof`: shows that a participant's log was signed into two histories, where the blocks met show it. The error
    /// is: out of memory.
    fn proof(&self, alloc: Global, log: &[u8]) -> Result<Taken, Memory>
        ensures { (before : Before) → TellsRecords before → IfOk result (λ taken. DoesIn (λ w outcome. outcome ≡ show_line before w (shown.Proof log.now)) self.now taken self.now) }
    {
        let Some(one) = self.participants.named(log) else {
            return Ok(Taken::Refused);
        };
        let blocks = self.met.in_order(alloc)?;
        let heads = heads_of(alloc, &one.owner(), blocks.as_slice())?;
        let found = find(alloc, heads.as_slice(), blocks.as_slice())?;
        Ok(Taken::Went(found_text(alloc, &found)?))
    }
}

/// Copies of the blocks in which that public key stands where a head has its owner's. The error is: out of memory.
fn heads_of(alloc: Global, owner: &PubKey, blocks: &[Bytes]) -> Result<Vec<Bytes>, Memory>
    ensures { IfOk result (λ heads. heads.items ≡ filter (λ b. eq_by_cmp owner_cmp (owner_in b) owner.now) blocks.now) }
{
    let mut heads = Vec::new(alloc);
    'each: for block in blocks {
        if is_of(block.as_slice(), owner) {
            heads.push(block.copy(alloc)?)?;
        }
    }
    Ok(heads)
}

/// Whether that public key stands in the block where a head has its owner's.
fn is_of(block: &[u8], owner: &PubKey) -> bool
    ensures { result ≡ eq_by_cmp owner_cmp (owner_in block.now) owner.now }
{
    first(behind(block, 4), 60) == owner.0.as_slice()
}

/// What stands after so many bytes.
fn behind(bytes: &[u8], count: usize) -> &[u8]
    ensures { result.now ≡ drop count bytes.now }
{
    &bytes[count.min(bytes.len())..]
}

/// So many first bytes, or all where there are fewer.
fn first(bytes: &[u8], count: usize) -> &[u8]
    ensures { result.now ≡ take count bytes.now }
{
    &bytes[..count.min(bytes.len())]
}

/// What is shown of a proof that was found, or of none. The error is: out of memory.
fn found_text(alloc: Global, found: &Option<Bytes>) -> Result<Vec<u8>, Memory>
    ensures { IfOk result (λ text. text.items ≡ codes "proof" ++ 32 ∷ proof_text found.now) }
{
    match found {
        Some(proof) => digits_text(alloc, proof.as_slice()),
        None => Ok(b"proof none\n".to_vec(alloc)?),
    }
}

/// What is shown of a proof. The error is: out of memory.
fn digits_text(alloc: Global, proof: &[u8]) -> Result<Vec<u8>, Memory>
    ensures { IfOk result (λ text. text.items ≡ codes "proof " ++ encode_lower proof.now ++ 10 ∷ []) }
{
    let digits = hex::encode(alloc, proof)?;
    let mut text = b"proof ".to_vec(alloc)?;
    text.extend_from_slice(digits.as_bytes())?;
    text.push(b'\n')?;
    Ok(text)
}

/// What is shown of the node of that number, which holds these blocks. The error is: out of memory.
fn held_text(alloc: Global, number: u32, held: &[Post]) -> Result<Vec<u8>, Memory>
    ensures { IfOk result (λ text. text.items ≡ codes "holds " ++ decimal number ++ 32 ∷ decimal (length held.now) ++ 10 ∷ key_lines held.now) }
{
    let count = held.len();
    let mut text = format!(in alloc; "holds {number} {count}\n")?.into_bytes();
    put_keys(alloc, &mut text, held)?;
    Ok(text)
}

/// Appends a line for each block's key. The error is: out of memory.
fn put_keys(alloc: Global, text: &mut Vec<u8>, held: &[Post]) -> Result<(), Memory>
    ensures { OnOk result (text.new.items ≡ text.old.items ++ key_lines held.now) }
{
    'posts: for post in held {
        put_key(alloc, text, &post.key)?;
    }
    Ok(())
}

/// Appends a key's line. The error is: out of memory.
fn put_key(alloc: Global, text: &mut Vec<u8>, key: &Key) -> Result<(), Memory>
    ensures { OnOk result (text.new.items ≡ text.old.items ++ encode_lower key.now.0 ++ 10 ∷ []) }
{
    let digits = hex::encode(alloc, &key.0)?;
    text.extend_from_slice(digits.as_bytes())?;
    text.push(b'\n')?;
    Ok(())
}
