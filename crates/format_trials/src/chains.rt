//! Chains of records that were fetched for a head.

ghost use Rattle.std.specs.Prelude.{◌≡◌, None, IsTrue, IfSome};
ghost use Rattle.ivy_base.specs.Naming.{head_key_of};
ghost use Rattle.log_model.specs.Vector.{stamp_at};
ghost use Rattle.log_model.specs.Fetched.{owner_of};
ghost use Rattle.log_records.specs.Records.{records_of};
ghost use Rattle.log_records.specs.Batches.{AreOfOneOwner};

use crate::gather::are_of;
use crate::held::Held;
use crate::line::Line;
use crate::text::Text;
use crate::vectors::{next_vector, vector_of_word};
use dht_ids::Judged;
use ivy_base::{Key, PubKey, head_key};
use log_records::{Batch, Chain, ChainFault, Edge, Record};
use version_vectors::Vector;
use view_blocks::View;

/// The edge that the next word is, of which `none` has none.
fn next_edge(line: &mut Line<'_>) -> Option<Edge> {
    let word = line.word();
    if word == "none" {
        return None;
    }
    let vector = vector_of_word(line, word);
    Some(Edge::of_vector(vector))
}

/// Adds the owner's record that the next word is.
fn add_record(line: &mut Line<'_>, records: &mut Vec<Record>, owner: &PubKey) {
    let block = line.bytes();
    match Record::read(line.text.alloc, &block, owner) {
        Ok(record) => line.text.push(records, record),
        Err(_) => line.fail(),
    }
}

/// The owner's records that the words left are.
fn records_of_words(line: &mut Line<'_>, owner: &PubKey) -> Vec<Record> {
    let mut records = Vec::new(line.text.alloc);
    for _n in 0..line.words_left() {
        add_record(line, &mut records, owner);
    }
    records
}

/// Whether the edge, where it is known, leaves that log out.
fn leaves_out(edge: &Option<Edge>, log: &Key) -> bool
    ensures { IsTrue result → IfSome edge.now (λ e. stamp_at e.vector log.now ≡ None) }
{
    match edge {
        Some(edge) => edge.vector().get(log).is_none(),
        None => true,
    }
}

/// Tells what a batch over what is held says to the chain: `ok` where it is in the batch then.
fn put_told(
    out: &mut Text,
    view: &View,
    held: &Vector,
    floor: &Vector,
    head: Judged,
    chain: Vec<Record>,
    owner: PubKey,
    edge: Option<Edge>,
)
    requires owner { AreOfOneOwner (records_of chain.items) }
    requires own { owner_of (records_of chain.items) ≡ owner }
    requires edge { IfSome edge (λ e. stamp_at e.vector (head_key_of owner) ≡ None) }
{
    let Ok(mut batch) = Batch::over(out.alloc, held, floor) else {
        return out.lack();
    };
    let count = chain.len();
    let fault = batch.add_chain(out.alloc, view, head, chain, edge).err();
    put_batch(out, held, batch, fault, &head, count);
}

/// Adds what a batch said to the chain of so many records with that head.
fn put_batch(
    out: &mut Text,
    held: &Vector,
    batch: Batch,
    fault: Option<ChainFault>,
    head: &Judged,
    count: usize,
) {
    let is_same = batch.started().entries() == held.entries();
    let chains = batch.into_chains();
    out.add(word_of(fault, is_same, &chains, head, count));
}

/// The word for what a batch says to a chain of so many records, where `is_same` says whether what it is over is as before.
fn word_of(
    fault: Option<ChainFault>,
    is_same: bool,
    chains: &[Chain],
    head: &Judged,
    count: usize,
) -> &'static str {
    match (fault, chains) {
        (Some(ChainFault::Bad), []) => "bad",
        (Some(ChainFault::Fork), []) => "fork",
        (Some(ChainFault::Memory), _) => "out of memory",
        (None, [chain]) if is_same && is_chain(chain, head, count) => "ok",
        _ => "differs",
    }
}

/// Whether it is the chain of so many records with that head.
fn is_chain(chain: &Chain, head: &Judged, count: usize) -> bool {
    chain.head == *head && chain.records.as_slice().len() == count
}

/// Tells the chain that the words are, where there is one and the edge leaves it out.
pub fn chain(line: &mut Line<'_>) {
    let view = line.bytes();
    match View::read(line.text.alloc, &view) {
        Ok(view) => chain_under(line, &Held { value: view }.value),
        Err(_) => line.fail(),
    }
}

/// Tells the chain that the words are, under the view.
fn chain_under(line: &mut Line<'_>, view: &View) {
    let held = next_vector(line);
    let floor = next_vector(line);
    let edge = next_edge(line);
    let owner = line.owner();
    let head = Judged {
        seq: line.number(),
        name: line.key(),
    };
    let chain = records_of_words(line, &owner);
    if are_of(&chain, &owner) && leaves_out(&edge, &head_key(&owner)) {
        put_told(
            &mut line.text,
            view,
            &held,
            &floor,
            head,
            chain,
            owner,
            edge,
        );
    } else {
        line.fail();
    }
}
