//! What is known of the newest held records.

ghost use Rattle.std.specs.Prelude.{◌≡◌, ◌≤◌, [], length, count_by, Contains, IfOk, OnOk};
ghost use Rattle.std.specs.List.{AllByRecursion, list_any, position_or_len};
ghost use Rattle.std.specs.Ordering.{is_lt};
ghost use Rattle.ivy_base.specs.Naming.{key_cmp, head_key_of};
ghost use Rattle.tree_model.specs.Tree.{same_key};
ghost use Rattle.log_model.specs.Fetched.{as_edge};
ghost use Rattle.log_records.specs.Records.{record_of, records_of};
ghost use Rattle.log_fetch.specs.Edges.{edges_of};
ghost use Rattle.log_fetch.specs.Standings.{standing_of};
ghost use Rattle.ivy_agent.specs.Edges.{is_beyond, newest_edges, put_under, AreOfAtMost, IsBeyond, KnowsOthers};

use crate::keys::{is_among, is_same};
use dht_ids::Posts;
use ivy_base::{Key, Memory, PubKey};
use log_fetch::{Edge, Edges, Standing};
use log_records::Record;
use std::alloc::Global;
use version_vectors::Vector;
use view_blocks::View;

/// The standing of one with that key in that view, which holds nothing and knows nothing. The error is: out of memory.
pub fn standing_without(
    alloc: Global,
    view: &View,
    own: PubKey,
    basis: Option<Key>,
) -> Result<Standing, Memory>
    ensures view { IfOk result (λ s. s.view ≡ view.now) }
    ensures own { IfOk result (λ s. s.own ≡ own) }
    ensures basis { IfOk result (λ s. s.basis ≡ basis) }
{
    Ok(Standing {
        view: view.copy(alloc)?,
        own,
        held: Vector::empty(alloc),
        floor: Vector::empty(alloc),
        edges: Edges::of(Vec::new(alloc)),
        basis,
        pending: Posts::of(Vec::new(alloc)),
    })
}

/// Puts into the standing what is held of its members' logs over the basis, up to the front; how far all is known; and what is
/// pending. It owns nothing where it exits. The error is: out of memory.
pub fn fill(
    alloc: Global,
    standing: &mut Standing,
    base: &Vector,
    front: &Vector,
    floor: &Vector,
    records: &[Record],
    pending: &Posts,
) -> Result<(), Memory>
    requires others { AllByRecursion KnowsOthers (records_of records.now) }
    requires members { AllByRecursion (λ r. Contains standing.old.view.members r.owner) (records_of records.now) }
    requires beyond { AllByRecursion (IsBeyond base.now front.now) (records_of records.now) }
    ensures { OnOk result (standing.new ≡ record standing.old { held = front.now; floor = floor.now; edges = newest_edges (records_of records.now); pending = pending.now }) }
{
    fill_fronts(alloc, standing, front, floor)?;
    let most = standing.view.members().len().min(count_beyond(base, front));
    standing.edges = newest_edges(alloc, &standing.view, records, most)?;
    standing.pending = pending.copy(alloc)?;
    Ok(())
}

/// In how many logs the front goes further than the basis does.
fn count_beyond(base: &Vector, front: &Vector) -> usize
    ensures { result ≡ count_by (is_beyond base.now) front.now }
{
    front
        .entries()
        .iter()
        .filter(|entry| base.seq_of(&entry.log) < entry.seq)
        .count()
}

/// Puts into the standing what is held, and how far all is known. The error is: out of memory.
fn fill_fronts(
    alloc: Global,
    standing: &mut Standing,
    front: &Vector,
    floor: &Vector,
) -> Result<(), Memory>
    ensures { OnOk result (standing.new ≡ record standing.old { held = front.now; floor = floor.now }) }
{
    standing.held = front.copy(alloc)?;
    standing.floor = floor.copy(alloc)?;
    Ok(())
}

/// What is told where memory ran out for a standing, which is dropped here alone.
pub fn let_go(_: Standing) -> Memory {
    Memory
}

/// What is known of the newest record of each log, ascending by log, where the records ascend and are of at most `most` logs. The
/// view knows the logs of its members, and no record is looked at that is older than the newest ones of so many logs. The error
/// is: out of memory.
fn newest_edges(
    alloc: Global,
    view: &View,
    records: &[Record],
    most: usize,
) -> Result<Edges, Memory>
    requires others { AllByRecursion KnowsOthers (records_of records.now) }
    requires few { AreOfAtMost most (records_of records.now) }
    ensures { IfOk result (λ edges. edges ≡ newest_edges (records_of records.now)) }
{
    let mut owners: Vec<PubKey> = Vec::new(alloc);
    let mut edges: Vec<Edge> = Vec::new(alloc);
    let mut left = records.len();
    'records: while left > 0 && edges.len() < most {
        left -= 1;
        let record = &records[left];
        if is_among(owners.as_slice(), &record.owner) {
            continue;
        }
        owners.push(record.owner)?;
        put_under(alloc, view, &mut edges, record)?;
    }
    Ok(Edges::of(edges))
}

/// Puts the record's edge in its place, where none of its log is there. The error is: out of memory.
fn put_under(alloc: Global, view: &View, edges: &mut Vec<Edge>, held: &Record) -> Result<(), Memory>
    ensures { OnOk result (edges_of edges.new.items ≡ put_under (head_key_of held.now.owner) (as_edge (record_of held.now)) (edges_of edges.old.items)) }
{
    let log = view.head_key(&held.owner);
    if has_log(edges.as_slice(), &log) {
        return Ok(());
    }
    let place = place_of(edges.as_slice(), &log);
    let edge = Edge {
        log,
        vector: held.vector.copy(alloc)?,
    };
    edges.insert(place, edge)?;
    Ok(())
}

/// Whether one of the edges is the log's.
fn has_log(edges: &[Edge], log: &Key) -> bool
    ensures { result ≡ list_any (λ e. same_key log.now e.log) edges.now }
{
    edges.iter().any(|edge| is_same(log, &edge.log))
}

/// How many edges stand before the first one of a later log.
fn place_of(edges: &[Edge], log: &Key) -> usize
    ensures value { result ≡ position_or_len (λ e. is_lt (key_cmp log.now e.log)) edges.now }
    ensures within { result ≤ length edges.now }
{
    'edges: for (place, edge) in edges.iter().enumerate() {
        if is_past(log, edge) {
            return place;
        }
    }
    edges.len()
}

/// Whether the edge is of a later log.
fn is_past(log: &Key, edge: &Edge) -> bool
    ensures { result ≡ is_lt (key_cmp log.now edge.now.log) }
{
    log.cmp(&edge.log).is_lt()
}

/// The standing of one that holds nothing, and else the same.
pub fn without_held(alloc: Global, mut standing: Standing) -> Standing
    ensures { standing_of result ≡ record (standing_of standing) { held = []; edges = [] } }
{
    standing.held = Vector::empty(alloc);
    standing.edges = Edges::of(Vec::new(alloc));
    standing
}
