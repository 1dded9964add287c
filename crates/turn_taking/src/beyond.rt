//! What of a chain is new over a front.

ghost use Rattle.std.specs.Prelude.{◌≡◌, option_map};
ghost use Rattle.ivy_base.specs.Naming.{head_key_of};
ghost use Rattle.version_vectors.specs.Entries.{stamped};
ghost use Rattle.log_model.specs.Fetched.{owner_of};
ghost use Rattle.log_records.specs.Records.{records_of};
ghost use Rattle.agent_model.specs.Standing.{beyond, go_on_from};
ghost use Rattle.turn_taking.specs.Chains.{AreNumbered, as_chain};

use crate::keys::is_same;
use crate::numbers::count_to;
use ivy_base::Key;
use log_records::Record;
use version_vectors::{Entry, Vector};

/// The chain's records beyond the front, if they go on from it; else none. The key is that of their log.
pub fn beyond<'a>(front: &Vector, log: &Key, records: &'a [Record]) -> &'a [Record]
    requires log { log.now ≡ head_key_of (owner_of (records_of records.now)) }
    requires numbered { AreNumbered (records_of records.now) }
    ensures { records_of result.now ≡ beyond front.now (as_chain (records_of records.now)) }
{
    let rest = &records[count_to(records, front.seq_of(log))..];
    if go_on_from(front.get(log), rest) {
        rest
    } else {
        &[]
    }
}

/// Whether the records go on from that entry of their log, or from the log's beginning.
fn go_on_from(from: Option<Entry>, records: &[Record]) -> bool
    ensures { result ≡ go_on_from (option_map (λ e. (stamped e).1) from) (records_of records.now) }
{
    match (records.first(), from) {
        (Some(first), Some(entry)) => {
            u64::from(first.seq) == u64::from(entry.seq) + 1 && is_same(&first.prev, &entry.name)
        }
        (Some(first), None) => first.seq == 1,
        (None, _) => false,
    }
}
