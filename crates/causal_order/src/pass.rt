//! Taking the records one after the other.

ghost use Rattle.std.specs.Prelude.{◌≡◌, IfSome, IfNone, OnOk, Contains};
ghost use Rattle.std.specs.Ordering.{is_lt};
ghost use Rattle.log_model.specs.Rank.{rank_cmp};
ghost use Rattle.version_vectors.specs.Ranks.{rank_of};
ghost use Rattle.log_model.specs.View.{IsView};
ghost use Rattle.causal_order.specs.Kept.{IsNext, HaveNone, lesser, known_of, AreKept, IsDecided, IsSeenAt};

use crate::base::Base;
use crate::causes::has_causes;
use crate::log::Log;
use ivy_base::Memory;
use log_records::Record;
use version_vectors::{Rank, ranks_are_ordered};

/// Whether the first rank comes before the other one.
fn is_before(rank: &Rank, other: &Rank) -> bool
    ensures { result ≡ is_lt (rank_cmp (rank_of rank.now) (rank_of other.now)) }
{
    ranks_are_ordered();
    rank.cmp(other).is_lt()
}

/// The lesser of the least rank so far and the next one of the log of that index, where it has one.
fn lesser(least: Option<(usize, Rank)>, i: usize, next: Option<Rank>) -> Option<(usize, Rank)>
    ensures { result ≡ lesser least i next }
{
    match (least, next) {
        (_, None) => least,
        (None, Some(rank)) => Some((i, rank)),
        (Some((_, old)), Some(rank)) => {
            if is_before(&rank, &old) {
                Some((i, rank))
            } else {
                least
            }
        }
    }
}

/// The log whose next record is the least one; none where no log has a next one.
pub fn least(logs: &[Log]) -> Option<usize>
    ensures some { IfSome result (IsNext logs.now) }
    ensures none { IfNone result (HaveNone logs.now) }
{
    let mut least: Option<(usize, Rank)> = None;
    'logs: for (i, log) in logs.iter().enumerate() {
        least = lesser(least, i, log.next);
    }
    least.map(|(at, _)| at)
}

/// Whether the causes of the log's next record are known.
fn may_take(base: &Base<'_>, logs: &[Log], taken: &[Record], log: &Log) -> bool
    requires view { IsView base.now.view.now }
    requires kept { AreKept base.now.view.now base.now.front.now (known_of base.now taken.now) logs.now }
    requires stands { Contains logs.now log.now }
    ensures { IsDecided base.now taken.now log.now result }
{
    match log.front() {
        Some(record) => has_causes(base, logs, taken, record, &log.key),
        None => false,
    }
}

/// Takes the least of the next records, which is the next one of that log, or lets it and the rest of its log go. The
/// error is: out of memory.
pub fn see(
    base: &Base<'_>,
    logs: &mut [Log],
    taken: &mut Vec<Record>,
    i: usize,
) -> Result<(), Memory>
    requires view { IsView base.now.view.now }
    requires kept { AreKept base.now.view.now base.now.front.now (known_of base.now taken.old.items) logs.old }
    requires next { IsNext logs.old i }
    ensures { OnOk result (IsSeenAt base.now logs.old taken.old.items logs.new taken.new.items i) }
{
    let all = &logs[..];
    if may_take(base, all, taken.as_slice(), &all[i]) {
        let place = base.held.len() + taken.len();
        if let Some(record) = logs[i].advance(place)? {
            taken.push(record)?;
        }
    } else {
        logs[i].clear();
    }
    Ok(())
}
