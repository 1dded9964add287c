//! Records of one log, by their numbers.

ghost use Rattle.std.specs.Prelude.{◌≡◌, ◌≤◌, nat_le, nat_lt, length, filter, take, drop};
ghost use Rattle.log_records.specs.Records.{records_of};
ghost use Rattle.turn_taking.specs.Chains.{AreNumbered};

use log_records::Record;

/// How many of the records, which are numbered one after the other, have that number at most.
pub fn count_to(records: &[Record], number: u32) -> usize
    requires { AreNumbered (records_of records.now) }
    ensures within { result ≤ length records.now }
    ensures front { filter (λ r. nat_le r.seq number) (records_of records.now) ≡ take result (records_of records.now) }
    ensures rest { filter (λ r. nat_lt number r.seq) (records_of records.now) ≡ drop result (records_of records.now) }
{
    match records.first() {
        Some(first) => (number.saturating_sub(first.seq - 1) as usize).min(records.len()),
        None => 0,
    }
}
