//! Records in a row, which contracts see as their list.

ghost use Rattle.std.specs.Prelude.{◌≡◌, IfOk};

use crate::record::Record;
use ivy_base::Memory;
use std::alloc::Global;
use std::marker::Model;

/// Records in a row.
pub struct Records {
    records: Vec<Record>,
}

// Written out, so that whatever drops one calls this and isn't proved over all of its parts once more.
impl Drop for Records {
    fn drop(self) {
        let Records { records: _ } = self;
    }
}

impl Model for Records {
    ghost use Rattle.std.specs.Prelude.{List};
    ghost use Rattle.log_records.specs.declared.record.Record.{Record};

    ghost Value = { List Record };

    ghost view = { λ r. r.records.items };
}

impl Records {
    /// The records of a vector, which is not copied.
    pub fn of(items: Vec<Record>) -> Records
        ensures { result ≡ items.items }
    {
        Records { records: items }
    }

    /// The records as a vector, which is not copied.
    pub fn into_vec(self) -> Vec<Record>
        ensures { result.items ≡ self }
    {
        let Records { records } = self;
        records
    }

    /// The records as a slice.
    pub fn as_slice(&self) -> &[Record]
        ensures { result.now ≡ self.now }
    {
        self.records.as_slice()
    }

    /// A copy of these records and of what they have. The error is: out of memory.
    pub fn copy(&self, alloc: Global) -> Result<Records, Memory>
        ensures { IfOk result (λ copy. copy ≡ self.now) }
    {
        let Ok(mut records) = Vec::with_capacity(alloc, self.records.len()) else {
            return Err(Memory);
        };
        for held in &self.records {
            let Ok(copy) = held.copy(alloc) else {
                return Err(Memory);
            };
            records.push_reserved(copy);
        }
        Ok(Records { records })
    }
}
