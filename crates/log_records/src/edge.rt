//! What is known of the held record that a chain goes on from.

ghost use Rattle.std.specs.Prelude.{◌≡◌, IfOk};
ghost use Rattle.log_model.specs.Fetched.{as_edge};
ghost use Rattle.log_records.specs.Records.{record_of};

use crate::record::Record;
use ivy_base::Memory;
use std::alloc::Global;
use std::marker::Model;
use version_vectors::Vector;

/// What is known of the newest held record of a log, beside its number and its name: what the next record of the log has
/// to keep to. Contracts see the record's vector, which knows nothing of its own log.
#[derive(Drop)]
pub struct Edge {
    vector: Vector,
}

impl Model for Edge {
    ghost use Rattle.log_model.specs.Fetched.{Edge as Known};

    ghost Value = { Known };

    ghost view = { λ e. record { vector = e.vector } };
}

impl Edge {
    /// What is known of a record of that vector.
    pub fn of_vector(vector: Vector) -> Edge
        ensures { result ≡ record { vector = vector } }
    {
        Edge { vector }
    }

    /// What is known of that record once it is held. The error is: out of memory.
    pub fn of(alloc: Global, held: &Record) -> Result<Edge, Memory>
        ensures { IfOk result (λ edge. edge ≡ as_edge (record_of held.now)) }
    {
        match held.vector.copy(alloc) {
            Ok(vector) => Ok(Edge { vector }),
            Err(_) => Err(Memory),
        }
    }

    /// The record's vector.
    pub fn vector(&self) -> &Vector
        ensures { result.now ≡ self.now.vector }
    {
        &self.vector
    }
}
