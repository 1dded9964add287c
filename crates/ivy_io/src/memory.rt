//! A source and a sink in memory, of which planned calls fail.

ghost use Rattle.std.specs.Prelude.{◌≡◌, ◌↔◌, ℕ, List, [], length, min, Some, IfOk, OnOk, OnErr, IsErr, IsErrOf, IfErr, Contains};
ghost use Rattle.std.specs.Io.{ReadsAtMost, WritesAtMost};
ghost use Rattle.ivy_io.specs.Causes.{counted, faults_after, HasCause, HasSinkCause};
ghost use Rattle.ivy_io.specs.Known.{ReadTakes, WriteAppends};

use crate::failing::Failing;
use crate::plan::Plan;
use crate::{Failed, Sink, SinkFault, Source};
use ivy_base::Bytes;
use std::alloc::Global;
use std::marker::Model;

/// A source over bytes in memory. Each read gives as many bytes as are left and fit, unless it is planned to fail.
#[derive(Drop)]
pub struct MemSource {
    bytes: Bytes,
    at: usize,
    plan: Plan,
    faults: u64,
}

impl Model for MemSource {
    ghost use Rattle.std.specs.Prelude.{drop};
    ghost use Rattle.ivy_io.specs.States.{SourceState};

    ghost Value = { SourceState };

    ghost view = { λ s. record { left = drop s.at s.bytes; failing = s.plan.failing; calls = s.plan.calls; faults = s.faults } };
}

impl MemSource {
    /// A source that gives these bytes. `fails` has the numbers, from 1, of the reads that fail.
    pub fn new(bytes: Bytes, fails: Failing) -> MemSource
        ensures left { result.left ≡ bytes }
        ensures failing { result.failing ≡ fails }
        ensures calls { result.calls ≡ 0 }
        ensures faults { result.faults ≡ 0 }
    {
        MemSource {
            bytes,
            at: 0,
            plan: Plan {
                failing: fails,
                calls: 0,
            },
            faults: 0,
        }
    }
}

impl Source for MemSource {
    ghost left = { λ s. Some s.left };

    ghost faults = { λ s. s.faults };

    fn read(&mut self, into: &mut [u8]) -> Result<usize, Failed>
        ensures bound { ReadsAtMost result into.new }
        ensures bytes { ReadTakes (Some self.old.left) (Some self.new.left) result into.new }
        ensures cause { HasCause self.old.faults self.new.faults result }

        // Exactly the planned reads fail, and each other one reads all that it can.
        ensures planned { IsErr result ↔ Contains self.old.failing (counted self.old.calls) }
        ensures count { IfOk result (λ n. n ≡ min (length self.old.left) (length into.old)) }
        ensures calls { self.new.calls ≡ counted self.old.calls }
        ensures failing { self.new.failing ≡ self.old.failing }

        // Nothing but a failed read raises the count.
        ensures ok { OnOk result (self.new.faults ≡ self.old.faults) }
        ensures err { OnErr result (self.new.faults ≡ counted self.old.faults) }
    {
        if self.plan.next_fails() {
            self.faults = self.faults.saturating_add(1);
            return Err(Failed);
        }
        let bytes = self.bytes.as_slice();
        if self.at >= bytes.len() {
            return Ok(0);
        }
        let rest = &bytes[self.at..];
        let count = rest.len().min(into.len());
        into[..count].copy_from_slice(&rest[..count]);
        self.at += count;
        Ok(count)
    }
}

/// A sink that keeps what it is given. Each write takes the whole piece, unless it is planned to fail.
#[derive(Drop)]
pub struct MemSink {
    bytes: Vec<u8>,
    plan: Plan,
    faults: u64,
}

impl Model for MemSink {
    ghost use Rattle.ivy_io.specs.States.{SinkState};

    ghost Value = { SinkState };

    ghost view = { λ s. record { written = s.bytes.items; failing = s.plan.failing; calls = s.plan.calls; faults = s.faults } };
}

impl MemSink {
    /// A sink that holds nothing yet. `fails` has the numbers, from 1, of the writes that fail.
    pub fn new(alloc: Global, fails: Failing) -> MemSink
        ensures written { result.written ≡ [] }
        ensures failing { result.failing ≡ fails }
        ensures calls { result.calls ≡ 0 }
        ensures faults { result.faults ≡ 0 }
    {
        MemSink {
            bytes: Vec::new(alloc),
            plan: Plan {
                failing: fails,
                calls: 0,
            },
            faults: 0,
        }
    }

    /// What was written.
    pub fn written(&self) -> &[u8]
        ensures { result.now ≡ self.now.written }
    {
        self.bytes.as_slice()
    }
}

impl Sink for MemSink {
    ghost contents = { λ s. Some s.written };

    ghost faults = { λ s. s.faults };

    fn write(&mut self, from: &[u8]) -> Result<usize, SinkFault>
        ensures bound { WritesAtMost result from.now }
        ensures bytes { WriteAppends (Some self.old.written) (Some self.new.written) result from.now }
        ensures cause { HasSinkCause self.old.faults self.new.faults from.now result }

        // Exactly the planned writes fail, and each other one takes all, unless memory runs out.
        ensures planned { IsErrOf result SinkFault.Failed ↔ Contains self.old.failing (counted self.old.calls) }
        ensures count { IfOk result (λ n. n ≡ length from.now) }
        ensures calls { self.new.calls ≡ counted self.old.calls }
        ensures failing { self.new.failing ≡ self.old.failing }

        // Nothing but a failed write raises the count.
        ensures ok { OnOk result (self.new.faults ≡ self.old.faults) }
        ensures err { IfErr result (λ fault. self.new.faults ≡ faults_after fault self.old.faults) }
    {
        if self.plan.next_fails() {
            self.faults = self.faults.saturating_add(1);
            return Err(SinkFault::Failed);
        }
        match self.bytes.extend_from_slice(from) {
            Ok(()) => Ok(from.len()),
            Err(_) => Err(SinkFault::Memory),
        }
    }
}
