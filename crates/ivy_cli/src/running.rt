//! The top call: what the words ask for is done.

ghost use Rattle.std.specs.Prelude.{◌≡◌, ◌⊎◌, ◌≤◌, ℕ, None, length, map, string_bytes, take};
ghost use Rattle.hash_signature_model.specs.Saved.{IsSigner, hss};
ghost use Rattle.agent_gate.specs.Taking.{kind_of};
ghost use Rattle.ivy_io.specs.Causes.{Rose};
ghost use Rattle.ivy_io.specs.Known.{then};
ghost use Rattle.ivy_serving.specs.Jobs.{ends_of, serving_of};
ghost use Rattle.ivy_serving.specs.Serving.{ports_of};
ghost use Rattle.ivy_service.specs.Service.{keepers_of, service_of};
ghost use Rattle.ivy_cli.specs.Runs.{Does, EndsWell, IsPlay};
ghost use Rattle.ivy_cli.specs.Words.{asked_of, usage_line};

use crate::crowding::tell_crowd;
use crate::forking::fork;
use crate::loading::load;
use crate::serving::serve_participant;
use crate::words::{Asked, read_words};
use ivy_base::Memory;
use ivy_io::{Clock, Keepers, Ports, Sink, SinkFault, Source, write_all};
use ivy_play::{Status, play};
use std::alloc::Global;
use std::sync::Wait;
use std::thread::Threads;

/// What is told where the words are of no form.
const USAGE: &[u8; 88] =
    b"usage: ivy play | load SEED CALLS | crowd T CALLS | serve PORT NAME ID SEED SETS | fork\n";

/// The status of a program that was called by other words.
const STATUS_USAGE: Status = 2;

/// The status of a program for which memory ran out.
const STATUS_MEMORY: Status = 6;

/// Does what the words after the program's name ask for. `play` plays the script of the source, and `load SEED CALLS` a
/// generated one. `crowd T CALLS` has threads of one participant create files. `serve PORT NAME ID SEED SETS` serves a
/// participant until the ports end or fail. `fork` checks the fork proof that the source has in digits, as [`fork`] does. Status
/// 2 comes exactly where the words are of no such form, and then the sink is told the usage line. Status 6 means out of memory.
///
/// The runtime is for `crowd` and `serve` alone, which start threads and wait for them. No clause says that these return. The
/// clock is used by both, the ports and the keepers by `serve` alone, and the source by `play` and `fork` alone: what isn't used
/// stays as it was, what it holds and its counts.
pub fn run<R: Threads + Wait + Sync, Q: Source, W: Sink, C: Clock, P: Ports + Send, K: Keepers>(
    rt: &R,
    alloc: Global,
    words: &[String],
    source: &mut Q,
    sink: &mut W,
    clock: &mut C,
    ports: &mut P,
    keepers: &mut K,
) -> Status
    ensures does { Does (service_of (ports_of P.links P.faults P.ends P.gives P.takes)
        (serving_of (kind_of hss IsSigner K.One.saves) (ends_of P.Reads.left P.Writes.contents P.Reads.faults P.Writes.faults) C.gives)
        (keepers_of K.lends K.takes K.faults) C.moment)
        (asked_of (map (λ word. string_bytes word) words.now)) result
        (record {
          streams = record { left = Q.left source.old; held = W.contents sink.old; reads = Q.faults source.old; writes = W.faults sink.old };
          clock = clock.old;
          ports = ports.old;
          keepers = keepers.old;
        })
        (record {
          streams = record { left = Q.left source.new; held = W.contents sink.new; reads = Q.faults source.new; writes = W.faults sink.new };
          clock = clock.new;
          ports = ports.new;
          keepers = keepers.new;
        }) }
    ensures usage { result ≡ 2 → asked_of (map (λ word. string_bytes word) words.now) ≡ None }

    // Where no count of faults rises, a crowd or a service ends with 0, or memory ran out.
    ensures complete { ¬ Rose (W.faults sink.old) (W.faults sink.new) → ¬ Rose (P.faults ports.old) (P.faults ports.new)
        → ¬ Rose (K.faults keepers.old) (K.faults keepers.new) → EndsWell (asked_of (map (λ word. string_bytes word) words.now)) result }
{
    match read_words(alloc, words) {
        Ok(Some(Asked::Play)) => play_script(alloc, source, sink),
        Ok(Some(Asked::Load { seed, calls })) => load(alloc, seed, calls, sink),
        Ok(Some(Asked::Crowd { threads, calls })) => {
            tell_crowd(rt, alloc, threads, calls, sink, clock)
        }
        Ok(Some(Asked::Serve { port, participant })) => serve_participant(
            rt,
            alloc,
            port,
            &participant,
            sink,
            clock,
            ports,
            keepers,
        ),
        Ok(Some(Asked::Fork)) => fork(alloc, source, sink),
        Ok(None) => tell_usage(sink),
        Err(Memory) => STATUS_MEMORY,
    }
}

/// Plays the script of the source, as [`play`] does.
fn play_script<Q: Source, W: Sink>(alloc: Global, source: &mut Q, sink: &mut W) -> Status
    ensures { IsPlay result
        (record { left = Q.left source.old; held = W.contents sink.old; reads = Q.faults source.old; writes = W.faults sink.old })
        (record { left = Q.left source.new; held = W.contents sink.new; reads = Q.faults source.new; writes = W.faults sink.new }) }
{
    play(alloc, source, sink)
}

/// Tells the sink how the words should be.
fn tell_usage<W: Sink>(sink: &mut W) -> Status
    ensures ends { (result ≡ 2) ⊎ (result ≡ 6) }
    ensures told { result ≡ 2 → (W.contents sink.new ≡ then (W.contents sink.old) usage_line) ⊎ Rose (W.faults sink.old) (W.faults sink.new) }
    ensures front { (k : ℕ) × (k ≤ length usage_line) × (W.contents sink.new ≡ then (W.contents sink.old) (take k usage_line)) }
    ensures later { W.faults sink.old ≤ W.faults sink.new }
{
    match write_all(sink, USAGE.as_slice()) {
        Ok(()) => STATUS_USAGE,
        Err(SinkFault::Failed) => STATUS_USAGE,
        Err(SinkFault::Memory) => STATUS_MEMORY,
    }
}
