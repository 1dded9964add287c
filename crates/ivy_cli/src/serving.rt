//! A service.

ghost use Rattle.hash_signature_model.specs.Saved.{AreLevels, IsSigner, hss};
ghost use Rattle.agent_gate.specs.Taking.{kind_of};
ghost use Rattle.ivy_serving.specs.Jobs.{ends_of, serving_of};
ghost use Rattle.ivy_serving.specs.Serving.{ports_of};
ghost use Rattle.ivy_service.specs.Service.{Goes, keepers_of, service_of};
ghost use Rattle.ivy_cli.specs.Runs.{service_asked};

use crate::words::Participant;
use hss_keys::Hss;
use ivy_base::Memory;
use ivy_io::{Clock, Keepers, Ports, Sink};
use ivy_play::Status;
use ivy_service::serve;
use std::alloc::Global;
use std::sync::Wait;
use std::thread::Threads;

/// The status of a program for which memory ran out.
const STATUS_MEMORY: Status = 6;

/// Grows the participant's key, with which nothing was signed yet, and serves the participant on the port, as [`serve`] does.
///
/// Where memory runs out for the key the status is 6, and nothing outside was touched.
pub(crate) fn serve_participant<
    R: Threads + Wait + Sync,
    W: Sink,
    C: Clock,
    P: Ports + Send,
    K: Keepers,
>(
    rt: &R,
    alloc: Global,
    port: u16,
    participant: &Participant,
    sink: &mut W,
    clock: &mut C,
    ports: &mut P,
    keepers: &mut K,
) -> Status
    requires { AreLevels participant.now.sets }
    ensures { Goes (service_of (ports_of P.links P.faults P.ends P.gives P.takes)
        (serving_of (kind_of hss IsSigner K.One.saves) (ends_of P.Reads.left P.Writes.contents P.Reads.faults P.Writes.faults) C.gives)
        (keepers_of K.lends K.takes K.faults) C.moment)
        (service_asked port participant.now)
        (record { around = record { ports = ports.old; held = W.contents sink.old; writes = W.faults sink.old }; keepers = keepers.old; clock = clock.old })
        result
        (record { around = record { ports = ports.new; held = W.contents sink.new; writes = W.faults sink.new }; keepers = keepers.new; clock = clock.new }) }
{
    let Ok(signer) = Hss::grow(
        alloc,
        &participant.id,
        &participant.seed,
        participant.sets.as_slice(),
    ) else {
        return STATUS_MEMORY;
    };
    serve(
        rt,
        alloc,
        port,
        participant.name.as_slice(),
        signer,
        sink,
        clock,
        ports,
        keepers,
    )
}
