//! The public call: a script is played.

ghost use Rattle.std.specs.Prelude.{◌≡◌, ◌⊎◌, ◌≤◌, ℕ, List, IfSome};
ghost use Rattle.ivy_io.specs.Causes.{Rose};
ghost use Rattle.script_driver.specs.Run.{Ran, Ending, Ended, RefusedAt, LimitAt};
ghost use Rattle.script_driver.specs.Told.{TellsAll, TellsFront, TellsLess, StopsShort};
ghost use Rattle.stage_laws.specs.Promise.{PromisedStep};
ghost use Rattle.ivy_play.specs.Playing.{initial_world, ivy_runs, IsPlayed, RunsFully};
ghost use Rattle.ivy_play.specs.Status.{status_of};

use ivy_io::{Sink, Source};
use script_driver::{Fault, Stop, run_script};
use script_machine::ScriptMachine;
use std::alloc::Global;

/// How a program ended.
///
/// 0: the script was played to its line `end`. 3: a line was refused. 4, 5: reading or writing failed. 6: memory
/// ran out. 7: a line met a limit.
pub type Status = u8;

/// Plays the script of a source, and writes what its lines show to a sink.
///
/// The script is the first 2^40 bytes of the source. Lines are obeyed in their order, and what they show is written
/// in that order: where a read fails, all that the whole lines before it show has been written (`waits` below). A
/// line that is refused shows `refused N`, with its number from 1. A line that meets a limit shows `limit N`. Either
/// ends the run. What follows the line `end` is not obeyed.
///
/// A run is defined line by line, by the step of `world_model` together with what is promised of each line
/// (`PromisedStep` of `stage_laws`). Four things are promised.
///
/// The headline, in every run (`Headline` of `world_laws`). Sessions may be open side by side, asks may be lost,
/// and blocks may be damaged. If no two different blocks have one name, each reply of a turn is the answer of NFS
/// version 3 (RFC 1813) on one tree. It is the tree that is replayed, from nothing, from one causally closed set of
/// verified records. Any other reply has its cause in the session at the end of the steps that its line made.
///
/// Calm scripts are served (`IsServedWhereCalm` of `calm_laws`). In a calm script no ask was lost so far, no
/// block was damaged, no save failed, and fewer nodes stopped between two rounds than own a key. `IsCalmAt` of
/// `world_laws` has all conditions. Then:
/// - every block whose put was acknowledged is stored and can be read;
/// - no whole call fails because a block is missing, and what it shows is never JUKEBOX or IO;
/// - a round of maintenance moves each block to its owners;
/// - in tidy scripts the turn of a whole call takes all that the members have written, and nothing else.
///
/// Four statuses have one cause each, by the headline's premise (`StatusesAreTold` of `stage_laws`). Where a line
/// shows a reply with JUKEBOX or IO, its session's refresh missed what it needed. Where it shows ROFS, no signature
/// or number was left for what its turn planned. Where it shows SERVERFAULT, a save failed.
///
/// What stands in the world before each line and after it (`Stands` of `stage_laws`):
/// - in calm scripts the ring is settled after each round, and covered except between a join and its round;
/// - of the heads that left an agent no two are over records of one number, and no leaf of any level of its key
///   signed two things;
/// - each of these heads was signed under a number below that of the signatures that the saved bytes have;
/// - what an agent knows of a log is a beginning of one chain, which the log's keeper names. The premise is that
///   each log has a key of its own, and each judged head that was met was made by its log's agent.
pub fn play<Q: Source, W: Sink>(alloc: Global, source: &mut Q, sink: &mut W) -> Status
    ensures statuses { (result ≡ 0) ⊎ (result ≡ 3) ⊎ (result ≡ 4) ⊎ (result ≡ 5) ⊎ (result ≡ 6) ⊎ (result ≡ 7) }

    // Status 0: a run ended at its line `end`, and exactly what it shows was written.
    ensures ended { result ≡ 0 → TellsAll Ended
        (ivy_runs (Q.left source.old)) (W.contents sink.old) (W.contents sink.new) }
    // Status 3: a run ended at the first line that is refused, or after the last line, and exactly what it shows was
    // written.
    ensures refused { result ≡ 3 → (n : ℕ) × TellsAll (RefusedAt n)
        (ivy_runs (Q.left source.old)) (W.contents sink.old) (W.contents sink.new) }
    // Status 7: a run ended at the first line that meets a limit, and exactly what it shows was written.
    ensures limited { result ≡ 7 → (n : ℕ) × TellsAll (LimitAt n)
        (ivy_runs (Q.left source.old)) (W.contents sink.old) (W.contents sink.new) }
    // Status 4 comes only if the source's count of faults rose, and 5 only if the sink's did.
    ensures read_fault { result ≡ 4 → Rose (Q.faults source.old) (Q.faults source.new) }
    ensures write_fault { result ≡ 5 → Rose (W.faults sink.old) (W.faults sink.new) }

    // In each case what was written is a prefix of what a run shows. After a write fault it is not all of it.
    ensures front { TellsFront
        (ivy_runs (Q.left source.old)) (W.contents sink.old) (W.contents sink.new) }
    ensures less { result ≡ 5 → TellsLess
        (ivy_runs (Q.left source.old)) (W.contents sink.old) (W.contents sink.new) }
    // After a read fault the run isn't over. The bytes that were read are whole lines, each of which was obeyed and went
    // on, and a part of a line. What was written is exactly what these lines show.
    ensures waits { result ≡ 4 → StopsShort PromisedStep initial_world
        (Q.left source.old) (Q.left source.new) (W.contents sink.old) (W.contents sink.new) }

    // If neither count rose and each run of the script ends alike, the status is that of the run, or memory ran out.
    ensures alike { (ending : Ending) → ((ran : Ran) → ivy_runs (Q.left source.old) ran → ran.ending ≡ ending) →
        ¬ Rose (Q.faults source.old) (Q.faults source.new) → ¬ Rose (W.faults sink.old) (W.faults sink.new) →
        (result ≡ status_of ending) ⊎ (result ≡ 6) }
    // There is exactly one run in which memory never runs out, or names clash on the way.
    ensures fully { IfSome (Q.left source.old) RunsFully }
    // If neither count rose, the status and what was written are those of that run. Or they are those of a run that
    // comes to a line where memory ran out for a call or names clash. Or memory ran out for the player itself.
    ensures complete { IfSome (Q.left source.old) (λ script.
        ¬ Rose (Q.faults source.old) (Q.faults source.new) → ¬ Rose (W.faults sink.old) (W.faults sink.new) →
        IsPlayed script result (W.contents sink.old) (W.contents sink.new)) }

    ensures reads { Q.faults source.old ≤ Q.faults source.new }
    ensures writes { W.faults sink.old ≤ W.faults sink.new }
{
    let mut machine = ScriptMachine::new(alloc);
    match run_script(alloc, &mut machine, source, sink) {
        Ok(Stop::Ended) => 0,
        Ok(Stop::Refused(_)) => 3,
        Err(Fault::Read) => 4,
        Err(Fault::Write) => 5,
        Err(Fault::Memory) => 6,
        Ok(Stop::Exceeded(_)) => 7,
    }
}
