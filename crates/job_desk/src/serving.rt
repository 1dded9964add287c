//! Jobs are accepted on one thread, and served on others.

ghost use Rattle.std.specs.Prelude.{◌≡◌, [], ◌∷◌};
ghost use denote.Param.Send.{IsSend, IsSync};
ghost use Rattle.job_desk.specs.Chains.{CameBack, kind_of};

use crate::desk::{Desk, Work};
use crate::seats::{
    IsDone, MOST, Seat, free_bit, give_all, give_ended, serve_and_tell, wait_for_one,
};
use std::alloc::Global;
use std::snapshot::Snapshot;
use std::sync::Wait;
use std::sync::atomic::{AtomicU64, Ordering};
use std::thread;
use std::thread::Threads;

/// Serves each job that the desk gives, by this call, at most 16 at once on threads of their own, until none comes or the desk
/// fails. The desk comes back with why it stopped. Each job that it gave came back once, with what serving it may give, after
/// a failure too. A job that gets no thread, or no memory for one, is served by the caller's thread.
pub fn serve_all<
    R: Threads + Wait + Sync,
    X: Drop + Send,
    J: Work<Done = X> + Send,
    T: Drop,
    D: Desk<Job = J, Fault = T> + Drop,
    F: Fn(J) -> X + Sync,
>(rt: &R, alloc: Global, desk: D, serve: &F) -> (D, Result<(), T>)
    requires callable { F.IsAlwaysCallable serve.now }
    requires serves { (j : J) (x : X) → F.post serve.now j x → J.serves j x }
    ensures place { D.place result.0 ≡ D.place desk }
    ensures back { CameBack (kind_of D.gives D.refuses D.takes J.serves) desk result.0 [] (result.1 ∷ []) }
{
    let ended = AtomicU64::new(0);
    serve_until(rt, alloc, &ended, desk, serve)
}

/// Serves each job that the desk gives. A thread that ended has its bit in the word.
fn serve_until<
    R: Threads + Wait + Sync,
    X: Drop + Send,
    J: Work<Done = X> + Send,
    T: Drop,
    D: Desk<Job = J, Fault = T> + Drop,
    F: Fn(J) -> X + Sync,
>(rt: &R, alloc: Global, ended: &AtomicU64, desk: D, serve: &F) -> (D, Result<(), T>)
    requires callable { F.IsAlwaysCallable serve.now }
    requires serves { (j : J) (x : X) → F.post serve.now j x → J.serves j x }
    ensures place { D.place result.0 ≡ D.place desk }
    ensures back { CameBack (kind_of D.gives D.refuses D.takes J.serves) desk result.0 [] (result.1 ∷ []) }
{
    thread::scope(
        thread::scope_env(),
        rt,
        move |scope| -> (D, Result<(), T>)
            requires { IsSync R.row × IsSend X.row × IsSend J.row × IsSync F.row
                × F.IsAlwaysCallable serve.now × ((j : J) (x : X) → F.post serve.now j x → J.serves j x) }
            ensures { (D.place result.0 ≡ D.place desk)
                × CameBack (kind_of D.gives D.refuses D.takes J.serves) desk result.0 [] (result.1 ∷ []) }
        {
            let mut desk = desk;
            let mut seats: Vec<Seat<X, J>> = Vec::new(alloc);
            for _ in rt.forever() {
                if seats.len() >= MOST {
                    wait_for_one(rt, &seats, ended);
                }
                give_ended(rt, &mut desk, &mut seats, ended);
                let job = match desk.accept() {
                    Ok(Some(job)) => job,
                    Ok(None) => {
                        give_all(rt, &mut desk, &mut seats);
                        return (desk, Ok(()));
                    }
                    Err(fault) => {
                        give_all(rt, &mut desk, &mut seats);
                        return (desk, Err(fault));
                    }
                };
                if seats.len() >= MOST || seats.reserve(1).is_err() {
                    let done = serve(job);
                    desk.take(done);
                    continue;
                }
                let bit = free_bit(&seats);
                let promise = IsDone {
                    job: Snapshot::of(&job),
                };
                match scope.spawn_with(promise, move || serve_and_tell(serve, job, ended, bit)) {
                    Ok(handle) => seats.push_reserved(Seat { bit, handle }),
                    Err(refused) => {
                        let done = (refused.value)();
                        ended.fetch_and(!bit, Ordering::SeqCst);
                        desk.take(done);
                    }
                }
            }
            unreachable!()
        },
    )
}
