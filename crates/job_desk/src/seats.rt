//! The threads that serve, and what their seats are known by.

ghost use Rattle.std.specs.Prelude.{◌≡◌, ◌+◌, ◌<◌, ◌≤◌, [], map, IfSome, vec_len};
ghost use Rattle.job_desk.specs.Chains.{GoesOn, kind_of};

use crate::desk::{Desk, Work};
use std::snapshot::Snapshot;
use std::sync::Wait;
use std::sync::atomic::{AtomicU64, Ordering};
use std::thread::{Promise, PromisedHandle, Threads};

/// How many threads serve at once.
pub(crate) const MOST: usize = 16;

/// That a job was served.
#[derive(Drop)]
pub(crate) struct IsDone<J: Work> {
    pub(crate) job: Snapshot<J>,
}

impl<X: Drop, J: Work<Done = X>> Promise<X> for IsDone<J> {
    ghost kept_by = { λ p r. J.serves p.job.value r };
}

/// A thread that serves a job, and the bit that it sets when it ends.
#[derive(Drop)]
pub(crate) struct Seat<X: Drop, J: Work<Done = X>> {
    pub(crate) bit: u64,
    pub(crate) handle: PromisedHandle<X, IsDone<J>>,
}

/// The place of a seat whose bit is among these, if there is one.
pub(crate) fn find_ended<X: Drop, J: Work<Done = X>>(
    seats: &Vec<Seat<X, J>>,
    ended: u64,
) -> Option<usize>
    ensures { IfSome result (λ at. at < vec_len seats.now) }
{
    for at in 0..seats.len() {
        if seats[at].bit & ended != 0 {
            return Some(at);
        }
    }
    None
}

/// A bit that no seat has, or 0 where each has its seat.
pub(crate) fn free_bit<X: Drop, J: Work<Done = X>>(seats: &Vec<Seat<X, J>>) -> u64 {
    for k in 0..16u32 {
        let bit = 1u64 << k;
        if find_ended(seats, bit).is_none() {
            return bit;
        }
    }
    0
}

/// Waits until the thread of a seat has ended.
pub(crate) fn wait_for_one<R: Wait, X: Drop, J: Work<Done = X>>(
    rt: &R,
    seats: &Vec<Seat<X, J>>,
    ended: &AtomicU64,
) {
    for _ in rt.forever() {
        let seen = ended.load(Ordering::SeqCst);
        if find_ended(seats, seen).is_some() {
            return;
        }
        ended.park(rt, (seen & 0xffff_ffff) as u32);
    }
}

/// Serves a job, and tells by its bit that it ended.
pub(crate) fn serve_and_tell<X: Drop, J: Work<Done = X>, F: Fn(J) -> X>(
    serve: &F,
    job: J,
    ended: &AtomicU64,
    bit: u64,
) -> X
    requires callable { F.IsAlwaysCallable serve.now }
    requires serves { (j : J) (x : X) → F.post serve.now j x → J.serves j x }
    ensures { J.serves job result }
{
    let done = serve(job);
    ended.fetch_or(bit, Ordering::SeqCst);
    ended.wake_one();
    done
}

/// The desk takes back what the thread of that seat did. It waits for the thread.
fn give_one<R: Threads, X: Drop, J: Work<Done = X>, T: Drop, D: Desk<Job = J, Fault = T>>(
    rt: &R,
    desk: &mut D,
    seats: &mut Vec<Seat<X, J>>,
    at: usize,
)
    requires at { at < vec_len seats.old }
    requires out { vec_len seats.old ≤ D.out desk.old }
    ensures place { D.place desk.new ≡ D.place desk.old }
    ensures len { vec_len seats.new + 1 ≡ vec_len seats.old }
    ensures out { vec_len seats.new ≤ D.out desk.new }
    ensures back { GoesOn (kind_of D.gives D.refuses D.takes J.serves) desk.old (map (λ s. s.handle.promise.job.value) seats.old.items) desk.new (map (λ s. s.handle.promise.job.value) seats.new.items) }
{
    let Seat { bit: _, handle } = seats.swap_remove(at);
    let done = handle.join(rt);
    desk.take(done);
}

/// The desk takes back what the threads that have ended did.
pub(crate) fn give_ended<
    R: Threads,
    X: Drop,
    J: Work<Done = X>,
    T: Drop,
    D: Desk<Job = J, Fault = T>,
>(rt: &R, desk: &mut D, seats: &mut Vec<Seat<X, J>>, ended: &AtomicU64)
    requires out { vec_len seats.old ≤ D.out desk.old }
    ensures place { D.place desk.new ≡ D.place desk.old }
    ensures out { vec_len seats.new ≤ D.out desk.new }
    ensures back { GoesOn (kind_of D.gives D.refuses D.takes J.serves) desk.old (map (λ s. s.handle.promise.job.value) seats.old.items) desk.new (map (λ s. s.handle.promise.job.value) seats.new.items) }
{
    let seen = ended.load(Ordering::SeqCst);
    for _ in 0..MOST {
        let Some(at) = find_ended(seats, seen) else {
            break;
        };
        ended.fetch_and(!seats[at].bit, Ordering::SeqCst);
        give_one(rt, desk, seats, at);
    }
}

/// Waits for all threads, and the desk takes back what they did.
pub(crate) fn give_all<
    R: Threads,
    X: Drop,
    J: Work<Done = X>,
    T: Drop,
    D: Desk<Job = J, Fault = T>,
>(rt: &R, desk: &mut D, seats: &mut Vec<Seat<X, J>>)
    requires out { vec_len seats.old ≤ D.out desk.old }
    ensures place { D.place desk.new ≡ D.place desk.old }
    ensures back { GoesOn (kind_of D.gives D.refuses D.takes J.serves) desk.old (map (λ s. s.handle.promise.job.value) seats.old.items) desk.new [] }
{
    let count = seats.len();
    for _ in 0..count {
        give_one(rt, desk, seats, 0);
    }
}
