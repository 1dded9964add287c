//! The host's clock.

ghost use Rattle.std.specs.Prelude.{◌≡◌, ◌<◌, ◌^◌, None, IfOk, IfSome, IsOkAnd};

use ivy_base::Memory;
use ivy_io::Clock;
use std::alloc::Global;
use std::marker::Model;
use std::time::SystemTime;

/// The host's clock, which is seen as the moment that it gave last, at first 0 0. Where the host tells none, or one whose
/// seconds don't fit, it gives the last one again.
#[derive(Drop)]
pub struct HostClock<R> {
    rt: R,
    sec: u32,
    nsec: u32,
}

impl<R> Model for HostClock<R> {
    ghost use Rattle.std.specs.Prelude.{ℕ, ◌<◌, ◌^◌};

    ghost Value = { ℕ × ℕ };

    ghost view = { λ c. (c.sec, c.nsec) };

    ghost invariant = { λ c. c.nsec < 10 ^ 9 };
}

impl<R> HostClock<R> {
    /// A clock that has given no moment yet.
    pub fn new(rt: R) -> HostClock<R>
        ensures { result ≡ (0, 0) }
    {
        HostClock {
            rt,
            sec: 0,
            nsec: 0,
        }
    }
}

/// The host's moment in seconds since 1970 and nanoseconds, where it tells one whose seconds fit.
fn host_moment<R: std::rt::Clock>(rt: &R) -> Option<(u32, u32)>
    ensures { IfSome result (λ moment. moment.1 < 10 ^ 9) }
{
    let moment = SystemTime::now(rt).ok()?;
    let since = moment.duration_since(SystemTime::UNIX_EPOCH).ok()?;
    let sec = u32::try_from(since.as_secs()).ok()?;
    Some((sec, since.subsec_nanos()))
}

impl<R: std::rt::Clock + Copy + Send> Clock for HostClock<R> {
    ghost moment = { λ c. None };

    ghost gives = { λ c moment new. new ≡ moment };

    fn now(&mut self) -> (u32, u32) {
        if let Some((sec, nsec)) = host_moment(&self.rt) {
            self.sec = sec;
            self.nsec = nsec;
        }
        (self.sec, self.nsec)
    }

    // It takes no memory, so it can't run out.
    fn another(&self, _alloc: Global) -> Result<HostClock<R>, Memory>
        ensures same { IsOkAnd result (λ other. other ≡ self.now) }
    {
        Ok(HostClock {
            rt: self.rt,
            sec: self.sec,
            nsec: self.nsec,
        })
    }
}
