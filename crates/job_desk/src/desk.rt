//! Where jobs come from, and what is done of them.

ghost use Rattle.std.specs.Prelude.{◌≡◌, ◌+◌, ◌<◌, ℕ, Option, IfOk, IfErr};
ghost use Rattle.job_desk.specs.Chains.{CountsOut};

/// What is served.
pub trait Work: Drop {
    /// What becomes of it.
    type Done: Drop;

    /// What serving it may give.
    ghost serves: { Self → Self.Done → Type 0 };
}

/// Where jobs come from, and what was done of them goes.
pub trait Desk {
    /// What it gives.
    type Job: Work;

    /// Why it fails.
    type Fault: Drop;

    /// Which place in memory it lends, where it lends one. Any number serves where it doesn't.
    ghost place: { Self → ℕ };

    /// Which job it may give, or none, and how that leaves it.
    ghost gives: { Self → Option Self.Job → Self → Type 0 };

    /// Why it may fail, and how that leaves it.
    ghost refuses: { Self → Self.Fault → Self → Type 0 };

    /// How it may take back what was done of a job.
    ghost takes: { Self → Self.Job.Done → Self → Type 0 };

    /// How many jobs are out, and are to come back.
    ghost out: { Self → ℕ };

    /// The next job. None comes where there is no further one.
    fn accept(&mut self) -> Result<Option<Self::Job>, Self::Fault>
        ensures is { IfOk result (λ job. gives self.old job self.new) }
        ensures refused { IfErr result (λ fault. refuses self.old fault self.new) }
        ensures out { CountsOut (out self.old) (out self.new) result }
        ensures place { place self.new ≡ place self.old };

    /// Takes back what was done of a job that is out.
    fn take(&mut self, done: <Self::Job as Work>::Done)
        requires { 0 < out self.old }
        ensures is { takes self.old done self.new }
        ensures out { out self.new + 1 ≡ out self.old }
        ensures place { place self.new ≡ place self.old };
}
