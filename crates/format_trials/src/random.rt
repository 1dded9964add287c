//! Numbers by a seed.

ghost use Rattle.std.specs.Prelude.{◌≤◌};

/// Numbers by a seed (xorshift, Marsaglia).
#[derive(Clone, Copy)]
pub struct Random {
    state: u64,
}

impl Random {
    /// The numbers of that seed.
    pub fn new(seed: u64) -> Random {
        Random { state: seed }
    }

    /// The next number, below `bound`; 0 where that is 0.
    pub fn below(&mut self, bound: u64) -> u64
        ensures { result ≤ bound }
    {
        self.state ^= self.state << 13;
        self.state ^= self.state >> 7;
        self.state ^= self.state << 17;
        if bound == 0 { 0 } else { self.state % bound }
    }
}
