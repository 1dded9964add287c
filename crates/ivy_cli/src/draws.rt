//! The draws of a seed.

ghost use Rattle.std.specs.Prelude.{◌≡◌};
ghost use Rattle.ivy_cli.specs.Generator.{drawn, next};

use std::marker::Model;

/// What a step multiplies by, and what it adds (Knuth's MMIX).
const MULTIPLIER: u64 = 6_364_136_223_846_793_005;

const INCREMENT: u64 = 1_442_695_040_888_963_407;

/// How many low bits of a state aren't drawn.
const LOW_BITS: u32 = 33;

/// The draws of a linear congruence modulo 2^64, which contracts see as its state.
#[derive(Drop)]
pub struct Draws {
    state: u64,
}

impl Model for Draws {
    ghost use Rattle.std.specs.Prelude.{ℕ};

    ghost Value = { ℕ };

    ghost view = { λ d. d.state };
}

impl Draws {
    /// The draws of that seed.
    pub fn of(seed: u64) -> Draws
        ensures { result ≡ seed }
    {
        Draws { state: seed }
    }

    /// The next draw, which is below 2^31.
    pub fn draw(&mut self) -> u64
        ensures moved { self.new ≡ next self.old }
        ensures drawn { result ≡ drawn self.new }
    {
        self.state = self.state.wrapping_mul(MULTIPLIER).wrapping_add(INCREMENT);
        self.state >> LOW_BITS
    }
}
