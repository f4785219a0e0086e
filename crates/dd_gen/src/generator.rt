//! A generator of numbers.

ghost use Rattle.std.specs.Prelude.{◌≡◌, ◌<◌, ◌≤◌};
ghost use Rattle.dd_gen.specs.Making.{draw};

use std::marker::Model;

/// What the state before is multiplied with, and what is added, modulo 2^32.
const MULTIPLIER: u64 = 1_664_525;

const INCREMENT: u64 = 1_013_904_223;

/// A generator of numbers, which contracts see as its state.
#[derive(Drop)]
pub(crate) struct Generator {
    state: u32,
}

impl Model for Generator {
    ghost use Rattle.std.specs.Prelude.{ℕ};

    ghost Value = { ℕ };

    ghost view = { λ g. g.state };
}

impl Generator {
    /// The generator that begins with a seed.
    pub(crate) fn new(seed: u32) -> Generator
        ensures { result ≡ seed }
    {
        Generator { state: seed }
    }

    /// The next number, below a bound.
    #[tactic(auto, unfolding(crate::specs::Making::draw))]
    pub(crate) fn draw(&mut self, bound: u32) -> u32
        requires { 1 ≤ bound }
        ensures value { result ≡ (draw bound self.old).value }
        ensures state { self.new ≡ (draw bound self.old).state }
        ensures below { result < bound }
    {
        let next = MULTIPLIER * u64::from(self.state) + INCREMENT;
        self.state = (next % (1 << 32)) as u32;
        self.state / 65_536 % bound
    }
}
