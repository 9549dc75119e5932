// Numbers that are drawn one after another from a seed.
ghost use Rattle.std.specs.Prelude.{◌≡◌, ◌<◌, ◌+◌};
ghost use Rattle.dg_wire.specs.Draws.{next_state, drawn};

use std::marker::Model;

/// The draws from a seed: the seed, how many draws were made, and the state after them.
#[derive(Debug, Drop)]
pub struct Draws {
    seed: u32,
    made: u32,
    state: u32,
}

impl Model for Draws {
    ghost use Rattle.std.specs.Prelude.{◌≡◌, ◌<◌};
    ghost use Rattle.dg_wire.specs.Draws.{Drawing, state_after};

    ghost Value = { Drawing };

    ghost view = { λ d. record { seed = d.seed; made = d.made } };

    ghost invariant = { λ d. (d.state ≡ state_after d.seed d.made) × (d.state < 2147483648) };
}

impl Draws {
    /// No draw is made yet.
    pub fn new(seed: u32) -> Self
        requires { seed < 2147483648 }
        ensures { result ≡ record { seed = seed; made = 0 } }
    {
        Draws {
            seed,
            made: 0,
            state: seed,
        }
    }

    /// The next draw below a bound.
    pub fn below(&mut self, bound: u32) -> u32
        requires some { 0 < bound }
        requires few { self.old.made < 100000 }
        ensures value { result ≡ drawn self.old.seed self.old.made bound }
        ensures below { result < bound }
        ensures made { self.new ≡ record { seed = self.old.seed; made = self.old.made + 1 } }
    {
        self.state = next_state(self.state);
        self.made += 1;
        self.state / 65536 % bound
    }

    /// The same draws from here on.
    pub fn copy(&self) -> Self
        ensures { result ≡ self.now }
    {
        Draws {
            seed: self.seed,
            made: self.made,
            state: self.state,
        }
    }
}

// The state behind a state.
fn next_state(state: u32) -> u32
    requires { state < 2147483648 }
    ensures value { result ≡ next_state state }
    ensures below { result < 2147483648 }
{
    ((u64::from(state) * 1_103_515_245 + 12_345) % 2_147_483_648) as u32
}
