//! The draws that a script is made by.

ghost use Rattle.std.specs.Prelude.{◌≡◌, ◌<◌};
ghost use Rattle.ocm_drill.specs.Draws as draws;

use std::marker::Model;

/// The multiplier of the linear congruential generator of Donald Knuth's MMIX.
const MULTIPLIER: u64 = 6_364_136_223_846_793_005;

/// Its increment.
const INCREMENT: u64 = 1_442_695_040_888_963_407;

/// The state of the draws. The same first state gives the same draws. Contracts see the state.
#[derive(Drop)]
pub struct Drawing {
    state: u64,
}

impl Model for Drawing {
    ghost use Rattle.std.specs.Prelude.{ℕ};

    ghost Value = { ℕ };

    ghost view = { λ drawing. drawing.state };
}

impl Drawing {
    /// The draws from this state on.
    pub fn new(state: u64) -> Drawing
        ensures { result ≡ state }
    {
        Drawing { state }
    }

    /// Draws a number below this one, which is not 0.
    #[tactic(auto, unfolding(crate::specs::Draws::pick))]
    pub fn pick(&mut self, below: u32) -> u32
        requires { 0 < below }
        ensures value { result ≡ (draws.pick below self.old).0 }
        ensures state { self.new ≡ (draws.pick below self.old).1 }
        ensures below { result < below }
    {
        self.state = state_after(self.state);
        (self.state >> 33) as u32 % below
    }
}

/// The state after a draw.
#[tactic(auto, unfolding(crate::specs::Draws::state_after))]
fn state_after(state: u64) -> u64
    ensures { result ≡ draws.state_after state }
{
    state.wrapping_mul(MULTIPLIER).wrapping_add(INCREMENT)
}
