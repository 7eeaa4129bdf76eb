ghost use Rattle.std.specs.Prelude.{◌≡◌, ◌<◌, ◌≤◌};
ghost use Rattle.dt_graph.specs.declared.limits.TheConstants.{CLASSES};
ghost use Rattle.dt_script.specs.Draw.{next_state, drawn};

use dt_definitions::ClassNo;
use std::marker::Model;

/// A row of numbers that look drawn, each from the state that the one before left.
#[derive(Debug, Drop)]
pub struct Draws {
    state: u64,
}

impl Model for Draws {
    ghost use Rattle.std.specs.Prelude.{ℕ};

    ghost Value = { ℕ };

    ghost view = { λ d. d.state };
}

impl Draws {
    /// The row that starts at this state.
    pub fn new(number: u32) -> Draws
        ensures { result ≡ number }
    {
        Draws {
            state: u64::from(number),
        }
    }

    /// The next number, below the bound.
    pub fn draw(&mut self, bound: u16) -> u16
        requires { 0 < bound }
        ensures value { result ≡ drawn self.old bound }
        ensures state { self.new ≡ next_state self.old }
        ensures in_range { result < bound }
    {
        self.state = self
            .state
            .wrapping_mul(6_364_136_223_846_793_005)
            .wrapping_add(1_442_695_040_888_963_407);
        ((self.state >> 33) % u64::from(bound)) as u16
    }

    /// A class below the bound.
    pub fn draw_class(&mut self, bound: u16) -> ClassNo
        requires above_none { 0 < bound }
        requires at_most_all { bound ≤ CLASSES }
        ensures value { result ≡ drawn self.old bound }
        ensures state { self.new ≡ next_state self.old }
        ensures in_range { result < bound }
    {
        let number = self.draw(bound);
        ClassNo::new(number).unwrap()
    }
}
