//! The schedule of a seed.
ghost use Rattle.std.specs.Prelude.{◌≡◌, ◌<◌, ◌≤◌};
ghost use Rattle.world_bricks.specs.Schedules.{moved, chosen_of};

use std::marker::Model;

/// The state of the generator that chooses events. It is begun with the seed, and moves once before each event. Contracts
/// see its state.
#[derive(Drop)]
pub struct Schedule {
    state: u64,
}

impl Model for Schedule {
    ghost use Rattle.std.specs.Prelude.{ℕ};

    ghost Value = { ℕ };

    ghost view = { λ s. s.state };
}

const FACTOR: u64 = 6364136223846793005;

const STEP: u64 = 1442695040888963407;

impl Schedule {
    /// The generator of a seed.
    pub fn new(seed: u64) -> Schedule
        ensures { result ≡ seed }
    {
        Schedule { state: seed }
    }

    /// Moves the generator, and gives its value.
    pub fn draw(&mut self) -> u64
        ensures state { self.new ≡ moved self.old }
        ensures value { result ≡ moved self.old }
    {
        self.state = self.state.wrapping_mul(FACTOR).wrapping_add(STEP);
        self.state
    }
}

/// Which of so many things a value of the generator chooses, from 0. There is at least one.
pub fn chosen(value: u64, count: u64) -> u64
    requires { 1 ≤ count }
    ensures value { result ≡ chosen_of value count }
    ensures below { result < count }
{
    (value >> 33) % count
}
