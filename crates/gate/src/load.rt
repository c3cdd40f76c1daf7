ghost use Rattle.std.specs.Prelude.{◌≡◌, true};
ghost use Rattle.gate.specs.Loads.{with_load, is_load_in_range};
ghost use Rattle.gate.specs.Laws.{SameAnswersBut, load_query};
ghost use Rattle.gate.specs.Sound.{IsSound};

use crate::gate::Gate;
use crate::profile::ProfileMode;

/// A buffered register and what it is loaded with.
#[derive(Clone, Copy, PartialEq, Eq, Debug)]
pub enum Load {
    /// In microsteps, from -2^30 to 2^30 - 1.
    Destination(i32),
    /// In 1/65,536 microstep a cycle, from 0 to 2^30 - 1.
    Velocity(u32),
    /// In 1/65,536 microstep a cycle, each cycle: from -2^30 to 2^30 - 1, but not 0.
    Acceleration(i32),
    /// Any mode.
    Mode(ProfileMode),
    /// In 1/32,767 of the full wave, from 0 to 32,767.
    Power(u16),
}

impl Gate {
    /// Loads one buffered register. The gate runs by it from the next latch on.
    pub fn load(&mut self, load: Load)
        ensures is { self.new ≡ with_load load self.old }
        ensures sound { is_load_in_range load ≡ true → IsSound self.old → IsSound self.new }
        ensures quiet { SameAnswersBut (load_query load) self.old self.new }
    {
        match load {
            Load::Destination(destination) => self.buffered.destination = destination,
            Load::Velocity(velocity) => self.buffered.velocity = velocity,
            Load::Acceleration(acceleration) => self.buffered.acceleration = acceleration,
            Load::Mode(mode) => self.buffered.mode = mode,
            Load::Power(power) => self.powers.buffered = power,
        }
    }
}
