ghost use Rattle.std.specs.Prelude.{◌≡◌};
ghost use Rattle.gate.specs.Profile.{first_profile};

/// How a gate runs: to a destination, or at a velocity.
#[derive(Clone, Copy, PartialEq, Eq, Debug)]
pub enum ProfileMode {
    Trapezoidal,
    Velocity,
}

/// The profile registers, of which a gate has a buffered and an active set.
#[derive(Clone, Copy, PartialEq, Eq, Debug)]
pub struct Profile {
    // in microsteps
    pub destination: i32,
    // in 1/65,536 microstep a cycle
    pub velocity: u32,
    // in 1/65,536 microstep a cycle, each cycle
    pub acceleration: i32,
    pub mode: ProfileMode,
}

impl Profile {
    /// The registers after a reset.
    pub fn first() -> Profile
        ensures { result ≡ first_profile }
    {
        Profile {
            destination: 0,
            velocity: 0,
            acceleration: 1,
            mode: ProfileMode::Trapezoidal,
        }
    }
}
