ghost use Rattle.std.specs.Prelude.{◌≡◌};
ghost use Rattle.gate.specs.Clock.{clock_tick, time};

/// The number of cycles since reset, modulo 2^32.
#[derive(Clone, Copy, PartialEq, Eq, Debug)]
pub struct Clock {
    pub cycles: u32,
}

impl Clock {
    /// Counts a cycle.
    pub fn tick(&mut self)
        ensures { self.new ≡ clock_tick self.old }
    {
        self.cycles = self.cycles.wrapping_add(1);
    }

    /// The time that is read and that a breakpoint compares.
    pub fn time(&self) -> u32
        ensures { result ≡ time self.now }
    {
        self.cycles
    }
}
