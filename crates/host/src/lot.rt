ghost use Rattle.std.specs.Prelude.{◌≡◌, Some, None, pos};
ghost use Rattle.std.specs.Fmt.{WritesOnOk};
ghost use Rattle.gate.specs.Sound.{IsSound};
ghost use Rattle.host.specs.Lots.{outcome_after};
ghost use Rattle.host.specs.Prints.{cycle_text, cycles_text, lot_text, outcome_text};

use gate::gate::Gate;
use motion::course::microsteps;
use std::fmt;

/// A lot of olives: where its gate is sent, and the time at which a breakpoint latches that.
#[derive(Clone, Copy, Debug, PartialEq, Eq)]
pub struct Lot {
    // in microsteps
    pub destination: i32,
    // in 1/65,536 microstep a cycle
    pub velocity: u32,
    // in 1/65,536 microstep a cycle, each cycle
    pub acceleration: u32,
    // the cycle in which it is latched
    pub start: u32,
}

/// The cycles that a lot is given.
pub const CYCLES: u32 = 160;

/// The lots of gate 1.
pub const LOTS_ONE: [Lot; 3] = [
    Lot {
        destination: 1200,
        velocity: 1_310_720,
        acceleration: 65_536,
        start: 20,
    },
    Lot {
        destination: 333,
        velocity: 983_040,
        acceleration: 40_000,
        start: 170,
    },
    Lot {
        destination: -77,
        velocity: 2_000_000,
        acceleration: 123_456,
        start: 340,
    },
];

/// The lots of gate 2.
pub const LOTS_TWO: [Lot; 3] = [
    Lot {
        destination: 700,
        velocity: 655_360,
        acceleration: 32_768,
        start: 5,
    },
    Lot {
        destination: 1900,
        velocity: 1_966_080,
        acceleration: 65_536,
        start: 165,
    },
    Lot {
        destination: 40,
        velocity: 3_000_000,
        acceleration: 200_000,
        start: 325,
    },
];

/// What became of a lot.
#[derive(Clone, Copy, Debug, PartialEq, Eq)]
pub struct Outcome {
    pub lot: Lot,
    // the first cycle in which the gate moved, and the one in which it came to rest again
    pub set_off: Option<u32>,
    pub arrived: Option<u32>,
    pub target: i32,
}

impl Outcome {
    /// A lot of which nothing is noted yet.
    pub fn new(lot: Lot) -> Outcome
        ensures { result ≡ record { lot = lot; set_off = None; arrived = None; target = pos 0 } }
    {
        Outcome {
            lot,
            set_off: None,
            arrived: None,
            target: 0,
        }
    }

    /// Notes what a cycle did to the gate.
    pub(crate) fn note(&mut self, gate: Gate)
        requires { IsSound gate }
        ensures { self.new ≡ outcome_after self.old gate }
    {
        let now = gate.clock.time();
        if gate.motion.velocity != 0 {
            self.set_off.get_or_insert(now);
        } else if self.set_off.is_some() {
            self.arrived.get_or_insert(now);
        }
        self.target = microsteps(gate.motion.target);
    }
}

// The number of a cycle at the right of eight characters, or a dash where there is none.
fn write_cycle<W: fmt::Write>(f: &mut fmt::Formatter<W>, cycle: Option<u32>) -> fmt::Result
    ensures { WritesOnOk W.write_str_gives f.old result (cycle_text cycle) f.new }
{
    match cycle {
        Some(number) => write!(f, "{number:>8}"),
        None => f.write_str("       -"),
    }
}

// The cycles in which a gate set off and arrived, with a blank between them.
fn write_cycles<W: fmt::Write>(
    f: &mut fmt::Formatter<W>,
    set_off: Option<u32>,
    arrived: Option<u32>,
) -> fmt::Result
    ensures { WritesOnOk W.write_str_gives f.old result (cycles_text set_off arrived) f.new }
{
    write_cycle(f, set_off)?;
    f.write_str(" ")?;
    write_cycle(f, arrived)
}

/// The heading of the rows.
pub const HEADING: &str = "destination  velocity  acceleration  latched   moves    rests    target";

impl fmt::Display for Lot {
    ghost output = { λ lot. Some (lot_text lot) };

    fn fmt<W: fmt::Write>(&self, f: &mut fmt::Formatter<W>) -> fmt::Result {
        let Lot {
            destination,
            velocity,
            acceleration,
            start,
        } = *self;
        write!(
            f,
            "{destination:>11}  {velocity:>8}  {acceleration:>12}  {start:>7}"
        )
    }
}

impl fmt::Display for Outcome {
    ghost output = { λ outcome. Some (outcome_text outcome) };

    fn fmt<W: fmt::Write>(&self, f: &mut fmt::Formatter<W>) -> fmt::Result {
        let Outcome {
            lot,
            set_off,
            arrived,
            target,
        } = *self;
        write!(f, "{lot}")?;
        write_cycles(f, set_off, arrived)?;
        write!(f, "  {target:>8}")
    }
}
