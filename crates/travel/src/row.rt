ghost use Rattle.std.specs.Prelude.{◌≡◌};
ghost use Rattle.travel.specs.Rows.{state_text};

use std::fmt;

/// One cycle of a journey.
#[derive(Clone, Copy, Debug, PartialEq, Eq)]
pub struct Row {
    pub cycle: u32,
    // in 1/65,536 microstep a cycle
    pub velocity: i32,
    // the target position, in microsteps
    pub target: i32,
    pub phases: (i32, i32),
    // whether the motion complete bit is set
    pub complete: bool,
    pub moving: bool,
}

/// The heading of the lines.
pub const HEADING: &str = "cycle |    velocity       target | phase A  phase B | gate";

impl Row {
    fn state(&self) -> &'static str
        ensures { result.now ≡ state_text self.now }
    {
        if self.moving {
            "moving"
        } else if self.complete {
            "motion complete"
        } else {
            "at rest"
        }
    }
}

impl fmt::Display for Row {
    fn fmt<W: fmt::Write>(&self, f: &mut fmt::Formatter<W>) -> fmt::Result {
        let (cycle, velocity, target) = (self.cycle, self.velocity, self.target);
        let (a, b) = self.phases;
        write!(
            f,
            "{cycle:>5} | {velocity:>11}  {target:>11} | {a:>7}  {b:>7} | "
        )?;
        f.write_str(self.state())
    }
}
