ghost use Rattle.std.specs.Prelude.{◌≡◌};
ghost use Rattle.windings.specs.Rows.{sign_of};

use stage::pulse::Pulse;
use std::fmt;

/// One line of a trial.
#[derive(Clone, Copy, Debug, PartialEq, Eq)]
pub struct Row {
    pub position: i32,
    // as computed for the motor
    pub phases: (i32, i32),
    // as the DAC stage shows them, and its words
    pub dac: (i32, i32),
    pub words: (u16, u16),
    // as the wired PWM stage shows them, and what is on the lines behind the wiring
    pub pwm: (i32, i32),
    pub pulses: (Pulse, Pulse),
}

/// The heading of the lines.
pub const HEADING: &str =
    "pos | phase A  phase B |  DAC A   DAC B  words       |  PWM A   PWM B  lines";

fn sign(pulse: Pulse) -> char
    ensures { result ≡ sign_of pulse }
{
    if pulse.negative { '-' } else { '+' }
}

impl fmt::Display for Row {
    fn fmt<W: fmt::Write>(&self, f: &mut fmt::Formatter<W>) -> fmt::Result {
        let at = self.position;
        let (a, b) = self.phases;
        write!(f, "{at:>3} | {a:>7}  {b:>7} | ")?;
        let (a, b) = self.dac;
        let (x, y) = self.words;
        write!(f, "{a:>6}  {b:>6}  {x:>5} {y:>5} | ")?;
        let (a, b) = self.pwm;
        let (p, q) = self.pulses;
        let (p_sign, p_size) = (sign(p), p.magnitude);
        let (q_sign, q_size) = (sign(q), q.magnitude);
        write!(f, "{a:>6}  {b:>6}  {p_sign}{p_size:<3} {q_sign}{q_size}")
    }
}
