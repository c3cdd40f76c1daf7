ghost use Rattle.std.specs.Prelude.{◌≡◌, Some};
ghost use Rattle.stage.specs.Codes.{StandsFor, codes_text, pulse_text};

use crate::Stage;
use crate::pulse::Pulse;
use std::fmt;

/// What a make has on its wires for phases A and B: of gate 1, and of gate 2.
#[derive(Clone, Copy, PartialEq, Eq, Debug)]
pub enum Codes {
    Words((u16, u16), (u16, u16)),
    Pulses((Pulse, Pulse), (Pulse, Pulse)),
}

/// A make whose wires can be looked at.
pub trait Wires: Stage {
    ghost use Rattle.stage.specs.declared.codes.Codes.{Codes};

    ghost codes: { Self → Codes };

    /// All four codes: of gate 1, phases A and B, and of gate 2.
    fn codes(&self) -> Codes
        ensures is { result ≡ codes self.now }
        ensures stands { StandsFor (Self.pairs self.now) result };
}

// A sign, also where it is positive, and a magnitude.
impl fmt::Display for Pulse {
    ghost output = { λ pulse. Some (pulse_text pulse) };

    fn fmt<W: fmt::Write>(&self, f: &mut fmt::Formatter<W>) -> fmt::Result {
        let magnitude = self.magnitude;
        let sign = if self.negative { "-" } else { "+" };
        write!(f, "{sign}{magnitude}")
    }
}

impl fmt::Display for Codes {
    ghost output = { λ codes. Some (codes_text codes) };

    fn fmt<W: fmt::Write>(&self, f: &mut fmt::Formatter<W>) -> fmt::Result {
        match *self {
            Codes::Words((a, b), (c, d)) => write!(f, "{a} {b} {c} {d}"),
            Codes::Pulses((a, b), (c, d)) => write!(f, "{a} {b} {c} {d}"),
        }
    }
}
