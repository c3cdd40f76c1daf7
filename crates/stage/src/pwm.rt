ghost use Rattle.std.specs.Prelude.{◌≡◌, true, false, IfSome, MatchOption};
ghost use Rattle.stage.specs.Pairs.{is_gate, pair_of};
ghost use Rattle.stage.specs.Pulse.{pulse_number, pulse_numbers, has_no_negative_zero, have_no_negative_zero};
ghost use Rattle.stage.specs.declared.codes.Codes.TheVariants.{Pulses};
ghost use Rattle.std.proofs.Common.{rules};

use crate::codes::{Codes, Wires};
use crate::levels::{Form, Levels};
use crate::pulse::Pulse;
use crate::quantize::quantize;

/// The two lines of a phase; off, they have the positive sign.
#[derive(Clone, Copy)]
pub struct Lines {
    pulse: Pulse,
    ghost plus: { has_no_negative_zero pulse ≡ true },
}

impl Form for Lines {
    const STEP: u8 = 128;

    ghost STEP = { 128 };

    ghost number_of = { λ l. pulse_number l.pulse };

    ghost range = { Prim.search rules };

    fn keep(x: i32) -> Self {
        let kept = quantize(Self::STEP, x);
        let magnitude = (kept.unsigned_abs() / 128) as u8;
        Lines {
            pulse: Pulse {
                magnitude,
                negative: kept < 0,
            },
        }
    }

    fn number(self) -> i32 {
        let size = i32::from(self.pulse.magnitude) * 128;
        if self.pulse.negative { -size } else { size }
    }
}

/// A magnitude and a sign for each phase of each gate.
pub type Pwm = Levels<Lines>;

impl Levels<Lines> {
    ghost use Rattle.stage.specs.Pwm.{pwm_pairs};

    /// What a gate has on the lines of its phases A and B; a gate other than 1 or 2 has no lines.
    pub fn pulses(&self, gate: u8) -> Option<(Pulse, Pulse)>
        ensures is { MatchOption result
            (is_gate gate ≡ false)
            (λ p. (is_gate gate ≡ true) × (pulse_numbers p ≡ pair_of (pwm_pairs self.now) gate)) }
        ensures sign { IfSome result (λ p. have_no_negative_zero p ≡ true) }
    {
        let (a, b) = match gate {
            1 => self.one,
            2 => self.two,
            _ => return None,
        };
        Some((a.pulse, b.pulse))
    }
}

impl Wires for Levels<Lines> {
    ghost codes = { λ p. Pulses (p.one.0.pulse, p.one.1.pulse) (p.two.0.pulse, p.two.1.pulse) };

    fn codes(&self) -> Codes {
        let ((a, b), (c, d)) = (self.one, self.two);
        Codes::Pulses((a.pulse, b.pulse), (c.pulse, d.pulse))
    }
}
