ghost use Rattle.std.specs.Prelude.{◌≡◌, OnOk, pos};
ghost use Rattle.stage.specs.Dac.{dac_pairs};
ghost use Rattle.stage.specs.Pairs.{zero_pairs, pair_of};
ghost use Rattle.stage.specs.Pwm.{pwm_pairs};
ghost use Rattle.stage.specs.Wiring.{stage_below, wires_of};
ghost use Rattle.windings.specs.Rows.{IsDriven, MeasuresAt, SparesGateTwo, dac_numbers};

use crate::row::{HEADING, Row};
use crate::settings::Settings;
use stage::Stage;
use stage::dac::Dac;
use stage::pwm::Pwm;
use stage::wiring::{GateWiring, Wiring};
use std::io;
use wave::phases::phases;

// The gate that a trial drives.
const GATE: u8 = 1;

/// Wires that change places and negate: behind them a fitter sees the other way of connecting a motor.
pub const CROSSED: GateWiring = GateWiring {
    exchanged: true,
    negated: true,
};

/// A motor at a power, on a DAC stage and on a wired PWM stage.
#[derive(Drop)]
pub struct Rig {
    settings: Settings,
    dac: Dac,
    pwm: Wiring<Pwm>,
}

// The words of the driven gate.
fn words(dac: &Dac) -> (u16, u16)
    ensures { dac_numbers result ≡ pair_of (dac_pairs dac.now) 1 }
{
    (dac.word(0).unwrap(), dac.word(1).unwrap())
}

impl Rig {
    /// The PWM stage is wired alike for both gates, and nothing is shown yet.
    pub fn new(settings: Settings, wire: GateWiring) -> Rig
        ensures made { (result.settings ≡ settings) × (wires_of result.pwm ≡ (wire, wire)) }
        ensures dark { (dac_pairs result.dac ≡ zero_pairs) ×
            (pwm_pairs (stage_below result.pwm) ≡ zero_pairs) }
    {
        let pwm = Wiring::new(Pwm::new(), wire, wire);
        Rig {
            settings,
            dac: Dac::new(),
            pwm,
        }
    }

    /// Steps the motor to a position, and measures what comes of it. Gate 2 is left alone.
    pub fn step(&mut self, position: i32) -> Row
        ensures measured { MeasuresAt self.old.settings (wires_of self.old.pwm).0 position result }
        ensures driven { IsDriven self.old.settings position self.new.dac self.new.pwm }
        ensures kept { (self.new.settings ≡ self.old.settings) ×
            (wires_of self.new.pwm ≡ wires_of self.old.pwm) }
        ensures spared { SparesGateTwo self.old.dac self.new.dac self.old.pwm self.new.pwm }
    {
        let (a, b) = phases(self.settings.kind, self.settings.power, position);
        self.dac.show(GATE, a, b);
        self.pwm.show(GATE, a, b);
        Row {
            position,
            phases: (a, b),
            dac: self.dac.pair(GATE),
            words: words(&self.dac),
            pwm: self.pwm.pair(GATE),
            pulses: self.pwm.below().pulses(GATE).unwrap(),
        }
    }

    /// Prints a line for each position of an electrical turn, and leaves the motor at the last.
    pub fn show(&mut self, rt: &impl Print) -> io::Result<()>
        ensures driven { OnOk result
            (IsDriven self.new.settings (pos 255) self.new.dac self.new.pwm) }
        ensures kept { (self.new.settings ≡ self.old.settings) ×
            (wires_of self.new.pwm ≡ wires_of self.old.pwm) }
        ensures spared { SparesGateTwo self.old.dac self.new.dac self.old.pwm self.new.pwm }
    {
        rt.println(HEADING)?;
        for position in 0..256 {
            rt.println(self.step(position))?;
        }
        Ok(())
    }
}

#[cfg(test)]
mod tests {
    use super::*;
    use std::test::Fail;
    use wave::phases::MotorKind;

    // Lines that tools/windings.py prints.
    #[test]
    fn lines(rt: HostRuntime) -> Result<(), Fail> {
        let heap = rt.alloc();
        let (kind, power) = (MotorKind::TwoPhase, 16_384);
        let mut two = Rig::new(Settings { kind, power }, CROSSED);
        let line = two.step(129).to_string(heap)?;
        assert_eq!(rt;
            line.as_str(),
            "129 |    -402   -16378 |   -402  -16378  32366 16390 |   -384  -16256  -127 +3"
        );
        let (kind, power) = (MotorKind::ThreePhase, 32_767);
        let mut three = Rig::new(Settings { kind, power }, CROSSED);
        let line = three.step(199).to_string(heap)?;
        assert_eq!(rt;
            line.as_str(),
            "199 |  -32285    20787 | -32285   20787    483 53555 | -32256   20736  +162 +252"
        );
        Ok(())
    }
}
