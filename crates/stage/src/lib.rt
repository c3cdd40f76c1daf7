// Output stages: what stands between a gate's phase numbers and the wires of its motor. Their rules: docs/STAGES.md.
#![tactic(auto)]

ghost use Rattle.std.specs.Prelude.{◌≡◌, ℕ, ◌≤◌};
ghost use Rattle.stage.specs.Pairs.{Pairs, IsBounded, pair_of, pairs_after_show};

pub mod codes;
pub mod dac;
pub mod levels;
pub mod pulse;
pub mod pwm;
pub mod quantize;
pub mod wiring;

/// A stage stands for one pair of phase numbers, A and B, for each of the gates 1 and 2. A gate is named by its number, since every other
/// number has its answer too.
pub trait Stage {
    /// What every number shown is a multiple of.
    const STEP: u8;

    ghost STEP: { ℕ };

    ghost pairs: { Self → Pairs };

    /// The step, from 1 to 128.
    fn step_size() -> u8
        ensures is { result ≡ STEP }
        ensures range { (1 ≤ result) × (result ≤ 128) }
    {
        Self::STEP
    }

    /// Shows two numbers on a gate; a gate other than 1 or 2 changes nothing.
    fn show(&mut self, gate: u8, a: i32, b: i32)
        ensures { pairs self.new ≡ pairs_after_show STEP (pairs self.old) gate a b };

    /// The pair that a gate shows; (0, 0) for a gate other than 1 or 2.
    fn pair(&self, gate: u8) -> (i32, i32)
        ensures is { result ≡ pair_of (pairs self.now) gate }
        ensures bounded { IsBounded result };

    ghost range: { (1 ≤ STEP) × (STEP ≤ 128) };
}

#[cfg(test)]
mod tests {
    use crate::Stage;
    use crate::dac::Dac;
    use crate::pulse::Pulse;
    use crate::pwm::Pwm;
    use crate::quantize::quantize;
    use crate::wiring::{GateWiring, Wiring};

    #[test]
    fn cuts_toward_zero(rt: HostRuntime) {
        assert_eq!(rt; quantize(128, 127), 0);
        assert_eq!(rt; quantize(128, -127), 0);
        assert_eq!(rt; quantize(128, -32767), -32640);
        assert_eq!(rt; quantize(3, -32768), -32766);
        assert_eq!(rt; quantize(1, i32::MIN), -32767);
        assert_eq!(rt; quantize(0, 5), 0);
    }

    #[test]
    fn dac_words(rt: HostRuntime) {
        let mut dac = Dac::new();
        dac.show(2, -40000, 32767);
        dac.show(0, 1, 1);
        dac.show(3, 1, 1);
        assert_eq!(rt; dac.word(0), Some(32768));
        assert_eq!(rt; dac.word(2), Some(1));
        assert_eq!(rt; dac.word(3), Some(65535));
        assert_eq!(rt; dac.word(4), None);
        assert_eq!(rt; dac.pair(2), (-32767, 32767));
        assert_eq!(rt; dac.pair(0), (0, 0));
    }

    #[test]
    fn pwm_lines(rt: HostRuntime) {
        let mut pwm = Pwm::new();
        pwm.show(1, -127, -32767);
        let off = Pulse {
            magnitude: 0,
            negative: false,
        };
        let full = Pulse {
            magnitude: 255,
            negative: true,
        };
        assert_eq!(rt; pwm.pulses(1), Some((off, full)));
        assert_eq!(rt; pwm.pair(1), (0, -32640));
        assert_eq!(rt; pwm.pulses(3), None);
    }

    #[test]
    fn piled_wirings(rt: HostRuntime) {
        let crossed = GateWiring {
            exchanged: true,
            negated: true,
        };
        let mut pile = Wiring::new(
            Wiring::new(Dac::new(), crossed, GateWiring::default()),
            crossed,
            crossed,
        );
        pile.show(1, 7, 40000);
        pile.show(2, 7, 40000);
        assert_eq!(rt; pile.pair(1), (7, 32767));
        assert_eq!(rt; pile.below().pair(1), (32767, -7));
        assert_eq!(rt; pile.below().below().pair(1), (-7, -32767));
        assert_eq!(rt; pile.below().below().pair(2), (32767, -7));
        assert_eq!(rt; <Wiring<Pwm> as Stage>::STEP, 128);
        assert_eq!(rt; <Wiring<Dac> as Stage>::step_size(), 1);
    }
}
