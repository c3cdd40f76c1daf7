ghost use Rattle.std.specs.Prelude.{◌≡◌, ℕ, ℤ, ◌≤◌, unsigned_abs};
ghost use Rattle.stage.specs.Quantize.{quantize};
ghost use Rattle.stage.specs.Levels.{levels};
ghost use Rattle.stage.specs.Pairs.{zero_pairs};
ghost use Rattle.std.proofs.Common.{rules};

use crate::Stage;

/// The form in which a make keeps a number on its wires.
pub trait Form: Clone + Copy {
    /// What every number kept is a multiple of.
    const STEP: u8;

    ghost STEP: { ℕ };

    ghost number_of: { Self → ℤ };

    /// What the step leaves of a number.
    fn keep(x: i32) -> Self
        ensures { number_of result ≡ quantize STEP x };

    /// The number that a kept value stands for.
    fn number(self) -> i32
        ensures is { result ≡ number_of self }
        ensures bound { unsigned_abs result ≤ 65536 };

    ghost range: { (1 ≤ STEP) × (STEP ≤ 128) };
}

/// A stage that keeps every number in one form: phases A and B, of gate 1 and of gate 2.
#[derive(Clone, Copy)]
pub struct Levels<F: Form> {
    pub(crate) one: (F, F),
    pub(crate) two: (F, F),
}

impl<F: Form> Levels<F> {
    /// A new stage, which shows 0, 0 for both gates.
    #[tactic(auto, using(crate::proofs::Quantizing::quantize_zero))]
    pub fn new() -> Levels<F>
        ensures { levels F.Form.number_of result.one result.two ≡ zero_pairs }
    {
        let off = F::keep(0);
        Levels {
            one: (off, off),
            two: (off, off),
        }
    }
}

impl<F: Form> Stage for Levels<F> {
    const STEP: u8 = F::STEP;

    ghost STEP = { F.Form.STEP };

    ghost pairs = { λ s. levels F.Form.number_of s.one s.two };

    ghost range = { Prim.search rules };

    fn show(&mut self, gate: u8, a: i32, b: i32) {
        match gate {
            1 => self.one = (F::keep(a), F::keep(b)),
            2 => self.two = (F::keep(a), F::keep(b)),
            _ => {}
        }
    }

    fn pair(&self, gate: u8) -> (i32, i32) {
        let (a, b) = match gate {
            1 => self.one,
            2 => self.two,
            _ => return (0, 0),
        };
        (a.number(), b.number())
    }
}
