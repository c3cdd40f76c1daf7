ghost use Rattle.std.specs.Prelude.{◌≡◌, min, max};
ghost use Rattle.stage.specs.Quantize.{quantize};
ghost use Rattle.stage.specs.Pairs.{zero_pairs};
ghost use Rattle.foreign.specs.Plates.{plate_pairs};
ghost use Rattle.std.proofs.Common.{rules};

use stage::Stage;
use stage::quantize::quantize;

/// A stage that keeps its numbers as they are shown, in multiples of its step: of N, but at least of 1 and at most of 128. It implements
/// `Stage` itself, and not by a form of the crate `stage`.
#[derive(Clone, Copy)]
pub struct Plate<const N: u8> {
    one: (i16, i16),
    two: (i16, i16),
}

fn narrow(step: u8, x: i32) -> i16
    ensures { result ≡ quantize step x }
{
    quantize(step, x) as i16
}

impl<const N: u8> Plate<N> {
    /// A new plate, which shows 0, 0 for both gates.
    pub fn new() -> Plate<N>
        ensures { plate_pairs result.one result.two ≡ zero_pairs }
    {
        Plate {
            one: (0, 0),
            two: (0, 0),
        }
    }
}

impl<const N: u8> Stage for Plate<N> {
    const STEP: u8 = if N < 1 {
        1
    } else if N > 128 {
        128
    } else {
        N
    };

    ghost STEP = { min 128 (max 1 N) };

    ghost pairs = { λ s. plate_pairs s.one s.two };

    ghost range = { Prim.search rules };

    fn show(&mut self, gate: u8, a: i32, b: i32) {
        match gate {
            1 => self.one = (narrow(Self::STEP, a), narrow(Self::STEP, b)),
            2 => self.two = (narrow(Self::STEP, a), narrow(Self::STEP, b)),
            _ => {}
        }
    }

    fn pair(&self, gate: u8) -> (i32, i32) {
        let (a, b) = match gate {
            1 => self.one,
            2 => self.two,
            _ => return (0, 0),
        };
        (i32::from(a), i32::from(b))
    }
}
