ghost use Rattle.std.specs.Prelude.{◌≡◌, ◌<◌, ◌≤◌, pos, ◌+ℤ◌, MatchOption};
ghost use Rattle.stage.specs.Dac.{dac_number, dac_pairs, number_at_address};
ghost use Rattle.stage.specs.declared.codes.Codes.TheVariants.{Words};
ghost use Rattle.std.proofs.Common.{rules};

use crate::codes::{Codes, Wires};
use crate::levels::{Form, Levels};
use crate::quantize::quantize;

/// A 16-bit word of a DAC: the number plus 32,768.
#[derive(Clone, Copy)]
pub struct Word(u16);

impl Form for Word {
    const STEP: u8 = 1;

    ghost STEP = { 1 };

    ghost number_of = { λ w. dac_number w.0 };

    ghost range = { Prim.search rules };

    fn keep(x: i32) -> Self {
        Word((quantize(Self::STEP, x) + 32768) as u16)
    }

    fn number(self) -> i32 {
        i32::from(self.0) - 32768
    }
}

/// Four words, one for each phase of each gate.
pub type Dac = Levels<Word>;

impl Levels<Word> {
    /// The word at an address: 0 and 1 are gate 1, phases A and B, and 2 and 3 gate 2; there is no other.
    pub fn word(&self, address: u8) -> Option<u16>
        ensures { MatchOption result
            (4 ≤ address) (λ w. (address < 4) ×
            (pos w ≡ number_at_address (dac_pairs self.now) address +ℤ pos 32768)) }
    {
        let word = match address {
            0 => self.one.0,
            1 => self.one.1,
            2 => self.two.0,
            3 => self.two.1,
            _ => return None,
        };
        Some(word.0)
    }
}

impl Wires for Levels<Word> {
    ghost codes = { λ d. Words (d.one.0.0, d.one.1.0) (d.two.0.0, d.two.1.0) };

    fn codes(&self) -> Codes {
        let ((a, b), (c, d)) = (self.one, self.two);
        Codes::Words((a.0, b.0), (c.0, d.0))
    }
}
