ghost use Rattle.std.specs.Prelude.{◌≡◌, ℕ, neg_ℤ};
ghost use Rattle.stage.specs.Quantize.{quantize};
ghost use Rattle.stage.specs.Pairs.{IsBounded, quantized_pair, pairs_after_show};
ghost use Rattle.stage.specs.Wiring.{unwired_pair, wiring_pairs, wires_of};
ghost use Rattle.std.proofs.Common.{rules};

use crate::Stage;

/// How one gate's phases are wired to the stage below.
#[derive(Clone, Copy, PartialEq, Eq, Debug, Default)]
pub struct GateWiring {
    // the two phases change places
    pub exchanged: bool,
    // the board's phase A runs the other way round
    pub negated: bool,
}

/// Any stage, with the wires of each gate's phases exchanged or negated.
#[derive(Drop)]
pub struct Wiring<S: Stage + Drop> {
    below: S,
    one: GateWiring,
    two: GateWiring,
}

impl<S: Stage + Drop> Wiring<S> {
    /// A stage behind the wires of gate 1 and of gate 2.
    pub fn new(below: S, one: GateWiring, two: GateWiring) -> Wiring<S>
        ensures { result ≡ record { below = below; one = one; two = two } }
    {
        Wiring { below, one, two }
    }

    // How a gate is wired; what a number other than 1 or 2 answers is of no account.
    fn wire(&self, gate: u8) -> GateWiring
        ensures first { gate ≡ 1 → result ≡ self.now.one }
        ensures second { gate ≡ 2 → result ≡ self.now.two }
    {
        if gate == 1 { self.one } else { self.two }
    }

    /// The stage below.
    pub fn below(&self) -> &S
        ensures { result.now ≡ self.now.below }
    {
        &self.below
    }
}

// The number the other way round; the lowest, which has no opposite, is past the end in any case.
fn opposite(x: i32) -> i32
    ensures { (step : ℕ) → quantize step result ≡ neg_ℤ (quantize step x) }
{
    if x < -32767 { 32767 } else { -x }
}

// What is to be shown below, so that the board's numbers are seen above.
fn wired_pair(wire: GateWiring, a: i32, b: i32) -> (i32, i32)
    ensures { (step : ℕ) →
        unwired_pair wire (quantized_pair step result) ≡ quantized_pair step (a, b) }
{
    let a = if wire.negated { opposite(a) } else { a };
    if wire.exchanged { (b, a) } else { (a, b) }
}

fn unwired_pair(wire: GateWiring, pair: (i32, i32)) -> (i32, i32)
    requires { IsBounded pair }
    ensures is { result ≡ unwired_pair wire pair }
    ensures bounded { IsBounded result }
{
    let (a, b) = if wire.exchanged {
        (pair.1, pair.0)
    } else {
        pair
    };
    if wire.negated { (-a, b) } else { (a, b) }
}

impl<S: Stage + Drop> Stage for Wiring<S> {
    const STEP: u8 = S::STEP;

    ghost STEP = { S.Stage.STEP };

    ghost pairs = { wiring_pairs S.Stage.pairs };

    ghost range = { Prim.search rules };

    fn show(&mut self, gate: u8, a: i32, b: i32)
        ensures pairs { wiring_pairs S.Stage.pairs self.new ≡
            pairs_after_show S.Stage.STEP (wiring_pairs S.Stage.pairs self.old) gate a b }
        ensures wires { wires_of self.new ≡ wires_of self.old }
    {
        let (a, b) = wired_pair(self.wire(gate), a, b);
        self.below.show(gate, a, b);
    }

    fn pair(&self, gate: u8) -> (i32, i32) {
        unwired_pair(self.wire(gate), self.below.pair(gate))
    }
}
