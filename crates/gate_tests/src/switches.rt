use crate::drive::{BOTH, follows_one_step, look, sent_gate, sent_one_step};
use gate::gate::BreakMode;
use gate::inputs::Inputs;
use gate::orders::{LongOrder, Order, WordOrder};
use gate::profile::ProfileMode;
use std::test::Fail;

// The positive limit is tried first; the negative one is held back until the bit is cleared, and then trips, since its detector stayed
// armed.
#[test]
fn limits(rt: HostRuntime) {
    let mut gate = sent_gate(ProfileMode::Trapezoidal, 1000, 1_310_720, 65_536);
    let _ = gate.cycle(Inputs::STILL);
    let _ = gate.cycle(BOTH);
    assert_eq!(rt; look(&gate), (0, 65_536, 33));
    assert!(rt; !gate.detectors.positive && gate.detectors.negative);
    gate.run(Order::Update);
    assert!(rt; gate.motion.halted);
    let _ = gate.cycle(BOTH);
    assert_eq!(rt; look(&gate), (0, 65_536, 33));
    let _ = gate.run_word(WordOrder::ClearEvents, 0);
    let _ = gate.cycle(BOTH);
    assert_eq!(rt; look(&gate), (0, 65_536, 64));
    assert!(rt; !gate.detectors.negative);
}

#[test]
fn breaks_before_the_move(rt: HostRuntime) -> Result<(), Fail> {
    let mut gate = sent_one_step();
    gate.run(Order::Break(BreakMode::TargetAbove));
    let _ = gate.run_long(LongOrder::Point, 1);
    follows_one_step(&rt, gate, 5)
}

#[test]
fn breaks_in_the_first_cycle(rt: HostRuntime) {
    let mut gate = sent_one_step();
    gate.run(Order::Break(BreakMode::Time));
    let _ = gate.run_long(LongOrder::Point, 1);
    let _ = gate.run_word(WordOrder::Mask, 4);
    assert!(rt; !gate.calls());
    let _ = gate.cycle(Inputs::STILL);
    assert_eq!(rt; look(&gate), (16_384, 16_384, 1028));
    assert!(rt; gate.calls());
}
