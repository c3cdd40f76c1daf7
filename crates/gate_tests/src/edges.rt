use gate::gate::Gate;
use gate::orders::{LongOrder, OutOfRange, WordOrder};
use std::process::Abort;

// Whether a fresh gate takes the order; a refusal, and nothing else, sets the command error bit.
fn taken<F>(rt: &impl Abort, run: F) -> bool
where
    F: FnOnce(&mut Gate) -> Result<(), OutOfRange>,
    requires { (gate : _) → F.pre run gate }
{
    let mut gate = Gate::fresh(false);
    let taken = run(&mut gate).is_ok();
    assert_eq!(rt; gate.events.word(), if taken { 0 } else { 128 });
    taken
}

fn takes(rt: &impl Abort, order: LongOrder, value: u32) -> bool {
    taken(rt, |gate| gate.run_long(order, value))
}

fn takes_word(rt: &impl Abort, order: WordOrder, word: u16) -> bool {
    taken(rt, |gate| gate.run_word(order, word))
}

#[test]
fn positions(rt: HostRuntime) {
    assert!(rt; takes(&rt, LongOrder::Destination, 0x3fff_ffff));
    assert!(rt; !takes(&rt, LongOrder::Destination, 0x4000_0000));
    assert!(rt; takes(&rt, LongOrder::Destination, 0xc000_0000));
    assert!(rt; !takes(&rt, LongOrder::Destination, 0xbfff_ffff));
    assert!(rt; takes(&rt, LongOrder::Actual, 0xc000_0000));
    assert!(rt; !takes(&rt, LongOrder::Actual, 0x4000_0000));
    assert!(rt; takes(&rt, LongOrder::Point, 0x8000_0000));
}

#[test]
fn rates(rt: HostRuntime) {
    assert!(rt; takes(&rt, LongOrder::Velocity, 0x3fff_ffff));
    assert!(rt; !takes(&rt, LongOrder::Velocity, 0x4000_0000));
    assert!(rt; !takes(&rt, LongOrder::Velocity, 0xffff_ffff));
    assert!(rt; !takes(&rt, LongOrder::Acceleration, 0));
    assert!(rt; takes(&rt, LongOrder::Acceleration, 0xc000_0000));
    assert!(rt; !takes(&rt, LongOrder::Acceleration, 0xbfff_ffff));
    assert!(rt; !takes(&rt, LongOrder::Acceleration, 0x4000_0000));
}

#[test]
fn powers(rt: HostRuntime) {
    assert!(rt; takes_word(&rt, WordOrder::BufferedPower, 32_767));
    assert!(rt; !takes_word(&rt, WordOrder::BufferedPower, 32_768));
    assert!(rt; takes_word(&rt, WordOrder::Power, 32_767));
    assert!(rt; !takes_word(&rt, WordOrder::Power, 32_768));
    assert!(rt; takes_word(&rt, WordOrder::Mask, 65_535));
}
