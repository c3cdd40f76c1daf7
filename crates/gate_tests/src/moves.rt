use crate::drive::{Summary, follows, follows_one_step, sent_gate, sent_one_step, travel};
use gate::orders::{LongOrder, Order};
use gate::profile::ProfileMode;
use std::test::Fail;

#[test]
fn one_step(rt: HostRuntime) -> Result<(), Fail> {
    follows_one_step(&rt, sent_one_step(), 1)
}

#[test]
fn uneven_step(rt: HostRuntime) -> Result<(), Fail> {
    let gate = sent_gate(ProfileMode::Trapezoidal, 1, 65_536, 65_535);
    follows(
        &rt,
        gate,
        &[(65_535, 65_535, 1024), (1, 65_536, 1024), (0, 65_536, 1)],
    )
}

#[test]
fn cruise_down(rt: HostRuntime) -> Result<(), Fail> {
    let gate = sent_gate(ProfileMode::Velocity, 0, 20_000, -16_384);
    follows(
        &rt,
        gate,
        &[
            (-16_384, -16_384, 1024),
            (-20_000, -36_384, 1024),
            (-20_000, -56_384, 1024),
        ],
    )
}

#[test]
fn wrap_around(rt: HostRuntime) -> Result<(), Fail> {
    let mut gate = sent_gate(ProfileMode::Velocity, 0, 65_536, 65_536);
    let _ = gate.run_long(LongOrder::Actual, 1_073_741_822);
    gate.run(Order::Update);
    follows(
        &rt,
        gate,
        &[
            (65_536, 70_368_744_112_128, 1024),
            (65_536, -70_368_744_177_664, 1026),
        ],
    )
}

#[test]
fn long_moves(rt: HostRuntime) {
    let gate = sent_gate(ProfileMode::Trapezoidal, -12_000, 3_000_000, 40_001);
    assert_eq!(rt;
        travel(gate, 400),
        Summary {
            checksum: 2_068_394_006,
            complete: Some(338),
            end: (0, -786_432_000, 1),
        }
    );
    let gate = sent_gate(ProfileMode::Trapezoidal, 2_000, 1_073_741_823, -30_001);
    assert_eq!(rt;
        travel(gate, 400),
        Summary {
            checksum: 1_346_359_232,
            complete: Some(133),
            end: (0, 131_072_000, 1),
        }
    );
}
