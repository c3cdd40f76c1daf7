ghost use Rattle.gate.specs.Sound.{IsSound};

use gate::gate::Gate;
use gate::inputs::Inputs;
use gate::orders::{LongOrder, Order};
use gate::profile::ProfileMode;
use std::process::Abort;
use std::test::Fail;

/// A cycle with both limit switches active.
pub const BOTH: Inputs = Inputs {
    positive: true,
    negative: true,
    ..Inputs::STILL
};

/// A fresh gate with these registers active.
pub fn sent_gate(mode: ProfileMode, destination: i32, velocity: u32, acceleration: i32) -> Gate
    ensures { IsSound result }
{
    let mut gate = Gate::fresh(false);
    gate.run(Order::Mode(mode));
    let _ = gate.run_long(LongOrder::Destination, destination.cast_unsigned());
    let _ = gate.run_long(LongOrder::Velocity, velocity);
    let _ = gate.run_long(LongOrder::Acceleration, acceleration.cast_unsigned());
    gate.run(Order::Update);
    gate
}

/// Velocity, target position in 1/65,536 microstep, and status word.
pub fn look(gate: &Gate) -> (i32, i64, u16)
    requires { IsSound gate.now }
{
    (gate.motion.velocity, gate.motion.target, gate.status(0))
}

/// Holds still cycles to their rows.
pub fn follows(rt: &impl Abort, mut gate: Gate, rows: &[(i32, i64, u16)]) -> Result<(), Fail>
    requires { IsSound gate }
{
    for row in rows {
        let _ = gate.cycle(Inputs::STILL);
        assert_eq!(rt; look(&gate), *row);
    }
    Ok(())
}

/// A gate that moves by one microstep.
pub fn sent_one_step() -> Gate
    ensures { IsSound result }
{
    sent_gate(ProfileMode::Trapezoidal, 1, 40_000, 16_384)
}

/// Holds that move to its rows, with this status word at rest.
pub fn follows_one_step(rt: &impl Abort, gate: Gate, rest: u16) -> Result<(), Fail>
    requires { IsSound gate }
{
    follows(
        rt,
        gate,
        &[
            (16_384, 16_384, 1024),
            (32_768, 49_152, 1024),
            (16_384, 65_536, 1024),
            (0, 65_536, rest),
            (0, 65_536, rest),
        ],
    )
}

/// What is left of a long move.
#[derive(Clone, Copy, PartialEq, Eq, Debug)]
pub struct Summary {
    // of all velocities, in order
    pub checksum: u32,
    // the cycle in which motion complete was set
    pub complete: Option<u32>,
    pub end: (i32, i64, u16),
}

pub fn travel(mut gate: Gate, cycles: u32) -> Summary
    requires { IsSound gate }
{
    let mut checksum: u32 = 0;
    let mut complete = None;
    for _turn in 0..cycles {
        let _ = gate.cycle(Inputs::STILL);
        checksum = checksum
            .wrapping_mul(31)
            .wrapping_add(gate.motion.velocity.cast_unsigned());
        if gate.events.complete && complete.is_none() {
            complete = Some(gate.clock.time());
        }
    }
    Summary {
        checksum,
        complete,
        end: look(&gate),
    }
}
