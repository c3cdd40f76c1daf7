ghost use Rattle.std.specs.Prelude.{◌≡◌};
ghost use Rattle.replay.specs.Looks.{mode_byte, break_byte, motor_byte, pair_bytes, profile_bytes, motion_bytes, breakpoint_bytes, flags_bytes, record_bytes, look_bytes};
ghost use Rattle.replay.specs.Written.{HasRoom, Appends, AppendsOrNone};

use crate::fault::Fault;
use crate::out::Out;
use board::board::Board;
use gate::gate::{BreakMode, Breakpoint, Gate, Motion};
use gate::profile::{Profile, ProfileMode};
use stage::Stage;
use wave::phases::MotorKind;

// How many bytes a look takes, with the byte that says so. A look is written whole or not at all: its room is asked for once, and each
// part requires its own.
const LOOK: usize = 149;

// The bytes are this crate's format, which the crates of these cases need not know; so they are matched here, and below.
fn mode_byte(mode: ProfileMode) -> u8
    ensures { result ≡ mode_byte mode }
{
    match mode {
        ProfileMode::Trapezoidal => 0,
        ProfileMode::Velocity => 1,
    }
}

fn break_byte(mode: BreakMode) -> u8
    ensures { result ≡ break_byte mode }
{
    match mode {
        BreakMode::Off => 0,
        BreakMode::Time => 1,
        BreakMode::TargetAbove => 2,
        BreakMode::TargetBelow => 3,
        BreakMode::ActualAbove => 4,
        BreakMode::ActualBelow => 5,
        BreakMode::Complete => 6,
        BreakMode::External => 7,
    }
}

fn motor_byte(kind: MotorKind) -> u8
    ensures { result ≡ motor_byte kind }
{
    match kind {
        MotorKind::TwoPhase => 0,
        MotorKind::ThreePhase => 1,
    }
}

fn put_pair(out: &mut Out<'_>, pair: (i32, i32))
    requires { HasRoom out.old 8 }
    ensures { Appends out.old out.new (pair_bytes pair) }
{
    out.put(&pair.0.to_be_bytes());
    out.put(&pair.1.to_be_bytes());
}

fn put_profile(out: &mut Out<'_>, profile: Profile)
    requires { HasRoom out.old 13 }
    ensures { Appends out.old out.new (profile_bytes profile) }
{
    out.put(&profile.destination.to_be_bytes());
    out.put(&profile.velocity.to_be_bytes());
    out.put(&profile.acceleration.to_be_bytes());
    out.put(&[mode_byte(profile.mode)]);
}

fn put_motion(out: &mut Out<'_>, motion: Motion)
    requires { HasRoom out.old 14 }
    ensures { Appends out.old out.new (motion_bytes motion) }
{
    out.put(&motion.target.to_be_bytes());
    out.put(&motion.velocity.to_be_bytes());
    out.put(&[u8::from(motion.halted), u8::from(motion.rested)]);
}

fn put_breakpoint(out: &mut Out<'_>, breakpoint: Breakpoint)
    requires { HasRoom out.old 6 }
    ensures { Appends out.old out.new (breakpoint_bytes breakpoint) }
{
    out.put(&[break_byte(breakpoint.mode)]);
    out.put(&breakpoint.point.to_be_bytes());
    out.put(&[u8::from(breakpoint.auto)]);
}

// What follows the breakpoint in a record: event bits, those of the last collect, mask, detectors, kind of motor, slip mark, clock.
fn put_flags(out: &mut Out<'_>, gate: &Gate)
    requires { HasRoom out.old 12 }
    ensures { Appends out.old out.new (flags_bytes gate.now) }
{
    out.put(&[gate.events.word() as u8, gate.found.word() as u8]);
    out.put(&gate.mask.to_be_bytes());
    out.put(&[
        u8::from(gate.detectors.positive),
        u8::from(gate.detectors.negative),
    ]);
    out.put(&[motor_byte(gate.kind), u8::from(gate.slip)]);
    out.put(&gate.clock.cycles.to_be_bytes());
}

fn put_record(out: &mut Out<'_>, gate: &Gate)
    requires { HasRoom out.old 66 }
    ensures { Appends out.old out.new (record_bytes gate.now) }
{
    put_profile(out, gate.buffered);
    put_profile(out, gate.active);
    out.put(&gate.powers.buffered.to_be_bytes());
    out.put(&gate.powers.active.to_be_bytes());
    put_motion(out, gate.motion);
    out.put(&gate.actual.to_be_bytes());
    put_breakpoint(out, gate.breakpoint);
    put_flags(out, gate);
}

/// Writes the pairs and the records of a board.
pub fn put_look<S: Stage + Drop>(out: &mut Out<'_>, board: &Board<S>) -> Result<(), Fault>
    ensures { AppendsOrNone out.old out.new (look_bytes S.Stage board.now) result }
{
    out.room(LOOK)?;
    out.put(&[0x13]);
    put_pair(out, board.pair(1));
    put_pair(out, board.pair(2));
    put_record(out, &board.record(1).unwrap());
    put_record(out, &board.record(2).unwrap());
    Ok(())
}
