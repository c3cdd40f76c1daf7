ghost use Rattle.std.specs.Prelude.{◌≡◌, ◌*◌, ◌/◌, ◌≤◌, unsigned_abs};
ghost use Rattle.wave.specs.Wave.{wave};
ghost use Rattle.wave.specs.Phases.{angle, lead, scaled_by_power, phases};

use crate::quarter::half_wave;
use crate::wave::with_half_sign;

// The greatest value of the wave.
const FULL_SCALE: u64 = 32_767;

// Full scale times this is 2^45 - 1: to divide by full scale, it is quicker to multiply one more by this and shift.
const RECIPROCAL: u64 = ((1 << 45) - 1) / FULL_SCALE;

/// The kind of motor, by how far phase B is ahead of phase A.
#[derive(Clone, Copy, PartialEq, Eq, Debug)]
pub enum MotorKind {
    TwoPhase,
    ThreePhase,
}

impl MotorKind {
    /// How many places of 256 phase B is ahead of phase A.
    pub fn lead(self) -> u8
        ensures { result ≡ lead self }
    {
        match self {
            MotorKind::TwoPhase => 64,
            MotorKind::ThreePhase => 85,
        }
    }
}

/// The place on the wave that a position stands at.
pub fn angle(position: i32) -> u8
    ensures { result ≡ angle position }
{
    position.rem_euclid(256) as u8
}

// A size of the wave times the power over full scale, cut down.
#[tactic(auto, using(crate::proofs::Waves::share, crate::proofs::Waves::reciprocal))]
fn share(power: u16, size: u16) -> u16
    requires { size ≤ 32767 }
    ensures is { result ≡ size * power / 32767 }
    ensures bound { result ≤ power }
{
    let product = u64::from(size) * u64::from(power);
    ((product + 1) * RECIPROCAL >> 45) as u16
}

// What a winding is driven with at a place of the wave. The sign is given last, so that nothing signed is divided.
#[tactic(auto, using(crate::proofs::Waves::half_bound, crate::proofs::Waves::with_half_sign_size, crate::proofs::Waves::scaled_by_power_with_half_sign), unfolding(crate::specs::Wave::wave))]
fn phase(power: u16, place: u32) -> i32
    ensures is { result ≡ scaled_by_power power (wave place) }
    ensures bound { unsigned_abs result ≤ power }
{
    with_half_sign(place, share(power, half_wave(place % 128)))
}

/// What the phases A and B of a motor are driven with at a position.
pub fn phases(kind: MotorKind, power: u16, position: i32) -> (i32, i32)
    ensures is { result ≡ phases kind power position }
    ensures bound { (unsigned_abs result.0 ≤ power) × (unsigned_abs result.1 ≤ power) }
{
    let place = u32::from(angle(position));
    let ahead = (place + u32::from(kind.lead())) % 256;
    (phase(power, place), phase(power, ahead))
}
