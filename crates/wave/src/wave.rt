ghost use Rattle.std.specs.Prelude.{◌≡◌, ◌≤◌, unsigned_abs};
ghost use Rattle.wave.specs.Wave.{with_half_sign, wave};

use crate::quarter::half_wave;

// A size with the sign that the wave has at a place.
pub(crate) fn with_half_sign(place: u32, size: u16) -> i32
    ensures { result ≡ with_half_sign place size }
{
    let size = i32::from(size);
    if place < 128 { size } else { -size }
}

/// The wave at one of its 256 places.
#[tactic(auto, using(crate::proofs::Waves::half_bound, crate::proofs::Waves::with_half_sign_size), unfolding(crate::specs::Wave::wave))]
pub fn wave_at(place: u8) -> i32
    ensures is { result ≡ wave place }
    ensures bound { unsigned_abs result ≤ 32767 }
{
    let place = u32::from(place);
    with_half_sign(place, half_wave(place % 128))
}
