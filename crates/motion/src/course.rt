ghost use Rattle.std.specs.Prelude.{◌≡◌, ◌*◌, ◌%◌, ◌^◌, ◌<◌, ◌≤◌, max, pos, ◌-ℤ◌, ◌<ℤ◌, ◌≤ℤ◌, unsigned_abs};
ghost use Rattle.motion.specs.Course.{IsWithin, next_target, with_sign_of, next_actual, is_crossing_end, cruise, distance_to, toward, microsteps, wrap};

/// A microstep in the unit of target positions.
pub const MICROSTEP: i64 = 65_536;

// Target positions run from -POSITION_END to POSITION_END - 1.
const POSITION_END: i64 = 1 << 46;

// Encoder positions run from -COUNT_END to COUNT_END - 1.
const COUNT_END: i64 = 1 << 30;

/// `v` moved toward the target by at most `by`.
pub fn toward(v: i32, target: i32, by: u32) -> i32
    requires speed { unsigned_abs v < 2 ^ 30 }
    requires target { unsigned_abs target < 2 ^ 30 }
    requires by { by ≤ 2 ^ 30 }
    ensures is { result ≡ toward v target by }
    ensures size { unsigned_abs result ≤ max (unsigned_abs v) (unsigned_abs target) }
    ensures step { unsigned_abs (result -ℤ v) ≤ by }
    ensures range { unsigned_abs result < 2 ^ 30 }
{
    target.clamp(v - by as i32, v + by as i32)
}

// The size with the sign of `d`.
#[tactic(auto, using(crate::proofs::Velocities::with_sign_of_back, crate::proofs::Velocities::with_sign_of_on))]
fn with_sign_of(d: i64, size: u32) -> i32
    requires { size < 2 ^ 30 }
    ensures is { result ≡ with_sign_of d size }
    ensures size { unsigned_abs result ≡ size }
{
    if d < 0 { -(size as i32) } else { size as i32 }
}

/// The next velocity toward `top` in the direction of the acceleration.
#[tactic(auto, unfolding(crate::specs::Course::cruise))]
pub fn cruise(v: i32, top: u32, acceleration: i32) -> i32
    requires speed { unsigned_abs v < 2 ^ 30 }
    requires top { top < 2 ^ 30 }
    requires acceleration { unsigned_abs acceleration ≤ 2 ^ 30 }
    ensures is { result ≡ cruise v top acceleration }
    ensures size { unsigned_abs result ≤ max (unsigned_abs v) top }
    ensures step { unsigned_abs (result -ℤ v) ≤ unsigned_abs acceleration }
    ensures range { unsigned_abs result < 2 ^ 30 }
{
    let target = with_sign_of(i64::from(acceleration), top);
    toward(v, target, acceleration.unsigned_abs())
}

// `z` brought into -half .. half - 1 by whole turns, of which 64 bits hold a whole number.
fn wrap(z: i64, half: i64) -> i64
    requires positive { pos 0 <ℤ half }
    requires bounded { half ≤ℤ pos (2 ^ 46) }
    requires whole { 2 ^ 64 % (2 * unsigned_abs half) ≡ 0 }
    requires near { unsigned_abs z < 2 ^ 48 }
    ensures is { result ≡ wrap (unsigned_abs half) z }
    ensures range { IsWithin (unsigned_abs half) result }
{
    let turn = (2 * half).cast_unsigned();
    ((z + half).cast_unsigned() % turn).cast_signed() - half
}

/// The target position a cycle later, and whether it crossed an end of its range.
pub fn next_target(p: i64, v: i32) -> (i64, bool)
    requires position { IsWithin (2 ^ 46) p }
    requires speed { unsigned_abs v < 2 ^ 30 }
    ensures is { result.0 ≡ next_target p v }
    ensures crossed { result.1 ≡ is_crossing_end p v }
    ensures range { IsWithin (2 ^ 46) result.0 }
{
    let sum = p + i64::from(v);
    let next = wrap(sum, POSITION_END);
    (next, next != sum)
}

/// The microsteps of a target position, rounded down.
#[tactic(auto, unfolding(crate::specs::Course::microsteps))]
pub fn microsteps(p: i64) -> i32
    requires { IsWithin (2 ^ 46) p }
    ensures is { result ≡ microsteps p }
    ensures range { IsWithin (2 ^ 30) result }
{
    p.div_euclid(MICROSTEP) as i32
}

/// From the target position to a destination in microsteps.
#[tactic(auto, unfolding(crate::specs::Course::distance_to))]
pub fn distance(destination: i32, p: i64) -> i64
    requires destination { IsWithin (2 ^ 30) destination }
    requires position { IsWithin (2 ^ 46) p }
    ensures is { result ≡ distance_to destination p }
    ensures range { unsigned_abs result < 2 ^ 47 }
{
    MICROSTEP * i64::from(destination) - p
}

/// The encoder's position after a count.
pub fn next_actual(position: i32, count: i16) -> i32
    requires { IsWithin (2 ^ 30) position }
    ensures is { result ≡ next_actual position count }
    ensures range { IsWithin (2 ^ 30) result }
{
    wrap(i64::from(position) + i64::from(count), COUNT_END) as i32
}
