ghost use Rattle.std.specs.Prelude.{◌≡◌, ◌+◌, ◌-◌, ◌^◌, ◌<◌, ◌≤◌, Some, min, max, pos, ◌-ℤ◌, unsigned_abs};
ghost use Rattle.motion.specs.StoppingDistance.{stopping_distance};
ghost use Rattle.motion.specs.Tester.{new_tester, TestAlike};
ghost use Rattle.motion.specs.Course.{next_speed, trapezoid};

use crate::course::toward;
use crate::search::largest_speed;
use crate::tester::Tester;

/// By how much the speed of a gate may change in a cycle, in 1/65,536 microstep a cycle.
#[derive(Clone, Copy, PartialEq, Eq, Debug)]
pub struct Rate {
    pub size: u32,
    pub ghost positive: { 1 ≤ size },
    pub ghost bounded: { size ≤ 2 ^ 30 },
}

impl Rate {
    /// The stopping distance of a speed: the distance that a gate still travels if it runs at that speed now and then slows by the rate
    /// each cycle.
    pub fn stopping_distance(self, speed: u32) -> u64
        requires { speed < 2 ^ 30 }
        ensures { result ≡ stopping_distance self.size speed }
    {
        let whole = u64::from(speed / self.size);
        let rest = u64::from(speed % self.size);
        (whole + 1) * (u64::from(speed) + rest) / 2
    }

    /// The next speed of a gate that stands, or runs toward a destination that lies the distance ahead, and the tester that the search for
    /// it asked; `top` is the velocity register. The distance is in 1/65,536 microstep, speeds are in that a cycle.
    #[inline(always)]
    #[tactic(auto, unfolding(crate::specs::Course::next_speed))]
    pub fn next_speed(self, speed: u32, top: u32, distance: u64) -> (u32, Tester)
        requires speed { speed < 2 ^ 30 }
        requires top { top < 2 ^ 30 }
        ensures is { result.0 ≡ next_speed speed top self.size distance }
        ensures range { result.0 < 2 ^ 30 }
        ensures first { result.1.first ≡ Some (min top (speed + self.size)) }
        ensures once { stopping_distance self.size (min top (speed + self.size)) ≤ distance →
            result.1.asked ≡ 1 }
        ensures alone { top ≤ speed - self.size → result.1.asked ≡ 1 }
        ensures few { result.1.asked ≤ 31 }
        ensures tests { TestAlike (new_tester self.size distance) result.1 }
    {
        let slowed = speed.saturating_sub(self.size);
        let tester = Tester::new(self, distance);
        largest_speed(tester, slowed, top.min(speed + self.size))
    }

    // The next velocity of a gate whose destination lies ahead, or where it is.
    #[inline(always)]
    fn trapezoid_ahead(self, v: i32, top: u32, distance: u64) -> i32
        requires speed { unsigned_abs v < 2 ^ 30 }
        requires top { top < 2 ^ 30 }
        ensures is { result ≡ trapezoid v top self.size (pos distance) }
        ensures range { unsigned_abs result < 2 ^ 30 }
    {
        if v < 0 || distance == 0 {
            return toward(v, 0, self.size);
        }
        let (speed, _) = self.next_speed(v.unsigned_abs(), top, distance);
        speed as i32
    }

    /// The next velocity on the way to a destination at the distance, in 1/65,536 microstep; velocities are in that a cycle. A gate that can
    /// stop within the distance still can after this cycle.
    #[inline(always)]
    pub fn trapezoid(self, v: i32, top: u32, distance: i64) -> i32
        requires speed { unsigned_abs v < 2 ^ 30 }
        requires top { top < 2 ^ 30 }
        ensures is { result ≡ trapezoid v top self.size distance }
        ensures size { unsigned_abs result ≤ max (unsigned_abs v) top }
        ensures step { unsigned_abs (result -ℤ v) ≤ self.size }
        ensures stops { stopping_distance self.size (unsigned_abs v - self.size) ≤
            unsigned_abs distance →
            unsigned_abs result + stopping_distance self.size (unsigned_abs result - self.size) ≤
            unsigned_abs distance }
        ensures range { unsigned_abs result < 2 ^ 30 }
    {
        if distance < 0 {
            -self.trapezoid_ahead(-v, top, distance.unsigned_abs())
        } else {
            self.trapezoid_ahead(v, top, distance.unsigned_abs())
        }
    }
}
