ghost use Rattle.std.specs.Prelude.{◌≡◌, ◌+◌, ◌^◌, ◌<◌, ◌≤◌, ◌↔◌, IsTrue};
ghost use Rattle.motion.specs.StoppingDistance.{stopping_distance};
ghost use Rattle.motion.specs.Tester.{new_tester, with_question};

use crate::rate::Rate;
use std::marker::Model;

/// Answers whether a gate at a speed can still stop within a distance; it keeps the first speed that it was asked, and counts how many it
/// was asked. It is not `Copy`, so that a search cannot ask a copy and hand back the original, and no other module sees its rate and its
/// distance. A clause sees all four fields.
#[derive(Drop)]
pub struct Tester {
    rate: Rate,
    distance: u64,
    first: Option<u32>,
    asked: u32,
}

impl Model for Tester {
    ghost use Rattle.motion.specs.Tester.{TesterState};

    ghost Value = { TesterState };

    ghost view = { λ t. record { rate = t.rate.size; distance = t.distance; first = t.first; asked = t.asked } };
}

impl Tester {
    /// A tester that was asked nothing; the distance is in 1/65,536 microstep.
    #[inline(always)]
    pub fn new(rate: Rate, distance: u64) -> Self
        ensures { result ≡ new_tester rate.size distance }
    {
        Tester {
            rate,
            distance,
            first: None,
            asked: 0,
        }
    }

    /// Whether the stopping distance of the speed, in 1/65,536 microstep a cycle, is at most the distance. Only what was asked changes.
    #[inline(always)]
    pub fn allows(&mut self, speed: u32) -> bool
        requires speed { speed < 2 ^ 30 }
        requires countable { self.old.asked + 1 < 2 ^ 32 }
        ensures answer { IsTrue result ↔
            (stopping_distance self.old.rate speed ≤ self.old.distance) }
        ensures counted { self.new ≡ with_question self.old speed }

        // a caller sees no invariant of the rate, and the proof of a search needs this one
        ensures positive { 1 ≤ self.old.rate }
    {
        self.first = self.first.or(Some(speed));
        self.asked += 1;
        self.rate.stopping_distance(speed) <= self.distance
    }

    /// A speed worth asking where the top is not allowed, in 1/65,536 microstep a cycle, by the closed form of the stopping distance; nothing
    /// is promised of it. It is the largest that is allowed where that lies no more than two accelerations below the top, as in a move.
    // `covered` is the stopping distance of `terms` whole accelerations. From there to the next, each unit of speed adds `terms` + 1. Where
    // the top is not allowed, what is left to cover has 32 bits.
    #[inline(always)]
    pub fn guess(&self, top: u32) -> u32
        requires { top < 2 ^ 30 }
    {
        let size = self.rate.size;
        let mut terms = top / size;
        let mut covered = self.rate.stopping_distance(terms * size);
        for _turn in 0..3 {
            if covered <= self.distance {
                let rest = ((self.distance - covered) & 0xffff_ffff) as u32;
                return (terms * size).wrapping_add(rest / (terms + 1));
            }
            covered -= u64::from(terms * size);
            terms -= 1;
        }
        terms * size
    }

    /// The first speed that it was asked, if any.
    pub fn first_question(&self) -> Option<u32>
        ensures { result ≡ self.now.first }
    {
        self.first
    }

    /// How many speeds it was asked.
    pub fn question_count(&self) -> u32
        ensures { result ≡ self.now.asked }
    {
        self.asked
    }
}
