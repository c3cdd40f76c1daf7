ghost use Rattle.std.specs.Prelude.{◌≡◌, ℕ, ◌+◌, ◌-◌, ◌^◌, ◌<◌, ◌≤◌, ◌↔◌, Some, IsTrue, max};
ghost use Rattle.motion.specs.StoppingDistance.{stopping_distance};
ghost use Rattle.motion.specs.Speed.{largest_speed, IsLargestSpeed};
ghost use Rattle.motion.specs.Tester.{new_tester, TestAlike};

use crate::tester::Tester;

// How many speeds a search may ask: the top, and 30 by which all that lie below it can be halved.
const QUESTIONS: u32 = 31;

// A search whose top is not allowed. Its answer is not below `low`, which is allowed or the floor, and is below `high`, which is not allowed.
#[derive(Drop)]
struct Search {
    tester: Tester,
    floor: u32,
    top: u32,
    low: u32,
    high: u32,
    ghost first: { tester.first ≡ Some top },
    ghost bounded: { top < 2 ^ 30 },
    ghost from_floor: { floor ≤ low },
    ghost ordered: { low < high },
    ghost to_top: { high ≤ top },
    ghost allowed: { floor < low → stopping_distance tester.rate low ≤ tester.distance },
    ghost over: { tester.distance < stopping_distance tester.rate high },
    // the questions that are left can halve the speeds from low to high down to one
    ghost halved: { high ≤ low + 2 ^ (31 - tester.asked) },
    ghost few: { tester.asked ≤ 31 },
}

impl Search {
    ghost use Rattle.motion.specs.Search.{SameSearch};

    // How many speeds the answer is one of.
    #[inline(always)]
    fn width(&self) -> u32
        ensures { result + self.now.low ≡ self.now.high }
    {
        self.high - self.low
    }

    // Whether the next question may be for any speed between low and high: there is one, and the questions left after it can halve them all.
    #[inline(always)]
    fn is_free(&self) -> bool
        ensures room { IsTrue result → self.now.low + 1 < self.now.high }
        ensures halved { IsTrue result →
            self.now.high ≤ self.now.low + 2 ^ (30 - self.now.tester.asked) }
    {
        self.width() > 1 && self.width() <= 1 << (QUESTIONS - 1 - self.tester.question_count())
    }

    // Asks for a speed between low and high, where the questions left after it can halve either side, and answers whether it is allowed.
    #[inline(always)]
    fn ask(&mut self, speed: u32) -> bool
        requires above { self.old.low < speed }
        requires below { speed < self.old.high }
        requires halved { (speed ≤ self.old.low + 2 ^ (30 - self.old.tester.asked)) ×
            (self.old.high ≤ speed + 2 ^ (30 - self.old.tester.asked)) }
        ensures answer { IsTrue result ↔ (self.new.low ≡ speed) }
        ensures same { SameSearch self.old self.new }
        ensures narrower { self.new.high + self.old.low < self.old.high + self.new.low }
    {
        let allowed = self.tester.allows(speed);
        if allowed {
            self.low = speed;
        } else {
            self.high = speed;
        }
        allowed
    }

    // Asks for the speed above low, if the next question is free, and answers whether it was asked and is allowed.
    #[inline(always)]
    fn ask_next(&mut self) -> bool
        ensures same { SameSearch self.old self.new }
    {
        self.is_free() && self.ask(self.low + 1)
    }

    // Asks where the answer is to be expected: for the speed above low, for the guess and for the speed above that.
    #[inline(always)]
    fn ask_expected(&mut self)
        ensures same { SameSearch self.old self.new }
    {
        if self.ask_next() && self.is_free() {
            let guess = self.tester.guess(self.top);
            if self.ask(guess.clamp(self.low + 1, self.high - 1)) {
                self.ask_next();
            }
        }
    }

    // Halves the speeds between low and high until none is left.
    #[inline(always)]
    fn halve(&mut self)
        ensures same { SameSearch self.old self.new }
        ensures settled { self.new.high ≡ self.new.low + 1 }
    {
        while self.width() > 1 {
            self.ask(self.low + self.width() / 2);
        }
    }
}

/// The largest speed up to the top that the tester allows, but at least the floor, and the tester as it is then; speeds are in 1/65,536
/// microstep a cycle. The first speed asked is the top, and where that is allowed it is the only one.
#[tactic(auto, using(crate::proofs::Fastest::largest_all, crate::proofs::Fastest::largest_below, crate::proofs::Fastest::largest_found))]
#[inline(always)]
pub fn largest_speed(mut tester: Tester, floor: u32, top: u32) -> (u32, Tester)
    requires floor { floor < 2 ^ 30 }
    requires top { top < 2 ^ 30 }
    requires unasked { tester ≡ new_tester tester.rate tester.distance }
    ensures is { result.0 ≡ max (largest_speed tester.rate tester.distance top) floor }
    ensures best { floor < result.0 → IsLargestSpeed tester.rate tester.distance top result.0 }
    ensures most { (speed : ℕ) → result.0 < speed → speed ≤ top →
        tester.distance < stopping_distance tester.rate speed }
    ensures first { result.1.first ≡ Some top }
    ensures once { stopping_distance tester.rate top ≤ tester.distance → result.1.asked ≡ 1 }
    ensures alone { top ≤ floor → result.1.asked ≡ 1 }
    ensures few { result.1.asked ≤ 31 }
    ensures tests { TestAlike tester result.1 }
{
    if tester.allows(top) {
        return (top.max(floor), tester);
    }
    if top <= floor {
        return (floor, tester);
    }
    let mut search = Search {
        tester,
        floor,
        top,
        low: floor,
        high: top,
    };
    search.ask_expected();
    search.halve();
    (search.low, search.tester)
}
