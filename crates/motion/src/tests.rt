ghost use Rattle.std.specs.Prelude.{◌^◌, ◌<◌, ◌≤◌};

use crate::course::{cruise, distance, microsteps, next_actual, next_target, toward};
use crate::rate::Rate;
use crate::search::largest_speed;
use crate::tester::Tester;

#[test]
fn stopping_distances(rt: HostRuntime) {
    assert_eq!(rt; Rate { size: 16_384 }.stopping_distance(32_768), 49_152);
    assert_eq!(rt; Rate { size: 65_535 }.stopping_distance(65_535), 65_535);
    assert_eq!(rt;
        Rate { size: 7 }.stopping_distance(1_073_741_823),
        82_351_536_426_825_435
    );
}

#[test]
fn tests_speeds(rt: HostRuntime) {
    let mut tester = Tester::new(Rate { size: 16_384 }, 49_152);
    assert!(rt; tester.first_question().is_none());
    assert_eq!(rt; tester.question_count(), 0);
    assert!(rt; tester.allows(32_768));
    assert!(rt; !tester.allows(32_769));
    assert!(rt; tester.allows(0));
    assert_eq!(rt; tester.first_question(), Some(32_768));
    assert_eq!(rt; tester.question_count(), 3);
}

// The largest speed there is, and the same as a velocity.
const FASTEST: u32 = 1_073_741_823;

const FASTEST_VELOCITY: i32 = 1_073_741_823;

// A search of numbers in range: the speed found, the first speed asked and how many were asked.
fn search(size: u32, distance: u64, floor: u32, top: u32) -> (u32, Option<u32>, u32) {
    let size = size.clamp(1, 1 << 30);
    let tester = Tester::new(Rate { size }, distance);
    let (speed, tester) = largest_speed(tester, floor.min(FASTEST), top.min(FASTEST));
    (speed, tester.first_question(), tester.question_count())
}

// The rows of `python3 tools/questions.py rows`.
#[test]
fn searches(rt: HostRuntime) {
    for (size, distance, floor, top, speed, asked) in [
        (1_901, 17_515_529_401_685, 0, FASTEST, 258_057_265, 31),
        (817, 10_916_795_706_014, 0, FASTEST, 133_558_732, 31),
        (16_384, 49_152, 5, 40_000, 32_768, 4),
        (16_384, 49_152, 5, 32_768, 32_768, 1),
        (16_384, 49_152, 32_768, 40_000, 32_768, 2),
        (16_384, 49_152, 33_000, 40_000, 33_000, 2),
        (16_384, 49_152, 41_000, 40_000, 41_000, 1),
        (16_384, 49_152, 40_000, 40_000, 40_000, 1),
        (1, 140_737_488_355_327, 0, FASTEST, 16_777_215, 31),
        (1, 0, 0, FASTEST, 0, 30),
        (1, 0, FASTEST, FASTEST, FASTEST, 1),
        (1 << 30, 700_000_000, 3, FASTEST, 700_000_000, 31),
        (1 << 30, 140_737_488_355_327, 0, FASTEST, FASTEST, 1),
        (1 << 30, 1_073_741_822, 0, FASTEST, 1_073_741_822, 31),
        (1 << 30, 1, 0, FASTEST, 1, 31),
        (
            1 << 26,
            134_217_727,
            67_108_863,
            201_326_591,
            100_663_295,
            4,
        ),
    ] {
        assert_eq!(rt;
            search(size, distance, floor, top),
            (speed, Some(top), asked)
        );
    }
}

// The last rows there: what is found lies far below the top, and the guess misleads.
#[test]
fn searches_misled(rt: HostRuntime) {
    for (size, distance, floor, top, speed) in [
        (1_000, 1 << 40, 5, 400_000_000, 46_893_244),
        (7, 12_345_678_901, 0, 1 << 29, 415_736),
        (1 << 20, 3 << 20, 2, 1 << 28, 2_097_152),
    ] {
        let (found, first, asked) = search(size, distance, floor, top);
        assert_eq!(rt; (found, first), (speed, Some(top)));
        assert!(rt; asked <= 31);
    }
}

// The stopping distance of a speed up to 24, written out.
fn written_out(size: u32, speed: u32) -> u64 {
    let mut sum: u64 = 0;
    let mut term = speed;
    for _term in 0..24 {
        sum = sum.saturating_add(u64::from(term));
        term = term.saturating_sub(size);
    }
    sum
}

// The next velocity by the words of docs/GATE.md, of speeds up to 12.
fn small_move(v: i32, top: u32, size: u32, distance: i64) -> i64 {
    let speed = v.unsigned_abs();
    let slower = speed.saturating_sub(size);
    if distance == 0 || v < 0 && distance > 0 || v > 0 && distance < 0 {
        return if v < 0 {
            -i64::from(slower)
        } else {
            i64::from(slower)
        };
    }
    let mut next = slower;
    for faster in 0..=top.min(speed.saturating_add(size)) {
        if written_out(size, faster) <= distance.unsigned_abs() {
            next = next.max(faster);
        }
    }
    if distance < 0 {
        -i64::from(next)
    } else {
        i64::from(next)
    }
}

#[test]
fn small_moves(rt: HostRuntime) {
    for size in 1..=12 {
        for top in 0..=12 {
            for v in -12..=12 {
                for distance in -40..=40 {
                    let velocity = Rate { size }.trapezoid(v.clamp(-12, 12), top, distance);
                    assert_eq!(rt; i64::from(velocity), small_move(v, top, size, distance));
                }
            }
        }
    }
}

#[test]
fn small_searches(rt: HostRuntime) {
    for size in 1..=12 {
        for top in 0..=12 {
            for floor in 0..=12 {
                for distance in 0..=100 {
                    let mut best = floor;
                    for speed in 0..=top {
                        if written_out(size, speed) <= distance {
                            best = best.max(speed);
                        }
                    }
                    let (found, first, asked) = search(size, distance, floor, top);
                    assert_eq!(rt; (found, first), (best, Some(top)));
                    let alone = written_out(size, top) <= distance || top <= floor + 1;
                    assert_eq!(rt; asked == 1, alone);
                }
            }
        }
    }
}

// Splitmix64.
#[derive(Drop)]
struct Rng(u64);

impl Rng {
    fn next(&mut self) -> u64 {
        self.0 = self.0.wrapping_add(0x9e37_79b9_7f4a_7c15);
        let z = (self.0 ^ self.0 >> 30).wrapping_mul(0xbf58_476d_1ce4_e5b9);
        let z = (z ^ z >> 27).wrapping_mul(0x94d0_49bb_1331_11eb);
        z ^ z >> 31
    }

    // From 1 to n.
    fn up_to(&mut self, n: u32) -> u32
        requires { 1 ≤ n }
    {
        (self.next() % u64::from(n)) as u32 + 1
    }
}

// Counts the searches of a move that ask 1, 2, 3, 4 and more speeds: from rest until it arrives, or for 4,000 cycles.
fn count_move(size: u32, top: u32, distance: u64, counts: &mut [u32; 5]) {
    let rate = Rate {
        size: size.clamp(1, 1 << 30),
    };
    let mut speed = 0;
    let mut left = distance;
    for _cycle in 0..4_000 {
        if left == 0 {
            break;
        }
        let (next, tester) = rate.next_speed(speed, top.min(FASTEST), left);
        let at = tester.question_count().clamp(1, 5) - 1;
        counts[at as usize] = counts[at as usize].saturating_add(1);
        left = left.saturating_sub(u64::from(next));
        speed = next;
    }
}

fn count_moves(seed: u64, moves: u32, size: u32) -> [u32; 5]
    requires { 1 ≤ size }
{
    let mut rng = Rng(seed);
    let mut counts = [0; 5];
    for _move in 0..moves {
        let top = rng.up_to(1 << 23);
        let rate = rng.up_to(size);
        let distance = u64::from(rng.up_to(20_000)) * 65_536;
        count_move(rate, top, distance, &mut counts);
    }
    counts
}

// Moves of real size: what `python3 tools/questions.py` counts in them.
#[test]
fn questions_of_moves(rt: HostRuntime) {
    assert_eq!(rt;
        count_moves(1, 200, 1 << 12),
        [149_613, 109_073, 189, 197, 0]
    );
    assert_eq!(rt; count_moves(2, 200, 1 << 16), [77_630, 24_449, 187, 196, 0]);
    assert_eq!(rt;
        count_moves(3, 2_000, 1 << 26),
        [750_529, 667, 39, 1_960, 0]
    );
}

#[test]
fn travels(rt: HostRuntime) {
    assert_eq!(rt; Rate { size: 16_384 }.trapezoid(0, 40_000, 65_536), 16_384);
    assert_eq!(rt;
        Rate { size: 16_384 }.trapezoid(16_384, 40_000, 49_152),
        32_768
    );
    assert_eq!(rt;
        Rate { size: 16_384 }.trapezoid(32_768, 40_000, 16_384),
        16_384
    );
    assert_eq!(rt; Rate { size: 16_384 }.trapezoid(16_384, 40_000, 0), 0);
    assert_eq!(rt; Rate { size: 65_535 }.trapezoid(0, 65_536, 65_536), 65_535);
    assert_eq!(rt; Rate { size: 65_535 }.trapezoid(65_535, 65_536, 1), 1);
    assert_eq!(rt; Rate { size: 65_535 }.trapezoid(1, 65_536, 0), 0);
}

#[test]
fn travels_far(rt: HostRuntime) {
    assert_eq!(rt;
        Rate { size: 43_445 }.trapezoid(324_129_321, 692_373_955, -99_960_861_458_480),
        324_085_876
    );
    assert_eq!(rt;
        Rate { size: 102_119_940 }.trapezoid(-949_190_085, 894_199_319, -119_631_096_941_108),
        -894_199_319
    );
    assert_eq!(rt;
        Rate { size: 75_115 }.trapezoid(273_660_763, 945_564_878, 82_573_261_146_869),
        273_735_878
    );
    assert_eq!(rt;
        Rate { size: 731_622_485 }.trapezoid(-73_869_431, 605_748_411, 62_815_843_116_080),
        0
    );
    // at the ends of what can be
    let largest = Rate { size: 1 << 30 };
    let farthest = 140_737_488_355_327;
    assert_eq!(rt;
        largest.trapezoid(-FASTEST_VELOCITY, FASTEST, -farthest),
        -FASTEST_VELOCITY
    );
    assert_eq!(rt; largest.trapezoid(-FASTEST_VELOCITY, FASTEST, farthest), 0);
    assert_eq!(rt;
        Rate { size: 1 }.trapezoid(-FASTEST_VELOCITY, 0, -farthest),
        1 - FASTEST_VELOCITY
    );
}

#[test]
fn cruises(rt: HostRuntime) {
    assert_eq!(rt; cruise(0, 20_000, -16_384), -16_384);
    assert_eq!(rt; cruise(-16_384, 20_000, -16_384), -20_000);
    assert_eq!(rt; cruise(-20_000, 20_000, -16_384), -20_000);
    assert_eq!(rt; toward(100, -5, 30), 70);
}

#[test]
fn positions(rt: HostRuntime) {
    assert_eq!(rt;
        next_target(65_536 * 1_073_741_823, 65_536),
        (-70_368_744_177_664, true)
    );
    assert_eq!(rt;
        next_target(-70_368_744_177_664, -1),
        (70_368_744_177_663, true)
    );
    assert_eq!(rt; next_target(5, -7), (-2, false));
    assert_eq!(rt; microsteps(-1), -1);
    assert_eq!(rt; microsteps(131_071), 1);
    assert_eq!(rt; distance(-3, 65_536), -262_144);
    assert_eq!(rt; next_actual(1_073_741_823, 1), -1_073_741_824);
    assert_eq!(rt; next_actual(-1_073_741_824, -32_768), 1_073_709_056);
}
