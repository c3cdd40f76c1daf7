// Microstepping: the sine table, the wave made from it, and the phases of a motor at a position. Its rules: docs/PHASES.md.
#![tactic(auto)]

pub mod phases;
pub mod quarter;
pub mod wave;

#[cfg(test)]
mod tests {
    use crate::phases::{MotorKind, angle, phases};
    use crate::quarter::quarter;
    use crate::wave::wave_at;

    // 32,767 × sin(k × 90° / 64) in millionths, by
    // awk 'BEGIN { for (k = 0; k <= 64; k++) printf "%.0f\n", 1e6 * 32767 * sin(k * atan2(0, -1) / 128) }'
    const SINES: [u64; 65] = [
        0,
        804142435,
        1607800485,
        2410490055,
        3211727637,
        4011030594,
        4807917456,
        5601908209,
        6392524582,
        7179290336,
        7961731555,
        8739376924,
        9511758020,
        10278409588,
        11038869826,
        11792680662,
        12539388028,
        13278542136,
        14009697746,
        14732414439,
        15446256876,
        16150795065,
        16845604619,
        17530267011,
        18204369825,
        18867507008,
        19519279110,
        20159293529,
        20787164742,
        21402514545,
        22004972273,
        22594175029,
        23169767899,
        23731404167,
        24278745525,
        24811462273,
        25329233525,
        25831747394,
        26318701184,
        26789801573,
        27244764786,
        27683316773,
        28105193364,
        28510140438,
        28897914069,
        29268280677,
        29621017168,
        29955911065,
        30272760642,
        30571375039,
        30851574384,
        31113189893,
        31356063981,
        31580050348,
        31785014073,
        31970831695,
        32137391283,
        32284592508,
        32412346702,
        32520576910,
        32609217939,
        32678216394,
        32727530713,
        32757131192,
        32767000000,
    ];

    #[test]
    fn table_is_nearest_to_the_sine(rt: HostRuntime) {
        for (entry, sine) in quarter().iter().zip(&SINES) {
            let millionths = u64::from(*entry) * 1_000_000;
            assert!(rt; millionths.abs_diff(*sine) <= 500_000);
        }
    }

    #[test]
    fn known_phases(rt: HostRuntime) {
        assert_eq!(rt; angle(-1), 255);
        assert_eq!(rt; angle(i32::MIN), 0);
        assert_eq!(rt; wave_at(192), -32767);
        assert_eq!(rt; phases(MotorKind::TwoPhase, 32767, -1), (-804, 32757));
        assert_eq!(rt; phases(MotorKind::TwoPhase, 16384, 64), (16384, 0));
        assert_eq!(rt; phases(MotorKind::TwoPhase, 100, 129), (-2, -99));
        assert_eq!(rt; phases(MotorKind::ThreePhase, 32767, 0), (0, 28510));
        assert_eq!(rt; phases(MotorKind::ThreePhase, 0, 77), (0, 0));
    }
}
