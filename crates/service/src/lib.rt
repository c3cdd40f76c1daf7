// Rounds of service at a board. What they promise: docs/PROOFS.md.
#![tactic(auto)]

pub mod round;
pub mod turns;

#[cfg(test)]
mod tests {
    use crate::round::serve;
    use crate::turns::{ServedCalls, serve_in_turn};
    use board::board::Board;
    use board::board::compare::compare;
    use board::refusal::Refusal;
    use gate::inputs::Inputs;
    use stage::Stage;
    use stage::dac::Dac;
    use stage::pwm::Pwm;
    use std::test::Fail;

    fn order<S: Stage + Drop>(board: &mut Board<S>, code: u8) -> Result<(), Refusal> {
        board.command(code)
    }

    fn word<S: Stage + Drop>(board: &mut Board<S>, code: u8, word: u16) -> Result<(), Refusal> {
        board.command(code)?;
        board.write(word)
    }

    fn long<S: Stage + Drop>(
        board: &mut Board<S>,
        code: u8,
        high: u16,
        low: u16,
    ) -> Result<(), Refusal> {
        board.command(code)?;
        board.write(high)?;
        board.write(low)
    }

    // Gate 1 moves to 1 at velocity 40,000 and acceleration 16,384, with an interrupt on motion complete.
    fn start<S: Stage + Drop>(board: &mut Board<S>) -> Result<(), Refusal> {
        long(board, 0x10, 0, 1)?;
        long(board, 0x11, 0, 40_000)?;
        long(board, 0x12, 0, 16_384)?;
        word(board, 0x62, 20_000)?;
        word(board, 0x2f, 1)?;
        order(board, 0x1a)
    }

    #[test]
    fn refusals(rt: HostRuntime) {
        let mut board = Board::new(Dac::new());
        assert_eq!(rt; board.command(0x00), Err(Refusal::Unknown));
        assert_eq!(rt; board.command(0x08), Err(Refusal::NoCall));
        assert_eq!(rt; board.write(0), Err(Refusal::NotTaking));
        assert_eq!(rt; board.read(), Err(Refusal::NotGiving));
        assert_eq!(rt; long(&mut board, 0x11, 0x4000, 0), Err(Refusal::OutOfRange));
        assert_eq!(rt; board.command(0x31), Ok(()));
        assert_eq!(rt; board.command(0x00), Err(Refusal::PacketOpen));
        assert_eq!(rt; board.read(), Ok(0x80));
        assert_eq!(rt; word(&mut board, 0x5b, 4), Err(Refusal::OutOfRange));
        assert_eq!(rt; board.command(0x02), Ok(()));
        assert_eq!(rt; board.read(), Ok(0x1000));
    }

    #[test]
    fn one_gate_alone(rt: HostRuntime) -> Result<(), Fail> {
        let mut a = Board::new(Dac::new());
        let mut b = Board::new(Pwm::new());
        assert!(rt; start(&mut a).is_ok());
        assert!(rt; start(&mut b).is_ok());
        assert!(rt; a.command(0x02).is_ok());
        assert_eq!(rt; a.read(), Ok(0x1000));
        assert!(rt; long(&mut a, 0x10, 0, 900).is_ok());
        for _ in 0..4 {
            a.cycle(
                Inputs::STILL,
                Inputs {
                    count: 5,
                    positive: true,
                    negative: false,
                    home: true,
                },
            );
            b.cycle(Inputs::STILL, Inputs::STILL);
        }
        let found = compare(&a, &b, 1).ok_or("gate 1 is a gate")?;
        assert!(rt; found.same);
        assert!(rt; found.apart.0 < 128 && found.apart.1 < 128);
        assert!(rt; compare(&a, &b, 3).is_none());
        assert_eq!(rt; serve(&mut a, 0xfffe), Some(1));
        assert_eq!(rt; serve(&mut a, 0xfffe), None);
        assert_eq!(rt; serve(&mut b, 0xffff), Some(1));
        Ok(())
    }

    // Both gates call, each by a command error; the second word clears nothing, so gate 2 still calls.
    #[test]
    fn in_turn(rt: HostRuntime) {
        let mut board = Board::new(Pwm::new());
        for code in [0x01, 0x02] {
            assert_eq!(rt; board.command(code), Ok(()));
            assert!(rt; board.read().is_ok());
            assert_eq!(rt; word(&mut board, 0x2f, 0x80), Ok(()));
            assert_eq!(rt; word(&mut board, 0x62, 0x8000), Err(Refusal::OutOfRange));
        }
        assert_eq!(rt;
            serve_in_turn(&mut board, 0xff7f, 0xffff),
            ServedCalls::Both
        );
        assert_eq!(rt; serve_in_turn(&mut board, 0xff7f, 0), ServedCalls::One);
        assert_eq!(rt; serve_in_turn(&mut board, 0, 0), ServedCalls::Neither);
    }
}
