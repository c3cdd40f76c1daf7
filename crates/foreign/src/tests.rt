use crate::plate::Plate;
use board::board::Board;
use board::board::compare::compare;
use board::refusal::Refusal;
use gate::inputs::Inputs;
use gate::queries::Query;
use stage::Stage;
use stage::dac::Dac;
use stage::wiring::{GateWiring, Wiring};
use std::process::Abort;
use std::test::Fail;

// Gate 1 at 129 microsteps, with a power of 100: the phases are -2 and -99.
fn placed_board<S: Stage + Drop>(stage: S) -> Result<Board<S>, Refusal> {
    let mut board = Board::new(stage);
    board.command(0x4d)?;
    board.write(0)?;
    board.write(129)?;
    board.command(0x62)?;
    board.write(100)?;
    board.cycle(Inputs::STILL, Inputs::STILL);
    Ok(board)
}

fn shows<const N: u8>(rt: &impl Abort, expected: (i32, i32)) -> Result<(), Fail> {
    let board = placed_board(Plate::<N>::new())?;
    assert_eq!(rt; board.pair(1), expected);
    assert_eq!(rt; board.pair(2), (0, 0));
    assert_eq!(rt; board.pair(3), (0, 0));
    Ok(())
}

#[test]
fn foreign_makes(rt: HostRuntime) -> Result<(), Fail> {
    shows::<1>(&rt, (-2, -99))?;
    shows::<2>(&rt, (-2, -98))?;
    shows::<3>(&rt, (0, -99))?;
    shows::<64>(&rt, (0, -64))?;
    shows::<128>(&rt, (0, 0))
}

#[test]
fn compared_with_a_dac(rt: HostRuntime) -> Result<(), Fail> {
    let dac = placed_board(Dac::new())?;
    let crossed = GateWiring {
        exchanged: true,
        negated: true,
    };
    let wired = placed_board(Wiring::new(Plate::<64>::new(), crossed, crossed))?;
    let found = compare(&dac, &wired, 1).ok_or("gate 1 is a gate")?;
    assert!(rt; found.same);
    assert_eq!(rt; found.apart, (2, 35));
    Ok(())
}

// Gate 1 on its way from 0 to 1, at velocity 40,000 and acceleration 16,384, after two cycles in each of which its encoder counts 5.
fn on_its_way<S: Stage + Drop>(stage: S) -> Result<Board<S>, Refusal> {
    let mut board = Board::new(stage);
    for (code, low) in [(0x10, 1), (0x11, 40_000), (0x12, 16_384)] {
        board.command(code)?;
        board.write(0)?;
        board.write(low)?;
    }
    for (code, word) in [(0x62, 100), (0x2f, 0x80)] {
        board.command(code)?;
        board.write(word)?;
    }
    board.command(0x1a)?;
    let counted = Inputs {
        count: 5,
        ..Inputs::STILL
    };
    board.cycle(counted, Inputs::STILL);
    board.cycle(counted, Inputs::STILL);
    Ok(board)
}

// Every question of a gate, put to a record that a board gave. A power out of range sets the command error bit, for which the gate calls.
#[test]
fn record_is_asked(rt: HostRuntime) -> Result<(), Fail> {
    let mut board = on_its_way(Plate::<1>::new())?;
    board.command(0x62)?;
    assert_eq!(rt; board.write(0x8000), Err(Refusal::OutOfRange));
    if let Some(gate) = board.record(1) {
        assert_eq!(rt; gate.answer(Query::Destination), 1);
        assert_eq!(rt; gate.answer(Query::Velocity), 40_000);
        assert_eq!(rt; gate.answer(Query::Acceleration), 16_384);
        assert_eq!(rt; gate.answer(Query::TargetPosition), 0);
        assert_eq!(rt; gate.answer(Query::TargetVelocity), 32_768);
        assert_eq!(rt; gate.answer(Query::ActualPosition), 10);
        assert_eq!(rt; gate.answer(Query::ClockTime), 2);
        assert_eq!(rt; gate.status(0), 0x0480);
        assert_eq!(rt; gate.phases(), (0, 100));
        assert!(rt; gate.calls());
        assert!(rt; !gate.is_at_rest());
        Ok(())
    } else {
        Err("gate 1 is a gate".into())
    }
}
