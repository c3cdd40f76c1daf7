ghost use Rattle.service.specs.Rounds.{ServesNext};

use board::board::Board;
use stage::Stage;

/// Serves the call of the lowest-numbered gate that has no slip out, and answers its number, or none where there is no such gate.
pub fn serve<S: Stage + Drop>(board: &mut Board<S>, word: u16) -> Option<u8>
    ensures { ServesNext S.Stage word board.old board.new result }
{
    let Ok(slip) = board.take() else {
        return None;
    };
    let gate = slip.gate();
    board.close(slip, word).unwrap();
    Some(gate)
}
