ghost use Rattle.desk.specs.Closes.{ClosesAt, ClosesElsewhere};

use crate::desk::{Desk, put};
use board::board::Board;
use board::refusal::Refusal;
use board::slip::Slip;
use stage::Stage;

// Closes the slip at `mine` at a board whose own slip for the same gate stands at `theirs`. An accepted close leaves that board with no
// slip out, so its own slip takes the place of the one that was closed.
fn close_at<R: Stage + Drop>(
    board: &mut Board<R>,
    mine: &mut Option<Slip>,
    theirs: &mut Option<Slip>,
    word: u16,
) -> Option<Result<(), Refusal>>
    ensures { ClosesAt R.Stage word result
        board.old board.new mine.old mine.new theirs.old theirs.new }
{
    let slip = mine.take()?;
    match board.close(slip, word) {
        Ok(()) => {
            std::mem::swap(mine, theirs);
            Some(Ok(()))
        }
        Err((refusal, slip)) => {
            put(mine, slip);
            Some(Err(refusal))
        }
    }
}

/// Closes the slip that `own` keeps for a gate, 1 or 2, at the board of `other`; `None` if it keeps no such slip. A slip that is refused
/// is kept again. Once one is accepted, `own` keeps the slip that `other` kept for that gate.
pub fn close_elsewhere<S: Stage + Drop, R: Stage + Drop>(
    own: &mut Desk<S>,
    other: &mut Desk<R>,
    gate: u8,
    word: u16,
) -> Option<Result<(), Refusal>>
    ensures { ClosesElsewhere S.Stage R.Stage gate word result
        own.old.board own.new.board other.old.board other.new.board }
{
    match gate {
        1 => close_at(&mut other.board, &mut own.first, &mut other.first, word),
        2 => close_at(&mut other.board, &mut own.second, &mut other.second, word),
        _ => None,
    }
}
