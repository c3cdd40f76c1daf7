ghost use Rattle.std.specs.Prelude.{◌≡◌, true, false, is_some, None};
ghost use Rattle.board.specs.Acts.{waiting_gate};
ghost use Rattle.service.specs.Turns.{IsInHand, ServesInTurn, Picks, Puts};
ghost use Rattle.board.specs.Runs.{board_state, stage_of};

use board::board::Board;
use board::slip::Slip;
use stage::Stage;

/// How many calls were served.
#[derive(Clone, Copy, PartialEq, Debug)]
pub enum ServedCalls {
    Neither,
    One,
    Both,
}

// Takes a slip into an empty hand; answers whether there was one to take. The hand is an `Option`, and the answer a flag beside it, so that
// a second close of one slip compiles, and is left to the prover to refuse.
fn pick<S: Stage + Drop>(board: &mut Board<S>, hand: &mut Option<Slip>) -> bool
    requires { hand.old ≡ None }
    ensures held { result ≡ is_some hand.new }
    ensures out { IsInHand board.new hand.new }
    ensures picked { Picks S.Stage hand.new board.old board.new }
    ensures none { result ≡ false → waiting_gate (board_state board.old) ≡ None }
{
    let Ok(slip) = board.take() else {
        return false;
    };
    *hand = Some(slip);
    true
}

// Closes the slip in the hand.
fn put<S: Stage + Drop>(board: &mut Board<S>, hand: &mut Option<Slip>, word: u16)
    requires held { is_some hand.old ≡ true }
    requires out { IsInHand board.old hand.old }
    ensures empty { hand.new ≡ None }
    ensures put { Puts S.Stage word hand.old board.old board.new }
{
    let slip = hand.take().unwrap();
    board.close(slip, word).unwrap();
}

/// Serves two calls, one slip after the other, each with a word of its own.
pub fn serve_in_turn<S: Stage + Drop>(board: &mut Board<S>, first: u16, second: u16) -> ServedCalls
    ensures stage { stage_of board.new ≡ stage_of board.old }
    ensures shows { S.Stage.pairs (stage_of board.new) ≡ S.Stage.pairs (stage_of board.old) }
    ensures neither { result ≡ ServedCalls.Neither → waiting_gate (board_state board.old) ≡ None }
    ensures served { ServesInTurn S.Stage first second result board.old board.new }
{
    let mut hand = None;
    let one = pick(board, &mut hand);
    if !one {
        return ServedCalls::Neither;
    }
    put(board, &mut hand, first);
    let two = pick(board, &mut hand);
    if !two {
        return ServedCalls::One;
    }
    put(board, &mut hand, second);
    ServedCalls::Both
}
