ghost use Rattle.std.specs.Prelude.{◌≡◌, true, Some, None};
ghost use Rattle.board.specs.Own.{answer_done};
ghost use Rattle.board.specs.Acts.{act_close, gate_of};
ghost use Rattle.board.specs.Runs.{Performs, board_state, slip_axis};
ghost use Rattle.desk.specs.Keeps.{has_kept_slips};

use board::board::Board;
use board::collect::EventRecord;
use board::refusal::Refusal;
use board::slip::Slip;
use gate::inputs::Inputs;
use ring::ring::Ring;
use stage::Stage;

pub mod elsewhere;

/// A board and the slips taken from it that are not closed yet: at all times one for each gate whose slip is out. A desk cannot be let
/// go while it may keep a slip; `finish` closes what is left. Each slip has a field of its own, which the invariant names by its gate.
pub struct Desk<S: Stage + Drop> {
    board: Board<S>,
    first: Option<Slip>,
    second: Option<Slip>,
    ghost kept: { has_kept_slips board first second ≡ true },
}

/// A word for a close that clears no event bit.
pub const CLEARS_NOTHING: u16 = 0xffff;

// Puts a slip where none is kept, so that none is let go.
pub(crate) fn put(place: &mut Option<Slip>, slip: Slip)
    requires { place.old ≡ None }
    ensures { place.new ≡ Some slip }
{
    *place = Some(slip);
}

// Closes a slip at a board where its gate's slip is out.
fn close_out<S: Stage + Drop>(board: &mut Board<S>, slip: Slip, word: u16)
    requires { (gate_of (board_state board.old) (slip_axis slip)).slip ≡ true }
    ensures { Performs S.Stage (act_close (slip_axis slip) word) answer_done board.old board.new }
{
    board.close(slip, word).unwrap();
}

impl<S: Stage + Drop> Desk<S> {
    ghost use Rattle.std.specs.Prelude.{[], false, IfOk};
    ghost use Rattle.board.specs.Acts.{answer_of_unit, answer_of_word, act_command, act_write, act_read, act_cycle, act_reset, act_take, act_collect, list_after_collect};
    ghost use Rattle.board.specs.Runs.{IsReachedBy};
    ghost use Rattle.desk.specs.Runs.{RunsCycles};
    ghost use Rattle.stage.specs.Pairs.{is_gate};
    ghost use Rattle.desk.specs.Closes.{answer_of_number, ClosesSlip, ClosesAll};

    /// A new board, and no slip.
    pub fn new(stage: S) -> Desk<S>
        ensures { IsReachedBy S.Stage [] result.board }
    {
        Desk {
            board: Board::new(stage),
            first: None,
            second: None,
        }
    }

    /// The board, to be asked.
    pub fn board(&self) -> &Board<S>
        ensures { result.now ≡ self.now.board }
    {
        &self.board
    }

    /// A command by its code: `Board::command`.
    pub fn command(&mut self, code: u8) -> Result<(), Refusal>
        ensures { Performs S.Stage (act_command code) (answer_of_unit result) self.old.board
            self.new.board }
    {
        self.board.command(code)
    }

    /// A word that is written: `Board::write`.
    pub fn write(&mut self, word: u16) -> Result<(), Refusal>
        ensures { Performs S.Stage (act_write word) (answer_of_unit result) self.old.board
            self.new.board }
    {
        self.board.write(word)
    }

    /// A word that is read: `Board::read`.
    pub fn read(&mut self) -> Result<u16, Refusal>
        ensures { Performs S.Stage act_read (answer_of_word result) self.old.board self.new.board }
    {
        self.board.read()
    }

    /// One cycle of both gates: `Board::cycle`.
    #[inline(never)]
    pub fn cycle(&mut self, one: Inputs, two: Inputs)
        ensures { Performs S.Stage (act_cycle one two) answer_done self.old.board self.new.board }
    {
        self.board.cycle(one, two);
    }

    /// So many cycles in which no gate's encoder counts and no switch is active.
    #[inline(never)]
    pub fn run(&mut self, cycles: u32)
        ensures { RunsCycles S.Stage cycles self.old.board self.new.board }
    {
        for _turn in 0..cycles {
            self.board.cycle(Inputs::STILL, Inputs::STILL);
        }
    }

    /// The reset pin: `Board::reset`. The slips are kept.
    pub fn reset(&mut self)
        ensures { Performs S.Stage act_reset answer_done self.old.board self.new.board }
    {
        self.board.reset();
    }

    /// Takes a slip and keeps it; answers its gate, 1 or 2.
    pub fn take(&mut self) -> Result<u8, Refusal>
        ensures performs { Performs S.Stage act_take (answer_of_number result) self.old.board
            self.new.board }
        ensures gate { IfOk result (λ n. is_gate n ≡ true) }
    {
        let slip = self.board.take()?;
        let gate = slip.gate();
        if gate == 1 {
            put(&mut self.first, slip);
        } else {
            put(&mut self.second, slip);
        }
        Ok(gate)
    }

    /// Closes the slip that is kept for a gate, 1 or 2; answers whether there was one. Gate and word come apart, as slip and word do at a
    /// board's close.
    pub fn close(&mut self, gate: u8, word: u16) -> bool
        ensures { ClosesSlip S.Stage gate word result self.old.board self.new.board }
    {
        let kept = match gate {
            1 => self.first.take(),
            2 => self.second.take(),
            _ => None,
        };
        let Some(slip) = kept else {
            return false;
        };
        close_out(&mut self.board, slip, word);
        true
    }

    /// Lists the new events of a gate in a list: `Board::collect`.
    pub fn collect(&mut self, gate: u8, list: &mut Ring<'_, EventRecord>) -> Result<(), Refusal>
        ensures performs { Performs S.Stage (act_collect gate list.old) (answer_of_unit result)
            self.old.board self.new.board }
        ensures lists { list.new ≡
            list_after_collect (board_state self.old.board) gate list.old }
    {
        self.board.collect(gate, list)
    }

    /// Closes every slip that is still kept, with a word that clears nothing, and gives the board.
    pub fn finish(self) -> Board<S>
        ensures { ClosesAll S.Stage self.board result }
    {
        let Desk {
            mut board,
            first,
            second,
        } = self;
        if let Some(slip) = first {
            close_out(&mut board, slip, CLEARS_NOTHING);
        }
        if let Some(slip) = second {
            close_out(&mut board, slip, CLEARS_NOTHING);
        }
        board
    }
}
