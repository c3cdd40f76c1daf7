ghost use Rattle.std.specs.Prelude.{◌≡◌, [], length};
ghost use Rattle.board.specs.Runs.{IsReachedBy};
ghost use Rattle.desk.specs.Desks.{board_of};
ghost use Rattle.desk.specs.Closes.{ClosesAll};
ghost use Rattle.desk.specs.declared.side.Side.TheVariants.{A as SideA};
ghost use Rattle.script.specs.Logs.{new_log};
ghost use Rattle.script.specs.Sides.{PlaysAt, PlaysOnBoards};

use crate::line::Line;
use crate::log::Log;
use crate::play::play;
use crate::reply::Reply;
use board::board::Board;
use board::collect::EventRecord;
use board::refusal::Refusal;
use desk::desk::Desk;
use desk::side::Side;
use stage::Stage;
use stage::codes::Wires;

/// The two boards of the console, each with its log, and the one that lines go to.
pub struct Boards<'a, S: Stage + Drop, R: Stage + Drop> {
    a: Desk<S>,
    b: Desk<R>,
    log_a: Log<'a>,
    log_b: Log<'a>,
    current: Side,
}

impl<'a, S: Stage + Drop, R: Stage + Drop> Boards<'a, S, R> {
    /// Two new boards, each with a new log over memory of its own; lines go to the first.
    pub fn new(
        a: S,
        b: R,
        memory_a: &'a mut [EventRecord],
        memory_b: &'a mut [EventRecord],
    ) -> Boards<'a, S, R>
        ensures a { IsReachedBy S.Stage [] (board_of result.a) }
        ensures b { IsReachedBy R.Stage [] (board_of result.b) }
        ensures log_a { result.log_a ≡ new_log (length memory_a.old) }
        ensures log_b { result.log_b ≡ new_log (length memory_b.old) }
        ensures current { result.current ≡ SideA }
    {
        Boards {
            a: Desk::new(a),
            b: Desk::new(b),
            log_a: Log::new(memory_a),
            log_b: Log::new(memory_b),
            current: Side::A,
        }
    }

    /// Closes every slip that is still kept, at its board, with a word that clears nothing.
    pub fn finish(self) -> (Board<S>, Board<R>)
        ensures a { ClosesAll S.Stage (board_of self.entry.a) result.0 }
        ensures b { ClosesAll R.Stage (board_of self.entry.b) result.1 }
    {
        let Boards {
            a,
            b,
            log_a: _,
            log_b: _,
            current: _,
        } = self;
        (a.finish(), b.finish())
    }
}

impl<'a, S: Wires + Drop, R: Wires + Drop> Boards<'a, S, R> {
    // Plays a line on the current board.
    fn play_here(&mut self, line: Line) -> Result<Option<Reply>, Refusal>
        ensures { PlaysAt S.Stage R.Stage S.codes R.codes self.old.current line result
            self.old self.new }
    {
        match self.current {
            Side::A => play(&mut self.a, &mut self.log_a, line),
            Side::B => play(&mut self.b, &mut self.log_b, line),
        }
    }

    /// Plays a line on the board that it goes to.
    pub fn play(&mut self, line: Line) -> Result<Option<Reply>, Refusal>
        ensures { PlaysOnBoards S.Stage R.Stage S.codes R.codes line result self.old self.new }
    {
        match line {
            Line::Board(side) => {
                self.current = side;
                Ok(None)
            }
            _ => self.play_here(line),
        }
    }
}
