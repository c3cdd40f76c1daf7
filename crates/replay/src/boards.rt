ghost use Rattle.std.specs.Prelude.{[]};
ghost use Rattle.board.specs.Runs.{IsReachedBy};
ghost use Rattle.replay.specs.Replays.{PlaysStepInto, ReplaysInto};
ghost use Rattle.desk.specs.Desks.{board_of};

use crate::entry::{Entry, Step};
use crate::fault::Fault;
use crate::lists::Lists;
use crate::out::Out;
use crate::play::play;
use desk::desk::Desk;
use desk::side::Side;
use stage::Stage;

/// The two boards that a list is played against, each at its desk. The slips that are left when they go are closed.
pub struct Boards<S: Stage + Drop, R: Stage + Drop> {
    pub a: Desk<S>,
    pub b: Desk<R>,
}

impl<S: Stage + Drop, R: Stage + Drop> Drop for Boards<S, R> {
    // Closes the slips that are left.
    fn drop(self) {
        let Boards { a, b } = self;
        let _ = a.finish();
        let _ = b.finish();
    }
}

// Plays an entry at its own board and writes its answer.
fn turn<S: Stage + Drop, R: Stage + Drop>(
    own: &mut Desk<S>,
    other: &mut Desk<R>,
    lists: &mut Lists<'_>,
    entry: Entry,
    out: &mut Out<'_>,
) -> Result<(), Fault>
    ensures { PlaysStepInto S.Stage R.Stage Side.A entry (board_of own.old) (board_of own.new)
        (board_of other.old) (board_of other.new) lists.old lists.new out.old out.new result }
{
    match play(own, other, lists, entry) {
        Ok(answer) => answer.put(own.board(), out),
        Err(refusal) => out.write(&[refusal.number()]),
    }
}

impl<S: Stage + Drop, R: Stage + Drop> Boards<S, R> {
    /// Two new boards.
    pub fn new(a: S, b: R) -> Boards<S, R>
        ensures a { IsReachedBy S.Stage [] (board_of result.a) }
        ensures b { IsReachedBy R.Stage [] (board_of result.b) }
    {
        Boards {
            a: Desk::new(a),
            b: Desk::new(b),
        }
    }

    // Plays a step at its board and writes its answer.
    fn turn(&mut self, lists: &mut Lists<'_>, step: Step, out: &mut Out<'_>) -> Result<(), Fault>
        ensures { PlaysStepInto S.Stage R.Stage step.side step.entry
            (board_of self.old.a) (board_of self.new.a) (board_of self.old.b) (board_of self.new.b)
            lists.old lists.new out.old out.new result }
    {
        match step.side {
            Side::A => turn(&mut self.a, &mut self.b, lists, step.entry, out),
            Side::B => turn(&mut self.b, &mut self.a, lists, step.entry, out),
        }
    }

    /// Plays the entries of a list, one after another, and writes their answers.
    pub fn play(
        &mut self,
        lists: &mut Lists<'_>,
        list: &[u8],
        out: &mut Out<'_>,
    ) -> Result<(), Fault>
        ensures { ReplaysInto S.Stage R.Stage list.now
            (board_of self.old.a) (board_of self.old.b) lists.old
            (board_of self.new.a) (board_of self.new.b) lists.new out.old out.new result }
    {
        let mut rest = list;
        while let [first, operands @ ..] = rest {
            let (step, behind) = Step::read(*first, operands)?;
            self.turn(lists, step, out)?;
            rest = behind;
        }
        Ok(())
    }
}
