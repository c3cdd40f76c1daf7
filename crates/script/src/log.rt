ghost use Rattle.std.specs.Prelude.{◌≡◌, length, slice_get};
ghost use Rattle.ring.specs.Places.{read_at};
ghost use Rattle.board.specs.Acts.{act_collect, answer_of_unit};
ghost use Rattle.board.specs.Runs.{Performs, board_state};
ghost use Rattle.desk.specs.Desks.{board_of};
ghost use Rattle.script.specs.Logs.{new_log, reader_place, next_record, log_after_next, log_after_collect, log_after_remove};

use board::collect::EventRecord;
use board::refusal::Refusal;
use desk::desk::Desk;
use ring::ring::Ring;
use stage::Stage;

/// Which of the two readers of a board's own event list is meant.
#[derive(Clone, Copy, PartialEq, Eq, Debug)]
pub enum Reader {
    Panel,
    Book,
}

/// A board's own event list, and the places at which its two readers stand.
#[derive(Drop)]
pub struct Log<'a> {
    list: Ring<'a, EventRecord>,
    panel: u64,
    book: u64,
}

impl<'a> Log<'a> {
    /// A list with nothing listed, over memory that is lent to it; both readers stand at place 0.
    pub fn new(memory: &'a mut [EventRecord]) -> Log<'a>
        ensures { result ≡ new_log (length memory.old) }
    {
        Log {
            list: Ring::new(memory),
            panel: 0,
            book: 0,
        }
    }

    // The place at which a reader stands.
    fn place(&self, reader: Reader) -> u64
        ensures { result ≡ reader_place reader self.now }
    {
        match reader {
            Reader::Panel => self.panel,
            Reader::Book => self.book,
        }
    }

    /// The record that a reader comes to next, and it stands behind that then; `None` at the end, where it stays.
    pub fn next(&mut self, reader: Reader) -> Option<EventRecord>
        ensures reads { result ≡ next_record reader self.old }
        ensures stands { self.new ≡ log_after_next reader self.old }
    {
        let (record, next) = self.list.read(self.place(reader))?;
        match reader {
            Reader::Panel => self.panel = next,
            Reader::Book => self.book = next,
        }
        Some(record)
    }

    /// The record at a place, with the next place: `Ring::read`.
    pub fn read(&self, place: u64) -> Option<(EventRecord, u64)>
        ensures { result ≡ read_at self.now.list place }
    {
        self.list.read(place)
    }

    /// Takes out the oldest record: `Ring::remove`. The readers stay at their places.
    pub fn remove(&mut self) -> Option<EventRecord>
        ensures oldest { result ≡ slice_get self.old.list.records 0 }
        ensures rest { self.new ≡ log_after_remove self.old }
    {
        self.list.remove()
    }

    /// Lists the new events of a gate of a board: `Desk::collect`. The readers stay at their places.
    pub fn collect<S: Stage + Drop>(&mut self, desk: &mut Desk<S>, gate: u8) -> Result<(), Refusal>
        ensures performs { Performs S.Stage (act_collect gate self.old.list) (answer_of_unit result)
            (board_of desk.old) (board_of desk.new) }
        ensures lists { self.new ≡
            log_after_collect (board_state (board_of desk.old)) gate self.old }
    {
        desk.collect(gate, &mut self.list)
    }
}
