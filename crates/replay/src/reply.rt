ghost use Rattle.std.specs.Prelude.{◌≡◌, ◌∷◌, ◌++◌, Ok};
ghost use Rattle.replay.specs.Answers.{answer_bytes, event_bytes, reply_of_read, reply_of_removed};
ghost use Rattle.replay.specs.Numbers.{eight_bytes};
ghost use Rattle.replay.specs.Written.{AppendsOrNone};

use crate::fault::Fault;
use crate::look::put_look;
use crate::out::Out;
use board::board::Board;
use board::collect::EventRecord;
use stage::Stage;

/// What is answered to an entry that is not refused.
#[derive(Clone, Copy)]
pub enum Reply {
    Accepted,
    Word(u16),
    // the gate of the slip that was taken
    Slip(u8),
    // no slip is kept under that board and gate
    NoSlip,
    // the board's pairs and records
    Look,
    // an event that was read, and the next place
    Event(EventRecord, u64),
    // an event that was taken out
    Removed(EventRecord),
    // the end of a list was read, or there was none to take out
    NoEvent,
}

// An event as it is written.
fn event_bytes(listed: EventRecord) -> [u8; 6]
    ensures { result ≡ event_bytes listed }
{
    let [first, second, third, fourth] = listed.clock.cycles.to_be_bytes();
    let place = listed.event.place();
    [listed.gate, place, first, second, third, fourth]
}

fn put_event(out: &mut Out<'_>, listed: EventRecord, next: u64) -> Result<(), Fault>
    ensures { AppendsOrNone out.old out.new
        (0x14 ∷ (event_bytes listed ++ eight_bytes next)) result }
{
    out.room(15)?;
    out.put(&[0x14]);
    out.put(&event_bytes(listed));
    out.put(&next.to_be_bytes());
    Ok(())
}

fn put_removed(out: &mut Out<'_>, listed: EventRecord) -> Result<(), Fault>
    ensures { AppendsOrNone out.old out.new (0x15 ∷ event_bytes listed) result }
{
    out.room(7)?;
    out.put(&[0x15]);
    out.put(&event_bytes(listed));
    Ok(())
}

impl Reply {
    /// What is answered to a read of an event list: what it gave, or that it stood at the end.
    pub fn of_read(read: Option<(EventRecord, u64)>) -> Reply
        ensures { result ≡ reply_of_read read }
    {
        match read {
            Some((listed, next)) => Reply::Event(listed, next),
            None => Reply::NoEvent,
        }
    }

    /// What is answered to a remove: the event that was taken out, or that there was none.
    pub fn of_removed(removed: Option<EventRecord>) -> Reply
        ensures { result ≡ reply_of_removed removed }
    {
        match removed {
            Some(listed) => Reply::Removed(listed),
            None => Reply::NoEvent,
        }
    }

    /// Writes an answer of a board.
    pub fn put<S: Stage + Drop>(self, board: &Board<S>, out: &mut Out<'_>) -> Result<(), Fault>
        ensures { AppendsOrNone out.old out.new (answer_bytes S.Stage (Ok self) board.now) result }
    {
        match self {
            Reply::Accepted => out.write(&[0]),
            Reply::Word(word) => {
                let [high, low] = word.to_be_bytes();
                out.write(&[0x10, high, low])
            }
            Reply::Slip(gate) => out.write(&[0x11, gate]),
            Reply::NoSlip => out.write(&[0x12]),
            Reply::Look => put_look(out, board),
            Reply::Event(listed, next) => put_event(out, listed, next),
            Reply::Removed(listed) => put_removed(out, listed),
            Reply::NoEvent => out.write(&[0x16]),
        }
    }
}
