ghost use Rattle.std.specs.Prelude.{Some};
ghost use Rattle.script.specs.Prints.{answer_text, event_text, reply_text};

use board::collect::EventRecord;
use board::refusal::Refusal;
use stage::codes::Codes;
use std::fmt;

/// What a line of a script is answered, unless one of its acts is refused.
#[derive(Clone, Copy, Debug, PartialEq, Eq)]
pub enum Reply {
    Done,
    Word(u16),
    Slip(u8),
    NoSlip,
    // of gate 1, and of gate 2
    Pairs((i32, i32), (i32, i32)),
    Wires(Codes),
    Value(i64),
    Event(EventRecord),
    // with the next place
    EventAt(EventRecord, u64),
    NoEvent,
}

// An event as it is printed.
#[derive(Clone, Copy)]
struct EventText(EventRecord);

impl fmt::Display for EventText {
    ghost output = { λ event. Some (event_text event.0) };

    fn fmt<W: fmt::Write>(&self, f: &mut fmt::Formatter<W>) -> fmt::Result {
        let EventRecord { gate, event, clock } = self.0;
        let place = event.place();
        let time = clock.time();
        write!(f, "event {gate} {place} {time}")
    }
}

impl fmt::Display for Reply {
    ghost output = { λ reply. Some (reply_text reply) };

    fn fmt<W: fmt::Write>(&self, f: &mut fmt::Formatter<W>) -> fmt::Result {
        match *self {
            Reply::Done => f.write_str("ok"),
            Reply::Word(word) => write!(f, "word {word}"),
            Reply::Slip(gate) => write!(f, "slip {gate}"),
            Reply::NoSlip => f.write_str("no slip"),
            Reply::Pairs((a, b), (c, d)) => write!(f, "pairs {a} {b} {c} {d}"),
            Reply::Wires(codes) => write!(f, "wires {codes}"),
            Reply::Value(value) => write!(f, "value {value}"),
            Reply::Event(record) => {
                let event = EventText(record);
                write!(f, "{event}")
            }
            Reply::EventAt(record, next) => {
                let event = EventText(record);
                write!(f, "{event} next {next}")
            }
            Reply::NoEvent => f.write_str("none"),
        }
    }
}

/// A reply or a refusal, as the console prints it.
#[derive(Clone, Copy, Debug, PartialEq, Eq)]
pub struct Answer(pub Result<Reply, Refusal>);

impl fmt::Display for Answer {
    ghost output = { λ answer. Some (answer_text answer.0) };

    fn fmt<W: fmt::Write>(&self, f: &mut fmt::Formatter<W>) -> fmt::Result {
        match self.0 {
            Ok(reply) => write!(f, "{reply}"),
            Err(refusal) => {
                let number = refusal.number();
                write!(f, "refused {number}")
            }
        }
    }
}
