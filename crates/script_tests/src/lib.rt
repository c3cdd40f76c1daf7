// Lines of scripts, good and damaged. Their rules: docs/SCRIPT.md.
#![tactic(auto)]

ghost use Rattle.std.specs.Prelude.{◌≤◌};

#[cfg(test)]
mod tests {
    use board::collect::EventRecord;
    use board::command::Command;
    use board::refusal::Refusal;
    use desk::desk::Desk;
    use desk::side::Side;
    use gate::clock::Clock;
    use gate::events::Event;
    use gate::inputs::Inputs;
    use gate::orders::WordOrder;
    use script::boards::Boards;
    use script::fault::Expected;
    use script::line::{Line, Packet};
    use script::log::{Log, Reader};
    use script::number::{LONG_HALF, WORD_HALF, bits_of, number};
    use script::play::play;
    use script::reply::{Answer, Reply};
    use stage::codes::{Codes, Wires};
    use stage::dac::Dac;
    use stage::pulse::Pulse;
    use stage::pwm::Pwm;
    use std::test::Fail;

    const OFF: Pulse = Pulse {
        magnitude: 0,
        negative: false,
    };

    const MINUS_6: Pulse = Pulse {
        magnitude: 6,
        negative: true,
    };

    const PLUS_255: Pulse = Pulse {
        magnitude: 255,
        negative: false,
    };

    // What is expected in place of the words, or none where they are a line.
    fn fault(words: &[&str]) -> Option<Expected> {
        Line::try_from(words).err()
    }

    #[test]
    fn damaged_lines(rt: HostRuntime) {
        assert_eq!(rt; fault(&["bogus"]), Some(Expected::Line));
        assert_eq!(rt; fault(&["set_pos", "1"]), Some(Expected::Line));
        assert_eq!(rt; fault(&["board"]), Some(Expected::Board));
        assert_eq!(rt; fault(&["board", "c"]), Some(Expected::Board));
        assert_eq!(rt; fault(&["command", "256"]), Some(Expected::Command));
        assert_eq!(rt; fault(&["command", "-1"]), Some(Expected::Command));
        assert_eq!(rt; fault(&["write", "65536"]), Some(Expected::Word));
        assert_eq!(rt; fault(&["write", "1", "2"]), Some(Expected::Word));
        assert_eq!(rt; fault(&["read", "1"]), Some(Expected::Alone));
        assert_eq!(rt; fault(&["run", "-1"]), Some(Expected::Run));
        assert_eq!(rt; fault(&["wires", "1"]), Some(Expected::Alone));
    }

    #[test]
    fn damaged_events(rt: HostRuntime) {
        assert_eq!(rt; fault(&["collect", "256"]), Some(Expected::Collect));
        assert_eq!(rt; fault(&["event", "-1"]), Some(Expected::Event));
        assert_eq!(rt;
            fault(&["event", "18446744073709551616"]),
            Some(Expected::Event)
        );
        assert_eq!(rt; fault(&["panel", "1"]), Some(Expected::Alone));
        assert_eq!(rt; fault(&["book", "1"]), Some(Expected::Alone));
        assert_eq!(rt; fault(&["remove", "1"]), Some(Expected::Alone));
    }

    #[test]
    fn events_read(rt: HostRuntime) -> Result<(), Fail> {
        let collect = Line::try_from(["collect", "0x2"].as_slice())?;
        let book = Line::try_from(["book"].as_slice())?;
        let event = Line::try_from(["event", "18446744073709551615"].as_slice())?;
        assert_eq!(rt; collect, Line::Collect(2));
        assert_eq!(rt; book, Line::Next(Reader::Book));
        assert_eq!(rt; event, Line::Event(18_446_744_073_709_551_615));
        Ok(())
    }

    #[test]
    fn damaged_packets(rt: HostRuntime) {
        assert_eq!(rt; fault(&["cycle", "0", "-", "0"]), Some(Expected::Cycle));
        assert_eq!(rt;
            fault(&["cycle", "0", "x", "0", "-"]),
            Some(Expected::Cycle)
        );
        assert_eq!(rt;
            fault(&["cycle", "32768", "-", "0", "-"]),
            Some(Expected::Cycle)
        );
        assert_eq!(rt; fault(&["close", "3", "0"]), Some(Expected::Close));
        assert_eq!(rt; fault(&["UPDATE", "1"]), Some(Expected::NoValue));
        assert_eq!(rt; fault(&["SET_MTR_CMD"]), Some(Expected::WordValue));
        assert_eq!(rt;
            fault(&["SET_POS", "4294967296"]),
            Some(Expected::LongValue)
        );
        assert_eq!(rt; fault(&["SET_POS", "0x"]), Some(Expected::LongValue));
        assert_eq!(rt; fault(&["cycle", "-32768", "pn", "32767", "h"]), None);
        assert_eq!(rt; fault(&[]), None);
    }

    #[test]
    fn numbers(rt: HostRuntime) {
        assert_eq!(rt; number("0x1f"), Some(31));
        assert_eq!(rt; number("-0x1f"), None);
        assert_eq!(rt; number("0x+1"), None);
        assert_eq!(rt; number("+7"), Some(7));
        assert_eq!(rt;
            number("0xffffffffffffffff"),
            Some(18_446_744_073_709_551_615)
        );
        assert_eq!(rt; bits_of::<WORD_HALF>(-1), Some(65_535));
        assert_eq!(rt; bits_of::<WORD_HALF>(-32_769), None);
        assert_eq!(rt; bits_of::<LONG_HALF>(-2_147_483_648), Some(2_147_483_648));
        assert_eq!(rt; bits_of::<LONG_HALF>(4_294_967_296), None);
    }

    #[test]
    fn played(rt: HostRuntime) -> Result<(), Fail> {
        let line = Line::try_from(["GET_ACC"].as_slice())?;
        assert_eq!(rt; last(Dac::new(), &[line]), Ok(Some(Reply::Value(1))));
        Ok(())
    }

    // What the last of some lines is answered, on a new board with room for 3 records.
    fn last<S: Wires + Drop>(stage: S, lines: &[Line]) -> Result<Option<Reply>, Refusal> {
        let mut memory = [EventRecord::BLANK; 3];
        let mut desk = Desk::new(stage);
        let mut log = Log::new(&mut memory);
        let mut reply = Ok(None);
        for line in lines {
            reply = play(&mut desk, &mut log, *line);
        }
        let _board = desk.finish();
        reply
    }

    const EXTERNAL: Line = Line::Command(0x5e);

    const PANEL: Line = Line::Next(Reader::Panel);

    const BOOK: Line = Line::Next(Reader::Book);

    // The breakpoint and the positive limit of gate 1, and the negative limit of gate 2.
    const THREE_EVENTS: Line = Line::Cycle(
        Inputs {
            count: 0,
            positive: true,
            negative: false,
            home: true,
        },
        Inputs {
            count: 0,
            positive: false,
            negative: true,
            home: false,
        },
    );

    // The example of docs/EVENTS.md, with these events.
    const DAY: [Line; 19] = [
        EXTERNAL,
        THREE_EVENTS,
        Line::Collect(1),
        Line::Collect(1),
        PANEL,
        PANEL,
        PANEL,
        Line::Collect(2),
        Line::Packet(Packet::Word(Command::Word(WordOrder::ClearEvents), 0)),
        Line::Collect(1),
        EXTERNAL,
        THREE_EVENTS,
        Line::Collect(1),
        Line::Remove,
        Line::Collect(1),
        BOOK,
        PANEL,
        Line::Event(3),
        Line::Event(4),
    ];

    // What so many lines of it are answered, the last of them.
    fn answer(count: usize) -> Result<Option<Reply>, Refusal>
        requires { count ≤ 19 }
    {
        last(Dac::new(), &DAY[..count])
    }

    fn record(gate: u8, event: Event, cycles: u32) -> EventRecord {
        EventRecord {
            gate,
            event,
            clock: Clock { cycles },
        }
    }

    #[test]
    fn panel_reads_on(rt: HostRuntime) {
        let breakpoint = Reply::Event(record(1, Event::Breakpoint, 1));
        let limit = Reply::Event(record(1, Event::PositiveLimit, 1));
        assert_eq!(rt; answer(4), Ok(Some(Reply::Done)));
        assert_eq!(rt; answer(5), Ok(Some(breakpoint)));
        assert_eq!(rt; answer(6), Ok(Some(limit)));
        assert_eq!(rt; answer(7), Ok(Some(Reply::NoEvent)));
    }

    #[test]
    fn full_list(rt: HostRuntime) {
        let oldest = Reply::Event(record(1, Event::Breakpoint, 1));
        assert_eq!(rt; answer(13), Err(Refusal::NoRoom));
        assert_eq!(rt; answer(14), Ok(Some(oldest)));
        assert_eq!(rt; answer(15), Ok(Some(Reply::Done)));
    }

    #[test]
    fn readers_apart(rt: HostRuntime) {
        let oldest = Reply::Event(record(1, Event::PositiveLimit, 1));
        let third = Reply::Event(record(2, Event::NegativeLimit, 1));
        let newest = Reply::EventAt(record(1, Event::Breakpoint, 2), 4);
        assert_eq!(rt; answer(16), Ok(Some(oldest)));
        assert_eq!(rt; answer(17), Ok(Some(third)));
        assert_eq!(rt; answer(18), Ok(Some(newest)));
        assert_eq!(rt; answer(19), Ok(Some(Reply::NoEvent)));
    }

    #[test]
    fn lists_apart(rt: HostRuntime) {
        let mut first = [EventRecord::BLANK; 3];
        let mut second = [EventRecord::BLANK; 3];
        let mut boards = Boards::new(Dac::new(), Pwm::new(), &mut first, &mut second);
        let mut reply = Ok(None);
        for line in [
            EXTERNAL,
            THREE_EVENTS,
            Line::Collect(1),
            Line::Board(Side::B),
            PANEL,
        ] {
            reply = boards.play(line);
        }
        let _boards = boards.finish();
        assert_eq!(rt; reply, Ok(Some(Reply::NoEvent)));
    }

    // The words and the lines from tools/console.py.
    #[test]
    fn wires(rt: HostRuntime) -> Result<(), Fail> {
        let lines = [
            Line::try_from(["SET_ACTL_POS", "-1"].as_slice())?,
            Line::try_from(["SET_MTR_CMD", "32767"].as_slice())?,
            Line::try_from(["cycle"].as_slice())?,
            Line::try_from(["wires"].as_slice())?,
        ];
        let words = Codes::Words((31_964, 65_525), (32_768, 32_768));
        let pulses = Codes::Pulses((MINUS_6, PLUS_255), (OFF, OFF));
        assert_eq!(rt; last(Dac::new(), &lines), Ok(Some(Reply::Wires(words))));
        assert_eq!(rt; last(Pwm::new(), &lines), Ok(Some(Reply::Wires(pulses))));
        Ok(())
    }

    #[test]
    fn printed(rt: HostRuntime) -> Result<(), Fail> {
        let pairs = Answer(Ok(Reply::Pairs((-804, 32_757), (0, 0)))).to_string(rt.alloc())?;
        let refused = Answer(Err(Refusal::NotGiving)).to_string(rt.alloc())?;
        assert_eq!(rt; pairs.as_str(), "pairs -804 32757 0 0");
        assert_eq!(rt; refused.as_str(), "refused 4");
        let pulses = Reply::Wires(Codes::Pulses((MINUS_6, PLUS_255), (OFF, OFF)));
        let wires = Answer(Ok(pulses)).to_string(rt.alloc())?;
        assert_eq!(rt; wires.as_str(), "wires -6 +255 +0 +0");
        Ok(())
    }

    #[test]
    fn events_printed(rt: HostRuntime) -> Result<(), Fail> {
        let limit = record(2, Event::NegativeLimit, 4_294_967_295);
        let read = Answer(Ok(Reply::Event(limit))).to_string(rt.alloc())?;
        let found = Answer(Ok(Reply::EventAt(limit, 0))).to_string(rt.alloc())?;
        let none = Answer(Ok(Reply::NoEvent)).to_string(rt.alloc())?;
        assert_eq!(rt; read.as_str(), "event 2 6 4294967295");
        assert_eq!(rt; found.as_str(), "event 2 6 4294967295 next 0");
        assert_eq!(rt; none.as_str(), "none");
        Ok(())
    }
}
