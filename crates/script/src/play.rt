ghost use Rattle.std.specs.Prelude.{◌≡◌, ℕ, Some};
ghost use Rattle.board.specs.Commands.{code_table};
ghost use Rattle.board.specs.Acts.{answer_of_unit};
ghost use Rattle.board.specs.Runs.{board_state};
ghost use Rattle.script.specs.Plays.{answer_of_reply, query_value, event_reply, place_reply, log_after_line, Shows, PlaysPlain, PlaysPacket, PlaysLine};
ghost use Rattle.desk.specs.Desks.{board_of};

use crate::line::{Line, Packet};
use crate::log::Log;
use crate::packet::{fetch, send};
use crate::reply::Reply;
use board::collect::EventRecord;
use board::command::Command;
use board::refusal::Refusal;
use desk::desk::Desk;
use gate::queries::Query;
use stage::Stage;
use stage::codes::Wires;

// The number that 32 bits stand for in an answer: a velocity register and the clock are unsigned.
fn query_value(query: Query, bits: u32) -> i64
    ensures { result ≡ query_value query bits }
{
    match query {
        Query::Velocity | Query::ClockTime => i64::from(bits),
        Query::Destination
        | Query::Acceleration
        | Query::TargetPosition
        | Query::TargetVelocity
        | Query::ActualPosition => i64::from(bits.cast_signed()),
    }
}

// The packet of a command that takes no word.
fn play_plain<S: Stage + Drop>(desk: &mut Desk<S>, command: Command) -> Result<Reply, Refusal>
    ensures { (n : ℕ) × (code_table n ≡ Some command) ×
        PlaysPlain S.Stage command n result (board_of desk.old) (board_of desk.new) }
{
    let code = u8::from(command);
    match command {
        Command::Status(_) => {
            let [word]: [u16; 1] = fetch(desk, code)?;
            Ok(Reply::Value(i64::from(word)))
        }
        Command::Ask(query) => {
            let [high, low]: [u16; 2] = fetch(desk, code)?;
            let bits = u32::from(high) * 65_536 + u32::from(low);
            Ok(Reply::Value(query_value(query, bits)))
        }
        _ => {
            desk.command(code)?;
            Ok(Reply::Done)
        }
    }
}

/// The whole packet of a command, up to its end or its first refusal.
pub fn play_packet<S: Stage + Drop>(desk: &mut Desk<S>, packet: Packet) -> Result<Reply, Refusal>
    ensures { (n : ℕ) × PlaysPacket S.Stage packet n result
        (board_of desk.old) (board_of desk.new) }
{
    match packet {
        Packet::Plain(command) => return play_plain(desk, command),
        Packet::Word(command, word) => send(desk, u8::from(command), &[word])?,
        Packet::Long(command, value) => {
            let words = [(value / 65_536) as u16, (value % 65_536) as u16];
            send(desk, u8::from(command), &words)?;
        }
    }
    Ok(Reply::Done)
}

/// Both pairs, as the stage shows them.
pub fn pairs<S: Stage + Drop>(desk: &Desk<S>) -> Reply
    ensures { Shows S.Stage (board_of desk.now) result }
{
    let board = desk.board();
    Reply::Pairs(board.pair(1), board.pair(2))
}

// The reply to an act that gives nothing.
fn done(accepted: Result<(), Refusal>) -> Result<Reply, Refusal>
    ensures { answer_of_reply result ≡ answer_of_unit accepted }
{
    accepted.map(|()| Reply::Done)
}

// The reply to a record that is read or taken out, or to none.
fn event(found: Option<EventRecord>) -> Reply
    ensures { result ≡ event_reply found }
{
    found.map_or(Reply::NoEvent, Reply::Event)
}

// The same of a record with the next place.
fn event_at(found: Option<(EventRecord, u64)>) -> Reply
    ensures { result ≡ place_reply found }
{
    match found {
        Some((record, next)) => Reply::EventAt(record, next),
        None => Reply::NoEvent,
    }
}

/// Plays a line on a board and its log; no reply comes to a line that asks nothing of it.
pub fn play<S: Wires + Drop>(
    desk: &mut Desk<S>,
    log: &mut Log<'_>,
    line: Line,
) -> Result<Option<Reply>, Refusal>
    ensures line { PlaysLine S.Stage S.codes log.old line result (board_of desk.old)
        (board_of desk.new) }
    ensures log { log.new ≡ log_after_line (board_state (board_of desk.old)) line log.old }
{
    Ok(Some(match line {
        Line::Nothing | Line::Board(_) => return Ok(None),
        Line::Command(code) => done(desk.command(code))?,
        Line::Write(word) => done(desk.write(word))?,
        Line::Read => Reply::Word(desk.read()?),
        Line::Cycle(one, two) => {
            desk.cycle(one, two);
            pairs(desk)
        }
        Line::Run(cycles) => {
            desk.run(cycles);
            pairs(desk)
        }
        Line::Reset => {
            desk.reset();
            Reply::Done
        }
        Line::Take => Reply::Slip(desk.take()?),
        Line::Close(gate, word) => {
            if desk.close(gate, word) {
                Reply::Done
            } else {
                Reply::NoSlip
            }
        }
        Line::Collect(gate) => done(log.collect(desk, gate))?,
        Line::Next(reader) => event(log.next(reader)),
        Line::Event(place) => event_at(log.read(place)),
        Line::Remove => event(log.remove()),
        Line::Pairs => pairs(desk),
        Line::Wires => Reply::Wires(desk.board().stage().codes()),
        Line::Packet(packet) => play_packet(desk, packet)?,
    }))
}
