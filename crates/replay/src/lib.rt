// Plays a list of acts, coded as bytes, against two new boards, and writes what they answer as bytes. Its format: docs/REPLAY.md.
#![tactic(auto)]

ghost use Rattle.std.specs.Prelude.{◌≡◌, true, false};
ghost use Rattle.stage.specs.Wiring.{wires_of};
ghost use Rattle.replay.specs.Replays.{FillsRoom};
ghost use Rattle.replay.specs.Returns.{Returns};

use crate::boards::Boards;
use crate::fault::Fault;
use crate::lists::Lists;
use crate::out::Out;
use board::collect::EventRecord;
use stage::Stage;
use stage::dac::Dac;
use stage::pwm::Pwm;
use stage::wiring::{GateWiring, Wiring};

pub mod boards;
pub mod entry;
pub mod fault;
pub mod lists;
pub mod look;
pub mod out;
pub mod play;
pub mod reply;

// A PWM stage behind a wiring that exchanges the phases of gate 1 and negates phase A of gate 2.
fn wired_pwm() -> Wiring<Pwm>
    ensures { wires_of result ≡ (
      record { exchanged = true; negated = false },
      record { exchanged = false; negated = true },
    ) }
{
    let one = GateWiring {
        exchanged: true,
        negated: false,
    };
    let two = GateWiring {
        exchanged: false,
        negated: true,
    };
    Wiring::new(Pwm::new(), one, two)
}

// Plays a list against new boards over two stages and new event lists, and answers how many bytes were written.
fn replay<S: Stage + Drop, R: Stage + Drop>(
    a: S,
    b: R,
    list: &[u8],
    room: &mut [u8],
) -> (usize, Result<(), Fault>)
    ensures { FillsRoom S.Stage R.Stage list.now room.old room.new result.0 result.1 }
{
    let mut boards = Boards::new(a, b);
    let mut one = [EventRecord::BLANK; 1];
    let mut two = [EventRecord::BLANK; 2];
    let mut seven = [EventRecord::BLANK; 7];
    let mut lists = Lists::new(&mut one, &mut two, &mut seven);
    let mut out = Out {
        bytes: room,
        len: 0,
    };
    let played = boards.play(&mut lists, list, &mut out);
    (out.len, played)
}

/// Plays a list of acts on two new boards and writes the answers; what the bytes and the number mean stands in `docs/REPLAY.md`.
#[unsafe(no_mangle)]
pub extern "C" fn two_gate_replay(list: &[u8], out: &mut [u8]) -> u32
    ensures { Returns list.now out.old out.new result }
{
    let Some((head, room)) = out.split_first_chunk_mut::<8>() else {
        return Fault::NoRoom as u32;
    };
    let (count, played) = replay(Dac::new(), wired_pwm(), list, room);
    *head = (count as u64).to_be_bytes();
    match played {
        Ok(()) => 0,
        Err(fault) => fault as u32,
    }
}

#[cfg(test)]
mod tests {
    use crate::two_gate_replay;

    // What is returned for a list, with room for one answer of a byte.
    fn returned(list: &[u8]) -> u32 {
        let mut out = [0; 9];
        two_gate_replay(list, &mut out)
    }

    #[test]
    fn faults(rt: HostRuntime) {
        assert_eq!(rt; returned(&[]), 0);
        assert_eq!(rt; returned(&[0x04]), 0);
        assert_eq!(rt; returned(&[0x0d]), 1);
        assert_eq!(rt; returned(&[0x8d]), 1);
        assert_eq!(rt; returned(&[0x04, 0x01, 0xff]), 2);
        assert_eq!(rt; returned(&[0x06, 3]), 2);
        assert_eq!(rt; returned(&[0x06, 3, 0, 0]), 3);
        assert_eq!(rt; returned(&[0x83, 0, 0, 0, 0, 0, 8]), 3);
        assert_eq!(rt; returned(&[0x0b, 4, 0, 0, 0, 0, 0, 0, 0]), 2);
        assert_eq!(rt; returned(&[0x8a, 1, 4]), 3);
        assert_eq!(rt; returned(&[0x04, 0x84]), 4);
        assert_eq!(rt; two_gate_replay(&[], &mut [0; 7]), 4);
    }

    // A destination for gate 2, and the questions about it.
    #[test]
    fn packet(rt: HostRuntime) {
        let list = [
            0x00, 0x02, 0x00, 0x10, 0x02, 0x00, 0x10, 0x01, 0xff, 0xff, 0x01, 0xff, 0xfe, 0x00,
            0x4a, 0x02, 0x02, 0x02,
        ];
        let mut out = [0; 24];
        assert_eq!(rt; two_gate_replay(&list, &mut out), 0);
        assert_eq!(rt;
            out,
            [
                0, 0, 0, 0, 0, 0, 0, 16, 0, 2, 0x10, 0x10, 0, 0, 0, 0, 0, 0x10, 0xff, 0xff, 0x10,
                0xff, 0xfe, 4,
            ]
        );
    }

    // Gate 1 calls on both boards; the slip of board a is closed at board b, and that of board b at board a.
    #[test]
    fn slips(rt: HostRuntime) {
        let list = [
            0x00, 0x2f, 0x01, 0x00, 0x80, 0x00, 0x62, 0x01, 0x80, 0x00, 0x05, 0x80, 0x2f, 0x81,
            0x00, 0x80, 0x80, 0x62, 0x81, 0x80, 0x00, 0x85, 0x07, 1, 0xff, 0xff, 0x86, 1, 0xff,
            0xff, 0x06, 1, 0xff, 0xff, 0x07, 1, 0xff, 0xff,
        ];
        let mut out = [0; 24];
        assert_eq!(rt; two_gate_replay(&list, &mut out), 0);
        assert_eq!(rt;
            out,
            [
                0, 0, 0, 0, 0, 0, 0, 16, 0, 0, 0, 5, 0x11, 1, 0, 0, 0, 5, 0x11, 1, 0, 0x12, 0, 0x12,
            ]
        );
    }

    // A command error of gate 1, 258 cycles after the reset, in the list with room for one record: collected twice, read, and taken out at
    // the other board, whose own command error finds no room in the list with room for none.
    #[test]
    fn events(rt: HostRuntime) {
        let list = [
            0x09, 1, 2, 0x00, 0x62, 0x01, 0x80, 0x00, 0x0a, 1, 1, 0x0a, 1, 1, 0x0b, 1, 0, 0, 0, 0,
            0, 0, 0, 0, 0x0b, 1, 0, 0, 0, 0, 0, 0, 0, 1, 0x8c, 1, 0x0c, 1, 0x0a, 3, 1, 0x80, 0x62,
            0x81, 0x80, 0x00, 0x8a, 1, 0,
        ];
        let mut out = [0; 41];
        assert_eq!(rt; two_gate_replay(&list, &mut out), 0);
        assert_eq!(rt;
            out,
            [
                0, 0, 0, 0, 0, 0, 0, 33, 0, 0, 5, 0, 0, 0x14, 1, 7, 0, 0, 1, 2, 0, 0, 0, 0, 0, 0,
                0, 1, 0x16, 0x15, 1, 7, 0, 0, 1, 2, 0x16, 5, 0, 5, 10,
            ]
        );
    }
}
