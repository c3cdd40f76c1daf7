ghost use Rattle.board.specs.Acts.{HasSoundTable, HasSoundTable-prop};

use crate::collect::EventRecord;
use crate::port::Port;
use crate::refusal::Refusal;
use crate::slip::Slip;
use crate::table::Table;
use gate::gate::Gate;
use gate::inputs::Inputs;
use ring::ring::Ring;
use stage::Stage;

pub mod compare;

/// Two gates and a port over one output stage, of any make. No board can exist with a register outside its range. Its rules:
/// `docs/BOARD.md`.
#[derive(Drop)]
pub struct Board<S: Stage + Drop> {
    table: Table,
    stage: S,
    ghost sound: { HasSoundTable table } by { HasSoundTable-prop table },
}

impl<S: Stage + Drop> Board<S> {
    ghost use Rattle.std.specs.Prelude.{◌≡◌, true, false, [], Ok, Err, OnOk, OnErr, ◌-◌, IfSome, MatchOption};
    ghost use Rattle.board.specs.Own.{answer_done};
    ghost use Rattle.board.specs.Acts.{answer_of_unit, answer_of_word, act_command, act_write, act_read, act_cycle, act_reset, act_take, act_close, act_collect, list_after_collect, state_of, gate_of};
    ghost use Rattle.board.specs.Collects.{ListsEachOnce};
    ghost use Rattle.board.specs.Isolation.{KeepsFound};
    ghost use Rattle.board.specs.Runs.{IsReachedBy, Performs, answer_of_slip, answer_of_close};
    ghost use Rattle.gate.specs.Sound.{IsSound};
    ghost use Rattle.stage.specs.Pairs.{is_gate, pair_of};

    /// A new board over a stage, as after a reset: both gates as new, gate 1 current, the port idle, 0, 0 shown for both, no slip out.
    #[tactic(auto, unfolding(crate::specs::Acts::HasSoundTable))]
    pub fn new(stage: S) -> Board<S>
        ensures { IsReachedBy S.Stage [] result }
    {
        let mut stage = stage;
        stage.show(1, 0, 0);
        stage.show(2, 0, 0);
        let gate = Gate::fresh(false);
        let table = Table {
            gates: [gate, gate],
            current: 0,
            port: Port::Idle,
        };
        Board { table, stage }
    }

    /// Gives the board a command by its code; `docs/BOARD.md` lists the 37 of them. One without words runs, one that takes words opens its
    /// packet, and one that gives words fixes them now. Refused, and nothing changes: `PacketOpen` while a packet is open; else `Unknown`
    /// if no command has this code; else `NoCall` for SET_I if no gate calls.
    #[tactic(auto, unfolding(crate::specs::Acts::HasSoundTable))]
    pub fn command(&mut self, code: u8) -> Result<(), Refusal>
        ensures { Performs S.Stage (act_command code) (answer_of_unit result) self.old self.new }
    {
        self.table.command(code)
    }

    /// Writes a word of the packet that is open, the high word of two first; the last one runs the packet. Refused: `NotTaking` if the port
    /// takes no words, and nothing changes; `OutOfRange` if the value is outside its range, which closes the packet and sets the command
    /// error bit of the gate that the packet belongs to.
    #[tactic(auto, unfolding(crate::specs::Acts::HasSoundTable))]
    pub fn write(&mut self, word: u16) -> Result<(), Refusal>
        ensures { Performs S.Stage (act_write word) (answer_of_unit result) self.old self.new }
    {
        self.table.write(word)
    }

    /// Reads the next word that a command fixed, the high word of two first; the last one closes the packet. Refused: `NotGiving` if no
    /// word waits, and nothing changes.
    #[tactic(auto, unfolding(crate::specs::Acts::HasSoundTable))]
    pub fn read(&mut self) -> Result<u16, Refusal>
        ensures { Performs S.Stage act_read (answer_of_word result) self.old self.new }
    {
        self.table.read()
    }

    /// One cycle of both gates, of what the encoders (in counts) and the switches bring: `one` to gate 1, `two` to gate 2. The phases
    /// of both are shown. It has no refusal, and an open packet stays open.
    #[inline(always)]
    #[tactic(auto, unfolding(crate::specs::Acts::HasSoundTable))]
    pub fn cycle(&mut self, one: Inputs, two: Inputs)
        ensures { Performs S.Stage (act_cycle one two) answer_done self.old self.new }
    {
        let (phases_one, phases_two) = self.table.cycle(one, two);
        self.stage.show(1, phases_one.0, phases_one.1);
        self.stage.show(2, phases_two.0, phases_two.1);
    }

    /// The reset pin: closes any packet, makes gate 1 current, shows 0, 0 for both gates, and gives every field of both its reset value but
    /// the slip marks. It has no refusal.
    #[tactic(auto, unfolding(crate::specs::Acts::HasSoundTable))]
    pub fn reset(&mut self)
        ensures { Performs S.Stage act_reset answer_done self.old self.new }
    {
        self.table.reset();
        self.stage.show(1, 0, 0);
        self.stage.show(2, 0, 0);
    }

    /// Hands out a service slip for the lowest-numbered gate that calls and has no slip out. Refused: `NoCall` if there is none, and
    /// nothing changes.
    #[tactic(auto, unfolding(crate::specs::Acts::HasSoundTable))]
    pub fn take(&mut self) -> Result<Slip, Refusal>
        ensures performs { Performs S.Stage act_take (answer_of_slip result) self.old self.new }
        ensures unspent { elim result [ Ok s ↦ s.spent ≡ false | Err e ↦ Unit {0} ] }
    {
        let axis = self.table.take()?;
        Ok(Slip { axis, spent: false })
    }

    /// Takes a slip back, and clears the event bits of its gate whose places hold 0 in the word, as RST_STATUS does. Refused: `NoSlip` if
    /// that gate has no slip out at this board; nothing changes, and the slip comes back unspent.
    #[tactic(auto, unfolding(crate::specs::Acts::HasSoundTable))]
    pub fn close(&mut self, mut slip: Slip, word: u16) -> Result<(), (Refusal, Slip)>
        ensures performs { Performs S.Stage (act_close slip.axis word) (answer_of_close result)
            self.old self.new }
        ensures back { elim result [ Ok _ ↦ Unit {0} | Err p ↦ p.1 ≡ slip ] }
    {
        match self.table.close(slip.axis, word) {
            Ok(()) => {
                slip.spent = true;
                Ok(())
            }
            Err(refusal) => Err((refusal, slip)),
        }
    }

    /// Lists the events of gate 1 or 2 whose bits are set now and were not at its last accepted collect since a reset, the lowest place
    /// first, and notes the bits as found; a record whose gate and event are those of the newest that the list holds by then is left off.
    /// Refused, and nothing changes: `OutOfRange` for another gate, else `NoRoom` if the records don't all fit.
    #[tactic(auto, unfolding(crate::specs::Acts::HasSoundTable))]
    pub fn collect(&mut self, gate: u8, list: &mut Ring<'_, EventRecord>) -> Result<(), Refusal>
        ensures performs { Performs S.Stage (act_collect gate list.old) (answer_of_unit result)
            self.old self.new }
        ensures lists { list.new ≡ list_after_collect (state_of self.old.table) gate list.old }
        // No event is lost or doubled, and what is new is so since the last collect of the gate's own list.
        ensures each { OnOk result
            (ListsEachOnce gate (gate_of (state_of self.old.table) (gate - 1))
            list.old.records list.new.records) }
        ensures since { KeepsFound S.Stage self.old }
        ensures refused { OnErr result (list.new ≡ list.old) }
    {
        self.table.collect(gate, list)
    }

    /// The phases A and B that the stage shows for a gate; (0, 0) for a gate other than 1 or 2.
    pub fn pair(&self, gate: u8) -> (i32, i32)
        ensures { result ≡ pair_of (S.Stage.pairs self.now.stage) gate }
    {
        self.stage.pair(gate)
    }

    /// The output stage, to be asked for what is on its wires: a DAC's words, a PWM's lines, the stage below a wiring.
    pub fn stage(&self) -> &S
        ensures { result.now ≡ self.now.stage }
    {
        &self.stage
    }

    /// The record of gate 1 or 2 as it stands, in its ranges, so that every question of a gate can be put to it; `None` for another gate.
    #[tactic(auto, unfolding(crate::specs::Acts::HasSoundTable))]
    pub fn record(&self, gate: u8) -> Option<Gate>
        ensures sound { IfSome result IsSound }
        ensures is { MatchOption result
            (is_gate gate ≡ false)
            (λ g. (is_gate gate ≡ true) × (g ≡ gate_of (state_of self.now.table) (gate - 1))) }
    {
        match gate {
            1 => Some(self.table.gates[0]),
            2 => Some(self.table.gates[1]),
            _ => None,
        }
    }
}
