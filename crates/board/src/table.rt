ghost use Rattle.std.specs.Prelude.{◌≡◌, ◌<◌, Bool, cond, Some, None, IfSome, IfOk};
ghost use Rattle.std.specs.Fn.{FnReturnsAt};
ghost use Rattle.gate.specs.Queries.{query_answer, status_word};
ghost use Rattle.board.specs.Own.{join, entry_order, entry_word_order, entry_long_order, entry_query, entry_status};
ghost use Rattle.board.specs.Acts.{state_of, gate_of, caller, waiting_gate, named_gate, enter, next_state, transition_answer, answer_of_unit, IsSoundTable, state_after_act, answer, entry_transition, multi_update, answer_of_word, answer_of_axis, list_after_collect, act_command, act_write, act_read, act_cycle, act_reset, act_take, act_close, act_collect};
ghost use Rattle.gate.specs.Cycles.{gate_phases};

use crate::collect::EventRecord;
use crate::command::GateName;
use crate::port::{Incoming, Port, Step};
use crate::refusal::Refusal;
use gate::gate::Gate;
use gate::inputs::Inputs;
use gate::orders::{LongOrder, Order, WordOrder};
use gate::queries::Query;
use ring::ring::Ring;

/// What a board holds beside its stage. A gate is named by its axis here, 0 or 1, as in a status word. The table is plain, so
/// that one record can be lent and changed: a board's type carries the ranges, and here `IsSoundTable` stands in each contract.
#[derive(Clone, Copy)]
pub struct Table {
    pub gates: [Gate; 2],
    pub current: u8,
    pub port: Port,
}

// A number of two words, the high one first.
fn join(high: u16, low: u16) -> u32
    ensures { result ≡ join high low }
{
    u32::from(high) * 65_536 + u32::from(low)
}

impl Table {
    // The lowest-numbered gate that passes a test.
    fn first<F: Fn(&Gate) -> bool>(&self, test: F) -> Option<u8>
        requires { F.IsAlwaysCallable test }
        ensures is { (a : Bool) × (b : Bool) × FnReturnsAt F.Fn test (state_of self.now).one a ×
            FnReturnsAt F.Fn test (state_of self.now).two b ×
            (result ≡ cond a (Some 0) (cond b (Some 1) None)) }
    {
        let (one, two) = (test(&self.gates[0]), test(&self.gates[1]));
        if one {
            Some(0)
        } else if two {
            Some(1)
        } else {
            None
        }
    }

    fn caller(&self) -> Option<u8>
        ensures is { result ≡ caller (state_of self.now) }
        ensures bound { IfSome result (λ k. k < 2) }
    {
        self.first(|gate| gate.calls())
    }

    pub(crate) fn waiting_gate(&self) -> Option<u8>
        ensures is { result ≡ waiting_gate (state_of self.now) }
        ensures bound { IfSome result (λ k. k < 2) }
    {
        self.first(|gate| gate.calls() && !gate.slip)
    }

    pub(crate) fn named_gate(&self, named: GateName) -> Option<u8>
        requires { self.now.current < 2 }
        ensures is { result ≡ named_gate (state_of self.now) named }
        ensures bound { IfSome result (λ k. k < 2) }
    {
        match named {
            GateName::First => Some(0),
            GateName::Second => Some(1),
            GateName::Calling => self.caller(),
            GateName::Current => Some(self.current),
        }
    }

    pub(crate) fn status(&self, axis: u8) -> u16
        requires sound { IsSoundTable self.now }
        requires axis { axis < 2 }
        ensures { result ≡ status_word axis (gate_of (state_of self.now) axis) }
    {
        self.gates[axis as usize].status(axis)
    }

    pub(crate) fn ask(&self, query: Query) -> u32
        requires { IsSoundTable self.now }
        ensures { result ≡ query_answer query (gate_of (state_of self.now) self.now.current) }
    {
        self.gates[self.current as usize].answer(query)
    }

    pub(crate) fn run(&mut self, order: Order)
        requires { IsSoundTable self.old }
        ensures state { state_of self.new ≡
            next_state (state_of self.old) (enter self.old.current (entry_order order)) }
        ensures sound { IsSoundTable self.new }
    {
        self.gates[self.current as usize].run(order);
    }

    pub(crate) fn run_word(&mut self, order: WordOrder, word: u16) -> Result<(), Refusal>
        requires { IsSoundTable self.old }
        ensures answer { answer_of_unit result ≡
            transition_answer (state_of self.old)
            (enter self.old.current (entry_word_order order word)) }
        ensures state { state_of self.new ≡
            next_state (state_of self.old) (enter self.old.current (entry_word_order order word)) }
        ensures sound { IsSoundTable self.new }
    {
        self.gates[self.current as usize]
            .run_word(order, word)
            .map_err(Refusal::from)
    }

    pub(crate) fn run_long(&mut self, order: LongOrder, high: u16, low: u16) -> Result<(), Refusal>
        requires { IsSoundTable self.old }
        ensures answer { answer_of_unit result ≡
            transition_answer (state_of self.old)
            (enter self.old.current (entry_long_order order high low)) }
        ensures state { state_of self.new ≡
            next_state (state_of self.old)
            (enter self.old.current (entry_long_order order high low)) }
        ensures sound { IsSoundTable self.new }
    {
        let value = join(high, low);
        self.gates[self.current as usize]
            .run_long(order, value)
            .map_err(Refusal::from)
    }

    // Makes the named gate current, and gives its status.
    fn answer_status(&mut self, named: GateName) -> Result<(), Refusal>
        requires { IsSoundTable self.old }
        ensures answer { answer_of_unit result ≡
            transition_answer (state_of self.old)
            (entry_transition (named_gate (state_of self.old) named) (entry_status named)) }
        ensures state { state_of self.new ≡
            next_state (state_of self.old)
            (entry_transition (named_gate (state_of self.old) named) (entry_status named)) }
        ensures sound { IsSoundTable self.new }
    {
        let axis = self.named_gate(named).ok_or(Refusal::NoCall)?;
        let word = self.status(axis);
        self.current = axis;
        self.port = Port::Giving { word, then: None };
        Ok(())
    }

    // Fixes the answer to a question, as two words that wait.
    fn fix(&mut self, query: Query)
        requires { IsSoundTable self.old }
        ensures state { state_of self.new ≡
            next_state (state_of self.old) (enter self.old.current (entry_query query)) }
        ensures sound { IsSoundTable self.new }
    {
        let value = self.ask(query);
        let word = (value / 65_536) as u16;
        self.port = Port::Giving {
            word,
            then: Some((value % 65_536) as u16),
        };
    }

    /// A command by its code, as `Board::command`.
    pub fn command(&mut self, code: u8) -> Result<(), Refusal>
        requires { IsSoundTable self.old }
        ensures answer { answer_of_unit result ≡ answer (state_of self.old) (act_command code) }
        ensures state { state_of self.new ≡ state_after_act (state_of self.old) (act_command code) }
        ensures sound { IsSoundTable self.new }
    {
        match self.port.step(Incoming::Command(code))? {
            Step::Wait => {}
            Step::Status(named) => self.answer_status(named)?,
            Step::Ask(query) => self.fix(query),
            Step::Run(order) => self.run(order),
            _ => unreachable!(),
        }
        Ok(())
    }

    // Counts an UPDATE for each gate whose bit is set.
    fn multi_update(&mut self, word: u16)
        requires sound { IsSoundTable self.old }
        requires word { word < 4 }
        ensures state { state_of self.new ≡ next_state (state_of self.old) (multi_update word) }
        ensures sound { IsSoundTable self.new }
    {
        if word % 2 == 1 {
            self.gates[0].run(Order::Update);
        }
        if word / 2 == 1 {
            self.gates[1].run(Order::Update);
        }
    }

    /// A word that is written, as `Board::write`.
    pub fn write(&mut self, word: u16) -> Result<(), Refusal>
        requires { IsSoundTable self.old }
        ensures answer { answer_of_unit result ≡ answer (state_of self.old) (act_write word) }
        ensures state { state_of self.new ≡ state_after_act (state_of self.old) (act_write word) }
        ensures sound { IsSoundTable self.new }
    {
        match self.port.step(Incoming::Write(word))? {
            Step::Word(order, word) => self.run_word(order, word),
            Step::Wait => Ok(()),
            Step::Long(order, high, low) => self.run_long(order, high, low),
            Step::Gates(word) => {
                if word >= 4 {
                    return Err(Refusal::OutOfRange);
                }
                self.multi_update(word);
                Ok(())
            }
            _ => unreachable!(),
        }
    }

    /// A word that is read, as `Board::read`.
    pub fn read(&mut self) -> Result<u16, Refusal>
        requires { IsSoundTable self.old }
        ensures answer { answer_of_word result ≡ answer (state_of self.old) act_read }
        ensures state { state_of self.new ≡ state_after_act (state_of self.old) act_read }
        ensures sound { IsSoundTable self.new }
    {
        match self.port.step(Incoming::Read)? {
            Step::Give(word) => Ok(word),
            _ => unreachable!(),
        }
    }

    /// One cycle of both gates, and the phases that they are to show.
    #[inline(always)]
    pub fn cycle(&mut self, one: Inputs, two: Inputs) -> ((i32, i32), (i32, i32))
        requires { IsSoundTable self.old }
        ensures shows { result ≡
            (gate_phases (state_of self.new).one, gate_phases (state_of self.new).two) }
        ensures state { state_of self.new ≡
            state_after_act (state_of self.old) (act_cycle one two) }
        ensures sound { IsSoundTable self.new }
    {
        let phases_one = self.gates[0].cycle(one);
        let phases_two = self.gates[1].cycle(two);
        (phases_one, phases_two)
    }

    /// Resets the port, the current gate, and both gates but for their slip marks.
    pub fn reset(&mut self)
        requires { IsSoundTable self.old }
        ensures state { state_of self.new ≡ state_after_act (state_of self.old) act_reset }
        ensures sound { IsSoundTable self.new }
    {
        self.gates = [
            Gate::fresh(self.gates[0].slip),
            Gate::fresh(self.gates[1].slip),
        ];
        self.current = 0;
        self.port = Port::Idle;
    }

    /// Marks a slip as out, and answers its axis.
    pub fn take(&mut self) -> Result<u8, Refusal>
        requires { IsSoundTable self.old }
        ensures answer { answer_of_axis result ≡ answer (state_of self.old) act_take }
        ensures bound { IfOk result (λ k. k < 2) }
        ensures state { state_of self.new ≡ state_after_act (state_of self.old) act_take }
        ensures sound { IsSoundTable self.new }
    {
        let axis = self.waiting_gate().ok_or(Refusal::NoCall)?;
        self.gates[axis as usize].lend();
        Ok(axis)
    }

    /// Takes the slip of a gate back, and clears event bits by the word. Refused with `NoSlip` if its slip is not out.
    pub fn close(&mut self, axis: u8, word: u16) -> Result<(), Refusal>
        requires sound { IsSoundTable self.old }
        requires axis { axis < 2 }
        ensures answer { answer_of_unit result ≡ answer (state_of self.old) (act_close axis word) }
        ensures state { state_of self.new ≡
            state_after_act (state_of self.old) (act_close axis word) }
        ensures sound { IsSoundTable self.new }
    {
        let i = axis as usize;
        if !self.gates[i].slip {
            return Err(Refusal::NoSlip);
        }
        self.gates[i].close(word);
        Ok(())
    }

    /// Lists the new events of a gate, by its number, as `Board::collect`.
    pub fn collect(&mut self, gate: u8, list: &mut Ring<'_, EventRecord>) -> Result<(), Refusal>
        requires { IsSoundTable self.old }
        ensures answer { answer_of_unit result ≡
            answer (state_of self.old) (act_collect gate list.old) }
        ensures state { state_of self.new ≡
            state_after_act (state_of self.old) (act_collect gate list.old) }
        ensures lists { list.new ≡ list_after_collect (state_of self.old) gate list.old }
        ensures sound { IsSoundTable self.new }
    {
        let axis = match gate {
            1 => 0,
            2 => 1,
            _ => return Err(Refusal::OutOfRange),
        };
        EventRecord::list_new(gate, &self.gates[axis], list)?;
        self.gates[axis].collect();
        Ok(())
    }
}
