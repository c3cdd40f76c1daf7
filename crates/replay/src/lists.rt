ghost use Rattle.std.specs.Prelude.{◌≡◌, ◌≤◌, slice_get, MatchResult};
ghost use Rattle.ring.specs.Places.{read_at, without_oldest};
ghost use Rattle.board.specs.Acts.{act_collect, answer_of_unit, list_after_collect};
ghost use Rattle.board.specs.Runs.{Performs, board_state};
ghost use Rattle.desk.specs.Desks.{board_of};
ghost use Rattle.replay.specs.declared.fault.Fault.TheVariants.{Operand};
ghost use Rattle.replay.specs.Lists.{list_number, list_of, new_lists, with_list};

use crate::fault::Fault;
use board::collect::EventRecord;
use board::refusal::Refusal;
use desk::desk::Desk;
use ring::ring::Ring;
use stage::Stage;

/// Which of the four event lists is meant, by the number of records that it has room for.
#[derive(Clone, Copy)]
pub enum ListName {
    Zero,
    One,
    Two,
    Seven,
}

impl ListName {
    /// The list of a number, 0 to 3. Another number is `Operand`.
    pub fn read(number: u8) -> Result<ListName, Fault>
        ensures { MatchResult result
            (λ name. list_number name ≡ number) (λ f. (f ≡ Operand) × (4 ≤ number)) }
    {
        match number {
            0 => Ok(ListName::Zero),
            1 => Ok(ListName::One),
            2 => Ok(ListName::Two),
            3 => Ok(ListName::Seven),
            _ => Err(Fault::Operand),
        }
    }
}

/// The event lists that stand beside the boards: each can take the events of both.
#[derive(Drop)]
pub struct Lists<'a> {
    pub zero: Ring<'a, EventRecord>,
    pub one: Ring<'a, EventRecord>,
    pub two: Ring<'a, EventRecord>,
    pub seven: Ring<'a, EventRecord>,
}

impl<'a> Lists<'a> {
    /// Four lists with nothing listed, with room for 0, 1, 2 and 7 records.
    pub fn new(
        one: &'a mut [EventRecord; 1],
        two: &'a mut [EventRecord; 2],
        seven: &'a mut [EventRecord; 7],
    ) -> Lists<'a>
        ensures { result ≡ new_lists }
    {
        Lists {
            zero: Ring::new(&mut []),
            one: Ring::new(one),
            two: Ring::new(two),
            seven: Ring::new(seven),
        }
    }

    /// Lists the new events of a board's gate in the list of that name: `Desk::collect`. The others stay as they are.
    pub fn collect<S: Stage + Drop>(
        &mut self,
        name: ListName,
        desk: &mut Desk<S>,
        gate: u8,
    ) -> Result<(), Refusal>
        ensures performs { Performs S.Stage (act_collect gate (list_of self.old name))
            (answer_of_unit result) (board_of desk.old) (board_of desk.new) }
        ensures lists { self.new ≡ with_list self.old name
            (list_after_collect (board_state (board_of desk.old)) gate (list_of self.old name)) }
    {
        match name {
            ListName::Zero => desk.collect(gate, &mut self.zero),
            ListName::One => desk.collect(gate, &mut self.one),
            ListName::Two => desk.collect(gate, &mut self.two),
            ListName::Seven => desk.collect(gate, &mut self.seven),
        }
    }

    /// The record at a place of a list, with the next place: `Ring::read`.
    pub fn read(&self, name: ListName, place: u64) -> Option<(EventRecord, u64)>
        ensures { result ≡ read_at (list_of self.now name) place }
    {
        match name {
            ListName::Zero => self.zero.read(place),
            ListName::One => self.one.read(place),
            ListName::Two => self.two.read(place),
            ListName::Seven => self.seven.read(place),
        }
    }

    /// Takes out the oldest record of a list and answers it, if there is one: `Ring::remove`. The others stay as they are.
    pub fn remove(&mut self, name: ListName) -> Option<EventRecord>
        ensures oldest { result ≡ slice_get (list_of self.old name).records 0 }
        ensures rest { self.new ≡
            with_list self.old name (without_oldest (list_of self.old name) 1) }
    {
        match name {
            ListName::Zero => self.zero.remove(),
            ListName::One => self.one.remove(),
            ListName::Two => self.two.remove(),
            ListName::Seven => self.seven.remove(),
        }
    }
}
