ghost use Rattle.std.specs.Prelude.{◌≡◌, ◌<◌, ◌-◌, true, ℕ, Result, Option, OnOk, IfOk};
ghost use Rattle.std.specs.Option.{option_copied};
ghost use Rattle.stage.specs.Pairs.{is_gate};
ghost use Rattle.gate.specs.Sound.{IsSound};
ghost use Rattle.board.specs.Acts.{gate_of};
ghost use Rattle.ring.specs.Listing.{Listing};
ghost use Rattle.board.specs.declared.collect.EventRecord.{EventRecord};
ghost use Rattle.host.specs.Works.{notes_of, no_notes, name_of, with_note, lot_beside, following_inputs, reading_of, no_reading, bench_of, new_bench, NotesPackets, MakesReady, LoadsLot, Collects, OrdersLot, ServesSlip, RunsFor, IfSomething, WorksLot, WorksAll};
ghost use Rattle.desk.specs.Desks.{board_of};
ghost use Rattle.board.specs.Runs.{board_state};

use crate::lot::{CYCLES, Lot, Outcome};
use crate::panel::Panel;
use board::collect::EventRecord;
use board::command::{Command, GateName};
use board::refusal::Refusal;
use desk::desk::Desk;
use gate::gate::{BreakMode, Gate};
use gate::inputs::Inputs;
use gate::orders::{LongOrder, Order, WordOrder};
use motion::course::microsteps;
use ring::ring::Ring;
use script::line::Packet;
use script::play::play_packet;
use script::reply::Reply;
use stage::Stage;
use std::alloc::{AllocError, Global};

/// What one gate, 1 or 2, did with its lots, and what its packets, collects and slips were answered.
#[derive(Drop)]
pub struct Work {
    gate: u8,
    pub outcomes: Vec<Outcome>,
    pub answers: Vec<Result<Reply, Refusal>>,
}

/// What is noted of the work of both gates of a board, and of what its panel read.
#[derive(Drop)]
pub struct Works {
    pub one: Work,
    pub two: Work,
    pub panel: Panel,
}

// What the status of gate 1, or of gate 2, is asked by.
fn name_of(gate: u8) -> GateName
    ensures { result ≡ name_of gate }
{
    if gate == 1 {
        GateName::First
    } else {
        GateName::Second
    }
}

// The word of a close that clears motion complete alone.
const SERVED: u16 = 0xfffe;

impl Work {
    fn new(heap: Global, gate: u8) -> Work
        ensures { notes_of result ≡ no_notes gate }
    {
        Work {
            gate,
            outcomes: Vec::new(heap),
            answers: Vec::new(heap),
        }
    }

    // Plays packets, and notes what they are answered.
    fn send<S: Stage + Drop>(
        &mut self,
        desk: &mut Desk<S>,
        packets: &[Packet],
    ) -> Result<(), AllocError>
        ensures { OnOk result
            (NotesPackets S.Stage packets.now (notes_of self.old) (board_of desk.old)
            (notes_of self.new) (board_of desk.new)) }
    {
        for packet in packets {
            self.answers.push(play_packet(desk, *packet))?;
        }
        Ok(())
    }

    // Makes the gate ready for its lots: its power, and its mask.
    fn prepare<S: Stage + Drop>(
        &mut self,
        desk: &mut Desk<S>,
        power: u16,
        mask: u16,
    ) -> Result<(), AllocError>
        ensures { OnOk result
            (MakesReady S.Stage power mask (notes_of self.old) (board_of desk.old)
            (notes_of self.new) (board_of desk.new)) }
    {
        let packets = [
            Packet::Plain(Command::Status(name_of(self.gate))),
            Packet::Word(Command::Word(WordOrder::Power), power),
            Packet::Word(Command::Word(WordOrder::Mask), mask),
        ];
        self.send(desk, &packets)
    }

    // Clears the gate's event bits, and loads a lot, to be latched by a breakpoint at its time.
    fn load<S: Stage + Drop>(&mut self, desk: &mut Desk<S>, lot: Lot) -> Result<(), AllocError>
        ensures { OnOk result
            (LoadsLot S.Stage lot (notes_of self.old) (board_of desk.old) (notes_of self.new)
            (board_of desk.new)) }
    {
        self.outcomes.push(Outcome::new(lot))?;
        let destination = lot.destination.cast_unsigned();
        let packets = [
            Packet::Plain(Command::Status(name_of(self.gate))),
            Packet::Word(Command::Word(WordOrder::ClearEvents), 0),
            Packet::Long(Command::Long(LongOrder::Destination), destination),
            Packet::Long(Command::Long(LongOrder::Velocity), lot.velocity),
            Packet::Long(Command::Long(LongOrder::Acceleration), lot.acceleration),
            Packet::Long(Command::Long(LongOrder::Point), lot.start),
            Packet::Plain(Command::Now(Order::Break(BreakMode::Time))),
        ];
        self.send(desk, &packets)
    }

    // Collects the gate's events into a list.
    fn collect<S: Stage + Drop>(
        &mut self,
        desk: &mut Desk<S>,
        list: &mut Ring<'_, EventRecord>,
    ) -> Result<(), AllocError>
        ensures { OnOk result
            (Collects S.Stage (notes_of self.old) (board_of desk.old) list.old (notes_of self.new)
            (board_of desk.new) list.new) }
    {
        let collected = desk.collect(self.gate, list);
        self.answers.push(collected.map(|_done| Reply::Done))?;
        Ok(())
    }

    // Loads a lot, and collects, so that what the lot sets later is new.
    fn order<S: Stage + Drop>(
        &mut self,
        desk: &mut Desk<S>,
        list: &mut Ring<'_, EventRecord>,
        lot: Lot,
    ) -> Result<(), AllocError>
        ensures { OnOk result
            (OrdersLot S.Stage lot (notes_of self.old) (board_of desk.old) list.old
            (notes_of self.new) (board_of desk.new) list.new) }
    {
        self.load(desk, lot)?;
        self.collect(desk, list)
    }

    // The same, if there is a lot.
    fn order_if<S: Stage + Drop>(
        &mut self,
        desk: &mut Desk<S>,
        list: &mut Ring<'_, EventRecord>,
        lot: Option<Lot>,
    ) -> Result<(), AllocError>
        ensures { OnOk result
            (IfSomething S.Stage (OrdersLot S.Stage) lot (notes_of self.old) (board_of desk.old)
            list.old (notes_of self.new) (board_of desk.new) list.new) }
    {
        match lot {
            Some(lot) => self.order(desk, list, lot),
            None => Ok(()),
        }
    }

    // Collects, if there was a lot.
    fn collect_if<S: Stage + Drop>(
        &mut self,
        desk: &mut Desk<S>,
        list: &mut Ring<'_, EventRecord>,
        lot: Option<Lot>,
    ) -> Result<(), AllocError>
        ensures { OnOk result
            (IfSomething S.Stage (λ (lot : Lot). Collects S.Stage) lot (notes_of self.old)
            (board_of desk.old) list.old (notes_of self.new) (board_of desk.new) list.new) }
    {
        match lot {
            Some(_) => self.collect(desk, list),
            None => Ok(()),
        }
    }

    // Notes what a cycle did to the gate, with the lot that it works.
    fn note(&mut self, gate: Gate)
        requires { IsSound gate }
        ensures { notes_of self.new ≡ with_note gate (notes_of self.old) }
    {
        if let Some(outcome) = self.outcomes.last_mut() {
            outcome.note(gate);
        }
    }

    // Serves the gate's call.
    fn serve<S: Stage + Drop>(&mut self, desk: &mut Desk<S>) -> Result<(), AllocError>
        ensures { OnOk result
            ((taken : Result ℕ Refusal) ×
            ServesSlip S.Stage taken (notes_of self.old) (board_of desk.old) (notes_of self.new)
            (board_of desk.new)) }
    {
        let taken = desk.take();
        self.answers.push(taken.map(Reply::Slip))?;
        if let Ok(gate) = taken {
            let closed = desk.close(gate, SERVED);
            self.answers
                .push(Ok(if closed { Reply::Done } else { Reply::NoSlip }))?;
        }
        Ok(())
    }
}

fn record<S: Stage + Drop>(desk: &Desk<S>, gate: u8) -> Gate
    requires { is_gate gate ≡ true }
    ensures sound { IsSound result }
    ensures is { result ≡ gate_of (board_state (board_of desk.now)) (gate - 1) }
{
    desk.board().record(gate).unwrap()
}

// An encoder that follows its motor: it counts what the target position is ahead of the actual one.
fn follow(gate: Gate) -> Inputs
    requires { IsSound gate }
    ensures { result ≡ following_inputs gate }
{
    let ahead = microsteps(gate.motion.target) - gate.actual;
    Inputs {
        count: ahead.clamp(-32_768, 32_767) as i16,
        ..Inputs::STILL
    }
}

impl Works {
    fn new(heap: Global) -> Works
        ensures one { notes_of result.one ≡ no_notes 1 }
        ensures two { notes_of result.two ≡ no_notes 2 }
        ensures panel { reading_of result.panel ≡ no_reading }
    {
        Works {
            one: Work::new(heap, 1),
            two: Work::new(heap, 2),
            panel: Panel::new(heap),
        }
    }
}

// Runs the cycles of a lot, and notes what both gates do.
fn run<S: Stage + Drop>(desk: &mut Desk<S>, works: &mut Works)
    ensures { (l : Listing EventRecord) →
        RunsFor S.Stage 160 (bench_of S.Stage (board_of desk.old) l works.old)
        (bench_of S.Stage (board_of desk.new) l works.new) }
{
    for _cycle in 0..CYCLES {
        let (one, two) = (follow(record(desk, 1)), follow(record(desk, 2)));
        desk.cycle(one, two);
        works.one.note(record(desk, 1));
        works.two.note(record(desk, 2));
    }
}

// Works a lot of gate 1, and one of gate 2 beside it, if there is one.
fn work_lot<S: Stage + Drop>(
    desk: &mut Desk<S>,
    list: &mut Ring<'_, EventRecord>,
    works: &mut Works,
    lot: Lot,
    beside: Option<Lot>,
) -> Result<(), AllocError>
    ensures { OnOk result
        (WorksLot S.Stage lot beside
        (bench_of S.Stage (board_of desk.old) list.old works.old)
        (bench_of S.Stage (board_of desk.new) list.new works.new)) }
{
    works.one.order(desk, list, lot)?;
    works.two.order_if(desk, list, beside)?;
    run(desk, works);
    works.one.collect(desk, list)?;
    works.two.collect_if(desk, list, beside)?;
    works.panel.read_on(list)?;
    works.one.serve(desk)
}

// The lot at a place, if there are lots.
fn lot_at<const N: usize>(lots: Option<&[Lot; N]>, index: usize) -> Option<Lot>
    ensures { result ≡ lot_beside (option_copied lots.entry) index }
{
    match lots {
        Some(lots) => lots.get(index).copied(),
        None => None,
    }
}

/// Works the lots of gate 1, and beside each of them one of gate 2, if that gate is to work.
pub fn work_lots<S: Stage + Drop, const N: usize>(
    heap: Global,
    desk: &mut Desk<S>,
    list: &mut Ring<'_, EventRecord>,
    lots_one: &[Lot; N],
    lots_two: Option<&[Lot; N]>,
) -> Result<Works, AllocError>
    ensures { IfOk result
        (λ works. WorksAll S.Stage lots_one.now (option_copied lots_two.entry)
        (new_bench S.Stage (board_of desk.old) list.old)
        (bench_of S.Stage (board_of desk.new) list.new works)) }
{
    let mut works = Works::new(heap);
    works.one.prepare(desk, 20_000, 1)?;
    if lots_two.is_some() {
        works.two.prepare(desk, 12_000, 0)?;
    }
    for (index, lot) in lots_one.iter().enumerate() {
        work_lot(desk, list, &mut works, *lot, lot_at(lots_two, index))?;
    }
    Ok(works)
}
