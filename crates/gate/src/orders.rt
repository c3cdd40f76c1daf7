ghost use Rattle.std.specs.Prelude.{◌≡◌, true, cond, IfSome};
ghost use Rattle.std.specs.Int.{w32};
ghost use Rattle.std.proofs.Common.{to_z};
ghost use Rattle.gate.specs.Loads.{is_in_signed_range, is_load_in_range};
ghost use Rattle.gate.specs.Orders.{value_if_fits, run, with_word, with_long, run_word, run_long, word_answer, long_answer, is_word_in_range, is_long_in_range};
ghost use Rattle.gate.specs.Orders.{order_load, word_load, long_load};
ghost use Rattle.gate.specs.Laws.{SameAnswersBut, load_query};
ghost use Rattle.gate.specs.Sound.{IsSound};

use crate::gate::{BreakMode, Gate};
use crate::load::Load;
use crate::profile::ProfileMode;
use wave::phases::MotorKind;

/// What a gate can be told with no value.
#[derive(Clone, Copy, PartialEq, Eq, Debug)]
pub enum Order {
    /// Loads the mode.
    Mode(ProfileMode),
    /// Loads velocity 0.
    Stop,
    /// Latches.
    Update,
    /// Whether a breakpoint that is met latches.
    Auto(bool),
    /// The breakpoint's mode.
    Break(BreakMode),
    /// The kind of motor.
    Motor(MotorKind),
}

/// What a gate can be told with a word.
#[derive(Clone, Copy, PartialEq, Eq, Debug)]
pub enum WordOrder {
    /// Loads the power, from 0 to 32,767.
    BufferedPower,
    /// Loads the power and makes it active, from 0 to 32,767.
    Power,
    /// Clears the event bits whose places hold 0 in the word.
    ClearEvents,
    /// Sets the interrupt mask.
    Mask,
}

/// What a gate can be told with a number of two words.
#[derive(Clone, Copy, PartialEq, Eq, Debug)]
pub enum LongOrder {
    /// Loads the destination: in microsteps, from -2^30 to 2^30 - 1.
    Destination,
    /// Loads the velocity: in 1/65,536 microstep a cycle, from 0 to 2^30 - 1.
    Velocity,
    /// Loads the acceleration: in 1/65,536 microstep a cycle, each cycle, from -2^30 to 2^30 - 1, but not 0.
    Acceleration,
    /// Sets the breakpoint's point: a time in cycles, or a position; any 32 bits.
    Point,
    /// Sets target and actual position, in microsteps, from -2^30 to 2^30 - 1, and halts the gate there.
    Actual,
}

/// A value outside its range.
#[derive(Clone, Copy, PartialEq, Eq, Debug)]
pub struct OutOfRange;

const LARGEST_POWER: u16 = 32_767;

const LARGEST_VELOCITY: u32 = 0x3fff_ffff;

// Positions and accelerations run from -SIGNED_END to SIGNED_END - 1.
const SIGNED_END: i32 = 0x4000_0000;

fn power(word: u16) -> Result<u16, OutOfRange>
    ensures { result ≡ value_if_fits (is_load_in_range (Load.Power word)) word }
{
    (word <= LARGEST_POWER).then_some(word).ok_or(OutOfRange)
}

fn velocity(value: u32) -> Result<u32, OutOfRange>
    ensures { result ≡ value_if_fits (is_load_in_range (Load.Velocity value)) value }
{
    (value <= LARGEST_VELOCITY)
        .then_some(value)
        .ok_or(OutOfRange)
}

fn position(value: u32) -> Result<i32, OutOfRange>
    ensures { result ≡ value_if_fits (is_in_signed_range (to_z w32 value)) (to_z w32 value) }
{
    let position = value.cast_signed();
    (-SIGNED_END..SIGNED_END)
        .contains(&position)
        .then_some(position)
        .ok_or(OutOfRange)
}

fn acceleration(value: u32) -> Result<i32, OutOfRange>
    ensures { result ≡ value_if_fits (is_load_in_range (Load.Acceleration (to_z w32 value)))
        (to_z w32 value) }
{
    let acceleration = position(value)?;
    (acceleration != 0)
        .then_some(acceleration)
        .ok_or(OutOfRange)
}

impl Gate {
    /// Runs an order that has no value: docs/GATE.md lists them. None is refused.
    pub fn run(&mut self, order: Order)
        ensures is { self.new ≡ run order self.old }
        ensures sound { IsSound self.old → IsSound self.new }
        ensures quiet { IfSome (order_load order)
            (λ load. SameAnswersBut (load_query load) self.old self.new) }
    {
        match order {
            Order::Mode(mode) => self.load(Load::Mode(mode)),
            Order::Stop => self.load(Load::Velocity(0)),
            Order::Update => self.latch(),
            Order::Auto(on) => self.breakpoint.auto = on,
            Order::Break(mode) => self.breakpoint.mode = mode,
            Order::Motor(kind) => self.kind = kind,
        }
    }

    // Runs the order if the word fits it, and else changes nothing.
    fn try_word(&mut self, order: WordOrder, word: u16) -> Result<(), OutOfRange>
        ensures answer { result ≡ word_answer order word }
        ensures is { self.new ≡
            cond (is_word_in_range order word) (with_word order word self.old) self.old }
        ensures sound { IsSound self.old → IsSound self.new }
    {
        match order {
            WordOrder::BufferedPower => self.load(Load::Power(power(word)?)),
            WordOrder::Power => {
                let power = power(word)?;
                self.load(Load::Power(power));
                self.powers.active = power;
            }
            WordOrder::ClearEvents => self.events.keep(word),
            WordOrder::Mask => self.mask = word,
        }
        Ok(())
    }

    // Runs the order if the value fits it, and else changes nothing.
    fn try_long(&mut self, order: LongOrder, value: u32) -> Result<(), OutOfRange>
        ensures answer { result ≡ long_answer order value }
        ensures is { self.new ≡
            cond (is_long_in_range order value) (with_long order value self.old) self.old }
        ensures sound { IsSound self.old → IsSound self.new }
    {
        match order {
            LongOrder::Destination => self.load(Load::Destination(position(value)?)),
            LongOrder::Velocity => self.load(Load::Velocity(velocity(value)?)),
            LongOrder::Acceleration => self.load(Load::Acceleration(acceleration(value)?)),
            LongOrder::Point => self.breakpoint.point = value,
            LongOrder::Actual => self.halt_at(position(value)?),
        }
        Ok(())
    }

    /// Runs the order, or sets the command error bit and nothing else.
    pub fn run_word(&mut self, order: WordOrder, word: u16) -> Result<(), OutOfRange>
        ensures answer { result ≡ word_answer order word }
        ensures is { self.new ≡ run_word order word self.old }
        ensures sound { IsSound self.old → IsSound self.new }
        ensures quiet { is_word_in_range order word ≡ true →
            IfSome (word_load order word)
            (λ load. SameAnswersBut (load_query load) self.old self.new) }
    {
        let done = self.try_word(order, word);
        if done.is_err() {
            self.set_command_error();
        }
        done
    }

    /// Runs the order, or sets the command error bit and nothing else.
    pub fn run_long(&mut self, order: LongOrder, value: u32) -> Result<(), OutOfRange>
        ensures answer { result ≡ long_answer order value }
        ensures is { self.new ≡ run_long order value self.old }
        ensures sound { IsSound self.old → IsSound self.new }
        ensures quiet { is_long_in_range order value ≡ true →
            IfSome (long_load order value)
            (λ load. SameAnswersBut (load_query load) self.old self.new) }
    {
        let done = self.try_long(order, value);
        if done.is_err() {
            self.set_command_error();
        }
        done
    }
}
