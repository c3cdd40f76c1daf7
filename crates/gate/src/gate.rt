ghost use Rattle.std.specs.Prelude.{◌≡◌, ◌^◌, true, false, pos, ◌*ℤ◌, Decides};
ghost use Rattle.motion.specs.Course.{IsWithin};
ghost use Rattle.gate.specs.Gates.{fresh_gate, latch, halted_motion, gate_halted_at, with_command_error, with_events, with_found, with_slip, with_motion};
ghost use Rattle.gate.specs.Events.{keep};
ghost use Rattle.gate.specs.Sound.{IsSound};

use crate::clock::Clock;
use crate::events::Events;
use crate::profile::Profile;
use motion::course::MICROSTEP;
use wave::phases::MotorKind;

/// The motor powers, from 0 to 32,767.
#[derive(Clone, Copy, PartialEq, Eq, Debug)]
pub struct Powers {
    pub buffered: u16,
    pub active: u16,
}

/// How a gate moves.
#[derive(Clone, Copy, PartialEq, Eq, Debug)]
pub struct Motion {
    // the target position, in 1/65,536 microstep
    pub target: i64,
    // in 1/65,536 microstep a cycle
    pub velocity: i32,
    pub halted: bool,
    // at rest when the last cycle ended
    pub rested: bool,
}

/// Whether each limit switch can trip.
#[derive(Clone, Copy, PartialEq, Eq, Debug)]
pub struct Detectors {
    pub positive: bool,
    pub negative: bool,
}

/// What a breakpoint waits for.
#[derive(Clone, Copy, PartialEq, Eq, Debug)]
pub enum BreakMode {
    Off,
    Time,
    TargetAbove,
    TargetBelow,
    ActualAbove,
    ActualBelow,
    Complete,
    External,
}

/// The breakpoint of a gate.
#[derive(Clone, Copy, PartialEq, Eq, Debug)]
pub struct Breakpoint {
    pub mode: BreakMode,
    // a time, or a position in two's complement; it stays while the mode is off
    pub point: u32,
    // whether a breakpoint that is met latches
    pub auto: bool,
}

/// A gate is one axis of a board: a hopper gate and the stepping motor that moves it. This is all that is known of it; what holds the
/// record keeps its registers in their ranges.
#[derive(Clone, Copy, PartialEq, Eq, Debug)]
pub struct Gate {
    pub buffered: Profile,
    pub active: Profile,
    pub powers: Powers,
    pub motion: Motion,
    // the encoder's position, in its counts
    pub actual: i32,
    pub breakpoint: Breakpoint,
    pub events: Events,
    // the event bits that were set at the last collect
    pub found: Events,
    // the interrupt mask, by the places of the event bits
    pub mask: u16,
    pub detectors: Detectors,
    pub kind: MotorKind,
    // whether a service slip for this gate is out
    pub slip: bool,
    pub clock: Clock,
}

// A position in 1/65,536 microstep.
fn fixed_point(position: i32) -> i64
    requires { IsWithin (2 ^ 30) position }
    ensures is { result ≡ pos 65536 *ℤ position }
    ensures range { IsWithin (2 ^ 46) result }
{
    MICROSTEP * i64::from(position)
}

impl Gate {
    /// The gate after a reset, which keeps the slip mark.
    pub fn fresh(slip: bool) -> Gate
        ensures is { result ≡ fresh_gate slip }
        ensures sound { IsSound result }
    {
        Gate {
            buffered: Profile::first(),
            active: Profile::first(),
            powers: Powers {
                buffered: 0,
                active: 0,
            },
            motion: Motion {
                target: 0,
                velocity: 0,
                halted: false,
                rested: true,
            },
            actual: 0,
            breakpoint: Breakpoint {
                mode: BreakMode::Off,
                point: 0,
                auto: true,
            },
            events: Events::none(),
            found: Events::none(),
            mask: 0,
            detectors: Detectors {
                positive: true,
                negative: true,
            },
            kind: MotorKind::TwoPhase,
            slip,
            clock: Clock { cycles: 0 },
        }
    }

    /// Copies every buffered register into its active one, and ends a halt unless a limit bit is set.
    pub fn latch(&mut self)
        ensures is { self.new ≡ latch self.old }
        ensures once { latch self.new ≡ self.new }
        ensures sound { IsSound self.old → IsSound self.new }
    {
        self.active = self.buffered;
        self.powers.active = self.powers.buffered;
        self.motion.halted &= self.events.positive || self.events.negative;
    }

    // Stops the gate where it is, until a latch.
    pub(crate) fn halt(&mut self)
        ensures is { self.new ≡ with_motion self.old (halted_motion self.old.motion) }
        ensures sound { IsSound self.old → IsSound self.new }
    {
        self.motion.velocity = 0;
        self.motion.halted = true;
    }

    // Sets target and actual position, and halts the gate there.
    pub(crate) fn halt_at(&mut self, position: i32)
        requires { IsWithin (2 ^ 30) position }
        ensures is { self.new ≡ gate_halted_at position self.old }
        ensures sound { IsSound self.old → IsSound self.new }
    {
        self.halt();
        self.actual = position;
        self.motion.target = fixed_point(position);
    }

    // Notes a command that was refused for its value.
    pub(crate) fn set_command_error(&mut self)
        ensures is { self.new ≡ with_command_error self.old }
        ensures sound { IsSound self.old → IsSound self.new }
    {
        self.events.error = true;
    }

    /// Hands out the gate's service slip.
    pub fn lend(&mut self)
        ensures is { self.new ≡ with_slip self.old true }
        ensures sound { IsSound self.old → IsSound self.new }
    {
        self.slip = true;
    }

    /// Takes the slip back, and clears the event bits whose places hold 0 in the word.
    pub fn close(&mut self, word: u16)
        ensures is { self.new ≡ with_slip (with_events self.old (keep word self.old.events)) false }
        ensures sound { IsSound self.old → IsSound self.new }
    {
        self.events.keep(word);
        self.slip = false;
    }

    /// Notes the event bits as they stand as those that were set at the last collect.
    pub fn collect(&mut self)
        ensures is { self.new ≡ with_found self.old self.old.events }
        ensures sound { IsSound self.old → IsSound self.new }
    {
        self.found = self.events;
    }

    /// Whether two records are equal in every field: the derived `==` says which test it makes, and this that the test decides equality.
    pub fn is_same(&self, other: &Gate) -> bool
        ensures { Decides result (self.now ≡ other.now) }
    {
        *self == *other
    }
}
