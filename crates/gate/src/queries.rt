ghost use Rattle.std.specs.Prelude.{◌≡◌, ◌<◌};
ghost use Rattle.gate.specs.Queries.{query_answer, status_word, is_calling, new_events};
ghost use Rattle.gate.specs.Sound.{IsSound};

use crate::events::Events;
use crate::gate::Gate;
use motion::course::microsteps;

// The places of in-motion and of the axis in the status word.
const IN_MOTION_PLACE: u8 = 10;

const AXIS_PLACE: u8 = 12;

/// What a gate can be asked with an answer of two words.
#[derive(Clone, Copy, PartialEq, Eq, Debug)]
pub enum Query {
    /// The buffered destination, in microsteps.
    Destination,
    /// The buffered velocity, in 1/65,536 microstep a cycle; unsigned.
    Velocity,
    /// The buffered acceleration, in 1/65,536 microstep a cycle, each cycle.
    Acceleration,
    /// The target position, rounded down to microsteps.
    TargetPosition,
    /// The velocity, in 1/65,536 microstep a cycle.
    TargetVelocity,
    /// The encoder's position, in its counts.
    ActualPosition,
    /// The cycles since the reset, modulo 2^32; unsigned.
    ClockTime,
}

impl Gate {
    /// The 32 bits that answer a query, in two's complement where the number is signed.
    pub fn answer(&self, query: Query) -> u32
        requires { IsSound self.now }
        ensures { result ≡ query_answer query self.now }
    {
        match query {
            Query::Destination => self.buffered.destination.cast_unsigned(),
            Query::Velocity => self.buffered.velocity,
            Query::Acceleration => self.buffered.acceleration.cast_unsigned(),
            Query::TargetPosition => microsteps(self.motion.target).cast_unsigned(),
            Query::TargetVelocity => self.motion.velocity.cast_unsigned(),
            Query::ActualPosition => self.actual.cast_unsigned(),
            Query::ClockTime => self.clock.time(),
        }
    }

    /// The status word; `axis` is the current axis, 0 for gate 1 and 1 for gate 2.
    pub fn status(&self, axis: u8) -> u16
        requires sound { IsSound self.now }
        requires axis { axis < 4 }
        ensures { result ≡ status_word axis self.now }
    {
        let moving = u16::from(!self.is_at_rest()) << IN_MOTION_PLACE;
        self.events.word() + moving + (u16::from(axis) << AXIS_PLACE)
    }

    /// Whether an event bit is set whose place in the mask holds 1.
    pub fn calls(&self) -> bool
        ensures { result ≡ is_calling self.now }
    {
        self.events.has_bit_in(self.mask)
    }

    /// The event bits that are set and were not at the last collect.
    pub fn new_events(&self) -> Events
        ensures { result ≡ new_events self.now }
    {
        self.events.without(&self.found)
    }
}
