ghost use Rattle.std.specs.Prelude.{◌≡◌, ◌^◌, ◌<◌, unsigned_abs};
ghost use Rattle.gate.specs.Cycles.{tick, add_count, trip, is_breakpoint_met, meet, next_velocity, advance, has_arrived, is_at_rest, settle, cycle, gate_phases};
ghost use Rattle.gate.specs.Laws.{RespectsProfile, StepsInOrder};
ghost use Rattle.gate.specs.Sound.{IsSound};

use crate::gate::{BreakMode, Gate};
use crate::inputs::Inputs;
use crate::profile::ProfileMode;
use motion::course::{cruise, distance, microsteps, next_actual, next_target};
use motion::rate::Rate;
use wave::phases::phases;

impl Gate {
    fn tick(&mut self)
        requires { IsSound self.old }
        ensures is { self.new ≡ tick self.old }
        ensures sound { IsSound self.new }
    {
        self.clock.tick();
    }

    fn add_count(&mut self, inputs: Inputs)
        requires { IsSound self.old }
        ensures is { self.new ≡ add_count inputs.count self.old }
        ensures sound { IsSound self.new }
    {
        self.actual = next_actual(self.actual, inputs.count);
    }

    // Trips the limits that are due, the positive one first, and arms the detectors of inactive inputs.
    fn trip(&mut self, inputs: Inputs)
        requires { IsSound self.old }
        ensures is { self.new ≡ trip inputs self.old }
        ensures sound { IsSound self.new }
    {
        if !(inputs.positive | inputs.negative) {
            self.detectors.positive = true;
            self.detectors.negative = true;
            return;
        }
        let clear = !(self.events.positive | self.events.negative);
        let positive = inputs.positive & self.detectors.positive & clear;
        let negative = !positive & inputs.negative & self.detectors.negative & clear;
        self.events.positive |= positive;
        self.events.negative |= negative;
        self.detectors.positive = !inputs.positive | self.detectors.positive & !positive;
        self.detectors.negative = !inputs.negative | self.detectors.negative & !negative;
        if positive | negative {
            self.halt();
        }
    }

    // Whether the breakpoint's condition holds.
    fn is_breakpoint_met(&self, home: bool) -> bool
        requires { IsSound self.now }
        ensures { result ≡ is_breakpoint_met home self.now }
    {
        let point = self.breakpoint.point;
        match self.breakpoint.mode {
            BreakMode::Off => false,
            BreakMode::Time => self.clock.time() == point,
            BreakMode::TargetAbove => point.cast_signed() <= microsteps(self.motion.target),
            BreakMode::TargetBelow => microsteps(self.motion.target) <= point.cast_signed(),
            BreakMode::ActualAbove => point.cast_signed() <= self.actual,
            BreakMode::ActualBelow => self.actual <= point.cast_signed(),
            BreakMode::Complete => self.events.complete,
            BreakMode::External => home,
        }
    }

    // Meets the breakpoint, if its condition holds.
    fn meet(&mut self, home: bool)
        requires { IsSound self.old }
        ensures is { self.new ≡ meet home self.old }
        ensures sound { IsSound self.new }
    {
        if let BreakMode::Off = self.breakpoint.mode {
            return;
        }
        if self.is_breakpoint_met(home) {
            self.breakpoint.mode = BreakMode::Off;
            self.events.breakpoint_reached = true;
            if self.breakpoint.auto {
                self.latch();
            }
        }
    }

    #[inline(always)]
    fn next_velocity(&self) -> i32
        requires { IsSound self.now }
        ensures is { result ≡ next_velocity self.now }
        ensures range { unsigned_abs result < 2 ^ 30 }
    {
        if self.motion.halted {
            return 0;
        }
        let velocity = self.motion.velocity;
        let profile = self.active;
        match profile.mode {
            ProfileMode::Velocity => cruise(velocity, profile.velocity, profile.acceleration),
            ProfileMode::Trapezoidal => {
                let rate = Rate {
                    size: profile.acceleration.unsigned_abs(),
                };
                let distance = distance(profile.destination, self.motion.target);
                rate.trapezoid(velocity, profile.velocity, distance)
            }
        }
    }

    #[inline(always)]
    fn advance(&mut self)
        requires { IsSound self.old }
        ensures is { self.new ≡ advance self.old }
        ensures sound { IsSound self.new }
    {
        let velocity = self.next_velocity();
        let (target, crossed) = next_target(self.motion.target, velocity);
        self.motion.target = target;
        self.motion.velocity = velocity;
        self.events.wrapped |= crossed;
    }

    // Whether the gate has a destination, and stands on it.
    fn has_arrived(&self) -> bool
        requires { IsSound self.now }
        ensures { result ≡ has_arrived self.now.active.mode self.now }
    {
        match self.active.mode {
            ProfileMode::Velocity => false,
            ProfileMode::Trapezoidal => distance(self.active.destination, self.motion.target) == 0,
        }
    }

    /// Whether the gate stands, and has nowhere to go.
    pub fn is_at_rest(&self) -> bool
        requires { IsSound self.now }
        ensures { result ≡ is_at_rest self.now }
    {
        self.motion.velocity == 0
            && (self.motion.halted || self.active.velocity == 0 || self.has_arrived())
    }

    fn settle(&mut self)
        requires { IsSound self.old }
        ensures is { self.new ≡ settle self.old }
        ensures sound { IsSound self.new }
    {
        let rest = self.is_at_rest();
        if rest && !self.motion.rested {
            self.events.complete = true;
        }
        self.motion.rested = rest;
    }

    /// The phases to show.
    pub fn phases(&self) -> (i32, i32)
        requires { IsSound self.now }
        ensures { result ≡ gate_phases self.now }
    {
        phases(
            self.kind,
            self.powers.active,
            microsteps(self.motion.target),
        )
    }

    /// One cycle, of what the encoder and the switches bring; it answers the phases to show.
    #[inline(always)]
    pub fn cycle(&mut self, inputs: Inputs) -> (i32, i32)
        requires { IsSound self.old }
        ensures is { self.new ≡ cycle inputs self.old }
        ensures shows { result ≡ gate_phases self.new }
        ensures sound { IsSound self.new }
        ensures paced { RespectsProfile self.old self.new }
        ensures ordered { StepsInOrder inputs self.old self.new }
    {
        self.tick();
        self.add_count(inputs);
        self.trip(inputs);
        self.meet(inputs.home);
        self.advance();
        self.settle();
        self.phases()
    }
}
