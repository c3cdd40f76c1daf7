ghost use Rattle.std.specs.Prelude.{◌≡◌, ℕ, Ok, Err, OnOk};
ghost use Rattle.gate.specs.Cycles.{cycle};
ghost use Rattle.gate.specs.Laws.{RespectsProfile};
ghost use Rattle.gate.specs.Sound.{IsSound};
ghost use Rattle.travel.specs.Plans.{TakesPlan, HasFault};
ghost use Rattle.travel.specs.Runs.{EndsTravel, TravelsFor};
ghost use Rattle.gate.specs.Inputs.{still_inputs};
ghost use Rattle.travel.specs.Rows.{ShowsGate};

use crate::plan::{Fault, Plan};
use crate::row::{HEADING, Row};
use gate::gate::Gate;
use gate::inputs::Inputs;
use gate::orders::{LongOrder, Order, WordOrder};
use motion::course::microsteps;
use std::io;

// The most cycles that a move is followed for.
const CYCLES: u32 = 10_000;

/// One gate under way.
#[derive(Drop)]
pub struct Journey {
    gate: Gate,
    ghost sound: { IsSound gate },
}

impl Journey {
    /// A fresh gate that has taken the plan, and is at rest at 0.
    pub fn new(plan: Plan) -> Result<Journey, Fault>
        ensures { elim result [ Ok j ↦ TakesPlan plan j.gate | Err f ↦ HasFault plan f ] }
    {
        let mut gate = Gate::fresh(false);
        gate.run_long(LongOrder::Destination, plan.destination.cast_unsigned())
            .or(Err(Fault::Destination))?;
        gate.run_long(LongOrder::Velocity, plan.velocity)
            .or(Err(Fault::Velocity))?;
        gate.run_long(LongOrder::Acceleration, plan.acceleration.cast_unsigned())
            .or(Err(Fault::Acceleration))?;
        gate.run_word(WordOrder::BufferedPower, plan.power)
            .or(Err(Fault::Power))?;
        gate.run(Order::Update);
        Ok(Journey { gate })
    }

    /// Runs one more cycle, and answers its line.
    pub fn step(&mut self) -> Row
        ensures is { self.new.gate ≡ cycle still_inputs self.old.gate }
        ensures paced { RespectsProfile self.old.gate self.new.gate }
        ensures shown { ShowsGate self.new.gate result }
    {
        let phases = self.gate.cycle(Inputs::STILL);
        Row {
            cycle: self.gate.clock.time(),
            velocity: self.gate.motion.velocity,
            target: microsteps(self.gate.motion.target),
            phases,
            complete: self.gate.events.complete,
            moving: !self.gate.is_at_rest(),
        }
    }

    /// Prints a line for each cycle, to the first in which the gate is at rest or to the last that it is followed for.
    pub fn show(&mut self, rt: &impl Print) -> io::Result<()>
        ensures { (n : ℕ) × TravelsFor n self.old.gate self.new.gate × OnOk result
            (EndsTravel n self.new.gate) }
    {
        rt.println(HEADING)?;
        for _cycle in 0..CYCLES {
            let row = self.step();
            rt.println(row)?;
            if !row.moving {
                return Ok(());
            }
        }
        println!(rt; "still moving after {CYCLES} cycles")
    }
}
