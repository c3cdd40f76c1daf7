ghost use Rattle.std.specs.Prelude.{map, string_bytes};
ghost use Rattle.travel.specs.Plans.{ReadsPlanWords, ReadsPlan};

use thiserror::Error;

/// Where a gate is sent, and how.
#[derive(Clone, Copy, Debug, PartialEq, Eq)]
pub struct Plan {
    // in microsteps
    pub destination: i32,
    // in 1/65,536 microstep a cycle
    pub velocity: u32,
    // in 1/65,536 microstep a cycle, each cycle
    pub acceleration: i32,
    pub power: u16,
}

/// What is wrong with a plan.
#[derive(Clone, Copy, Debug, PartialEq, Eq, Error)]
pub enum Fault {
    #[error("the destination is a whole number from -1073741824 to 1073741823")]
    Destination,
    #[error("the velocity is a whole number from 0 to 1073741823")]
    Velocity,
    #[error("the acceleration is a whole number from -1073741824 to 1073741823, and not 0")]
    Acceleration,
    #[error("the power is a whole number from 0 to 32767")]
    Power,
    #[error("a move takes a destination, a velocity, an acceleration and, if wanted, a power")]
    Count,
}

impl Plan {
    /// The plan that four words write; its numbers may still be out of range.
    pub fn read(
        destination: &str,
        velocity: &str,
        acceleration: &str,
        power: &str,
    ) -> Result<Plan, Fault>
        ensures { ReadsPlanWords destination.now velocity.now acceleration.now power.now result }
    {
        Ok(Plan {
            destination: destination.parse().map_err(|_| Fault::Destination)?,
            velocity: velocity.parse().map_err(|_| Fault::Velocity)?,
            acceleration: acceleration.parse().map_err(|_| Fault::Acceleration)?,
            power: power.parse().map_err(|_| Fault::Power)?,
        })
    }
}

// The power of a move that names none.
const POWER: &str = "16384";

// A plan is written in three words, or in four where it names a power.
impl TryFrom<&[String]> for Plan {
    type Error = Fault;

    ghost try_from_gives = { λ words r. ReadsPlan (map string_bytes words.now) r };

    fn try_from(words: &[String]) -> Result<Plan, Fault> {
        match words {
            [d, v, a] => Plan::read(d.as_str(), v.as_str(), a.as_str(), POWER),
            [d, v, a, p] => Plan::read(d.as_str(), v.as_str(), a.as_str(), p.as_str()),
            _ => Err(Fault::Count),
        }
    }
}
