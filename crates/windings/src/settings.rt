ghost use Rattle.std.specs.Prelude.{map, string_bytes};
ghost use Rattle.windings.specs.Settings.{NamesKind, WritesPower, ReadsSettingsWords, ReadsSettings};

use thiserror::Error;
use wave::phases::MotorKind;

/// The motor of a trial, and the power that it is driven with.
#[derive(Clone, Copy, Debug, PartialEq, Eq)]
pub struct Settings {
    pub kind: MotorKind,
    pub power: u16,
}

/// What is wrong with the arguments.
#[derive(Clone, Copy, Debug, PartialEq, Eq, Error)]
pub enum Fault {
    #[error("the first argument is the kind of motor: two-phase or three-phase")]
    Kind,
    #[error("the second argument is the power: a whole number from 0 to 32767")]
    Power,
    #[error("there are at most two arguments: the kind of motor and the power")]
    Extra,
}

/// The kind of motor that a word names. Its type stands in crate wave, which knows no words, so it has no `FromStr`.
pub fn kind_from(word: &str) -> Option<MotorKind>
    ensures { NamesKind word.now result }
{
    match word {
        "two-phase" => Some(MotorKind::TwoPhase),
        "three-phase" => Some(MotorKind::ThreePhase),
        _ => None,
    }
}

/// The power that a word writes, from 0 to 32,767.
pub fn power_from(word: &str) -> Option<u16>
    ensures { WritesPower word.now result }
{
    word.parse().ok().filter(|power| *power <= 32767)
}

impl Settings {
    /// The settings that two words write, or the first of them that is not taken.
    pub fn read(kind: &str, power: &str) -> Result<Settings, Fault>
        ensures { ReadsSettingsWords kind.now power.now result }
    {
        Ok(Settings {
            kind: kind_from(kind).ok_or(Fault::Kind)?,
            power: power_from(power).ok_or(Fault::Power)?,
        })
    }
}

// What a trial takes where its words name no kind or no power.
const KIND: &str = "two-phase";

const POWER: &str = "16384";

// Settings are written in two words at most: the kind, then the power.
impl TryFrom<&[String]> for Settings {
    type Error = Fault;

    ghost try_from_gives = { λ words r. ReadsSettings (map string_bytes words.now) r };

    fn try_from(words: &[String]) -> Result<Settings, Fault> {
        match words {
            [] => Settings::read(KIND, POWER),
            [kind] => Settings::read(kind.as_str(), POWER),
            [kind, power] => Settings::read(kind.as_str(), power.as_str()),
            _ => Err(Fault::Extra),
        }
    }
}

#[cfg(test)]
mod tests {
    use super::*;

    fn fault(kind: &str, power: &str) -> Option<Fault> {
        Settings::read(kind, power).err()
    }

    #[test]
    fn arguments(rt: HostRuntime) {
        assert_eq!(rt; kind_from("three-phase"), Some(MotorKind::ThreePhase));
        assert_eq!(rt; power_from("0032767"), Some(32767));
        assert_eq!(rt; power_from("-1"), None);
        assert_eq!(rt; fault("two-phase", "0"), None);
        assert_eq!(rt; fault("two-phase", "32768"), Some(Fault::Power));
        assert_eq!(rt; fault("two-phase", ""), Some(Fault::Power));
        assert_eq!(rt; fault("Two-phase", "x"), Some(Fault::Kind));
    }
}
