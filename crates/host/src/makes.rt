ghost use Rattle.std.specs.Prelude.{Some};
ghost use Rattle.std.specs.Result.{result_ok};
ghost use Rattle.host.specs.Makes.{NamesMakes, NamesMake, make_name, makes_of};

use std::fmt;
use std::str::FromStr;
use thiserror::Error;

/// The makes of output stage that the console can set its boards on.
#[derive(Clone, Copy, Debug, PartialEq, Eq)]
pub enum Make {
    Dac,
    Pwm,
}

/// The makes of board a and board b.
#[derive(Clone, Copy, Debug, PartialEq, Eq)]
pub struct Makes {
    pub a: Make,
    pub b: Make,
}

/// A word that names no make, or words that name no two.
#[derive(Clone, Copy, Debug, PartialEq, Eq, Error)]
#[error("a make is dac or pwm")]
pub struct UnknownMake;

impl FromStr for Make {
    type Err = UnknownMake;

    ghost from_str_gives = { λ word r. NamesMake word (result_ok r) };

    fn from_str(word: &str) -> Result<Make, UnknownMake> {
        match word {
            "dac" => Ok(Make::Dac),
            "pwm" => Ok(Make::Pwm),
            _ => Err(UnknownMake),
        }
    }
}

impl fmt::Display for Make {
    ghost output = { λ make. Some (make_name make) };

    fn fmt<W: fmt::Write>(&self, f: &mut fmt::Formatter<W>) -> fmt::Result {
        f.write_str(match self {
            Make::Dac => "dac",
            Make::Pwm => "pwm",
        })
    }
}

// Two makes are written with a comma between.
impl FromStr for Makes {
    type Err = UnknownMake;

    ghost from_str_gives = { λ text r. NamesMakes text (makes_of r) };

    fn from_str(text: &str) -> Result<Makes, UnknownMake> {
        let (a, b) = text.split_once(',').ok_or(UnknownMake)?;
        Ok(Makes {
            a: a.parse()?,
            b: b.parse()?,
        })
    }
}
