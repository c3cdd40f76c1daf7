ghost use Rattle.std.specs.Prelude.{◌≡◌};
ghost use Rattle.board.specs.Refusals.{refusal_number};

use gate::orders::OutOfRange;
use ring::ring::Full;

/// Why an act was refused, each with its number.
#[derive(Clone, Copy, PartialEq, Eq, Debug)]
pub enum Refusal {
    /// No command has this code.
    Unknown = 1,
    /// A packet is open.
    PacketOpen = 2,
    /// The port takes no words.
    NotTaking = 3,
    /// No word waits.
    NotGiving = 4,
    /// The value is out of range, or the gate is neither 1 nor 2.
    OutOfRange = 5,
    /// No gate calls, or none that has no slip out.
    NoCall = 6,
    /// The slip's gate has no slip out at this board.
    NoSlip = 7,
    /// The records that are to be listed don't all fit.
    NoRoom = 10,
}

impl Refusal {
    /// The number of the refusal, 1 to 7, or 10.
    pub fn number(self) -> u8
        ensures { result ≡ refusal_number self }
    {
        self as u8
    }
}

impl From<OutOfRange> for Refusal {
    ghost use Rattle.board.specs.Refusals.{GivesOutOfRange};

    ghost from_gives = { GivesOutOfRange };

    fn from(_value: OutOfRange) -> Refusal {
        Refusal::OutOfRange
    }
}

impl From<Full> for Refusal {
    ghost use Rattle.board.specs.Refusals.{GivesNoRoom};

    ghost from_gives = { GivesNoRoom };

    fn from(_full: Full) -> Refusal {
        Refusal::NoRoom
    }
}
