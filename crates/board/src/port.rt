ghost use Rattle.std.specs.Prelude.{◌≡◌};
ghost use Rattle.board.specs.Ports.{port_after_word, port_after_incoming, port_step};

use crate::command::{Command, GateName};
use crate::refusal::Refusal;
use gate::orders::{LongOrder, Order, WordOrder};
use gate::queries::Query;

/// Where the packet stands that is on its way: none, one that takes words, or one that gives them.
#[derive(Clone, Copy)]
pub enum Port {
    Idle,
    TakingWord { order: WordOrder },
    TakingHigh { order: LongOrder },
    TakingLow { order: LongOrder, high: u16 },
    TakingGates,
    Giving { word: u16, then: Option<u16> },
}

/// What comes to the port.
#[derive(Clone, Copy)]
pub enum Incoming {
    Command(u8),
    Write(u16),
    Read,
}

/// What is to be done about it; one type for every act, since the port is one match on its state and the act together.
#[derive(Clone, Copy)]
pub enum Step {
    // the packet waits for a word
    Wait,
    Status(GateName),
    Ask(Query),
    Run(Order),
    Word(WordOrder, u16),
    Long(LongOrder, u16, u16),
    Gates(u16),
    Give(u16),
}

impl Port {
    /// Moves the port on by what comes in, or refuses it and stays.
    #[inline(always)]
    pub fn step(&mut self, incoming: Incoming) -> Result<Step, Refusal>
        ensures port { self.new ≡ port_after_incoming self.old incoming }
        ensures step { result ≡ port_step self.old incoming }
    {
        let (port, step) = match (*self, incoming) {
            (Port::Idle, Incoming::Command(code)) => match Command::try_from(code)? {
                Command::Status(named) => (Port::Idle, Step::Status(named)),
                Command::Ask(query) => (Port::Idle, Step::Ask(query)),
                Command::Now(order) => (Port::Idle, Step::Run(order)),
                Command::Word(order) => (Port::TakingWord { order }, Step::Wait),
                Command::Long(order) => (Port::TakingHigh { order }, Step::Wait),
                Command::MultiUpdate => (Port::TakingGates, Step::Wait),
            },
            (_, Incoming::Command(_)) => return Err(Refusal::PacketOpen),
            (Port::TakingWord { order }, Incoming::Write(word)) => {
                (Port::Idle, Step::Word(order, word))
            }
            (Port::TakingHigh { order }, Incoming::Write(high)) => {
                (Port::TakingLow { order, high }, Step::Wait)
            }
            (Port::TakingLow { order, high }, Incoming::Write(low)) => {
                (Port::Idle, Step::Long(order, high, low))
            }
            (Port::TakingGates, Incoming::Write(word)) => (Port::Idle, Step::Gates(word)),
            (Port::Idle | Port::Giving { .. }, Incoming::Write(_)) => {
                return Err(Refusal::NotTaking);
            }
            (Port::Giving { word, then }, Incoming::Read) => (Port::next(then), Step::Give(word)),
            (_, Incoming::Read) => return Err(Refusal::NotGiving),
        };
        *self = port;
        Ok(step)
    }

    // The port once a word is given: the next word waits, or none.
    fn next(then: Option<u16>) -> Port
        ensures { result ≡ port_after_word then }
    {
        match then {
            Some(word) => Port::Giving { word, then: None },
            None => Port::Idle,
        }
    }
}
