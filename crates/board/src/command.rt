ghost use Rattle.std.specs.Prelude.{◌≡◌, Some};
ghost use Rattle.board.specs.Commands.{Decodes, Encodes, code_table, takes, gives};

use crate::refusal::Refusal;
use gate::gate::BreakMode;
use gate::orders::{LongOrder, Order, WordOrder};
use gate::profile::ProfileMode;
use gate::queries::Query;
use wave::phases::MotorKind;

/// The gate whose status is asked, and which is current from then on.
#[derive(Clone, Copy, PartialEq, Eq, Debug)]
pub enum GateName {
    /// Gate 1, by SET_1.
    First,
    /// Gate 2, by SET_2.
    Second,
    /// The lowest-numbered gate that calls, by SET_I.
    Calling,
    /// The current gate, by GET_STATUS.
    Current,
}

/// A command of the board, by what its packet is made of.
#[derive(Clone, Copy, PartialEq, Eq, Debug)]
pub enum Command {
    /// Gives a status word.
    Status(GateName),
    /// Gives two words.
    Ask(Query),
    /// Has no words.
    Now(Order),
    /// Takes one word.
    Word(WordOrder),
    /// Takes two words, the high one first.
    Long(LongOrder),
    /// Takes one word, and is an UPDATE of each gate whose bit is 1 in it.
    MultiUpdate,
}

// The codes stand in matches and not as discriminants, which a case that holds another enum cannot have.
fn look_up(code: u8) -> Option<Command>
    ensures { result ≡ code_table code }
{
    Some(match code {
        0x01 => Command::Status(GateName::First),
        0x02 => Command::Status(GateName::Second),
        0x08 => Command::Status(GateName::Calling),
        0x09 => Command::Now(Order::Mode(ProfileMode::Trapezoidal)),
        0x0a => Command::Now(Order::Mode(ProfileMode::Velocity)),
        0x10 => Command::Long(LongOrder::Destination),
        0x11 => Command::Long(LongOrder::Velocity),
        0x12 => Command::Long(LongOrder::Acceleration),
        0x16 => Command::Long(LongOrder::Point),
        0x17 => Command::Now(Order::Break(BreakMode::Time)),
        0x18 => Command::Now(Order::Break(BreakMode::TargetAbove)),
        0x19 => Command::Now(Order::Break(BreakMode::TargetBelow)),
        0x1a => Command::Now(Order::Update),
        0x1b => Command::Now(Order::Break(BreakMode::ActualAbove)),
        0x1c => Command::Now(Order::Break(BreakMode::ActualBelow)),
        0x1d => Command::Ask(Query::TargetPosition),
        0x1e => Command::Ask(Query::TargetVelocity),
        0x2f => Command::Word(WordOrder::Mask),
        0x31 => Command::Status(GateName::Current),
        0x34 => Command::Word(WordOrder::ClearEvents),
        0x35 => Command::Now(Order::Break(BreakMode::Complete)),
        0x37 => Command::Ask(Query::ActualPosition),
        0x3e => Command::Ask(Query::ClockTime),
        0x46 => Command::Now(Order::Stop),
        0x4a => Command::Ask(Query::Destination),
        0x4b => Command::Ask(Query::Velocity),
        0x4c => Command::Ask(Query::Acceleration),
        0x4d => Command::Long(LongOrder::Actual),
        0x5b => Command::MultiUpdate,
        0x5c => Command::Now(Order::Auto(true)),
        0x5d => Command::Now(Order::Auto(false)),
        0x5e => Command::Now(Order::Break(BreakMode::External)),
        0x62 => Command::Word(WordOrder::Power),
        0x6d => Command::Now(Order::Break(BreakMode::Off)),
        0x73 => Command::Now(Order::Motor(MotorKind::ThreePhase)),
        0x74 => Command::Now(Order::Motor(MotorKind::TwoPhase)),
        0x77 => Command::Word(WordOrder::BufferedPower),
        _ => return None,
    })
}

impl TryFrom<u8> for Command {
    type Error = Refusal;

    ghost try_from_gives = { Decodes };

    #[tactic(auto, unfolding(crate::specs::Commands::command_of))]
    fn try_from(code: u8) -> Result<Command, Refusal> {
        look_up(code).ok_or(Refusal::Unknown)
    }
}

fn status_code(named: GateName) -> u8
    ensures { code_table result ≡ Some (Command.Status named) }
{
    match named {
        GateName::First => 0x01,
        GateName::Second => 0x02,
        GateName::Calling => 0x08,
        GateName::Current => 0x31,
    }
}

fn break_code(mode: BreakMode) -> u8
    ensures { code_table result ≡ Some (Command.Now (Order.Break mode)) }
{
    match mode {
        BreakMode::Off => 0x6d,
        BreakMode::Time => 0x17,
        BreakMode::TargetAbove => 0x18,
        BreakMode::TargetBelow => 0x19,
        BreakMode::ActualAbove => 0x1b,
        BreakMode::ActualBelow => 0x1c,
        BreakMode::Complete => 0x35,
        BreakMode::External => 0x5e,
    }
}

fn order_code(order: Order) -> u8
    ensures { code_table result ≡ Some (Command.Now order) }
{
    match order {
        Order::Break(mode) => break_code(mode),
        Order::Mode(ProfileMode::Trapezoidal) => 0x09,
        Order::Mode(ProfileMode::Velocity) => 0x0a,
        Order::Stop => 0x46,
        Order::Update => 0x1a,
        Order::Auto(true) => 0x5c,
        Order::Auto(false) => 0x5d,
        Order::Motor(MotorKind::TwoPhase) => 0x74,
        Order::Motor(MotorKind::ThreePhase) => 0x73,
    }
}

fn word_code(order: WordOrder) -> u8
    ensures { code_table result ≡ Some (Command.Word order) }
{
    match order {
        WordOrder::BufferedPower => 0x77,
        WordOrder::Power => 0x62,
        WordOrder::ClearEvents => 0x34,
        WordOrder::Mask => 0x2f,
    }
}

fn long_code(order: LongOrder) -> u8
    ensures { code_table result ≡ Some (Command.Long order) }
{
    match order {
        LongOrder::Destination => 0x10,
        LongOrder::Velocity => 0x11,
        LongOrder::Acceleration => 0x12,
        LongOrder::Point => 0x16,
        LongOrder::Actual => 0x4d,
    }
}

fn query_code(query: Query) -> u8
    ensures { code_table result ≡ Some (Command.Ask query) }
{
    match query {
        Query::Destination => 0x4a,
        Query::Velocity => 0x4b,
        Query::Acceleration => 0x4c,
        Query::TargetPosition => 0x1d,
        Query::TargetVelocity => 0x1e,
        Query::ActualPosition => 0x37,
        Query::ClockTime => 0x3e,
    }
}

impl From<Command> for u8 {
    ghost from_gives = { Encodes };

    fn from(command: Command) -> u8 {
        match command {
            Command::Status(named) => status_code(named),
            Command::Ask(query) => query_code(query),
            Command::Now(order) => order_code(order),
            Command::Word(order) => word_code(order),
            Command::Long(order) => long_code(order),
            Command::MultiUpdate => 0x5b,
        }
    }
}

impl Command {
    /// How many words its packet takes.
    pub fn takes(self) -> u8
        ensures { result ≡ takes self }
    {
        match self {
            Command::Status(_) | Command::Ask(_) | Command::Now(_) => 0,
            Command::Word(_) | Command::MultiUpdate => 1,
            Command::Long(_) => 2,
        }
    }

    /// How many words its packet gives.
    pub fn gives(self) -> u8
        ensures { result ≡ gives self }
    {
        match self {
            Command::Status(_) => 1,
            Command::Ask(_) => 2,
            Command::Now(_) | Command::Word(_) | Command::Long(_) | Command::MultiUpdate => 0,
        }
    }
}
