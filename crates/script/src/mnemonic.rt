ghost use Rattle.script.specs.Mnemonics.{NamesCommand};

use board::command::{Command, GateName};
use gate::gate::BreakMode;
use gate::orders::{LongOrder, Order, WordOrder};
use gate::profile::ProfileMode;
use gate::queries::Query;
use wave::phases::MotorKind;

/// The command that a word names, or none. Upper and lower case differ.
pub fn command_named(word: &str) -> Option<Command>
    ensures { NamesCommand word.now result }
{
    Some(match word {
        "SET_1" => Command::Status(GateName::First),
        "SET_2" => Command::Status(GateName::Second),
        "SET_I" => Command::Status(GateName::Calling),
        "GET_STATUS" => Command::Status(GateName::Current),
        "SET_PRFL_TRAP" => Command::Now(Order::Mode(ProfileMode::Trapezoidal)),
        "SET_PRFL_VEL" => Command::Now(Order::Mode(ProfileMode::Velocity)),
        "STOP" => Command::Now(Order::Stop),
        "UPDATE" => Command::Now(Order::Update),
        "SET_AUTO_UPDATE_ON" => Command::Now(Order::Auto(true)),
        "SET_AUTO_UPDATE_OFF" => Command::Now(Order::Auto(false)),
        "SET_BRK_OFF" => Command::Now(Order::Break(BreakMode::Off)),
        "SET_TIME_BRK" => Command::Now(Order::Break(BreakMode::Time)),
        "SET_POS_BRK" => Command::Now(Order::Break(BreakMode::TargetAbove)),
        "SET_NEG_BRK" => Command::Now(Order::Break(BreakMode::TargetBelow)),
        "SET_ACTL_POS_BRK" => Command::Now(Order::Break(BreakMode::ActualAbove)),
        "SET_ACTL_NEG_BRK" => Command::Now(Order::Break(BreakMode::ActualBelow)),
        "SET_MTN_CMPLT_BRK" => Command::Now(Order::Break(BreakMode::Complete)),
        "SET_EXT_BRK" => Command::Now(Order::Break(BreakMode::External)),
        "SET_PHASE_2" => Command::Now(Order::Motor(MotorKind::TwoPhase)),
        "SET_PHASE_3" => Command::Now(Order::Motor(MotorKind::ThreePhase)),
        "SET_BUF_MTR_CMD" => Command::Word(WordOrder::BufferedPower),
        "SET_MTR_CMD" => Command::Word(WordOrder::Power),
        "RST_STATUS" => Command::Word(WordOrder::ClearEvents),
        "SET_INTRPT_MASK" => Command::Word(WordOrder::Mask),
        "MULTI_UPDATE" => Command::MultiUpdate,
        "SET_POS" => Command::Long(LongOrder::Destination),
        "SET_VEL" => Command::Long(LongOrder::Velocity),
        "SET_ACC" => Command::Long(LongOrder::Acceleration),
        "SET_BRK_PNT" => Command::Long(LongOrder::Point),
        "SET_ACTL_POS" => Command::Long(LongOrder::Actual),
        "GET_POS" => Command::Ask(Query::Destination),
        "GET_VEL" => Command::Ask(Query::Velocity),
        "GET_ACC" => Command::Ask(Query::Acceleration),
        "GET_TRGT_POS" => Command::Ask(Query::TargetPosition),
        "GET_TRGT_VEL" => Command::Ask(Query::TargetVelocity),
        "GET_ACTL_POS" => Command::Ask(Query::ActualPosition),
        "GET_TIME" => Command::Ask(Query::ClockTime),
        _ => return None,
    })
}
