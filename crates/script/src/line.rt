ghost use Rattle.std.specs.Prelude.{◌≡◌, ◌<◌, [], ◌∷◌, codes};
ghost use Rattle.std.specs.Option.{SomeIff};
ghost use Rattle.script.specs.Lines.{Finds, WritesFitting, HoldsLetter, IsCode, IsGate, IsInputs, WritesLong, WritesWord, HasOneWord, ReadsPacket, ReadsLine, WritesLine, side_name};

use crate::fault::Expected;
use crate::log::Reader;
use crate::mnemonic::command_named;
use crate::number::{LONG_HALF, WORD_HALF, bits_of, number};
use board::command::Command;
use desk::side::Side;
use gate::inputs::Inputs;

/// What a line of a script asks for.
#[derive(Clone, Copy, PartialEq, Eq, Debug)]
pub enum Line {
    Nothing,
    Board(Side),
    Command(u8),
    Write(u16),
    Read,
    Cycle(Inputs, Inputs),
    Run(u32),
    Reset,
    Take,
    Close(u8, u16),
    Collect(u8),
    Next(Reader),
    Event(u64),
    Remove,
    Pairs,
    Wires,
    Packet(Packet),
}

/// The whole packet of a command, with the value that it takes.
#[derive(Clone, Copy, PartialEq, Eq, Debug)]
pub enum Packet {
    Plain(Command),
    Word(Command, u16),
    Long(Command, u32),
}

fn side(text: &str) -> Option<Side>
    ensures { Finds (λ side. text.now ≡ side_name side) result }
{
    match text {
        "a" => Some(Side::A),
        "b" => Some(Side::B),
        _ => None,
    }
}

fn code(text: &str) -> Option<u8>
    ensures { Finds (IsCode text.now) result }
{
    match command_named(text) {
        Some(command) => Some(u8::from(command)),
        None => fitting_number(text),
    }
}

// The bits of a number of one word, and below of two.
fn word(text: &str) -> Option<u16>
    ensures { Finds (WritesWord text.now) result }
{
    u16::try_from(bits_of::<WORD_HALF>(number(text)?)?).ok()
}

fn long(text: &str) -> Option<u32>
    ensures { Finds (WritesLong text.now) result }
{
    u32::try_from(bits_of::<LONG_HALF>(number(text)?)?).ok()
}

// The number that a text writes, where it fits its type.
fn fitting_number<N: TryFrom<i128>>(text: &str) -> Option<N>
where
    N::Error: Drop,
    ensures { WritesFitting N.try_from_gives text.now result }
{
    N::try_from(number(text)?).ok()
}

fn gate(text: &str) -> Option<u8>
    ensures { Finds (IsGate text.now) result }
{
    match text {
        "1" => Some(1),
        "2" => Some(2),
        _ => None,
    }
}

// Whether a letter stands in a text.
#[tactic(auto, using(std::proofs::lemmas::Str::Pattern::contains_char))]
fn holds(text: &str, letter: char) -> bool
    requires { letter < 128 }
    ensures { HoldsLetter text.now letter result }
{
    text.contains(letter)
}

fn inputs(number: &str, letters: &str) -> Option<Inputs>
    ensures { Finds (IsInputs number.now letters.now) result }
{
    let count = fitting_number(number)?;
    if letters != "-"
        && !letters
            .bytes()
            .all(|letter| matches!(letter, b'p' | b'n' | b'h'))
    {
        return None;
    }
    Some(Inputs {
        count,
        positive: holds(letters, 'p'),
        negative: holds(letters, 'n'),
        home: holds(letters, 'h'),
    })
}

// The only one of the words.
fn only_one<'a>(words: &[&'a str]) -> Option<&'a str>
    ensures { Finds (λ word. words.now ≡ word ∷ []) result }
{
    match words {
        [word] => Some(*word),
        _ => None,
    }
}

// The number of one word that is the only one of the words, and of two words.
fn only_word(words: &[&str]) -> Option<u16>
    ensures { Finds (λ n. HasOneWord (λ text. WritesWord text n) words.now) result }
{
    word(only_one(words)?)
}

fn only_long(words: &[&str]) -> Option<u32>
    ensures { Finds (λ n. HasOneWord (λ text. WritesLong text n) words.now) result }
{
    long(only_one(words)?)
}

fn line_alone(words: &[&str], line: Line) -> Option<Line>
    ensures { SomeIff result (words.now ≡ []) line }
{
    words.is_empty().then_some(line)
}

fn board(words: &[&str]) -> Option<Line>
    ensures { Finds (WritesLine (codes "board") words.now) result }
{
    Some(Line::Board(side(only_one(words)?)?))
}

fn write(words: &[&str]) -> Option<Line>
    ensures { Finds (WritesLine (codes "write") words.now) result }
{
    Some(Line::Write(only_word(words)?))
}

fn cycle(words: &[&str]) -> Option<Line>
    ensures { Finds (WritesLine (codes "cycle") words.now) result }
{
    match words {
        [] => Some(Line::Cycle(Inputs::STILL, Inputs::STILL)),
        [c, s, d, t] => Some(Line::Cycle(inputs(*c, *s)?, inputs(*d, *t)?)),
        _ => None,
    }
}

fn command(words: &[&str]) -> Option<Line>
    ensures { Finds (WritesLine (codes "command") words.now) result }
{
    Some(Line::Command(code(only_one(words)?)?))
}

fn run(words: &[&str]) -> Option<Line>
    ensures { Finds (WritesLine (codes "run") words.now) result }
{
    Some(Line::Run(fitting_number(only_one(words)?)?))
}

fn close(words: &[&str]) -> Option<Line>
    ensures { Finds (WritesLine (codes "close") words.now) result }
{
    match words {
        [g, w] => Some(Line::Close(gate(*g)?, word(*w)?)),
        _ => None,
    }
}

fn collect(words: &[&str]) -> Option<Line>
    ensures { Finds (WritesLine (codes "collect") words.now) result }
{
    Some(Line::Collect(fitting_number(only_one(words)?)?))
}

fn event(words: &[&str]) -> Option<Line>
    ensures { Finds (WritesLine (codes "event") words.now) result }
{
    Some(Line::Event(fitting_number(only_one(words)?)?))
}

impl Packet {
    // A command's packet, with the value that the words write.
    fn read(command: Command, words: &[&str]) -> Result<Packet, Expected>
        ensures { ReadsPacket command words.now result }
    {
        match command.takes() {
            0 => words
                .is_empty()
                .then_some(Packet::Plain(command))
                .ok_or(Expected::NoValue),
            1 => {
                let Some(value) = only_word(words) else {
                    return Err(Expected::WordValue);
                };
                Ok(Packet::Word(command, value))
            }
            _ => {
                let Some(value) = only_long(words) else {
                    return Err(Expected::LongValue);
                };
                Ok(Packet::Long(command, value))
            }
        }
    }
}

// The line that words write.
impl<'a> TryFrom<&'a [&'a str]> for Line {
    type Error = Expected;

    ghost try_from_gives = { λ words r. ReadsLine words.now r };

    fn try_from(words: &'a [&'a str]) -> Result<Line, Expected> {
        let [verb, rest @ ..] = words else {
            return Ok(Line::Nothing);
        };
        match *verb {
            "board" => board(rest).ok_or(Expected::Board),
            "command" => command(rest).ok_or(Expected::Command),
            "write" => write(rest).ok_or(Expected::Word),
            "read" => line_alone(rest, Line::Read).ok_or(Expected::Alone),
            "cycle" => cycle(rest).ok_or(Expected::Cycle),
            "run" => run(rest).ok_or(Expected::Run),
            "reset" => line_alone(rest, Line::Reset).ok_or(Expected::Alone),
            "take" => line_alone(rest, Line::Take).ok_or(Expected::Alone),
            "close" => close(rest).ok_or(Expected::Close),
            "collect" => collect(rest).ok_or(Expected::Collect),
            "panel" => line_alone(rest, Line::Next(Reader::Panel)).ok_or(Expected::Alone),
            "book" => line_alone(rest, Line::Next(Reader::Book)).ok_or(Expected::Alone),
            "event" => event(rest).ok_or(Expected::Event),
            "remove" => line_alone(rest, Line::Remove).ok_or(Expected::Alone),
            "pairs" => line_alone(rest, Line::Pairs).ok_or(Expected::Alone),
            "wires" => line_alone(rest, Line::Wires).ok_or(Expected::Alone),
            name => {
                let command = command_named(name).ok_or(Expected::Line)?;
                Ok(Line::Packet(Packet::read(command, rest)?))
            }
        }
    }
}
