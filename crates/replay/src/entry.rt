ghost use Rattle.std.specs.Prelude.{◌≡◌, ◌<◌, false, ◌∷◌, [], ◌++◌, length, MatchResult, nat_lt};
ghost use Rattle.replay.specs.declared.fault.Fault.TheVariants.{CutShort, Operand};
ghost use Rattle.replay.specs.Entries.{input_bytes, ReadsStep, CarriesClosing, Carries, FailsAt};
ghost use Rattle.replay.specs.Numbers.{two_bytes};

use crate::fault::Fault;
use crate::lists::ListName;
use desk::side::Side;
use gate::inputs::Inputs;

/// A gate's number, 1 or 2, and the word that its slip is closed with.
#[derive(Clone, Copy)]
pub struct Closing {
    pub gate: u8,
    pub word: u16,
}

/// What an entry of a list asks for.
#[derive(Clone, Copy)]
pub enum Entry {
    Command(u8),
    Write(u16),
    Read,
    Cycle(Inputs, Inputs),
    Reset,
    Take,
    Close(Closing),
    CloseElsewhere(Closing),
    Look,
    Run(u16),
    // the number of any gate, and the list that its events are for
    Collect(u8, ListName),
    // a list and a place of it
    ReadAt(ListName, u64),
    Remove(ListName),
}

/// An entry and its board.
#[derive(Clone, Copy)]
pub struct Step {
    pub side: Side,
    pub entry: Entry,
}

// The word that a list begins with, the high byte first, and the rest of the list.
fn word(list: &[u8]) -> Result<(u16, &[u8]), Fault>
    ensures { MatchResult result
        (λ p. list.now ≡ two_bytes p.0 ++ p.1.now) (λ f. (f ≡ CutShort) × (length list.now < 2)) }
{
    match list {
        [high, low, rest @ ..] => Ok((u16::from_be_bytes([*high, *low]), rest)),
        _ => Err(Fault::CutShort),
    }
}

// What a cycle brings to one gate; none if a switch bit from 3 on is set.
fn inputs(count: u16, switches: u8) -> Result<Inputs, Fault>
    ensures { MatchResult result
        (λ i. input_bytes i ≡ two_bytes count ++ (switches ∷ []))
        (λ f. (f ≡ Operand) × (nat_lt switches 8 ≡ false)) }
{
    if switches >= 8 {
        return Err(Fault::Operand);
    }
    Ok(Inputs {
        count: count.cast_signed(),
        positive: switches & 1 != 0,
        negative: switches & 2 != 0,
        home: switches & 4 != 0,
    })
}

fn cycle(list: &[u8]) -> Result<(Entry, &[u8]), Fault>
    ensures { MatchResult result (λ p. Carries 3 list.now p.0 p.1.now) (FailsAt 3 list.now) }
{
    let [one_high, one_low, one, two_high, two_low, two, rest @ ..] = list else {
        return Err(Fault::CutShort);
    };
    let one = inputs(u16::from_be_bytes([*one_high, *one_low]), *one)?;
    let two = inputs(u16::from_be_bytes([*two_high, *two_low]), *two)?;
    Ok((Entry::Cycle(one, two), rest))
}

fn slip_to_close(list: &[u8]) -> Result<(Closing, &[u8]), Fault>
    ensures { MatchResult result (λ p. CarriesClosing list.now p.0 p.1.now) (FailsAt 6 list.now) }
{
    match list {
        [gate @ (1 | 2), high, low, rest @ ..] => {
            let word = u16::from_be_bytes([*high, *low]);
            Ok((Closing { gate: *gate, word }, rest))
        }
        [_, _, _, ..] => Err(Fault::Operand),
        _ => Err(Fault::CutShort),
    }
}

fn collect(list: &[u8]) -> Result<(Entry, &[u8]), Fault>
    ensures { MatchResult result (λ p. Carries 10 list.now p.0 p.1.now) (FailsAt 10 list.now) }
{
    let [gate, number, rest @ ..] = list else {
        return Err(Fault::CutShort);
    };
    let name = ListName::read(*number)?;
    Ok((Entry::Collect(*gate, name), rest))
}

fn read_at(list: &[u8]) -> Result<(Entry, &[u8]), Fault>
    ensures { MatchResult result (λ p. Carries 11 list.now p.0 p.1.now) (FailsAt 11 list.now) }
{
    let [number, operands @ ..] = list else {
        return Err(Fault::CutShort);
    };
    let Some((place, rest)) = operands.split_first_chunk::<8>() else {
        return Err(Fault::CutShort);
    };
    let name = ListName::read(*number)?;
    Ok((Entry::ReadAt(name, u64::from_be_bytes(*place)), rest))
}

fn remove(list: &[u8]) -> Result<(Entry, &[u8]), Fault>
    ensures { MatchResult result (λ p. Carries 12 list.now p.0 p.1.now) (FailsAt 12 list.now) }
{
    let [number, rest @ ..] = list else {
        return Err(Fault::CutShort);
    };
    let name = ListName::read(*number)?;
    Ok((Entry::Remove(name), rest))
}

impl Entry {
    // The entry of a code, whose operands the list begins with, and the rest of the list.
    fn read(code: u8, list: &[u8]) -> Result<(Entry, &[u8]), Fault>
        ensures { MatchResult result
            (λ p. Carries code list.now p.0 p.1.now) (FailsAt code list.now) }
    {
        match code {
            0 => match list {
                [command, rest @ ..] => Ok((Entry::Command(*command), rest)),
                [] => Err(Fault::CutShort),
            },
            1 => {
                let (word, rest) = word(list)?;
                Ok((Entry::Write(word), rest))
            }
            2 => Ok((Entry::Read, list)),
            3 => cycle(list),
            4 => Ok((Entry::Reset, list)),
            5 => Ok((Entry::Take, list)),
            6 => {
                let (closing, rest) = slip_to_close(list)?;
                Ok((Entry::Close(closing), rest))
            }
            7 => {
                let (closing, rest) = slip_to_close(list)?;
                Ok((Entry::CloseElsewhere(closing), rest))
            }
            8 => Ok((Entry::Look, list)),
            9 => {
                let (cycles, rest) = word(list)?;
                Ok((Entry::Run(cycles), rest))
            }
            10 => collect(list),
            11 => read_at(list),
            12 => remove(list),
            _ => Err(Fault::Unknown),
        }
    }
}

impl Step {
    /// The step that a byte and the list behind it begin with, and the rest of the list. Its operands are looked at only if all of them are
    /// there.
    pub fn read(first: u8, list: &[u8]) -> Result<(Step, &[u8]), Fault>
        ensures { ReadsStep (first ∷ list.now) result }
    {
        let (side, code) = if first < 128 {
            (Side::A, first)
        } else {
            (Side::B, first - 128)
        };
        let (entry, rest) = Entry::read(code, list)?;
        Ok((Step { side, entry }, rest))
    }
}
