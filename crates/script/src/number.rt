ghost use Rattle.script.specs.Numbers.{WritesHex, WritesDecimal, WritesNumber, HasBits};

fn hexadecimal(digits: &str) -> Option<i128>
    ensures { WritesHex digits.now result }
{
    if digits.starts_with('+') {
        return None;
    }
    u64::from_str_radix(digits, 16).ok().map(i128::from)
}

fn decimal(word: &str) -> Option<i128>
    ensures { WritesDecimal word.now result }
{
    word.parse::<i128>().ok()
}

/// The number that a word writes: decimal, with or without a sign, or 0x and hexadecimal digits.
pub fn number(word: &str) -> Option<i128>
    ensures { WritesNumber word.now result }
{
    match word.strip_prefix("0x") {
        Some(digits) => hexadecimal(digits),
        None => decimal(word),
    }
}

/// Half of the values of one word, and of two.
pub const WORD_HALF: u32 = 0x8000;

pub const LONG_HALF: u32 = 0x8000_0000;

/// The bits of a signed or an unsigned number of a width with 2 × HALF values.
pub fn bits_of<const HALF: u32>(number: i128) -> Option<u64>
    ensures { HasBits HALF number result }
{
    let half = i128::from(HALF);
    if number < -half || number >= 2 * half {
        return None;
    }
    let bits = if number < 0 {
        number + 2 * half
    } else {
        number
    };
    Some(bits as u64)
}
