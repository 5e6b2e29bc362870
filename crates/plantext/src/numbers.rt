//! Numbers, decimal or hexadecimal, and their ranges.
ghost use Rattle.std.specs.Prelude.{◌≡◌, ◌≤◌, true};
ghost use Rattle.plantext.specs.Numerals.{says, numeral, capped, judged};

/// Why a word says no number of a range.
#[derive(Clone, Copy, Debug)]
pub enum NumberError {
    NoNumber,
    OutOfRange,
}

/// What the digits say in this base, or 2^32 if they say more; a digit is at both ends and on both sides of each `_`.
#[tactic(auto, using(crate::proofs::Digits::digit_steps))]
fn digits(word: &[u8], base: u32) -> Option<u64>
    requires { (2 ≤ base) × (base ≤ 16) }
    ensures value { result ≡ capped (says word.now base 0 true) }
{
    let mut total: u64 = 0;
    // Stays a flag beside the total: an Option would lose the total while a digit is wanted.
    let mut wanted = true;
    for b in word {
        if *b == b'_' {
            if wanted {
                return None;
            }
            wanted = true;
            continue;
        }
        let digit = char::from(*b).to_digit(base)?;
        total = (total * u64::from(base) + u64::from(digit)).min(4_294_967_296);
        wanted = false;
    }
    if wanted { None } else { Some(total) }
}

/// The number that a word says, or 2^32 if it says more.
// Stays a number where it says more: an error would only be told apart again, and no range goes so far.
pub fn number(word: &str) -> Option<u64>
    ensures value { result ≡ capped (numeral word.now) }
{
    match word.as_bytes() {
        [b'0', b'x', hex @ ..] => digits(hex, 16),
        decimal => digits(decimal, 10),
    }
}

/// The number that a word says, if it is `low` to `high`.
// Stays two numbers, as in `clamp`: the promise and the message would take a RangeInclusive apart again.
pub fn number_within(word: &str, low: u32, high: u32) -> Result<u32, NumberError>
    ensures value { result ≡ judged (numeral word.now) low high }
{
    let n = number(word).ok_or(NumberError::NoNumber)?;
    if n < u64::from(low) || n > u64::from(high) {
        return Err(NumberError::OutOfRange);
    }
    Ok(n as u32)
}
