//! The decimal128 that a text means.

ghost use Rattle.std.specs.Prelude.{◌≡◌, ◌<◌, ◌≤◌, ◌*◌, ◌+◌, ◌^◌, ◌%◌, ◌++◌, ℕ, length, min, IfSome, IfNone, if◌then◌else◌};
ghost use Rattle.std.specs.Str.Parse.{AllDigits, digits_value, digits_value_after};
ghost use Rattle.std.specs.Char.{digit_value};
ghost use Rattle.std.specs.Float.Parse.{lowercases_to};
ghost use Rattle.bd_wide_read.specs.DecimalText.{IsWorth, IsExact, IsRead, high_half, number, numeric_of, scaled_of, size_of};
ghost use Rattle.bd_wide_read.specs.inside.Digits.{AreApart, AreKept, HasTooMany, scaled};

use crate::fault::TextFault;
use fast_float::Numeral;

/// The sign of a decimal128, in the upper half of its bits.
const SIGN: u64 = 0x8000_0000_0000_0000;

/// The upper half of the bits of an infinite decimal128; the lower is 0.
const INFINITE: u64 = 0x7800_0000_0000_0000;

/// The upper half of the bits of NaN; the lower is 0.
const NAN: u64 = 0x7C00_0000_0000_0000;

/// The most digits of a coefficient.
const DIGITS: u32 = 34;

/// The least coefficient of 34 digits.
const FULL: u128 = 1_000_000_000_000_000_000_000_000_000_000_000;

/// The greatest exponent of ten, plus 6176.
const GREATEST: u128 = 12287;

/// The exponent of ten of the least decimal128 is this many below 0.
const LEAST: u128 = 6176;

/// No decimal128 is this many powers of ten away from another.
const FAR: u128 = 20_000;

/// The two halves of the bits of the decimal128 that the text of a `$numberDecimal` means, the lower first.
pub fn read_decimal128(text: &[u8]) -> Result<(u64, u64), TextFault>
    ensures { IsRead (numeric_of text.now) result }
{
    match text {
        [b'-', size @ ..] => read_size(true, size),
        [b'+', size @ ..] => read_size(false, size),
        _ => read_size(false, text),
    }
}

/// The same for a text without a sign.
fn read_size(negative: bool, text: &[u8]) -> Result<(u64, u64), TextFault>
    ensures { IsRead (size_of negative text.now) result }
{
    let numeral = Numeral::scan(text);
    if numeral.has_digits() && numeral.len() == text.len() {
        return read_number(negative, &numeral);
    }
    if is_word(text, b"inf") || is_word(text, b"infinity") {
        return Ok((0, signed(negative, INFINITE)));
    }
    if is_word(text, b"nan") {
        return Ok((0, NAN));
    }
    Err(TextFault::BadText)
}

/// Whether the text is a word, which has small letters, in any case.
fn is_word(text: &[u8], word: &[u8]) -> bool
    ensures { result ≡ lowercases_to text.now word.now }
{
    let mut rest = text;
    let mut words = word;
    while let [w, more_words @ ..] = words {
        match rest {
            [c, more @ ..] if c.to_ascii_lowercase() == *w => {
                rest = more;
                words = more_words;
            }
            _ => return false,
        }
    }
    rest.is_empty()
}

/// The upper half of bits with a sign.
fn signed(negative: bool, high: u64) -> u64
    requires { high < 2 ^ 63 }
    ensures { result ≡ (if negative then 2 ^ 63 else 0) + high }
{
    if negative { SIGN + high } else { high }
}

/// The halves of the bits of the decimal128 that is a number.
fn read_number(negative: bool, numeral: &Numeral<'_>) -> Result<(u64, u64), TextFault>
    requires { length numeral.now.whole + length numeral.now.fraction < 2 ^ 64 }
    ensures { IsRead (number negative (scaled_of numeral.now)) result }
{
    match coefficient_and_exponent(numeral) {
        Some((c, b)) => Ok(halves(negative, c, b)),
        None => Err(TextFault::OutOfRange),
    }
}

/// The halves of the bits of a decimal128, by its coefficient and its exponent plus 6176.
fn halves(negative: bool, c: u128, b: u64) -> (u64, u64)
    requires { (c < 10 ^ 34) × (b < 12288) }
    ensures low { result.0 ≡ c % 2 ^ 64 }
    ensures high { result.1 ≡ high_half negative c b }
{
    let upper = (c / 0x0001_0000_0000_0000_0000) as u64;
    let low = (c % 0x0001_0000_0000_0000_0000) as u64;
    (low, signed(negative, b * 0x0002_0000_0000_0000 + upper))
}

/// The coefficient of the decimal128 that is a number, and its exponent plus 6176.
fn coefficient_and_exponent(numeral: &Numeral<'_>) -> Option<(u128, u64)>
    requires { length numeral.now.whole + length numeral.now.fraction < 2 ^ 64 }
    ensures some { IfSome result (λ r. IsExact (scaled_of numeral.now) r.0 r.1) }
    ensures none { IfNone result ((c b : ℕ) → IsWorth (scaled_of numeral.now) c b → ⊥) }
{
    let kept = kept_digits(numeral.whole(), numeral.fraction())?;
    let power = capped_value(numeral.exponent());
    let decimals = numeral.fraction().len() as u128;
    let up = LEAST + kept.zeros as u128;
    if numeral.is_exponent_negative() {
        fitted(kept.number, up, decimals + power)
    } else {
        fitted(kept.number, up + power, decimals)
    }
}

/// The coefficient of the decimal128 that is a number times 10 ^ (up - down - 6176), and its exponent plus 6176.
fn fitted(number: u128, up: u128, down: u128) -> Option<(u128, u64)>
    requires coefficient { number < 10 ^ 34 }
    ensures some { (above below : ℕ) → AreApart above below up down → IfSome result
        (λ r. IsWorth (scaled number above below) r.0 r.1 × (r.1 ≡ min above 12287)) }
    ensures none { (above below : ℕ) → AreApart above below up down → IfNone result
        ((c b : ℕ) → IsWorth (scaled number above below) c b → ⊥) }
{
    if up < down {
        let c = divided(number, (down - up).min(FAR) as u32)?;
        return Some((c, 0));
    }
    let above = up - down;
    if above <= GREATEST {
        return Some((number, above as u64));
    }
    let c = multiplied(number, (above - GREATEST).min(FAR) as u32)?;
    Some((c, GREATEST as u64))
}

/// A number divided by a power of ten, if no remainder is rest. `count` is the power, or another that is far.
fn divided(number: u128, count: u32) -> Option<u128>
    requires { number < 10 ^ 34 }
    ensures some { (k : ℕ) → min k 20000 ≡ min count 20000
        → IfSome result (λ c. c * 10 ^ k ≡ number) }
    ensures none { (k : ℕ) → min k 20000 ≡ min count 20000
        → IfNone result ((c : ℕ) → c * 10 ^ k ≡ number → ⊥) }
{
    if number == 0 {
        return Some(0);
    }
    if count >= DIGITS {
        return None;
    }
    let power = 10u128.pow(count);
    if number % power != 0 {
        return None;
    }
    Some(number / power)
}

/// A number times a power of ten, if it has at most 34 digits. `count` is the power, or another that is far.
fn multiplied(number: u128, count: u32) -> Option<u128>
    requires { number < 10 ^ 34 }
    ensures some { (k : ℕ) → min k 7713 ≡ min count 7713
        → IfSome result (λ c. (c ≡ number * 10 ^ k) × (c < 10 ^ 34)) }
    ensures none { (k : ℕ) → min k 7713 ≡ min count 7713
        → IfNone result (10 ^ 34 ≤ number * 10 ^ k) }
{
    if number == 0 {
        return Some(0);
    }
    if count >= DIGITS {
        return None;
    }
    if number >= 10u128.pow(DIGITS - count) {
        return None;
    }
    Some(number * 10u128.pow(count))
}

/// Digits, and how many zeros were rest out after them.
#[derive(Clone, Copy)]
struct Kept {
    number: u128,
    zeros: u64,
}

/// The digits without the zeros after 34 digits; None if another digit comes after them.
fn kept_digits(whole: &[u8], fraction: &[u8]) -> Option<Kept>
    requires whole { AllDigits 10 whole.now }
    requires fraction { AllDigits 10 fraction.now }
    requires short { length whole.now + length fraction.now < 2 ^ 64 }
    ensures value { IfSome result (λ k. k.number * 10 ^ k.zeros
        ≡ digits_value 10 (whole.now ++ fraction.now)) }
    ensures limits { IfSome result (λ k. AreKept k.number k.zeros) }
    ensures zeros { IfSome result (λ k. k.zeros ≤ length whole.now + length fraction.now) }
    ensures none { IfNone result (HasTooMany (digits_value 10 (whole.now ++ fraction.now))) }
{
    let none = Kept {
        number: 0,
        zeros: 0,
    };
    let kept = with_digits(none, whole)?;
    with_digits(kept, fraction)
}

/// The same with more digits after those that were kept.
fn with_digits(kept: Kept, digits: &[u8]) -> Option<Kept>
    requires all { AllDigits 10 digits.now }
    requires limits { AreKept kept.number kept.zeros }
    requires short { kept.zeros + length digits.now < 2 ^ 64 }
    ensures value { IfSome result (λ k. k.number * 10 ^ k.zeros
        ≡ digits_value_after 10 (kept.number * 10 ^ kept.zeros) digits.now) }
    ensures limits { IfSome result (λ k. AreKept k.number k.zeros) }
    ensures zeros { IfSome result (λ k. k.zeros ≤ kept.zeros + length digits.now) }
    ensures none { IfNone result
        (HasTooMany (digits_value_after 10 (kept.number * 10 ^ kept.zeros) digits.now)) }
{
    let mut now = kept;
    let mut rest = digits;
    while let [c, more @ ..] = rest {
        now = with_digit(now, *c)?;
        rest = more;
    }
    Some(now)
}

/// The same with one digit more.
fn with_digit(kept: Kept, c: u8) -> Option<Kept>
    requires digit { digit_value c < 10 }
    requires limits { AreKept kept.number kept.zeros }
    requires short { kept.zeros + 1 < 2 ^ 64 }
    ensures value { IfSome result (λ k. k.number * 10 ^ k.zeros
        ≡ kept.number * 10 ^ kept.zeros * 10 + digit_value c) }
    ensures limits { IfSome result (λ k. AreKept k.number k.zeros) }
    ensures zeros { IfSome result (λ k. k.zeros ≤ kept.zeros + 1) }
    ensures none { IfNone result
        (HasTooMany (kept.number * 10 ^ kept.zeros * 10 + digit_value c)) }
{
    let digit = c - b'0';
    if kept.number < FULL {
        return Some(Kept {
            number: kept.number * 10 + digit as u128,
            zeros: kept.zeros,
        });
    }
    if digit != 0 {
        return None;
    }
    Some(Kept {
        number: kept.number,
        zeros: kept.zeros + 1,
    })
}

/// The value of digits, or 2 ^ 100 where that is less.
fn capped_value(digits: &[u8]) -> u128
    requires { AllDigits 10 digits.now }
    ensures { result ≡ min (digits_value 10 digits.now) (2 ^ 100) }
{
    let mut value = 0u128;
    for c in digits {
        value = (value * 10 + (*c - b'0') as u128).min(1 << 100);
    }
    value
}
