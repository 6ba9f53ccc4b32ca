//! A double for which `ryu` gives more than 17 digits; none is known. They are limited to 17, or the last of these is raised.

ghost use Rattle.std.specs.Prelude.{◌≡◌, ◌<◌, ◌≤◌, ◌≢◌, ◌+◌, ◌*◌, ◌^◌, ◌%◌, ◌++◌, pos, negsuc, false, length, take, drop, IfSome, IfNone};
ghost use Rattle.std.specs.Str.Parse.{AllDigits, digits_value};
ghost use Rattle.std.specs.Float.{binary64};
ghost use Rattle.std.specs.Float.Ieee.{round};
ghost use Rattle.bd_wide_text.specs.Double.{laid_out};
ghost use Rattle.bd_wide_text.specs.inside.Limited.{AreTooMany, IsLimited, IsLimitedTo, IsLaidOutAs};
ghost use Rattle.bd_wide_text.specs.inside.LaidOutAnew.{IsLaidOutAnew};
ghost use Rattle.bd_wide_text.specs.Layout.{Adds, zeros as zeros_of};

use crate::double::put_scientific;
use crate::layout::put;
use core::dec2flt::{digit_at, from_decimal, skip_zeros};
use fast_float::Numeral;
use itoa::Buffer;

/// How many zeros come first, if more than 17 digits come after them.
#[inline(always)]
pub(crate) fn too_many(whole: &[u8], fraction: &[u8]) -> Option<usize>
    requires { AllDigits 10 whole.now × AllDigits 10 fraction.now }
    ensures none { IfNone result (digits_value 10 (whole.now ++ fraction.now) < 10 ^ 17) }
    ensures many { IfSome result (λ zeros. AreTooMany (whole.now ++ fraction.now) zeros) }
{
    let count = whole.len() + fraction.len();
    if count <= 17 {
        return None;
    }
    let zeros = skip_zeros(whole, fraction, 0);
    if count - zeros <= 17 {
        return None;
    }
    Some(zeros)
}

/// The number that `count` digits of two runs are, from `from` on.
fn number(leading: &[u8], back: &[u8], from: usize, count: usize) -> u64
    requires digits { AllDigits 10 (leading.now ++ back.now) }
    requires within { (count ≤ 19) × (from + count ≤ length leading.now + length back.now) }
    ensures { result ≡ digits_value 10 (take count (drop from (leading.now ++ back.now))) }
{
    let mut value = 0;
    for i in 0..count {
        value = value * 10 + digit_at(leading, back, from + i);
    }
    value
}

/// The digits, or one more at the last place: those that are read as the double.
fn one_of_two(leading: u64, up: u64, down: u64, x: f64) -> u64
    requires digits { (10 ^ 16 ≤ leading) × (leading < 10 ^ 17) }
    requires limited { IsLimitedTo leading up down x }
    ensures nearest { round binary64 false (result * 10 ^ up) (10 ^ down) ≡ x }
    ensures digits { (leading ≤ result) × (result ≤ leading + 1) }
{
    let low: f64 = from_decimal(leading, up, down);
    if low.to_bits() == x.to_bits() {
        return leading;
    }
    leading + 1
}

/// A number without the zeros at its end, and how many they are.
fn without_last_zeros(number: u64) -> (u64, u64)
    requires { (0 < number) × (number ≤ 10 ^ 17) }
    ensures same { result.0 * 10 ^ result.1 ≡ number }
    ensures last { result.0 % 10 ≢ 0 }
    ensures zeros { result.1 ≤ 17 }
{
    let (mut rest, mut zeros) = (number, 0);
    while rest % 10 == 0 {
        rest /= 10;
        zeros += 1;
    }
    (rest, zeros)
}

/// Writes 17 of the digits of a number, of which there are more after these zeros.
#[cold]
#[inline(never)]
pub(crate) fn put_limited(numeral: &Numeral, zeros: usize, buffer: &mut [u8], end: usize) -> usize
    requires digits { AreTooMany (numeral.now.whole ++ numeral.now.fraction) zeros }
    requires short { length numeral.now.whole + length numeral.now.fraction
        + length numeral.now.exponent ≤ 25 }
    requires space { end + 32 ≤ length buffer.old }
    ensures appended { Adds (IsLaidOutAnew numeral.now) (take end buffer.old)
        (take result buffer.new) }
    ensures end { result ≤ end + 32 }
{
    let (leading, up, down) = limited(numeral, zeros);
    let kept = one_of_two(leading, up, down, numeral.to_float(false));
    put_kept(kept, up, down, buffer, end)
}

/// The first 17 digits after the zeros, and what they count: 10 ^ up / 10 ^ down.
fn limited(numeral: &Numeral, zeros: usize) -> (u64, u64, u64)
    requires digits { AreTooMany (numeral.now.whole ++ numeral.now.fraction) zeros }
    requires short { length numeral.now.whole + length numeral.now.fraction
        + length numeral.now.exponent ≤ 25 }
    ensures { IsLimited numeral.now result.0 result.1 result.2 }
{
    let (whole, fraction, exponent) = (numeral.whole(), numeral.fraction(), numeral.exponent());
    let leading = number(whole, fraction, zeros, 17);
    let power = number(exponent, b"", 0, exponent.len());
    let remaining = (whole.len() + fraction.len() - zeros - 17) as u64;
    let places = fraction.len() as u64;
    if numeral.is_exponent_negative() {
        return (leading, remaining, places + power);
    }
    (leading, remaining + power, places)
}

/// Writes the number `kept` times 10 ^ up / 10 ^ down.
fn put_kept(kept: u64, up: u64, down: u64, buffer: &mut [u8], end: usize) -> usize
    requires bounds { (0 < kept) × (kept ≤ 10 ^ 17) }
    requires powers { (up < 10 ^ 8) × (down < 10 ^ 8) }
    requires space { end + 32 ≤ length buffer.old }
    ensures appended { Adds (IsLaidOutAs kept up down) (take end buffer.old)
        (take result buffer.new) }
    ensures end { result ≤ end + 32 }
{
    let (number, zeros) = without_last_zeros(kept);
    let mut made = Buffer::new();
    let digits = made.format(number).as_bytes();
    let above = digits.len() as u64 + zeros + up;
    if above > down {
        return put_up(digits, (above - down - 1) as usize, buffer, end);
    }
    put_down(digits, (down - above) as usize, buffer, end)
}

/// Up to six zeros.
#[tactic(auto, using(crate::proofs::LimitedTextLemmas::six_zeros))]
fn zeros(count: usize) -> &'static [u8]
    requires { count ≤ 6 }
    ensures { result.now ≡ zeros_of count }
{
    &b"000000"[..count]
}

/// Writes digits, the first of which counts 10 ^ power.
fn put_up(digits: &[u8], power: usize, buffer: &mut [u8], end: usize) -> usize
    requires digits { (0 < length digits.now) × (length digits.now ≤ 17) }
    requires power { power < 10 ^ 9 }
    requires space { end + 32 ≤ length buffer.old }
    ensures appended { take result buffer.new
        ≡ take end buffer.old ++ laid_out digits.now (pos power) }
    ensures end { result ≤ end + 32 }
{
    if power > 5 {
        let mut made = Buffer::new();
        let power = made.format(power).as_bytes();
        return put_scientific(digits, b"", b"E+", power, buffer, end);
    }
    if power + 1 < digits.len() {
        let (whole, fraction) = digits.split_at(power + 1);
        let at = put(whole, buffer, end);
        let at = put(b".", buffer, at);
        return put(fraction, buffer, at);
    }
    let at = put(digits, buffer, end);
    let at = put(zeros(power + 1 - digits.len()), buffer, at);
    put(b".0", buffer, at)
}

/// Writes digits, the first of which comes after `count` zeros after the point.
fn put_down(digits: &[u8], count: usize, buffer: &mut [u8], end: usize) -> usize
    requires digits { (0 < length digits.now) × (length digits.now ≤ 17) }
    requires count { count < 10 ^ 9 }
    requires space { end + 32 ≤ length buffer.old }
    ensures appended { take result buffer.new
        ≡ take end buffer.old ++ laid_out digits.now (negsuc count) }
    ensures end { result ≤ end + 32 }
{
    if count > 3 {
        let mut made = Buffer::new();
        let power = made.format(count + 1).as_bytes();
        return put_scientific(digits, b"", b"E-", power, buffer, end);
    }
    let at = put(b"0.", buffer, end);
    let at = put(zeros(count), buffer, at);
    put(digits, buffer, at)
}
