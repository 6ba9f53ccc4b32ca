//! The text of a double.

ghost use Rattle.std.specs.Prelude.{◌≡◌, ◌<◌, ◌≤◌, ◌≢◌, ◌==◌, ◌+◌, ◌^◌, ◌++◌, length, take, OnErr, OnOk, IfSome, IfNone, slice_index};
ghost use Rattle.std.specs.Io.{StartsWith};
ghost use Rattle.std.specs.Float.{binary64};
ghost use Rattle.std.specs.Float.Ieee.{of_bits};
ghost use Rattle.fast_float.specs.Text.{digits_of, scan};
ghost use Rattle.bd_wide_text.specs.Double.{IsDoubleText, padded};
ghost use Rattle.bd_wide_text.specs.inside.LaidOutAnew.{AreParts, AreZerosAfter, AreZerosBefore, IsLaidOutAnew, IsMiddling, IsSized, large_text, small_text};
ghost use Rattle.bd_wide_text.specs.Layout.{Adds, mantissa};

use crate::layout::{put, put_mantissa};
use crate::limited::{put_limited, too_many};
use crate::plain::{is_middling, put_plain};
use bd_value::NoMemory;
use fast_float::Numeral;
use itoa::Buffer;

/// More space than the text of a double takes.
pub const DOUBLE: usize = 40;

/// Appends the text of the double with these bits. On `NoMemory` a prefix of it may remain.
pub fn write_double(bits: u64, out: &mut Vec<u8>) -> Result<(), NoMemory>
    ensures ok { OnOk result (Adds (IsDoubleText bits) out.old.items out.new.items) }
    ensures prefix { OnErr result (StartsWith out.new.items out.old.items) }
{
    let mut text = [0; DOUBLE];
    let size = put_double(bits, &mut text, 0);
    out.extend_from_slice(&text[..size])
}

/// Writes the text of the double with these bits after the text in a buffer, and returns the new end.
pub fn put_double(bits: u64, buffer: &mut [u8], end: usize) -> usize
    requires { end + DOUBLE ≤ length buffer.old }
    ensures appended { Adds (IsDoubleText bits) (take end buffer.old) (take result buffer.new) }
    ensures end { result ≤ end + DOUBLE }
{
    if is_middling(bits) {
        return put_middling(bits, buffer, end);
    }
    put_any(bits, buffer, end)
}

/// The same, for a double whose text has no power of ten.
#[inline(always)]
fn put_middling(bits: u64, buffer: &mut [u8], end: usize) -> usize
    requires size { IsMiddling bits }
    requires space { end + DOUBLE ≤ length buffer.old }
    ensures appended { Adds (IsDoubleText bits) (take end buffer.old) (take result buffer.new) }
    ensures end { result ≤ end + DOUBLE }
{
    match put_plain(bits, buffer, end) {
        Some(after) => after,
        None => put_any(bits, buffer, end),
    }
}

/// The same, for each double.
#[inline(never)]
fn put_any(bits: u64, buffer: &mut [u8], end: usize) -> usize
    requires { end + DOUBLE ≤ length buffer.old }
    ensures appended { Adds (IsDoubleText bits) (take end buffer.old) (take result buffer.new) }
    ensures end { result ≤ end + DOUBLE }
{
    let Some(word) = word(bits) else {
        return put_number(bits, buffer, end);
    };
    put(word, buffer, end)
}

/// The bits of an infinite double.
const INFINITE: u64 = 0x7FF0_0000_0000_0000;

/// The bits of -0.0: only the sign is set.
pub(crate) const SIGN: u64 = 0x8000_0000_0000_0000;

/// The text of a double that is zero, infinite or NaN; None for any other.
fn word(bits: u64) -> Option<&'static [u8]>
    ensures word { IfSome result (λ w. IsDoubleText bits w.now) }
    ensures short { IfSome result (λ w. length w.now ≤ 9) }
    ensures number { IfNone result (IsSized (of_bits binary64 bits)) }
{
    if bits == 0 {
        return Some(b"0.0");
    }
    if bits == SIGN {
        return Some(b"-0.0");
    }
    if bits == INFINITE {
        return Some(b"Infinity");
    }
    if bits == SIGN + INFINITE {
        return Some(b"-Infinity");
    }
    if bits % SIGN > INFINITE {
        return Some(b"NaN");
    }
    None
}

/// Writes the text of a number other than zero.
fn put_number(bits: u64, buffer: &mut [u8], end: usize) -> usize
    requires number { IsSized (of_bits binary64 bits) }
    requires space { end + DOUBLE ≤ length buffer.old }
    ensures appended { Adds (IsDoubleText bits) (take end buffer.old) (take result buffer.new) }
    ensures end { result ≤ end + DOUBLE }
{
    let mut made = ryu::Buffer::new();
    let text = made.format_finite(f64::from_bits(bits)).as_bytes();
    if !has_sign(text) {
        return put_size(text, buffer, end);
    }
    let (_, size) = text.split_at(1);
    let at = put(b"-", buffer, end);
    put_size(size, buffer, at)
}

/// Whether there is a minus before the number.
pub(crate) fn has_sign(text: &[u8]) -> bool
    ensures { result ≡ (slice_index text.now 0 == 45) }
{
    match text {
        [b'-', ..] => true,
        _ => false,
    }
}

/// Writes the number for its text from `ryu` without the sign.
fn put_size(size: &[u8], buffer: &mut [u8], end: usize) -> usize
    requires parts { AreParts size.now (scan size.now) }
    requires space { end + 32 ≤ length buffer.old }
    ensures appended { Adds (IsLaidOutAnew (scan size.now)) (take end buffer.old)
        (take result buffer.new) }
    ensures end { result ≤ end + 32 }
{
    let numeral = Numeral::scan(size);
    match too_many(numeral.whole(), numeral.fraction()) {
        Some(zeros) => put_limited(&numeral, zeros, buffer, end),
        None => put_few(size, &numeral, buffer, end),
    }
}

/// The same, if there are at most 17 digits.
fn put_few(size: &[u8], numeral: &Numeral, buffer: &mut [u8], end: usize) -> usize
    requires parts { AreParts size.now numeral.now }
    requires digits { digits_of numeral.now < 10 ^ 17 }
    requires space { end + 32 ≤ length buffer.old }
    ensures appended { Adds (IsLaidOutAnew numeral.now) (take end buffer.old)
        (take result buffer.new) }
    ensures end { result ≤ end + 32 }
{
    let whole = numeral.whole();
    let fraction = numeral.fraction();
    let exponent = numeral.exponent();
    if !exponent.is_empty() {
        if numeral.is_exponent_negative() {
            return put_scientific(whole, fraction, b"E-", exponent, buffer, end);
        }
        return put_scientific(whole, fraction, b"E+", exponent, buffer, end);
    }
    if whole[0] == b'0' {
        put_small(size, fraction, zeros_before(fraction), buffer, end)
    } else {
        put_large(size, whole, fraction, without_zeros(whole), buffer, end)
    }
}

/// Writes digits in two runs; `sign` and `power` are the power of ten of the first digit.
pub(crate) fn put_scientific(
    digits: &[u8],
    more: &[u8],
    sign: &[u8; 2],
    power: &[u8],
    buffer: &mut [u8],
    end: usize,
) -> usize
    requires some { 0 < length digits.now }
    requires short { length digits.now + length more.now + length power.now ≤ 28 }
    requires space { end + 32 ≤ length buffer.old }
    ensures appended { take result buffer.new ≡ take end buffer.old
        ++ (mantissa (digits.now ++ more.now) ++ (sign.now ++ padded power.now)) }
    ensures end { result ≤ end + 32 }
{
    let at = put_mantissa(digits, more, buffer, end);
    let at = put(sign, buffer, at);
    if power.len() == 1 {
        let at = put(b"0", buffer, at);
        return put(power, buffer, at);
    }
    put(power, buffer, at)
}

/// Writes a number below 1: as it is, or with the power of ten if there are more than three zeros before its digits.
fn put_small(size: &[u8], fraction: &[u8], zeros: usize, buffer: &mut [u8], end: usize) -> usize
    requires zeros { zeros ≤ length fraction.now }
    requires short { (length size.now ≤ 25) × (length fraction.now ≤ 24) }
    requires space { end + 32 ≤ length buffer.old }
    ensures appended { take result buffer.new
        ≡ take end buffer.old ++ small_text size.now fraction.now zeros }
    ensures end { result ≤ end + 32 }
{
    if zeros <= 3 || zeros == fraction.len() {
        return put(size, buffer, end);
    }
    let mut made = Buffer::new();
    let power = made.format(zeros + 1).as_bytes();
    put_scientific(&fraction[zeros..], b"", b"E-", power, buffer, end)
}

/// Writes a number of 1 or more, which has `count` whole digits without their trailing zeros: as it is, or with the power of ten
/// if there are more than six digits before the point.
fn put_large(
    size: &[u8],
    whole: &[u8],
    fraction: &[u8],
    count: usize,
    buffer: &mut [u8],
    end: usize,
) -> usize
    requires whole { (0 < count) × (count ≤ length whole.now) }
    requires fraction { 0 < length fraction.now }
    requires short { (length size.now ≤ 25) × (length whole.now + length fraction.now ≤ 24) }
    requires space { end + 32 ≤ length buffer.old }
    ensures appended { take result buffer.new
        ≡ take end buffer.old ++ large_text size.now whole.now fraction.now count }
    ensures end { result ≤ end + 32 }
{
    if whole.len() <= 6 {
        return put(size, buffer, end);
    }
    let mut made = Buffer::new();
    let power = made.format(whole.len() - 1).as_bytes();
    if fraction[fraction.len() - 1] == b'0' {
        put_scientific(&whole[..count], b"", b"E+", power, buffer, end)
    } else {
        put_scientific(whole, fraction, b"E+", power, buffer, end)
    }
}

/// How many zeros come before the other digits.
fn zeros_before(fraction: &[u8]) -> usize
    ensures { AreZerosBefore fraction.now result }
{
    for (i, b) in fraction.iter().enumerate() {
        if *b != b'0' {
            return i;
        }
    }
    fraction.len()
}

/// How many digits there are without the trailing zeros.
fn without_zeros(whole: &[u8]) -> usize
    requires { (0 < length whole.now) × (slice_index whole.now 0 ≢ 48) }
    ensures { AreZerosAfter whole.now result }
{
    let mut count = whole.len();
    while whole[count - 1] == b'0' {
        count -= 1;
    }
    count
}
