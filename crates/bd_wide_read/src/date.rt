//! The date that a text means.

ghost use Rattle.std.specs.Prelude.{◌≡◌, ◌≤◌, ◌<◌, ◌+◌, ◌==◌, ℤ, pos, ◌+ℤ◌, ◌-ℤ◌, ◌*ℤ◌, IfSome, length, option_map};
ghost use Rattle.std.specs.{Char.is_ascii_digit, List.AllPass, List.list_all};
ghost use Rattle.jiff_core.specs.Calendar.{IsEpochDay, IsWithin};
ghost use Rattle.bd_wide_read.specs.DateText.{date_of, day_number as day_number_of, day_of, digit_at as digit_at_of, fraction_of, has_separators as has_separators_of, marked_date as marked_date_of, milliseconds as milliseconds_of, minutes_at as minutes_at_of, minutes_of, offset_of, seconds_of, thousandths_of, two_at as two_at_of, two_digits as two_digits_of};

use crate::json_number::after_digits;
use jiff_core::civil::Date;

/// The date that a text means, in milliseconds since 1970 began: the `date-time` of RFC 3339. The offset of its zone may be without a
/// colon, as in `+0100`. None for any other text: for a second 60, for an unknown day, and for parts of a thousandth of a second.
pub fn read_date(text: &[u8]) -> Option<i64>
    ensures { result ≡ date_of text.now }
{
    if has_separators(text) {
        marked_date(text)
    } else {
        None
    }
}

/// Whether a date and a time are there, by their length and the separators between their parts.
fn has_separators(text: &[u8]) -> bool
    ensures value { result ≡ has_separators_of text.now }
{
    text.len() >= 19
        && text[4] == b'-'
        && text[7] == b'-'
        && text[10] == b'T'
        && text[13] == b':'
        && text[16] == b':'
}

/// The date of a text with these separators.
fn marked_date(text: &[u8]) -> Option<i64>
    requires { 19 ≤ length text.now }
    ensures { result ≡ marked_date_of text.now }
{
    let day = read_day(text)?;
    let seconds = read_seconds(text)?;
    let (_, after) = text.split_at(19);
    let (thousandths, zone) = read_fraction(after)?;
    let offset = read_offset(zone)?;
    Some(milliseconds(day, seconds, thousandths, offset))
}

/// The milliseconds since 1970 began, by the day, the seconds of the day, thousandths, and the offset of the zone in minutes.
fn milliseconds(day: i64, seconds: u32, thousandths: u32, offset: i64) -> i64
    requires day { IsEpochDay day }
    requires time { (seconds < 86_400) × (thousandths < 1000) }
    requires offset { IsWithin 1440 offset }
    ensures { result ≡ milliseconds_of day seconds thousandths offset }
{
    thousands(in_utc(day_seconds(day, seconds), offset), thousandths)
}

/// The seconds of a day and a time of the day.
fn day_seconds(day: i64, seconds: u32) -> i64
    requires { IsEpochDay day × (seconds < 86_400) }
    ensures value { result ≡ day *ℤ pos 86_400 +ℤ pos seconds }
    ensures bound { IsWithin 400_000_000_000 result }
{
    day * 86_400 + i64::from(seconds)
}

/// The seconds of a time in UTC, by its seconds in a zone, and by the offset of the zone in minutes.
fn in_utc(seconds: i64, offset: i64) -> i64
    requires { IsWithin 400_000_000_000 seconds × IsWithin 1440 offset }
    ensures value { result ≡ seconds -ℤ offset *ℤ pos 60 }
    ensures bound { IsWithin 500_000_000_000 result }
{
    seconds - offset * 60
}

/// The thousandths of seconds and thousandths.
fn thousands(seconds: i64, thousandths: u32) -> i64
    requires { IsWithin 500_000_000_000 seconds × (thousandths < 1000) }
    ensures { result ≡ seconds *ℤ pos 1000 +ℤ pos thousandths }
{
    seconds * 1000 + i64::from(thousandths)
}

/// The number of the day at the start of a text, where 1970-01-01 is 0.
fn read_day(text: &[u8]) -> Option<i64>
    requires { 19 ≤ length text.now }
    ensures value { result ≡ day_of text.now }
    ensures bound { IfSome result IsEpochDay }
{
    let century = two_at(0, text)?;
    let year = two_at(2, text)?;
    let month = two_at(5, text)?;
    let day = two_at(8, text)?;
    day_number(century * 100 + year, month, day)
}

/// The number of a day of the calendar.
fn day_number(year: u32, month: u32, day: u32) -> Option<i64>
    requires { (year < 10_000) × (month < 100) × (day < 100) }
    ensures value { result ≡ day_number_of year month day }
    ensures bound { IfSome result IsEpochDay }
{
    match Date::new(year as i16, month as i8, day as i8) {
        Ok(date) => Some(i64::from(date.to_unix_epoch_day())),
        Err(_) => None,
    }
}

/// The seconds of the time of day after the day.
fn read_seconds(text: &[u8]) -> Option<u32>
    requires { 19 ≤ length text.now }
    ensures value { result ≡ seconds_of text.now }
    ensures bound { IfSome result (λ n. n < 86_400) }
{
    let hour = two_at(11, text)?;
    let minute = two_at(14, text)?;
    let second = two_at(17, text)?;
    if hour < 24 && minute < 60 && second < 60 {
        Some(hour * 3600 + minute * 60 + second)
    } else {
        None
    }
}

/// The thousandths of a second of a fraction, if it is there, and what follows.
fn read_fraction(bytes: &[u8]) -> Option<(u32, &[u8])>
    ensures value { option_map (λ p. (p.0, p.1.now)) result ≡ fraction_of bytes.now }
    ensures bound { IfSome result (λ p. p.0 < 1000) }
{
    match bytes {
        [b'.', digits @ ..] => {
            let rest = after_digits(digits)?;
            let (written, _) = digits.split_at(digits.len() - rest.len());
            Some((thousandths(written)?, rest))
        }
        _ => Some((0, bytes)),
    }
}

/// The thousandths of a second that digits after the point write.
fn thousandths(digits: &[u8]) -> Option<u32>
    requires { AllPass is_ascii_digit digits.now }
    ensures value { result ≡ thousandths_of digits.now }
    ensures bound { IfSome result (λ n. n < 1000) }
{
    let (_, after) = digits.split_at(digits.len().min(3));
    if are_zeros(after) {
        Some(digit_at(0, digits) * 100 + (digit_at(1, digits) * 10 + digit_at(2, digits)))
    } else {
        None
    }
}

/// Whether all digits are zeros.
fn are_zeros(digits: &[u8]) -> bool
    ensures { result ≡ list_all (λ c. c == 48) digits.now }
{
    for c in digits {
        if *c != b'0' {
            return false;
        }
    }
    true
}

/// The value of the digit at a place, 0 after the last.
fn digit_at(at: usize, digits: &[u8]) -> u32
    requires { AllPass is_ascii_digit digits.now }
    ensures value { result ≡ digit_at_of at digits.now }
    ensures bound { result < 10 }
{
    match digits.get(at) {
        Some(c) => u32::from(*c) - 48,
        None => 0,
    }
}

/// The offset of a zone, in minutes.
fn read_offset(bytes: &[u8]) -> Option<i64>
    ensures value { result ≡ offset_of bytes.now }
    ensures bound { IfSome result (IsWithin 1440) }
{
    match bytes {
        [b'Z'] => Some(0),
        [b'+', rest @ ..] => Some(i64::from(read_minutes(rest)?)),
        [b'-', rest @ ..] => Some(-i64::from(read_minutes(rest)?)),
        _ => None,
    }
}

/// The minutes of hours and minutes, with or without a colon.
fn read_minutes(bytes: &[u8]) -> Option<u32>
    ensures value { result ≡ minutes_of bytes.now }
    ensures bound { IfSome result (λ n. n < 1440) }
{
    match bytes.len() {
        4 => minutes_at(2, bytes),
        5 if bytes[2] == b':' => minutes_at(3, bytes),
        _ => None,
    }
}

/// The minutes of hours and minutes, the minutes at this place.
fn minutes_at(at: usize, bytes: &[u8]) -> Option<u32>
    requires { (at + 2 ≤ length bytes.now) × (2 ≤ length bytes.now) }
    ensures value { result ≡ minutes_at_of at bytes.now }
    ensures bound { IfSome result (λ n. n < 1440) }
{
    let hour = two_at(0, bytes)?;
    let minute = two_at(at, bytes)?;
    if hour < 24 && minute < 60 {
        Some(hour * 60 + minute)
    } else {
        None
    }
}

/// The number that the two digits at a place of a text write.
fn two_at(at: usize, text: &[u8]) -> Option<u32>
    requires { at + 2 ≤ length text.now }
    ensures value { result ≡ two_at_of at text.now }
    ensures bound { IfSome result (λ n. n < 100) }
{
    two_digits(text[at], text[at + 1])
}

/// The number that two digits write.
fn two_digits(first: u8, second: u8) -> Option<u32>
    ensures value { result ≡ two_digits_of first second }
    ensures bound { IfSome result (λ n. n < 100) }
{
    if first.is_ascii_digit() && second.is_ascii_digit() {
        Some(u32::from(first - 48) * 10 + u32::from(second - 48))
    } else {
        None
    }
}
