//! The wrappers of doubles and decimal128, and of dates and UUIDs as texts.

ghost use Rattle.std.specs.Prelude.{◌≡◌, ◌≤◌, ◌++◌, List, ℕ, IfSome, IfNone, length, option_map};
ghost use Rattle.uuid.specs.Text.{parsed_hyphenated};
ghost use Rattle.bd_wide_read.specs.{DateText.date_of, DoubleText.double_bits};
ghost use Rattle.bd_wide_substitute.specs.Substitutes.{BeginsValue, IsMeant, after_word as after_word_of, date_meaning, double_meaning, last_string as last_string_of, named as named_of, quoted as quoted_of, uuid_meaning, wrapper_at as wrapper_at_of, wrapper_inside as wrapper_inside_of};

use crate::blank::{skip_blanks, skip_to_quote};
use bd_wide_number::Number;
use bd_wide_read::{TextFault, read_date, read_decimal128, read_double, read_uuid};

const DOUBLE: &[u8] = b"\"$numberDouble\"";

const DECIMAL: &[u8] = b"\"$numberDecimal\"";

const DATE: &[u8] = b"\"$date\"";

const UUID: &[u8] = b"\"$uuid\"";

/// A value that has another form in a text.
#[derive(Clone, Copy)]
pub enum WideValue {
    /// A double or a decimal128.
    Number(Number),
    /// A date that is a text, in milliseconds since 1970 began.
    Date(i64),
    /// A UUID that is a text.
    Uuid([u8; 16]),
}

/// A type of values that has a wrapper.
#[derive(Clone, Copy)]
pub(crate) enum ValueType {
    Double,
    Decimal128,
    Date,
    Uuid,
}

/// The wrapper of a value: its type, and the contents of its string with what follows the object, if it has only that.
type Wrapper<'a> = (ValueType, Option<(&'a [u8], &'a [u8])>);

/// The value whose wrapper the bytes begin with, and what follows.
pub(crate) fn wrapped_value(bytes: &[u8]) -> Option<(WideValue, &[u8])>
    ensures some { IfSome result (λ r. BeginsValue bytes.now r.0 r.1.now) }
    ensures none { IfNone result ((v : WideValue) (rest : List ℕ) →
        BeginsValue bytes.now v rest → ⊥) }
    ensures rest { IfSome result (λ r. (object : List ℕ) × (2 ≤ length object)
        × (bytes.now ≡ object ++ r.1.now)) }
{
    let (value_type, string) = wrapper_at(bytes)?;
    let (contents, rest) = string?;
    match read_contents(value_type, contents) {
        Ok(value) => Some((value, rest)),
        Err(_) => None,
    }
}

/// The value that the contents of a wrapper's string mean, or why they mean none.
pub(crate) fn read_contents(value_type: ValueType, contents: &[u8]) -> Result<WideValue, TextFault>
    ensures { IsMeant value_type contents.now result }
{
    match value_type {
        ValueType::Double => double_value(contents),
        ValueType::Decimal128 => match read_decimal128(contents) {
            Ok((low, high)) => Ok(WideValue::Number(Number::Decimal128(low, high))),
            Err(fault) => Err(fault),
        },
        ValueType::Date => date_value(contents),
        ValueType::Uuid => uuid_value(contents),
    }
}

/// The double of a text.
fn double_value(contents: &[u8]) -> Result<WideValue, TextFault>
    ensures { result ≡ double_meaning (double_bits contents.now) }
{
    match read_double(contents) {
        Ok(bits) => Ok(WideValue::Number(Number::Double(bits))),
        Err(fault) => Err(fault),
    }
}

/// The date of a text.
fn date_value(contents: &[u8]) -> Result<WideValue, TextFault>
    ensures { result ≡ date_meaning (date_of contents.now) }
{
    match read_date(contents) {
        Some(milliseconds) => Ok(WideValue::Date(milliseconds)),
        None => Err(TextFault::BadText),
    }
}

/// The UUID of a text.
fn uuid_value(contents: &[u8]) -> Result<WideValue, TextFault>
    ensures { result ≡ uuid_meaning (parsed_hyphenated contents.now) }
{
    match read_uuid(contents) {
        Some(bytes) => Ok(WideValue::Uuid(bytes)),
        None => Err(TextFault::BadText),
    }
}

/// The wrapper of a value that bytes begin with.
pub(crate) fn wrapper_at(bytes: &[u8]) -> Option<Wrapper<'_>>
    ensures { option_map (λ w. (w.0, option_map (λ p. (p.0.now, p.1.now)) w.1)) result
        ≡ wrapper_at_of bytes.now }
{
    match bytes {
        [b'{', inside @ ..] => wrapper_inside(inside),
        _ => None,
    }
}

/// The same after the brace.
fn wrapper_inside(inside: &[u8]) -> Option<Wrapper<'_>>
    ensures { option_map (λ w. (w.0, option_map (λ p. (p.0.now, p.1.now)) w.1)) result
        ≡ wrapper_inside_of inside.now }
{
    let uuid = named(ValueType::Uuid, UUID, inside, None);
    let date = named(ValueType::Date, DATE, inside, uuid);
    let decimal = named(ValueType::Decimal128, DECIMAL, inside, date);
    named(ValueType::Double, DOUBLE, inside, decimal)
}

/// The wrapper of this type after the brace, if this name comes first; else another.
fn named<'a>(
    value_type: ValueType,
    name: &[u8],
    inside: &'a [u8],
    other: Option<Wrapper<'a>>,
) -> Option<Wrapper<'a>>
    ensures { option_map (λ w. (w.0, option_map (λ p. (p.0.now, p.1.now)) w.1)) result
        ≡ named_of value_type name.now inside.now
        (option_map (λ w. (w.0, option_map (λ p. (p.0.now, p.1.now)) w.1)) other.entry) }
{
    match after_word(inside, name) {
        Some(end) => Some((value_type, last_string(end))),
        None => other,
    }
}

/// The contents of the only string of an object, after its name, and what follows the object.
fn last_string(bytes: &[u8]) -> Option<(&[u8], &[u8])>
    ensures { option_map (λ p. (p.0.now, p.1.now)) result ≡ last_string_of bytes.now }
{
    let inside = after_word(after_word(bytes, b":")?, b"\"")?;
    let (contents, end) = quoted(inside)?;
    let rest = after_word(end, b"}")?;
    Some((contents, rest))
}

/// The contents of a string up to the next quote, and what follows the quote.
fn quoted(inside: &[u8]) -> Option<(&[u8], &[u8])>
    ensures { option_map (λ p. (p.0.now, p.1.now)) result ≡ quoted_of inside.now }
{
    let from = skip_to_quote(inside);
    let [_, rest @ ..] = from else {
        return None;
    };
    let (contents, _) = inside.split_at(inside.len() - from.len());
    Some((contents, rest))
}

/// What follows white space and a word.
fn after_word<'a>(bytes: &'a [u8], word: &[u8]) -> Option<&'a [u8]>
    ensures { option_map (λ s. s.now) result ≡ after_word_of word.now bytes.now }
{
    skip_blanks(bytes).strip_prefix(word)
}
