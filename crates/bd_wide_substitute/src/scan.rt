//! The two texts, from the start of a text to its end; and the byte of the text for a byte of these.

ghost use Rattle.std.specs.Prelude.{◌≡◌, ◌≤◌, ◌<◌, ◌++◌, ◌∷◌, [], List, ℕ, IfOk, IfNone, IfSome, OnOk, length, replicate};
ghost use Rattle.bd_value.specs.{Tree.binary, Tree.date, View.tree_of};
ghost use Rattle.hex.specs.Hex.{IsBytes};
ghost use Rattle.bd_extjson_text.specs.Text.{scalar_text, text as canonical_text};
ghost use Rattle.bd_wide_substitute.specs.Made.{IsMade};
ghost use Rattle.bd_wide_substitute.specs.Substitutes.{ArePieces, IsDouble, IsNoDouble, Piece, after, filler_of, is_of_number as is_of_number_of, number_of, origin as origin_of, text, value_text, whole};
ghost use Rattle.bd_wide_substitute.specs.inside.Taken.{IsCount, IsFound, IsPiece};

use crate::blank::{has_fraction_or_exponent, is_of_number, skip_run, skip_string};
use crate::wrapped::{WideValue, wrapped_value};
use bd_extjson_text::write_value;
use bd_value::{NoMemory, Value};
use bd_wide_number::Number;
use bd_wide_read::read_number;
use itoa::Buffer;
use std::alloc::Global;

/// The two texts, and the numbers in order. Each date and each UUID is in canonical form in both.
#[derive(Drop)]
pub struct Substituted {
    /// The text with whole numbers for its doubles and decimal128.
    pub wholes: Vec<u8>,
    /// The text with empty strings for them.
    pub texts: Vec<u8>,
    /// The doubles and decimal128.
    pub numbers: Vec<Number>,
    alloc: Global,
}

/// Makes the texts with other values for the doubles and decimal128 of a line, and with its dates and UUIDs in canonical form. False
/// if it has none of these: then nothing is copied.
pub fn substitute(line: &[u8], made: &mut Substituted) -> Result<bool, NoMemory>
    ensures { IfOk result (λ has. (pieces : List Piece) × ArePieces line.now pieces
        × IsMade has pieces made.new) }
{
    made.clear();
    let mut pending = line;
    let mut rest = line;
    let mut has_values = false;
    while let [first, ..] = rest {
        let found = next_piece(*first, rest);
        let (_, after) = rest.split_at(found.count);
        if let Some(value) = found.value {
            let (before, _) = pending.split_at(pending.len() - rest.len());
            made.put(before, value, found.count)?;
            pending = after;
            has_values = true;
        }
        rest = after;
    }
    if !has_values {
        return Ok(false);
    }
    made.wholes.extend_from_slice(pending)?;
    made.texts.extend_from_slice(pending)?;
    Ok(true)
}

/// A piece of a text: how many bytes it has, and which value it is, if it is one.
#[derive(Clone, Copy)]
struct Found {
    count: usize,
    value: Option<WideValue>,
}

/// The piece that begins with a byte.
fn next_piece(first: u8, bytes: &[u8]) -> Found
    requires { (cs : List ℕ) × (bytes.now ≡ first ∷ cs) }
    ensures { IsFound bytes.now result.count result.value }
{
    if first == b'"' {
        return string_piece(bytes);
    }
    if is_of_number(first) {
        return run_piece(bytes);
    }
    match wrapped_value(bytes) {
        Some((value, rest)) => Found {
            count: bytes.len() - rest.len(),
            value: Some(value),
        },
        None => Found {
            count: 1,
            value: None,
        },
    }
}

/// The same for a string.
fn string_piece(bytes: &[u8]) -> Found
    requires { (cs : List ℕ) × (bytes.now ≡ 34 ∷ cs) }
    ensures { IsFound bytes.now result.count result.value }
{
    let (_, inside) = bytes.split_at(1);
    Found {
        count: bytes.len() - skip_string(inside).len(),
        value: None,
    }
}

/// The same for a run of bytes of numbers.
fn run_piece(bytes: &[u8]) -> Found
    requires { length (after is_of_number_of bytes.now) < length bytes.now }
    ensures { IsFound bytes.now result.count result.value }
{
    let count = bytes.len() - skip_run(bytes).len();
    let (run, _) = bytes.split_at(count);
    match bare_number(run) {
        Some(bits) => Found {
            count,
            value: Some(WideValue::Number(Number::Double(bits))),
        },
        None => Found { count, value: None },
    }
}

/// The double that a run of bytes is: a number with a fraction or an exponent.
fn bare_number(run: &[u8]) -> Option<u64>
    ensures some { IfSome result (λ bits. IsDouble bits run.now) }
    ensures none { IfNone result (IsNoDouble run.now) }
{
    if !has_fraction_or_exponent(run) {
        return None;
    }
    read_number(run).ok()
}

impl Substituted {
    /// Two empty texts. They take no memory yet.
    pub fn new(alloc: Global) -> Substituted {
        Substituted {
            wholes: Vec::new(alloc),
            texts: Vec::new(alloc),
            numbers: Vec::new(alloc),
            alloc,
        }
    }

    /// Leaves the texts empty.
    fn clear(&mut self)
        ensures { (self.new.wholes.items ≡ []) × (self.new.texts.items ≡ [])
            × (self.new.numbers.items ≡ []) }
    {
        self.wholes.clear();
        self.texts.clear();
        self.numbers.clear();
    }

    /// Appends the bytes before a value to both texts, and what the value becomes, which has this count of bytes.
    fn put(&mut self, before: &[u8], value: WideValue, count: usize) -> Result<(), NoMemory>
        requires { 2 ≤ count }
        ensures wholes { OnOk result (self.new.wholes.items
            ≡ self.old.wholes.items ++ (before.now ++ value_text whole count value)) }
        ensures texts { OnOk result (self.new.texts.items
            ≡ self.old.texts.items ++ (before.now ++ value_text text count value)) }
        ensures numbers { OnOk result (self.new.numbers.items
            ≡ self.old.numbers.items ++ number_of value) }
    {
        match value {
            WideValue::Number(number) => self.put_number(before, number, count),
            WideValue::Date(milliseconds) => self.put_value(before, &Value::Date(milliseconds)),
            WideValue::Uuid(bytes) => self.put_uuid(before, bytes),
        }
    }

    /// Appends the bytes before a number to both texts, and the other values for the number.
    fn put_number(&mut self, before: &[u8], number: Number, count: usize) -> Result<(), NoMemory>
        requires { 2 ≤ count }
        ensures wholes { OnOk result (self.new.wholes.items
            ≡ self.old.wholes.items ++ (before.now ++ filler_of whole count)) }
        ensures texts { OnOk result (self.new.texts.items
            ≡ self.old.texts.items ++ (before.now ++ filler_of text count)) }
        ensures numbers { OnOk result (self.new.numbers.items
            ≡ self.old.numbers.items ++ number ∷ []) }
    {
        self.wholes.extend_from_slice(before)?;
        self.wholes.push(b'0')?;
        put_blanks(count - 1, &mut self.wholes)?;
        self.texts.extend_from_slice(before)?;
        self.texts.extend_from_slice(b"\"\"")?;
        put_blanks(count - 2, &mut self.texts)?;
        self.numbers.push(number)?;
        Ok(())
    }

    /// Appends the bytes before a UUID to both texts, and its text in canonical form: binary of subtype 04.
    fn put_uuid(&mut self, before: &[u8], bytes: [u8; 16]) -> Result<(), NoMemory>
        ensures wholes { OnOk result (self.new.wholes.items
            ≡ self.old.wholes.items ++ (before.now ++ scalar_text (binary 4 bytes))) }
        ensures texts { OnOk result (self.new.texts.items
            ≡ self.old.texts.items ++ (before.now ++ scalar_text (binary 4 bytes))) }
        ensures numbers { self.new.numbers.items ≡ self.old.numbers.items }
    {
        let payload = Vec::from_array(self.alloc, bytes)?;
        let value = Value::Binary {
            subtype: 4,
            payload,
        };
        self.put_value(before, &value)
    }

    /// Appends the bytes before a value to both texts, and its text in canonical form.
    fn put_value(&mut self, before: &[u8], value: &Value) -> Result<(), NoMemory>
        ensures wholes { OnOk result (self.new.wholes.items
            ≡ self.old.wholes.items ++ (before.now ++ canonical_text (tree_of value.now))) }
        ensures texts { OnOk result (self.new.texts.items
            ≡ self.old.texts.items ++ (before.now ++ canonical_text (tree_of value.now))) }
        ensures numbers { self.new.numbers.items ≡ self.old.numbers.items }
    {
        self.wholes.extend_from_slice(before)?;
        write_value(value, &mut self.wholes)?;
        self.texts.extend_from_slice(before)?;
        write_value(value, &mut self.texts)
    }
}

/// Appends blanks.
fn put_blanks(count: usize, out: &mut Vec<u8>) -> Result<(), NoMemory>
    ensures { OnOk result (out.new.items ≡ out.old.items ++ replicate count 32) }
{
    for _ in 0..count {
        out.push(b' ')?;
    }
    Ok(())
}

/// The byte of a line for a byte of its texts: a date and a UUID are as a whole at their first.
pub(crate) fn origin(line: &[u8], at: u64) -> u64
    ensures { (pieces : List Piece) → ArePieces line.now pieces → result ≡ origin_of pieces at }
{
    let mut rest = line;
    let mut rest_count = at as usize;
    while let [first, ..] = rest {
        let found = next_piece(*first, rest);
        let line_offset = line.len() - rest.len();
        match canonical_count(found) {
            Some(count) if rest_count < count => return line_offset as u64,
            Some(count) => rest_count -= count,
            None if rest_count < found.count => return (line_offset + rest_count) as u64,
            None => rest_count -= found.count,
        }
        let (_, after) = rest.split_at(found.count);
        rest = after;
    }
    line.len() as u64
}

/// How many bytes a date or a UUID has in canonical form. None for any other piece, which becomes as many bytes as it has.
fn canonical_count(found: Found) -> Option<usize>
    ensures { (bytes : List ℕ) (piece : Piece) → IsPiece bytes found.count found.value piece →
        found.count ≤ length bytes → IsCount result found.count piece }
{
    match found.value {
        Some(WideValue::Date(milliseconds)) => Some(date_count(milliseconds)),
        Some(WideValue::Uuid(bytes)) => Some(uuid_count(bytes)),
        _ => None,
    }
}

/// The bytes of a date in canonical form.
fn date_count(milliseconds: i64) -> usize
    ensures { result ≡ length (scalar_text (date milliseconds)) }
{
    let mut buffer = Buffer::new();
    DATE_COUNT + buffer.format(milliseconds).len()
}

/// The bytes of a UUID in canonical form.
fn uuid_count(bytes: [u8; 16]) -> usize
    ensures { result ≡ length (scalar_text (binary 4 bytes)) }
{
    uuid_fits(bytes);
    UUID_COUNT
}

/// A UUID has 16 bytes.
fn uuid_fits(bytes: [u8; 16])
    ensures length { length bytes ≡ 16 }
    ensures bytes { IsBytes bytes }
{}

/// The bytes of `{"$date":{"$numberLong":""}}`.
const DATE_COUNT: usize = 28;

/// The bytes of `{"$binary":{"base64":"","subType":"04"}}`, and of 16 bytes in base64.
const UUID_COUNT: usize = 64;
