//! The scalars, each by its row of the conversion table of Extended JSON v2: the numbers, base64 and the digits in them too.
ghost use Rattle.std.specs.Prelude.{◌≡◌, ◌≢◌, ◌<◌, ◌≤◌, ◌+◌, ◌++◌, ◌∷◌, [], IfOk, OnOk, OnErr, decimal, length, map, slice_index, take};
ghost use Rattle.std.specs.Fmt.{signed_decimal};
ghost use Rattle.std.specs.Simd.Lanes.{Each1};
ghost use Rattle.base64.specs.Engines.{standard};
ghost use Rattle.base64.specs.GeneralPurpose.{encoded_size_of};
ghost use Rattle.hex.specs.Hex.{lower_digits};
ghost use Rattle.bd_value.specs.View.{kind_of};
ghost use Rattle.bd_value.specs.Tree as trees;
ghost use Rattle.bd_value.specs.Tree.{leaf, int32, int64, binary, object_id, boolean, date, timestamp, regex, db_pointer};
ghost use Rattle.bd_value.specs.declared.node.Kind.TheVariants as kinds;
ghost use Rattle.bd_extjson_text.specs.Buffer.{Appends};
ghost use Rattle.bd_extjson_text.specs.Text.{quoted, base64_text, hex_text, scalar_text, text};
ghost use Rattle.bd_extjson_text.specs.inside.Text.{HasShortText};

use crate::buffer::{End, VALUE, grow_buffer, put, put_byte, put_known};
use crate::json_string::append_string;
use base64::encoded_len;
use base64::engine::general_purpose::STANDARD;
use bd_value::{Kind, NoMemory, Reading, Scalar};
use std::alloc::AllocError;
use std::simd::prelude::*;

/// The result for the scalar of a node whose kind is known: it compiles to no second check of the kind.
macro_rules! scalar_of {
    ($node:ident, $shape:pat => $made:expr) => {
        match $node.leaf() {
            Some($shape) => $made,
            _ => unreachable!(),
        }
    };
}

/// Appends the text of a value that holds text or bytes and no other value, and is no string.
#[tactic(auto, unfolding(crate::specs::Text::scalar_text, crate::specs::Text::quoted, crate::specs::Text::escape_byte))]
pub(crate) fn append_scalar<N: Reading>(node: N, out: &mut Vec<u8>, end: usize) -> End
    requires scalar { (s : trees.Scalar) × (N.tree node ≡ leaf s) }
    requires long { HasShortText (N.tree node) → ⊥ }
    requires other { kind_of (N.tree node) ≢ kinds.Text }
    requires buffer { end ≤ length out.old.items }
    ensures { Appends out.old.items end result out.new.items (text (N.tree node)) }
{
    match node.kind() {
        Kind::Symbol => {
            scalar_of!(node, Scalar::Symbol(text) => append_one(b"{\"$symbol\":", text, out, end))
        }
        Kind::Code => {
            scalar_of!(node, Scalar::Code(text) => append_one(b"{\"$code\":", text, out, end))
        }
        Kind::Binary => {
            scalar_of!(node, Scalar::Binary { subtype, payload } => append_binary(subtype, payload, out, end))
        }
        Kind::Regex => {
            scalar_of!(node, Scalar::Regex { pattern, options } => append_regex(pattern, options, out, end))
        }
        Kind::DbPointer => {
            scalar_of!(node, Scalar::DbPointer { space, id } => append_pointer(space, &id, out, end))
        }
        _ => unreachable!(),
    }
}

/// Writes the text of a value after the text, if it contains no text and no bytes but an id.
#[inline(always)]
#[tactic(auto, unfolding(crate::specs::Text::scalar_text, crate::specs::Text::quoted, crate::specs::Text::escape_byte))]
pub(crate) fn put_short<N: Reading>(node: N, buffer: &mut [u8], end: usize) -> usize
    requires short { HasShortText (N.tree node) }
    requires buffer { end + VALUE ≤ length buffer.old }
    ensures appended { take result buffer.new ≡ take end buffer.old ++ text (N.tree node) }
    ensures within { result ≤ end + VALUE }
{
    match node.kind() {
        Kind::MinKey => put_known(*b"{\"$minKey\":1}", buffer, end),
        Kind::Undefined => put_known(*b"{\"$undefined\":true}", buffer, end),
        Kind::Null => put_known(*b"null", buffer, end),
        Kind::Int32 => scalar_of!(node, Scalar::Int32(n) => put_int32(n, buffer, end)),
        Kind::Int64 => scalar_of!(node, Scalar::Int64(n) => put_int64(n, buffer, end)),
        Kind::ObjectId => scalar_of!(node, Scalar::ObjectId(id) => put_object_id(&id, buffer, end)),
        Kind::Bool => scalar_of!(node, Scalar::Bool(truth) => put_bool(truth, buffer, end)),
        Kind::Date => scalar_of!(node, Scalar::Date(time) => put_date(time, buffer, end)),
        Kind::Timestamp => {
            scalar_of!(node, Scalar::Timestamp { seconds, increment } => put_timestamp(seconds, increment, buffer, end))
        }
        Kind::MaxKey => put_known(*b"{\"$maxKey\":1}", buffer, end),
        _ => unreachable!(),
    }
}

/// An int32.
#[inline(never)]
#[tactic(auto, using(crate::proofs::TextLemmas::int32_steps))]
fn put_int32(n: i32, buffer: &mut [u8], end: usize) -> usize
    requires { end + VALUE ≤ length buffer.old }
    ensures appended { take result buffer.new ≡ take end buffer.old ++ scalar_text (int32 n) }
    ensures within { result ≤ end + VALUE }
{
    let at = put_known(*b"{\"$numberInt\":\"", buffer, end);
    let at = put_signed(i64::from(n), buffer, at);
    put_known(*b"\"}", buffer, at)
}

/// An int64.
#[inline(never)]
fn put_int64(n: i64, buffer: &mut [u8], end: usize) -> usize
    requires { end + VALUE ≤ length buffer.old }
    ensures appended { take result buffer.new ≡ take end buffer.old ++ scalar_text (int64 n) }
    ensures within { result ≤ end + VALUE }
{
    let at = put_known(*b"{\"$numberLong\":\"", buffer, end);
    let at = put_signed(n, buffer, at);
    put_known(*b"\"}", buffer, at)
}

/// A datetime: the milliseconds as an int64, also before 1970 and after 9999.
#[inline(never)]
#[tactic(auto, using(crate::proofs::TextLemmas::date_steps))]
fn put_date(milliseconds: i64, buffer: &mut [u8], end: usize) -> usize
    requires { end + VALUE ≤ length buffer.old }
    ensures appended { take result buffer.new
        ≡ take end buffer.old ++ scalar_text (date milliseconds) }
    ensures within { result ≤ end + VALUE }
{
    let at = put_known(*b"{\"$date\":{\"$numberLong\":\"", buffer, end);
    let at = put_signed(milliseconds, buffer, at);
    put_known(*b"\"}}", buffer, at)
}

/// A boolean.
#[inline(always)]
#[tactic(auto, unfolding(crate::specs::Text::scalar_text))]
fn put_bool(truth: bool, buffer: &mut [u8], end: usize) -> usize
    requires { end + VALUE ≤ length buffer.old }
    ensures appended { take result buffer.new ≡ take end buffer.old ++ scalar_text (boolean truth) }
    ensures within { result ≤ end + VALUE }
{
    if truth {
        put_known(*b"true", buffer, end)
    } else {
        put_known(*b"false", buffer, end)
    }
}

/// An ObjectId: 24 lower-case digits.
#[inline(always)]
#[tactic(auto, using(crate::proofs::TextLemmas::object_id_pieces))]
fn put_object_id(id: &[u8; 12], buffer: &mut [u8], end: usize) -> usize
    requires { end + VALUE ≤ length buffer.old }
    ensures appended { take result buffer.new
        ≡ take end buffer.old ++ scalar_text (object_id id.now) }
    ensures within { result ≤ end + VALUE }
{
    let at = put_known(*b"{\"$oid\":\"", buffer, end);
    let at = put_id(id, buffer, at);
    put_known(*b"\"}", buffer, at)
}

/// A timestamp: the seconds and the increment as plain numbers.
#[tactic(auto, using(crate::proofs::TextLemmas::timestamp_pieces))]
fn put_timestamp(seconds: u32, increment: u32, buffer: &mut [u8], end: usize) -> usize
    requires { end + VALUE ≤ length buffer.old }
    ensures appended { take result buffer.new
        ≡ take end buffer.old ++ scalar_text (timestamp seconds increment) }
    ensures within { result ≤ end + VALUE }
{
    let at = put_known(*b"{\"$timestamp\":{\"t\":", buffer, end);
    let at = put_digits(u64::from(seconds), buffer, at);
    let at = put_known(*b",\"i\":", buffer, at);
    let at = put_digits(u64::from(increment), buffer, at);
    put_known(*b"}}", buffer, at)
}

/// Binary: base64 with padding, the subtype in two digits.
fn append_binary(subtype: u8, bytes: &[u8], out: &mut Vec<u8>, end: usize) -> End
    requires { end ≤ length out.old.items }
    ensures { Appends out.old.items end result out.new.items
        (scalar_text (binary subtype bytes.now)) }
{
    let at = append_few(b"{\"$binary\":{\"base64\":\"", out, end)?;
    let at = append_base64(bytes, out, at)?;
    let at = append_few(b"\",\"subType\":\"", out, at)?;
    let buffer = out.as_mut_slice();
    let at = put_hex(subtype, buffer, at);
    Ok(put_known(*b"\"}}", buffer, at))
}

/// A regular expression: the options as they are stored.
fn append_regex(pattern: &str, options: &str, out: &mut Vec<u8>, end: usize) -> End
    requires { end ≤ length out.old.items }
    ensures { Appends out.old.items end result out.new.items
        (scalar_text (regex pattern.now options.now)) }
{
    let at = append_led(b"{\"$regularExpression\":{\"pattern\":", pattern, out, end)?;
    let at = append_led(b",\"options\":", options, out, at)?;
    append_few(b"}}", out, at)
}

/// A DBPointer.
fn append_pointer(space: &str, id: &[u8; 12], out: &mut Vec<u8>, end: usize) -> End
    requires { end ≤ length out.old.items }
    ensures { Appends out.old.items end result out.new.items
        (scalar_text (db_pointer space.now id.now)) }
{
    let at = append_led(b"{\"$dbPointer\":{\"$ref\":", space, out, end)?;
    let at = append_few(b",\"$id\":{\"$oid\":\"", out, at)?;
    let buffer = out.as_mut_slice();
    let at = put_id(id, buffer, at);
    Ok(put_known(*b"\"}}}", buffer, at))
}

/// Appends an object of one string: the text before the string, the string, and the brace after it.
fn append_one(lead: &[u8], text: &str, out: &mut Vec<u8>, end: usize) -> End
    requires { (end ≤ length out.old.items) × (length lead.now ≤ 1000) }
    ensures { Appends out.old.items end result out.new.items
        (lead.now ++ (quoted text.now ++ 125 ∷ [])) }
{
    let at = append_led(lead, text, out, end)?;
    append_few(b"}", out, at)
}

/// Appends the text before a string, and the string with its quotation marks.
pub fn append_led(lead: &[u8], text: &str, out: &mut Vec<u8>, end: usize) -> End
    requires { (end ≤ length out.old.items) × (length lead.now ≤ 1000) }
    ensures { Appends out.old.items end result out.new.items (lead.now ++ quoted text.now) }
{
    grow_buffer(out, end, lead.len() + 1)?;
    let at = put(lead, out.as_mut_slice(), end);
    append_string(text, out, at)
}

/// Appends a few bytes, and makes space for a value: `VALUE` bytes.
pub fn append_few(bytes: &[u8], out: &mut Vec<u8>, end: usize) -> End
    requires { end ≤ length out.old.items }
    ensures text { Appends out.old.items end result out.new.items bytes.now }
    ensures capacity { IfOk result (λ e. e + VALUE ≤ length out.new.items) }
{
    grow_buffer(out, end, bytes.len() + VALUE)?;
    Ok(put(bytes, out.as_mut_slice(), end))
}

/// Writes the base64 text of bytes, which has that size, after the text.
fn put_base64(bytes: &[u8], size: usize, buffer: &mut [u8], end: usize) -> usize
    requires size { size ≡ encoded_size_of standard (length bytes.now) }
    requires buffer { end + size ≤ length buffer.old }
    ensures appended { take result buffer.new ≡ take end buffer.old ++ base64_text bytes.now }
    ensures end { result ≡ end + size }
{
    let after = end + size;
    let Ok(_) = STANDARD.encode_slice(bytes, &mut buffer[end..after]) else {
        unreachable!();
    };
    after
}

/// Appends the base64 text of bytes. It is written in place, so that no text in between takes memory. A length that no vector
/// can have is `NoMemory`.
pub(crate) fn append_base64(bytes: &[u8], out: &mut Vec<u8>, end: usize) -> End
    requires { end ≤ length out.old.items }
    ensures { Appends out.old.items end result out.new.items (base64_text bytes.now) }
{
    let size = encoded_len(bytes.len(), true).ok_or(AllocError)?;
    grow_buffer(out, end, size)?;
    Ok(put_base64(bytes, size, out.as_mut_slice(), end))
}

/// The digits of these numbers.
#[inline(always)]
fn digits_of(numbers: u8x16) -> u8x16
    requires { Each1 (λ n. n < 16) numbers }
    ensures { result ≡ map (slice_index lower_digits) numbers }
{
    u8x16::from_array(*b"0123456789abcdef").swizzle_dyn(numbers)
}

/// The two digits of each byte, those of the first half and those of the second.
#[inline(always)]
fn digit_pairs(bytes: u8x16) -> (u8x16, u8x16)
    ensures digits { result.0 ++ result.1 ≡ hex_text bytes }
    ensures sizes { (length result.0 ≡ 16) × (length result.1 ≡ 16) }
{
    let high = digits_of(bytes >> u8x16::splat(4));
    let low = digits_of(bytes & u8x16::splat(15));
    high.interleave(low)
}

/// Writes the 24 digits of an id after the text. Those of 16 bytes are written at once, and the last of them are beyond the end.
#[inline(always)]
pub(crate) fn put_id(id: &[u8; 12], buffer: &mut [u8], end: usize) -> usize
    requires { end + 32 ≤ length buffer.old }
    ensures appended { take result buffer.new ≡ take end buffer.old ++ hex_text id.now }
    ensures end { result ≡ end + 24 }
{
    let mut bytes = [0; 16];
    bytes[..12].copy_from_slice(id);
    let (prefix, back) = digit_pairs(u8x16::from_array(bytes));
    let after = put(prefix.as_array(), buffer, end);
    put(back.as_array(), buffer, after);
    end + 24
}

/// Writes the two digits of a byte after the text.
#[tactic(auto, unfolding(crate::specs::Text::hex_text))]
pub(crate) fn put_hex(byte: u8, buffer: &mut [u8], end: usize) -> usize
    requires { end + 2 ≤ length buffer.old }
    ensures appended { take result buffer.new ≡ take end buffer.old ++ hex_text (byte ∷ []) }
    ensures end { result ≡ end + 2 }
{
    let Ok(()) = hex::encode_to_slice([byte].as_slice(), &mut buffer[end..end + 2]) else {
        unreachable!();
    };
    end + 2
}

// ---- numbers

/// Appends a number of at most 64 bits in decimal.
///
/// `NoMemory`: memory ran out, and `out` is unchanged.
pub fn write_number(n: u64, out: &mut Vec<u8>) -> Result<(), NoMemory>
    ensures ok { OnOk result (out.new.items ≡ out.old.items ++ decimal n) }
    ensures err { OnErr result (out.new.items ≡ out.old.items) }
{
    let mut buffer = itoa::Buffer::new();
    out.extend_from_slice(buffer.format(n).as_bytes())
}

/// The most digits of a 64-bit number.
const DIGITS: usize = 20;

/// Writes a number of at most 64 bits in decimal after the text, and returns the new end. Always twenty bytes are copied, so
/// that the copy is of a known length.
#[inline(always)]
pub(crate) fn put_digits(n: u64, buffer: &mut [u8], end: usize) -> usize
    requires { end + 20 ≤ length buffer.old }
    ensures appended { take result buffer.new ≡ take end buffer.old ++ decimal n }
    ensures end { result ≤ end + 20 }
{
    let mut digits = [0; 2 * DIGITS];
    let start = itoa::write_digits(n, &mut digits, DIGITS);
    buffer[end..end + DIGITS].copy_from_slice(&digits[start..start + DIGITS]);
    end + (DIGITS - start)
}

/// The same for a number with a sign.
#[inline(always)]
pub(crate) fn put_signed(n: i64, buffer: &mut [u8], end: usize) -> usize
    requires { end + 21 ≤ length buffer.old }
    ensures appended { take result buffer.new ≡ take end buffer.old ++ signed_decimal n }
    ensures end { result ≤ end + 21 }
{
    if n >= 0 {
        return put_digits(n.unsigned_abs(), buffer, end);
    }
    let end = put_byte(b'-', buffer, end);
    put_digits(n.unsigned_abs(), buffer, end)
}
