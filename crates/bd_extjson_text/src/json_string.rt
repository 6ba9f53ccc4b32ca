//! JSON strings: RFC 8259, section 7. Most names and texts need no escape: these are copied and examined at once.
ghost use Rattle.std.specs.Prelude.{◌≡◌, ◌<◌, ◌≤◌, ◌+◌, ◌++◌, ℕ, get_or, OnOk, OnErr, IfOk, IsTrue, string_bytes, map, if◌then◌else◌, [], ◌∷◌, length, take, false, true};
ghost use Rattle.std.specs.Char.{digit_char};
ghost use Rattle.std.specs.List.{list_any, position, join_with_byte};
ghost use Rattle.std.specs.Simd.Lanes.{mask_l};
ghost use Rattle.bd_extjson_text.specs.Buffer.{Appends};
ghost use Rattle.bd_extjson_text.specs.Text.{needs_escape, escape_byte, escaped, quoted};

use crate::buffer::{End, VALUE, grow_buffer, put, put_byte, put_byte_in, put_known, settle};
use bd_value::NoMemory;
use std::simd::prelude::*;

/// How many bytes are examined together.
const STEP: usize = 16;

/// How many are looked at together where the first that stops is looked for.
const LANES: usize = 32;

/// Appends a string with its quotation marks: RFC 8259, section 7.
///
/// `NoMemory`: memory ran out, and `out` is unchanged.
pub fn write_string(text: &str, out: &mut Vec<u8>) -> Result<(), NoMemory>
    ensures ok { OnOk result (out.new.items ≡ out.old.items ++ quoted text.now) }
    ensures err { OnErr result (out.new.items ≡ out.old.items) }
{
    let before = out.len();
    grow_buffer(out, before, 1)?;
    let end = append_string(text, out, before);
    settle(end, before, out)
}

/// Appends the names of a path, joined by dots, as one string.
///
/// `NoMemory`: memory ran out, and `out` is unchanged.
pub fn write_path(path: &[String], out: &mut Vec<u8>) -> Result<(), NoMemory>
    ensures ok { OnOk result (out.new.items
        ≡ out.old.items ++ quoted (join_with_byte 46 (map string_bytes path.now))) }
    ensures err { OnErr result (out.new.items ≡ out.old.items) }
{
    let before = out.len();
    let end = append_path(path, out, before);
    settle(end, before, out)
}

/// The same after the text in `out`.
#[tactic(auto, unfolding(crate::specs::Text::quoted))]
fn append_path(path: &[String], out: &mut Vec<u8>, end: usize) -> End
    requires { end ≤ length out.old.items }
    ensures { Appends out.old.items end result out.new.items
        (quoted (join_with_byte 46 (map string_bytes path.now))) }
{
    grow_buffer(out, end, 2)?;
    let mut at = put_byte_in(b'"', out, end);
    let mut later = false;
    for name in path {
        at = append_separator(later, b'.', out, at)?;
        at = append_text(name.as_bytes(), 1, out, at)?;
        later = true;
    }
    Ok(put_byte_in(b'"', out, at))
}

/// Appends a string with its quotation marks: RFC 8259, section 7. There is space for the first of them.
#[inline(always)]
#[tactic(auto, unfolding(crate::specs::Text::quoted))]
pub(crate) fn append_string(text: &str, out: &mut Vec<u8>, end: usize) -> End
    requires { end < length out.old.items }
    ensures { Appends out.old.items end result out.new.items (quoted text.now) }
{
    let at = put_byte_in(b'"', out, end);
    let at = append_text(text.as_bytes(), 1, out, at)?;
    Ok(put_byte_in(b'"', out, at))
}

/// Appends a name as a string, with a comma before it if `later`, and a colon after it, and makes space for a value: `VALUE`
/// bytes.
#[inline(always)]
#[tactic(auto, unfolding(crate::specs::Text::quoted))]
pub fn append_name(later: bool, name: &str, out: &mut Vec<u8>, end: usize) -> End
    requires { end ≤ length out.old.items }
    ensures text { Appends out.old.items end result out.new.items
        ((if later then 44 ∷ [] else []) ++ (quoted name.now ++ 58 ∷ [])) }
    ensures capacity { IfOk result (λ e. e + VALUE ≤ length out.new.items) }
{
    grow_buffer(out, end, name.len() + (4 + VALUE))?;
    let buffer = out.as_mut_slice();
    let at = put_separator(later, b',', buffer, end);
    let at = put_byte(b'"', buffer, at);
    let bytes = name.as_bytes();
    if copy_plain(bytes, buffer, at) {
        return Ok(put_known(*b"\":", buffer, at + bytes.len()));
    }
    let at = append_escaped(bytes, 2 + VALUE, out, at)?;
    Ok(put_known(*b"\":", out.as_mut_slice(), at))
}

/// Writes what precedes a piece after the text: the separator, if `later`.
#[inline(always)]
fn put_separator(later: bool, separator: u8, buffer: &mut [u8], end: usize) -> usize
    requires { end < length buffer.old }
    ensures appended { take result buffer.new
        ≡ take end buffer.old ++ (if later then separator ∷ [] else []) }
    ensures end { (end ≤ result) × (result ≤ end + 1) }
{
    if later {
        return put_byte(separator, buffer, end);
    }
    end
}

/// Appends the separator, if `later`, and makes space for a value: `VALUE` bytes.
#[inline(always)]
pub fn append_separator(later: bool, separator: u8, out: &mut Vec<u8>, end: usize) -> End
    requires { end ≤ length out.old.items }
    ensures text { Appends out.old.items end result out.new.items
        (if later then separator ∷ [] else []) }
    ensures capacity { IfOk result (λ e. e + VALUE ≤ length out.new.items) }
{
    grow_buffer(out, end, 1 + VALUE)?;
    Ok(put_separator(later, separator, out.as_mut_slice(), end))
}

/// Appends the contents of a string, without its quotation marks, and makes space for `after` bytes more. Most texts need no
/// escape.
#[inline(always)]
fn append_text(text: &[u8], after: usize, out: &mut Vec<u8>, end: usize) -> End
    requires { (end ≤ length out.old.items) × (after ≤ 1000) }
    ensures text { Appends out.old.items end result out.new.items (escaped text.now) }
    ensures capacity { IfOk result (λ e. e + after ≤ length out.new.items) }
{
    grow_buffer(out, end, text.len() + after)?;
    if copy_plain(text, out.as_mut_slice(), end) {
        return Ok(end + text.len());
    }
    append_escaped(text, after, out, end)
}

/// Copies a text after the text in the buffer, and returns whether no byte of it needs an escape. If one does, the buffer up
/// to `end` is unchanged.
#[inline(always)]
fn copy_plain(text: &[u8], buffer: &mut [u8], end: usize) -> bool
    requires { end + length text.now ≤ length buffer.old }
    ensures copied { IsTrue result →
        take (end + length text.now) buffer.new ≡ take end buffer.old ++ text.now }
    ensures plain { IsTrue result → list_any needs_escape text.now ≡ false }
    ensures unchanged { take end buffer.new ≡ take end buffer.old }
{
    if text.len() < 2 {
        copy_few(text, buffer, end)
    } else if text.len() < 4 {
        copy_ends::<2>(text, buffer, end)
    } else if text.len() < 8 {
        copy_ends::<4>(text, buffer, end)
    } else if text.len() < 16 {
        copy_ends::<8>(text, buffer, end)
    } else {
        copy_many(text, buffer, end)
    }
}

/// Copies a text byte by byte, and returns whether none needs an escape. If one does, a prefix was copied.
#[inline(always)]
fn copy_few(text: &[u8], buffer: &mut [u8], end: usize) -> bool
    requires { end + length text.now ≤ length buffer.old }
    ensures copied { IsTrue result →
        take (end + length text.now) buffer.new ≡ take end buffer.old ++ text.now }
    ensures plain { IsTrue result → list_any needs_escape text.now ≡ false }
    ensures unchanged { take end buffer.new ≡ take end buffer.old }
{
    for (i, b) in text.iter().enumerate() {
        if needs_escape(*b) {
            return false;
        }
        buffer[end + i] = *b;
    }
    true
}

/// Copies a text of at least `N` and at most twice as many bytes, and returns whether none needs an escape. The first and the last `N`
/// bytes are copied, so that each copy is of a known length.
#[inline(always)]
fn copy_ends<const N: usize>(text: &[u8], buffer: &mut [u8], end: usize) -> bool
    requires lanes { N ≤ 16 }
    requires size { (N ≤ length text.now) × (length text.now ≤ N + N) }
    requires buffer { end + length text.now ≤ length buffer.old }
    ensures copied { take (end + length text.now) buffer.new ≡ take end buffer.old ++ text.now }
    ensures plain { IsTrue result → list_any needs_escape text.now ≡ false }
{
    let Some((first, _)) = text.split_first_chunk::<N>() else {
        unreachable!()
    };
    let Some((start, last)) = text.split_last_chunk::<N>() else {
        unreachable!()
    };
    put_known(*first, buffer, end);
    put_known(*last, buffer, end + start.len());
    are_plain(first, last)
}

/// Whether no byte of two parts must be escaped. Both are examined together.
#[inline(always)]
fn are_plain<const N: usize>(first: &[u8; N], last: &[u8; N]) -> bool
    requires { N ≤ 16 }
    ensures { IsTrue result → (list_any needs_escape first.now ≡ false)
        × (list_any needs_escape last.now ≡ false) }
{
    (stops(Simd::from_array(*first)) == 0) & (stops(Simd::from_array(*last)) == 0)
}

/// Copies a text of at least 16 bytes, and returns whether none needs an escape. If one does, a prefix was copied.
#[inline(always)]
fn copy_many(text: &[u8], buffer: &mut [u8], end: usize) -> bool
    requires { (16 ≤ length text.now) × (end + length text.now ≤ length buffer.old) }
    ensures copied { IsTrue result →
        take (end + length text.now) buffer.new ≡ take end buffer.old ++ text.now }
    ensures plain { IsTrue result → list_any needs_escape text.now ≡ false }
    ensures unchanged { take end buffer.new ≡ take end buffer.old }
{
    let mut passed = 0;
    while text.len() - passed > 2 * STEP {
        let part = &text[passed..passed + STEP];
        if any_escape(part) {
            return false;
        }
        put(part, buffer, end + passed);
        passed += STEP;
    }
    copy_ends::<STEP>(&text[passed..], buffer, end + passed)
}

/// The same for a text that needs escapes: the bytes between two of them are copied as they are.
fn append_escaped(text: &[u8], after: usize, out: &mut Vec<u8>, end: usize) -> End
    requires { (end ≤ length out.old.items) × (after ≤ 1000) }
    ensures text { Appends out.old.items end result out.new.items (escaped text.now) }
    ensures capacity { IfOk result (λ e. e + after ≤ length out.new.items) }
{
    let mut rest = text;
    let mut at = end;
    while let Some(run) = first_escape(rest) {
        grow_buffer(out, at, run + 6)?;
        let buffer = out.as_mut_slice();
        at = put(&rest[..run], buffer, at);
        at = put_escape(rest[run], buffer, at);
        rest = &rest[run + 1..];
    }
    grow_buffer(out, at, rest.len() + after)?;
    Ok(put(rest, out.as_mut_slice(), at))
}

/// The offset of the first byte that must be escaped.
#[inline(always)]
fn first_escape(text: &[u8]) -> Option<usize>
    ensures { result ≡ position needs_escape text.now }
{
    let passed = plain_length(text);
    let (_, rest) = text.split_at(passed);
    match first_of_few(rest) {
        Some(at) => Some(passed + at),
        None => None,
    }
}

#[inline(always)]
fn first_of_few(text: &[u8]) -> Option<usize>
    ensures { result ≡ position needs_escape text.now }
{
    text.iter().position(|b| needs_escape(*b))
}

/// How many bytes need no escape, up to the first that does.
#[inline(always)]
pub fn plain_length(text: &[u8]) -> usize
    ensures within { result ≤ length text.now }
    ensures plain { (k : ℕ) → k < result → needs_escape (get_or text.now k 0) ≡ false }
{
    let mut passed = 0;
    while text.len() - passed >= LANES {
        let found = stops(u8x32::from_slice(&text[passed..]));
        if found != 0 {
            return passed + found.trailing_zeros() as usize;
        }
        passed += LANES;
    }
    plain_length_from(text, passed)
}

/// The same, one byte after the other, if the first `passed` bytes were examined.
#[inline(always)]
fn plain_length_from(text: &[u8], passed: usize) -> usize
    requires within { passed ≤ length text.now }
    requires plain { (k : ℕ) → k < passed → needs_escape (get_or text.now k 0) ≡ false }
    ensures within { result ≤ length text.now }
    ensures plain { (k : ℕ) → k < result → needs_escape (get_or text.now k 0) ≡ false }
{
    let mut passed = passed;
    while passed < text.len() && !needs_escape(text[passed]) {
        passed += 1;
    }
    passed
}

/// A bit for each byte that must be escaped in a string, the lowest for the first.
#[inline(always)]
fn stops<const N: usize>(bytes: Simd<u8, N>) -> u64
    requires { N ≤ 64 }
    ensures { result ≡ mask_l (map needs_escape bytes.entry) }
{
    (bytes.simd_eq(Simd::splat(b'"'))
        | bytes.simd_eq(Simd::splat(b'\\'))
        | bytes.simd_lt(Simd::splat(32))).to_bitmask()
}

/// Writes the escape of a byte that needs one after the text.
#[tactic(auto, unfolding(crate::specs::Text::escape_byte))]
fn put_escape(b: u8, buffer: &mut [u8], end: usize) -> usize
    requires escape { IsTrue (needs_escape b) }
    requires buffer { end + 6 ≤ length buffer.old }
    ensures appended { take result buffer.new ≡ take end buffer.old ++ escape_byte b }
    ensures end { result ≤ end + 6 }
{
    match b {
        b'"' | b'\\' => put(&[b'\\', b], buffer, end),
        8 => put(b"\\b", buffer, end),
        12 => put(b"\\f", buffer, end),
        b'\n' => put(b"\\n", buffer, end),
        b'\r' => put(b"\\r", buffer, end),
        b'\t' => put(b"\\t", buffer, end),
        _ => {
            let digits = [hex_digit(b / 16), hex_digit(b % 16)];
            let end = put(b"\\u00", buffer, end);
            put(&digits, buffer, end)
        }
    }
}

fn hex_digit(n: u8) -> u8
    requires { n < 16 }
    ensures { result ≡ digit_char n }
{
    if n < 10 { b'0' + n } else { b'a' + (n - 10) }
}

/// Whether a byte must be escaped in a string.
#[inline(always)]
fn needs_escape(b: u8) -> bool
    ensures { result ≡ needs_escape b }
{
    b == b'"' || b == b'\\' || b < 32
}

/// Whether a byte of these must be escaped. No byte ends the loop, so that all are examined together.
#[inline(always)]
fn any_escape(bytes: &[u8]) -> bool
    ensures { result ≡ list_any needs_escape bytes.now }
{
    let mut any = false;
    for b in bytes {
        any |= needs_escape(*b);
    }
    any
}
