//! The bytes of a document straight from its canonical text, as `dump` writes it. A line that is spelled in another way, or is
//! not a document, is `Refusal::Unread`. What takes no memory, and reads a part of the text, is then only None.
ghost use Rattle.std.specs.Prelude.{◌≡◌, ◌<◌, ◌≤◌, ◌++◌, ◌∷◌, ◌+◌, [], ℕ, List, length, take, false, None, IfOk, OnOk, IfErr, IfSome, ◌^◌, decimal, get_or, IsTrue, IsUtf8};
ghost use Rattle.bd_value.specs.Limits.{longest_document};
ghost use Rattle.bd_value.specs.Tree.{Tree, Doc, leaf, doc, array, fields_of, items_of};
ghost use Rattle.bd_value.specs.View.{kind_of};
ghost use Rattle.bd_bson_view.specs.Spelling.{string as bson_string};
ghost use Rattle.bd_bson_write.specs.TreeBytes.{bytes_of};
ghost use Rattle.bd_extjson_wrapper.specs.Wrapper.{wrapper_of};
ghost use Rattle.bd_extjson_text.specs.Text.{text as text_of, items_text, fields_text, needs_escape, escape_byte, escaped, quoted, hex_text};
ghost use Rattle.bd_extjson_pack.specs.Packable.{plain, IsPackable};
ghost use Rattle.bd_extjson_pack.specs.Canonical.{IsCanonical};
ghost use Rattle.bd_extjson_pack.specs.inside.Packable.{AreCanonical, AreCanonicalFields};
ghost use Rattle.bd_extjson_pack.specs.inside.Writes.{NotWritten};
ghost use Rattle.std.specs.{Fmt.signed_decimal, Result.result_ok, List.list_any};
ghost use Rattle.base64.specs.{Engines.standard, GeneralPurpose.encode_of, GeneralPurpose.decode_of};
ghost use Rattle.bd_value.specs.Fits.{AreBytes, IsId, has_zero};
ghost use Rattle.bd_value.specs.Tree as trees;

use crate::elements::{append_leaf, begin_element, begin_item, end_element, end_string, set_last};
use crate::refusal::Refusal;
use base64::DecodeAllocError;
use base64::engine::general_purpose::STANDARD;
use bd_bson_write::{WriteFault, begin_body, end_body};
use bd_extjson_text::plain_length;
use bd_extjson_wrapper::id_of_text;
use bd_value::{Kind, MOST_LEVELS, Scalar};
use core::dec2flt::read_digits;
use std::alloc::Global;

/// How many bytes of a string are examined and copied together.
const BLOCK: usize = 32;

/// Appends the document that all of the text is.
pub(crate) fn append_canonical(text: &str, out: &mut Vec<u8>) -> Result<(), Refusal>
    ensures { OnOk result ((d : Doc)
        × IsPackable text.now d × (out.new.items ≡ out.old.items ++ plain d)) }
{
    match append_fields(text, MOST_LEVELS - 1, out)? {
        "" => Ok(()),
        _ => Err(Refusal::Unread),
    }
}

/// Appends the document that the text begins with.
#[cycle(canonical)]
#[inline(never)]
fn append_fields<'a>(
    text: &'a str,
    depth_left: usize,
    out: &mut Vec<u8>,
) -> Result<&'a str, Refusal>
    ensures gives { IfOk result (λ rest. (d : Doc)
        × (text.now ≡ text_of (doc (fields_of d)) ++ rest.now) × AreCanonicalFields depth_left d
        × (out.new.items ≡ out.old.items ++ bytes_of (doc (fields_of d)))) }
    ensures within { OnOk result (length out.new.items ≤ longest_document) }
{
    let start = begin_body(out)?;
    let mut rest = after_word(text, b"{").ok_or(Refusal::Unread)?;
    let mut next = unless_ended(rest, b'}');
    while let Some(at) = next {
        let (name, value) = field_name(at).ok_or(Refusal::Unread)?;
        let element = begin_element(name.as_bytes(), out)?;
        let (kind, after) = append_next(value, depth_left, out)?;
        end_element(element, kind, out);
        rest = after;
        next = after_word(rest, b",");
    }
    end_body(start, out)?;
    after_word(rest, b"}").ok_or(Refusal::Unread)
}

/// Appends the array that the text begins with.
#[cycle(canonical)]
#[inline(never)]
fn append_items<'a>(text: &'a str, depth_left: usize, out: &mut Vec<u8>) -> Result<&'a str, Refusal>
    ensures { IfOk result (λ rest. (ts : List Tree)
        × (text.now ≡ text_of (array (items_of ts)) ++ rest.now) × AreCanonical depth_left ts
        × (out.new.items ≡ out.old.items ++ bytes_of (array (items_of ts)))) }
{
    let start = begin_body(out)?;
    let mut rest = after_word(text, b"[").ok_or(Refusal::Unread)?;
    let mut index: u32 = 0;
    let mut next = unless_ended(rest, b']');
    while let Some(at) = next {
        let element = begin_item(index, out)?;
        let (kind, after) = append_next(at, depth_left, out)?;
        end_element(element, kind, out);
        rest = after;
        index = index
            .checked_add(1)
            .ok_or(Refusal::Unwritten(WriteFault::TooLong))?;
        next = after_word(rest, b",");
    }
    end_body(start, out)?;
    after_word(rest, b"]").ok_or(Refusal::Unread)
}

/// Appends the value that the text begins with, and returns its kind and what follows. It has at most `depth_left` levels of
/// documents and arrays.
#[cycle(canonical)]
fn append_next<'a>(
    text: &'a str,
    depth_left: usize,
    out: &mut Vec<u8>,
) -> Result<(Kind, &'a str), Refusal>
    ensures { IfOk result (λ p. (t : Tree)
        × (text.now ≡ text_of t ++ p.1.now) × IsCanonical depth_left t × (p.0 ≡ kind_of t)
        × (out.new.items ≡ out.old.items ++ bytes_of t)) }
{
    match text.as_bytes() {
        [b'"', ..] => Ok((Kind::Text, append_string(text, out)?)),
        [b'{', b'"', b'$', ..] => append_wrapper(text, out),
        [b'{' | b'[', ..] if depth_left == 0 => Err(Refusal::Unread),
        [b'{', ..] => Ok((Kind::Doc, append_fields(text, depth_left - 1, out)?)),
        [b'[', ..] => Ok((Kind::Array, append_items(text, depth_left - 1, out)?)),
        _ => append_word(text, out),
    }
}

/// The text; None if it begins with the closing bracket.
#[inline(always)]
pub fn unless_ended<'a>(text: &'a str, bracket: u8) -> Option<&'a str>
    ensures { IfSome result (λ same. same.now ≡ text.now) }
{
    match text.as_bytes() {
        [first, ..] if *first == bracket => None,
        _ => Some(text),
    }
}

/// The name of a field in its quotation marks, which is no wrapper's, and what follows the colon.
#[inline(always)]
pub fn field_name<'a>(text: &'a str) -> Option<(&'a str, &'a str)>
    ensures { IfSome result (λ p. (name : List ℕ) × IsUtf8 name
        × (p.0.now ≡ 34 ∷ (name ++ 34 ∷ [])) × (text.now ≡ quoted name ++ (58 ∷ p.1.now))
        × (has_zero name ≡ false) × (wrapper_of name ≡ None)) }
{
    let (name, rest) = string(text)?;
    // The names of all wrappers begin so.
    if name.starts_with('$') {
        return None;
    }
    let (quoted, _) = text.split_at_checked(name.len() + 2)?;
    Some((quoted, after_word(rest, b":")?))
}

/// Appends the value of the wrapper that the text begins with, and returns its kind and what follows.
#[inline(always)]
pub fn append_wrapper<'a>(text: &'a str, out: &mut Vec<u8>) -> Result<(Kind, &'a str), Refusal>
    ensures { IfOk result (λ p. (t : Tree) × (text.now ≡ text_of t ++ p.1.now)
        × IsCanonical 0 t × (p.0 ≡ kind_of t) × (out.new.items ≡ out.old.items ++ bytes_of t)) }
{
    // By a byte in which they differ.
    match text.as_bytes().get(9) {
        Some(b'I') => {
            let (n, rest) = int32(text).ok_or(Refusal::Unread)?;
            Ok((append_leaf(Kind::Int32, Scalar::Int32(n), out)?, rest))
        }
        Some(b'L') => {
            let (n, rest) = int64(text).ok_or(Refusal::Unread)?;
            Ok((append_leaf(Kind::Int64, Scalar::Int64(n), out)?, rest))
        }
        Some(b'{') => {
            let (n, rest) = date(text).ok_or(Refusal::Unread)?;
            Ok((append_leaf(Kind::Date, Scalar::Date(n), out)?, rest))
        }
        Some(b'"') => append_binary(text, out),
        _ => {
            let (id, rest) = object_id(text).ok_or(Refusal::Unread)?;
            let kind = append_leaf(Kind::ObjectId, Scalar::ObjectId(id), out)?;
            Ok((kind, rest))
        }
    }
}

/// Appends the binary data that the text begins with, and returns its kind and what follows.
#[inline(never)]
fn append_binary<'a>(text: &'a str, out: &mut Vec<u8>) -> Result<(Kind, &'a str), Refusal>
    ensures { IfOk result (λ p. (t : Tree) × (text.now ≡ text_of t ++ p.1.now)
        × IsCanonical 0 t × (p.0 ≡ kind_of t) × (out.new.items ≡ out.old.items ++ bytes_of t)) }
{
    let (subtype, digits, rest) = binary(text).ok_or(Refusal::Unread)?;
    let payload = decoded(*out.allocator(), digits)?;
    let scalar = Scalar::Binary {
        subtype,
        payload: &payload,
    };
    Ok((append_leaf(Kind::Binary, scalar, out)?, rest))
}

/// Appends the value of the literal that the text begins with, and returns its kind and what follows.
#[inline(always)]
pub fn append_word<'a>(text: &'a str, out: &mut Vec<u8>) -> Result<(Kind, &'a str), Refusal>
    ensures { IfOk result (λ p. (t : Tree) × (text.now ≡ text_of t ++ p.1.now)
        × IsCanonical 0 t × (p.0 ≡ kind_of t) × (out.new.items ≡ out.old.items ++ bytes_of t)) }
{
    if let Some(rest) = after_word(text, b"true") {
        return Ok((append_leaf(Kind::Bool, Scalar::Bool(true), out)?, rest));
    }
    if let Some(rest) = after_word(text, b"false") {
        return Ok((append_leaf(Kind::Bool, Scalar::Bool(false), out)?, rest));
    }
    let rest = after_word(text, b"null").ok_or(Refusal::Unread)?;
    Ok((Kind::Null, rest))
}

/// Appends the string that the text begins with, and returns what follows.
#[inline(always)]
pub fn append_string<'a>(text: &'a str, out: &mut Vec<u8>) -> Result<&'a str, Refusal>
    ensures { IfOk result (λ rest. (s : List ℕ) × IsUtf8 s × (text.now ≡ quoted s ++ rest.now)
        × (out.new.items ≡ out.old.items ++ bson_string s)) }
{
    let start = begin_body(out)?;
    let inside = after_word(text, b"\"").ok_or(Refusal::Unread)?;
    let rest = append_contents(inside, out)?;
    end_string(start, out)?;
    Ok(rest)
}

/// Appends the contents of a string and a zero, and returns what follows the quotation mark.
#[inline(always)]
fn append_contents<'a>(text: &'a str, out: &mut Vec<u8>) -> Result<&'a str, Refusal>
    ensures { IfOk result (λ rest. (s : List ℕ) × IsUtf8 s
        × (text.now ≡ escaped s ++ (34 ∷ rest.now))
        × (out.new.items ≡ out.old.items ++ (s ++ 0 ∷ []))) }
{
    let mut rest = append_run(text, out)?;
    while let Some((byte, after)) = escape(rest) {
        set_last(byte, out);
        rest = append_run(after, out)?;
    }
    set_last(0, out);
    after_word(rest, b"\"").ok_or(Refusal::Unread)
}

/// Appends the bytes without escapes, up to the first that needs one, and that byte, with which the rest begins: `set_last`
/// replaces it, so that a run and the byte after it cost one copy.
#[inline(always)]
fn append_run<'a>(text: &'a str, out: &mut Vec<u8>) -> Result<&'a str, Refusal>
    ensures { IfOk result (λ rest. (run : List ℕ) × (last : ℕ) × IsUtf8 run
        × (text.now ≡ escaped run ++ rest.now)
        × (out.new.items ≡ out.old.items ++ (run ++ last ∷ []))) }
{
    let plain = copy_run(text.as_bytes(), out)?;
    let (_, rest) = text.split_at_checked(plain).ok_or(Refusal::Unread)?;
    Ok(rest)
}

/// Appends the bytes up to the first that needs an escape, and that byte, and returns how many are before it. A block is copied
/// while it is examined, so that each copy is of a known length.
#[inline(always)]
fn copy_run(bytes: &[u8], out: &mut Vec<u8>) -> Result<usize, Refusal>
    ensures { IfOk result (λ plain. (plain < length bytes.now)
        × (list_any needs_escape (take plain bytes.now) ≡ false)
        × (out.new.items ≡ out.old.items ++ take (plain + 1) bytes.now)) }
{
    let start = out.len();
    let mut passed = 0;
    while let Some(block) = bytes[passed..].first_chunk::<BLOCK>() {
        out.extend_from_slice(block)?;
        let plain = plain_length(block);
        passed += plain;
        if plain < BLOCK {
            out.truncate(start + passed + 1);
            return Ok(passed);
        }
    }
    let rest = &bytes[passed..];
    let plain = plain_length(rest);
    let (run, _) = rest.split_at_checked(plain + 1).ok_or(Refusal::Unread)?;
    out.extend_from_slice(run)?;
    Ok(passed + plain)
}

/// The byte that an escape of two characters means (RFC 8259, section 7), by the second of them; 0 if it means none.
const MEANT: [u8; 117] = [
    0, 0, 0, 0, 0, 0, 0, 0, 0, 0, 0, 0, 0, 0, 0, 0, 0, 0, 0, 0, 0, 0, 0, 0, 0, 0, 0, 0, 0, 0, 0, 0,
    0, 0, 34, 0, 0, 0, 0, 0, 0, 0, 0, 0, 0, 0, 0, 0, 0, 0, 0, 0, 0, 0, 0, 0, 0, 0, 0, 0, 0, 0, 0,
    0, 0, 0, 0, 0, 0, 0, 0, 0, 0, 0, 0, 0, 0, 0, 0, 0, 0, 0, 0, 0, 0, 0, 0, 0, 0, 0, 0, 0, 92, 0,
    0, 0, 0, 0, 8, 0, 0, 0, 12, 0, 0, 0, 0, 0, 0, 0, 10, 0, 0, 0, 13, 0, 9,
];

/// The byte of an escape of two characters, and what follows it.
#[inline(always)]
fn escape<'a>(text: &'a str) -> Option<(u8, &'a str)>
    ensures { IfSome result (λ p. (text.now ≡ escape_byte p.0 ++ p.1.now) × (p.0 < 128)) }
{
    let inside = after_word(text, b"\\")?;
    let letter = usize::from(*inside.as_bytes().first()?);
    if letter >= MEANT.len() || MEANT[letter] == 0 {
        return None;
    }
    let (_, rest) = inside.split_at_checked(1)?;
    Some((MEANT[letter], rest))
}

/// A string without escapes, and what follows it.
#[inline(always)]
pub fn string<'a>(text: &'a str) -> Option<(&'a str, &'a str)>
    ensures { IfSome result (λ p. (text.now ≡ quoted p.0.now ++ p.1.now)
        × (has_zero p.0.now ≡ false) × (escaped p.0.now ≡ p.0.now)
        × (list_any needs_escape p.0.now ≡ false)) }
{
    let inside = after_word(text, b"\"")?;
    let (inside, rest) = inside.split_at_checked(plain_length(inside.as_bytes()))?;
    Some((inside, after_word(rest, b"\"")?))
}

/// An Int32, and what follows it.
#[inline(always)]
fn int32<'a>(text: &'a str) -> Option<(i32, &'a str)>
    ensures { IfSome result (λ p. text.now ≡ text_of (leaf (trees.int32 p.0)) ++ p.1.now) }
{
    let (n, rest) = whole_number(after_word(text, b"{\"$numberInt\":")?)?;
    Some((i32::try_from(n).ok()?, after_word(rest, b"}")?))
}

/// An Int64, and what follows it.
#[inline(always)]
fn int64<'a>(text: &'a str) -> Option<(i64, &'a str)>
    ensures { IfSome result (λ p. text.now ≡ text_of (leaf (trees.int64 p.0)) ++ p.1.now) }
{
    let (n, rest) = whole_number(after_word(text, b"{\"$numberLong\":")?)?;
    Some((n, after_word(rest, b"}")?))
}

/// A date, and what follows it.
#[inline(always)]
fn date<'a>(text: &'a str) -> Option<(i64, &'a str)>
    ensures { IfSome result (λ p. text.now ≡ text_of (leaf (trees.date p.0)) ++ p.1.now) }
{
    let (n, rest) = whole_number(after_word(text, b"{\"$date\":{\"$numberLong\":")?)?;
    Some((n, after_word(rest, b"}}")?))
}

/// A whole number in a string, and what follows the string.
#[inline(always)]
fn whole_number<'a>(text: &'a str) -> Option<(i64, &'a str)>
    ensures { IfSome result (λ p. text.now ≡ quoted (signed_decimal p.0) ++ p.1.now) }
{
    let inside = after_word(text, b"\"")?;
    match after_word(inside, b"-") {
        None => {
            let (n, rest) = digits(inside)?;
            Some((i64::try_from(n).ok()?, after_word(rest, b"\"")?))
        }
        Some(inside) => {
            let (n, rest) = digits(inside)?;
            if n == 0 {
                return None;
            }
            Some((0_i64.checked_sub_unsigned(n)?, after_word(rest, b"\"")?))
        }
    }
}

/// The number of the digits at the start, at most 64 bits, and what follows them.
#[inline(always)]
fn digits<'a>(text: &'a str) -> Option<(u64, &'a str)>
    ensures { IfSome result (λ p. (text.now ≡ decimal p.0 ++ p.1.now) × (p.0 < 2 ^ 64)) }
{
    let bytes = text.as_bytes();
    let (count, n) = read_digits(bytes, 0, 0);
    // More of them may be no number of 64 bits, and are none of 63.
    if count > 19 || !is_led_well(bytes, count) {
        return None;
    }
    let (_, rest) = text.split_at_checked(count)?;
    Some((n, rest))
}

/// Whether there are digits, and no leading zero before others.
#[inline(always)]
fn is_led_well(digits: &[u8], count: usize) -> bool
    requires { count ≤ length digits.now }
    ensures { IsTrue result → (0 < count) × (1 < count → get_or digits.now 0 0 ≡ 48 → ⊥) }
{
    count == 1 || count > 1 && digits[0] != b'0'
}

/// An id, and what follows it.
#[inline(always)]
fn object_id<'a>(text: &'a str) -> Option<([u8; 12], &'a str)>
    ensures { IfSome result (λ p.
        (text.now ≡ text_of (leaf (trees.object_id p.0)) ++ p.1.now) × IsId p.0) }
{
    let (digits, rest) = string(after_word(text, b"{\"$oid\":")?)?;
    let id = id_of_text(digits)?;
    if !is_hex_text(&id, digits) {
        return None;
    }
    Some((id, after_word(rest, b"}")?))
}

/// Binary data: its subtype, its bytes in base64, and what follows it.
#[inline(always)]
fn binary<'a>(text: &'a str) -> Option<(u8, &'a str, &'a str)>
    ensures { IfSome result (λ p. (payload : List ℕ) →
        p.1.now ≡ encode_of standard payload →
        text.now ≡ text_of (leaf (trees.binary p.0 payload)) ++ p.2.now) }
{
    let (digits, rest) = string(after_word(text, b"{\"$binary\":{\"base64\":")?)?;
    let (subtype, rest) = byte_digits(after_word(rest, b",\"subType\":")?)?;
    Some((subtype, digits, after_word(rest, b"}}")?))
}

/// The bytes of base64.
#[inline(always)]
fn decoded(alloc: Global, digits: &str) -> Result<Vec<u8>, Refusal>
    ensures decoded { IfOk result (λ v.
        (digits.now ≡ encode_of standard v.items) × AreBytes v.items) }
    ensures refused { IfErr result (λ e. NotWritten
        (λ payload. length payload) e (result_ok (decode_of standard digits.now))) }
{
    match STANDARD.decode(alloc, digits.as_bytes()) {
        Ok(payload) => Ok(payload),
        Err(DecodeAllocError::OutOfMemory) => Err(Refusal::Unwritten(WriteFault::NoMemory)),
        Err(DecodeAllocError::DecodeError(_)) => Err(Refusal::Unread),
    }
}

/// The byte of two digits in a string, and what follows the string.
#[inline(always)]
fn byte_digits<'a>(text: &'a str) -> Option<(u8, &'a str)>
    ensures { IfSome result (λ p. text.now ≡ quoted (hex_text (p.0 ∷ [])) ++ p.1.now) }
{
    let (digits, rest) = string(text)?;
    let byte = u8::from_str_radix(digits, 16).ok()?;
    if !is_hex_text(&[byte], digits) {
        return None;
    }
    Some((byte, rest))
}

/// Whether a text is the digits of bytes, two each, in lower case. The readers of digits accept upper case too.
#[inline(always)]
fn is_hex_text(bytes: &[u8], text: &str) -> bool
    requires { length bytes.now ≤ 12 }
    ensures { IsTrue result → text.now ≡ hex_text bytes.now }
{
    let mut buffer = [0; 24];
    let digits = &mut buffer[..2 * bytes.len()];
    if hex::encode_to_slice(bytes, digits).is_err() {
        return false;
    }
    text.as_bytes() == digits
}

/// What follows the literal that a text begins with.
#[inline(always)]
pub fn after_word<'a, const N: usize>(text: &'a str, word: &[u8; N]) -> Option<&'a str>
    ensures { IfSome result (λ rest. text.now ≡ word.now ++ rest.now) }
{
    let (prefix, _) = text.as_bytes().split_first_chunk::<N>()?;
    if !is_word(prefix, word) {
        return None;
    }
    let (_, rest) = text.split_at_checked(N)?;
    Some(rest)
}

/// Whether the bytes are those of the literal. All are compared together.
#[inline(always)]
fn is_word<const N: usize>(prefix: &[u8; N], word: &[u8; N]) -> bool
    ensures { IsTrue result → prefix.now ≡ word.now }
{
    let mut differ = false;
    for i in 0..N {
        differ |= prefix[i] != word[i];
    }
    !differ
}
