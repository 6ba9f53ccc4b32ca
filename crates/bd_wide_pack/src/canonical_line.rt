//! The bytes of a document of all types straight from its canonical text, as `dump` writes it. A line that is spelled in another
//! way, or is not a document, is `Refusal::Unread`.

ghost use Rattle.std.specs.Prelude.{◌≡◌, ◌≤◌, ◌<◌, ◌++◌, ◌∷◌, ℕ, List, length, IfOk, OnOk, IfSome, vec_len};
ghost use Rattle.bd_value.specs.Limits.{longest_document};
ghost use Rattle.bd_value.specs.Tree.{Tree, Doc, fields_of, items_of};
ghost use Rattle.bd_bson_view.specs.Spelling.{framed};
ghost use Rattle.bd_extjson_text.specs.Text.{listed, object};
ghost use Rattle.bd_wide_number.specs.declared.number.Number.TheVariants.{Double, Decimal128};
ghost use Rattle.bd_wide_pack.specs.inside.CanonicalLine.{AreFieldLines, AreItemLines, IsLine};
ghost use Rattle.bd_wide_pack.specs.inside.Printed.{IsTextOfNumber};
ghost use Rattle.bd_wide_pack.specs.WideLine.{IsPacked};

use bd_bson_view::type_byte;
use bd_bson_write::{WriteFault, begin_body, end_body};
use bd_extjson_pack::Refusal;
use bd_extjson_pack::canonical_line::{
    after_word, append_string, append_word, append_wrapper, field_name, string, unless_ended,
};
use bd_extjson_pack::elements::{begin_element, begin_item};
use bd_value::{Kind, MOST_LEVELS};
use bd_wide::append_long;
use bd_wide_read::{read_decimal128, read_double};

/// Appends the document that all of the text is, to bytes that were none.
pub(crate) fn append_canonical(text: &str, out: &mut Vec<u8>) -> Result<(), Refusal>
    requires { length out.old.items ≡ 0 }
    ensures { OnOk result (IsPacked text.now out.new.items) }
{
    match append_fields(text, MOST_LEVELS - 1, out)? {
        "" => Ok(()),
        _ => Err(Refusal::Unread),
    }
}

/// Appends the document that the text begins with.
#[cycle(canonical)]
#[inline(never)]
fn append_fields<'a>(
    text: &'a str,
    depth_left: usize,
    out: &mut Vec<u8>,
) -> Result<&'a str, Refusal>
    ensures gives { IfOk result (λ rest. (d : Doc) × (members : List (List ℕ)) × (body : List ℕ)
        × (text.now ≡ object members ++ rest.now)
        × AreFieldLines depth_left (fields_of d) members body
        × (out.new.items ≡ out.old.items ++ framed body)) }
    ensures within { OnOk result (length out.new.items ≤ longest_document) }
{
    let start = begin_body(out)?;
    let mut rest = after_word(text, b"{").ok_or(Refusal::Unread)?;
    let mut next = unless_ended(rest, b'}');
    while let Some(at) = next {
        let (name, value) = field_name(at).ok_or(Refusal::Unread)?;
        let element = begin_element(name.as_bytes(), out)?;
        let (type_byte, after) = append_next(value, depth_left, out)?;
        put_type(element, type_byte, out);
        rest = after;
        next = after_word(rest, b",");
    }
    end_body(start, out)?;
    after_word(rest, b"}").ok_or(Refusal::Unread)
}

/// Appends the array that the text begins with.
#[cycle(canonical)]
#[inline(never)]
fn append_items<'a>(text: &'a str, depth_left: usize, out: &mut Vec<u8>) -> Result<&'a str, Refusal>
    ensures { IfOk result (λ rest. (ts : List Tree) × (values : List (List ℕ)) × (body : List ℕ)
        × (text.now ≡ listed values ++ rest.now)
        × AreItemLines depth_left 0 (items_of ts) values body
        × (out.new.items ≡ out.old.items ++ framed body)) }
{
    let start = begin_body(out)?;
    let mut rest = after_word(text, b"[").ok_or(Refusal::Unread)?;
    let mut index: u32 = 0;
    let mut next = unless_ended(rest, b']');
    while let Some(at) = next {
        let element = begin_item(index, out)?;
        let (type_byte, after) = append_next(at, depth_left, out)?;
        put_type(element, type_byte, out);
        rest = after;
        index = index
            .checked_add(1)
            .ok_or(Refusal::Unwritten(WriteFault::TooLong))?;
        next = after_word(rest, b",");
    }
    end_body(start, out)?;
    after_word(rest, b"]").ok_or(Refusal::Unread)
}

/// Appends the value that the text begins with, and returns its type byte and what follows. It has at most `depth_left` levels
/// of documents and arrays.
#[cycle(canonical)]
fn append_next<'a>(
    text: &'a str,
    depth_left: usize,
    out: &mut Vec<u8>,
) -> Result<(u8, &'a str), Refusal>
    ensures { IfOk result (λ p. (t : Tree) × (value : List ℕ) × (bytes : List ℕ)
        × (text.now ≡ value ++ p.1.now) × IsLine depth_left t value p.0 bytes
        × (out.new.items ≡ out.old.items ++ bytes)) }
{
    match text.as_bytes() {
        [b'"', ..] => {
            let rest = append_string(text, out)?;
            Ok((type_byte(Kind::Text), rest))
        }
        [b'{', b'"', b'$', ..] => append_leaf(text, out),
        [b'{' | b'[', ..] if depth_left == 0 => Err(Refusal::Unread),
        [b'{', ..] => {
            let rest = append_fields(text, depth_left - 1, out)?;
            Ok((type_byte(Kind::Doc), rest))
        }
        [b'[', ..] => {
            let rest = append_items(text, depth_left - 1, out)?;
            Ok((type_byte(Kind::Array), rest))
        }
        _ => {
            let (kind, rest) = append_word(text, out)?;
            Ok((type_byte(kind), rest))
        }
    }
}

/// Appends the value of the wrapper that the text begins with, and returns its type byte and what follows.
#[inline(always)]
fn append_leaf<'a>(text: &'a str, out: &mut Vec<u8>) -> Result<(u8, &'a str), Refusal>
    ensures { IfOk result (λ p. (t : Tree) × (value : List ℕ) × (bytes : List ℕ)
        × (text.now ≡ value ++ p.1.now) × IsLine 0 t value p.0 bytes
        × (out.new.items ≡ out.old.items ++ bytes)) }
{
    // By a byte in which the names of all wrappers of numbers differ: `$numberDouble`, `$numberDecimal`.
    match text.as_bytes().get(9) {
        Some(b'D') => append_number(text, out),
        _ => {
            let (kind, rest) = append_wrapper(text, out)?;
            Ok((type_byte(kind), rest))
        }
    }
}

/// The same of a double or a decimal128.
#[inline(always)]
fn append_number<'a>(text: &'a str, out: &mut Vec<u8>) -> Result<(u8, &'a str), Refusal>
    ensures { IfOk result (λ p. (t : Tree) × (value : List ℕ) × (bytes : List ℕ)
        × (text.now ≡ value ++ p.1.now) × IsLine 0 t value p.0 bytes
        × (out.new.items ≡ out.old.items ++ bytes)) }
{
    if let Some((bits, rest)) = double(text) {
        append_long(bits, out)?;
        return Ok((0x01, rest));
    }
    let (low, high, rest) = decimal128(text).ok_or(Refusal::Unread)?;
    append_long(low, out)?;
    append_long(high, out)?;
    Ok((0x13, rest))
}

/// The bits of a double, and what follows it.
#[inline(always)]
fn double<'a>(text: &'a str) -> Option<(u64, &'a str)>
    ensures { IfSome result (λ p. (value : List ℕ) × IsTextOfNumber value (Double p.0)
        × (text.now ≡ value ++ p.1.now)) }
{
    let (contents, rest) = string(after_word(text, b"{\"$numberDouble\":")?)?;
    let bits = read_double(contents.as_bytes()).ok()?;
    Some((bits, after_word(rest, b"}")?))
}

/// Both halves of a decimal128, the lower first, and what follows it.
#[inline(always)]
fn decimal128<'a>(text: &'a str) -> Option<(u64, u64, &'a str)>
    ensures { IfSome result (λ p. (value : List ℕ) × IsTextOfNumber value (Decimal128 p.0 p.1)
        × (text.now ≡ value ++ p.2.now)) }
{
    let (contents, rest) = string(after_word(text, b"{\"$numberDecimal\":")?)?;
    let (low, high) = read_decimal128(contents.as_bytes()).ok()?;
    Some((low, high, after_word(rest, b"}")?))
}

/// Puts the type byte of an element at its offset.
#[inline(always)]
fn put_type(at: usize, type_byte: u8, out: &mut Vec<u8>)
    requires { at < vec_len out.old }
    ensures { (before : List ℕ) (first : ℕ) (after : List ℕ) →
        out.old.items ≡ before ++ (first ∷ after) → at ≡ length before →
        out.new.items ≡ before ++ (type_byte ∷ after) }
{
    out[at] = type_byte;
}
