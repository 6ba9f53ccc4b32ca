//! The bytes of a document straight from the tokens of its text, without a tree. A text is refused only if it means no document.
ghost use Rattle.std.specs.Prelude.{◌≡◌, ◌<◌, ◌≤◌, ◌+◌, ◌++◌, ℕ, List, length, Some, None, IfOk, IfErr, OnOk, option_map, false};
ghost use Rattle.bd_value.specs.Limits.{longest_document, most_brackets, most_levels};
ghost use Rattle.json.specs.Json.{value, items, members};
ghost use Rattle.bd_value.specs.Tree as trees;
ghost use Rattle.bd_value.specs.Tree.{Doc, leaf, doc, array};
ghost use Rattle.bd_value.specs.View.{kind_of, tree_of};
ghost use Rattle.bd_value.specs.Fits.{zero_in};
ghost use Rattle.bd_bson_write.specs.TreeBytes.{OverrunsLimit, bytes_of};
ghost use Rattle.bd_extjson.specs.Read.{reading, bare_number, wrap, wrap_items, wrap_object, wrap_fields};
ghost use Rattle.bd_extjson_wrapper.specs.Wrapper.{through, after_key, wrapper_of};
ghost use Rattle.bd_extjson_wrapper.specs.WholeNumber.{whole_64};
ghost use Rattle.bd_extjson_pack.specs.Packable.{plain, IsPackable};
ghost use Rattle.bd_extjson_pack.specs.inside.Writes.{Writes, NotWritten, if_document, alone};
ghost use Rattle.json.specs.Find.{as_str};
ghost use Rattle.json.specs.Token.{Token as JsonToken};

use crate::canonical_line::append_canonical;
use crate::elements::{append_leaf, begin_item, end_element};
use crate::refusal::Refusal;
use bd_bson_write::{WriteFault, append_label, append_value, begin_body, end_body};
use bd_extjson::{bare_number, read_wrapper};
use bd_extjson_wrapper::{Trouble, Wrapper, id_of_text, whole, whole_of_32};
use bd_value::{Kind, MOST_BRACKETS, MOST_LEVELS, Scalar, Tree, Value, has_zero};
use json::{Reader, Scratch, Token};
use std::alloc::Global;

/// Replaces the contents of `out` by the bytes of the document that the text is. Its tokens are read only if it is not
/// canonical text, or has too many bytes: out of memory is the answer at once.
pub(crate) fn spell_line(
    alloc: Global,
    text: &str,
    scratch: &mut Scratch,
    out: &mut Vec<u8>,
) -> Result<(), Refusal>
    ensures spelled { OnOk result
        ((d : Doc) × IsPackable text.now d × (out.new.items ≡ plain d)) }
    ensures refused { IfErr result (λ e. NotWritten
        (λ d. length (plain d)) e (reading text.now)) }
{
    out.clear();
    match append_canonical(text, out) {
        Ok(()) => Ok(()),
        Err(Refusal::Unwritten(WriteFault::NoMemory)) => Err(Refusal::Unwritten(
            WriteFault::NoMemory,
        )),
        Err(_) => {
            out.clear();
            append_document(alloc, text, scratch, out)
        }
    }
}

/// Appends the document that all of the text is.
fn append_document(
    alloc: Global,
    text: &str,
    scratch: &mut Scratch,
    out: &mut Vec<u8>,
) -> Result<(), Refusal>
    ensures spelled { OnOk result ((d : Doc)
        × IsPackable text.now d × (out.new.items ≡ out.old.items ++ plain d)) }
    ensures refused { IfErr result (λ e. NotWritten
        (λ d. length out.old.items + length (plain d)) e (reading text.now)) }
{
    let mut reader = Reader::new(text, scratch)?;
    append_first(alloc, &mut reader, out)?;
    if reader.next().is_some() {
        return Err(Refusal::Unread);
    }
    Ok(())
}

/// Appends the document that the next value is, and returns its kind.
fn append_first(alloc: Global, reader: &mut Reader<'_>, out: &mut Vec<u8>) -> Result<Kind, Refusal>
    ensures gives { Writes (λ _. Kind.Doc) (λ fs. bytes_of (doc fs))
        out.old.items out.new.items reader.new
        result (if_document (through (wrap most_levels) (value most_brackets reader.old))) }
    ensures within { OnOk result (length out.new.items ≤ longest_document) }
{
    let Some(token) = reader.next() else {
        return Err(Refusal::Unread);
    };
    let Token::BeginObject = token else {
        return Err(Refusal::Unread);
    };
    let first = reader.next_key()?;
    // What a wrapper means is no document.
    if first.and_then(Wrapper::from_name).is_some() {
        return Err(Refusal::Unread);
    }
    let (depth_left, depth) = (MOST_LEVELS - 1, MOST_BRACKETS - 1);
    append_fields(alloc, reader, first, depth_left, depth, out)
}

/// Appends the document whose brace and first name were read, and returns its kind.
#[cycle(tokens)]
#[tactic(auto, using(bd_extjson::proofs::ReadLemmas::fields_steps))]
#[inline(never)]
fn append_fields<'a>(
    alloc: Global,
    reader: &mut Reader<'a>,
    first: Option<&'a str>,
    depth_left: usize,
    depth: usize,
    out: &mut Vec<u8>,
) -> Result<Kind, Refusal>
    ensures gives { Writes (λ _. Kind.Doc) (λ fs. bytes_of (doc fs))
        out.old.items out.new.items reader.new
        result (through (wrap_fields depth_left) (after_key depth (length reader.old)
        (option_map (λ s. s.now) first.entry) reader.old)) }
    ensures shorter { OnOk result (length reader.new ≤ length reader.old) }
    ensures within { OnOk result (length out.new.items ≤ longest_document) }
{
    let at = begin_body(out)?;
    let mut next = first;
    while let Some(name) = next {
        let element = out.len();
        append_label(Kind::Null, name, out)?;
        let kind = append_next(alloc, reader, depth_left, depth, out)?;
        end_element(element, kind, out);
        if has_zero(name) {
            return Err(Refusal::Unread);
        }
        next = reader.next_key()?;
    }
    end_body(at, out)?;
    Ok(Kind::Doc)
}

/// Appends the next value, with at most `depth_left` levels of documents and arrays, and `depth` levels of brackets, and
/// returns its kind.
#[cycle(tokens)]
#[tactic(auto, using(bd_extjson::proofs::ReadLemmas::value_steps))]
fn append_next(
    alloc: Global,
    reader: &mut Reader<'_>,
    depth_left: usize,
    depth: usize,
    out: &mut Vec<u8>,
) -> Result<Kind, Refusal>
    ensures gives { Writes kind_of bytes_of
        out.old.items out.new.items reader.new
        result (through (wrap depth_left) (value depth reader.old)) }
    ensures shorter { OnOk result (length reader.new < length reader.old) }
{
    let token = reader.next().ok_or(Refusal::Unread)?;
    match token {
        Token::String(text) => Ok(append_leaf(Kind::Text, Scalar::Text(text), out)?),
        Token::Number(text) => Ok(append_read(bare_number(text).ok_or(Refusal::Unread)?, out)?),
        Token::Bool(b) => Ok(append_leaf(Kind::Bool, Scalar::Bool(b), out)?),
        Token::Null => Ok(Kind::Null),
        Token::EndObject | Token::EndArray | Token::Key(_) | Token::Bad => Err(Refusal::Unread),
        Token::BeginArray => {
            if depth == 0 || depth_left == 0 {
                return Err(Refusal::Unread);
            }
            append_items(alloc, reader, depth_left - 1, depth - 1, out)
        }
        Token::BeginObject => {
            if depth == 0 {
                return Err(Refusal::Unread);
            }
            append_object(alloc, reader, depth_left, depth - 1, out)
        }
    }
}

/// Appends the array whose bracket was read, and returns its kind. The names of its elements are their indexes.
#[cycle(tokens)]
#[tactic(auto, using(bd_extjson::proofs::ReadLemmas::items_steps))]
#[inline(never)]
fn append_items(
    alloc: Global,
    reader: &mut Reader<'_>,
    depth_left: usize,
    depth: usize,
    out: &mut Vec<u8>,
) -> Result<Kind, Refusal>
    ensures gives { Writes (λ _. Kind.Array) (λ ts. bytes_of (array ts))
        out.old.items out.new.items reader.new
        result (through (wrap_items depth_left)
        (items (value depth) (length reader.old) reader.old)) }
    ensures shorter { OnOk result (length reader.new < length reader.old) }
{
    let at = begin_body(out)?;
    let mut index: u32 = 0;
    while !reader.take_end_array() {
        let element = begin_item(index, out)?;
        let kind = append_next(alloc, reader, depth_left, depth, out)?;
        end_element(element, kind, out);
        index += 1;
    }
    end_body(at, out)?;
    Ok(Kind::Array)
}

/// Appends the value of the object whose brace was read, and returns its kind.
#[cycle(tokens)]
#[tactic(auto, using(bd_extjson::proofs::ReadLemmas::object_steps))]
#[inline(never)]
fn append_object(
    alloc: Global,
    reader: &mut Reader<'_>,
    depth_left: usize,
    depth: usize,
    out: &mut Vec<u8>,
) -> Result<Kind, Refusal>
    ensures gives { Writes kind_of bytes_of
        out.old.items out.new.items reader.new
        result (through (wrap_object depth_left)
        (members (value depth) (length reader.old) reader.old)) }
    ensures shorter { OnOk result (length reader.new < length reader.old) }
{
    let first = reader.next_key()?;
    if let Some(wrapper) = first.and_then(Wrapper::from_name) {
        return append_wrapper(alloc, reader, wrapper, depth_left, depth, out);
    }
    if depth_left == 0 {
        return Err(Refusal::Unread);
    }
    append_fields(alloc, reader, first, depth_left - 1, depth, out)
}

/// Appends the value of a wrapper whose first name was read, and returns its kind. One that is written with one string is read
/// from its tokens.
#[inline(always)]
fn append_wrapper(
    alloc: Global,
    reader: &mut Reader<'_>,
    wrapper: Wrapper,
    depth_left: usize,
    depth: usize,
    out: &mut Vec<u8>,
) -> Result<Kind, Refusal>
    requires { (first : List ℕ) × (wrapper_of first ≡ Some wrapper) }
    ensures gives { (first : List ℕ) → wrapper_of first ≡ Some wrapper →
        Writes kind_of bytes_of
        out.old.items out.new.items reader.new
        result (through (wrap_object depth_left)
        (after_key depth (length reader.old) (Some first) reader.old)) }
    ensures shorter { OnOk result (length reader.new < length reader.old) }
{
    match wrapper {
        Wrapper::NumberInt => {
            let n = whole_of_32(only_string(reader)?).ok_or(Refusal::Unread)?;
            Ok(append_leaf(Kind::Int32, Scalar::Int32(n), out)?)
        }
        Wrapper::NumberLong => {
            let n = whole(only_string(reader)?).ok_or(Refusal::Unread)?;
            Ok(append_leaf(Kind::Int64, Scalar::Int64(n), out)?)
        }
        Wrapper::Oid => {
            let id = id_of_text(only_string(reader)?).ok_or(Refusal::Unread)?;
            Ok(append_leaf(Kind::ObjectId, Scalar::ObjectId(id), out)?)
        }
        _ => append_wrapped(alloc, reader, wrapper, depth_left, depth, out),
    }
}

/// Appends the value that a wrapper means whose first name was read, and returns its kind.
#[inline(never)]
fn append_wrapped(
    alloc: Global,
    reader: &mut Reader<'_>,
    wrapper: Wrapper,
    depth_left: usize,
    depth: usize,
    out: &mut Vec<u8>,
) -> Result<Kind, Refusal>
    requires { (first : List ℕ) × (wrapper_of first ≡ Some wrapper) }
    ensures gives { (first : List ℕ) → wrapper_of first ≡ Some wrapper →
        Writes kind_of bytes_of
        out.old.items out.new.items reader.new
        result (through (wrap_object depth_left)
        (after_key depth (length reader.old) (Some first) reader.old)) }
    ensures shorter { OnOk result (length reader.new < length reader.old) }
{
    match read_wrapper(alloc, reader, wrapper, depth_left, depth) {
        Ok(value) => Ok(append_read(value, out)?),
        Err(Trouble::Memory) => Err(Refusal::Unwritten(WriteFault::NoMemory)),
        Err(Trouble::Refused) => Err(Refusal::Unread),
    }
}

/// Appends a value that was read, and drops it. The numbers that are read most are written at once. Returns its kind.
fn append_read(value: Value, out: &mut Vec<u8>) -> Result<Kind, WriteFault>
    requires { zero_in (tree_of value) ≡ false }
    ensures ok { IfOk result (λ kind. (kind ≡ kind_of (tree_of value))
        × (out.new.items ≡ out.old.items ++ bytes_of (tree_of value))) }
    ensures fault { IfErr result
        (OverrunsLimit (length out.old.items + length (bytes_of (tree_of value)))) }
{
    match value {
        Value::Int32(n) => append_leaf(Kind::Int32, Scalar::Int32(n), out),
        Value::Int64(n) => append_leaf(Kind::Int64, Scalar::Int64(n), out),
        Value::Date(n) => append_leaf(Kind::Date, Scalar::Date(n), out),
        other => {
            append_value(Tree::Value(&other), out)?;
            Ok(other.kind())
        }
    }
}

/// The string that is the value of an object's only member, whose name was read.
#[inline(always)]
fn only_string<'a>(reader: &mut Reader<'a>) -> Result<&'a str, Refusal>
    ensures gives { IfOk result (λ s. (name : List ℕ) (depth : ℕ) → through (alone as_str)
        (after_key depth (length reader.old) (Some name) reader.old) ≡ Some (s.now, reader.new)) }
    ensures refused { IfErr result (λ e. (e ≡ Refusal.Unread)
        × ((name : List ℕ) (depth : ℕ) → through (alone as_str)
        (after_key depth (length reader.old) (Some name) reader.old) ≡ None)) }
    ensures shorter { OnOk result (length reader.new < length reader.old) }
{
    let Some(token) = reader.next() else {
        return Err(Refusal::Unread);
    };
    let Token::String(text) = token else {
        return Err(Refusal::Unread);
    };
    match reader.next_key()? {
        None => Ok(text),
        Some(_) => Err(Refusal::Unread),
    }
}
