//! The document that a text is: read from its tokens, in one pass.
ghost use Rattle.std.specs.Prelude.{◌≡◌, ◌≢◌, ◌<◌, ◌≤◌, ◌-◌, ◌⊎◌, ℕ, List, length, map, Option, Some, None, Err, option_map, option_and_then, IfOk, IfErr, OnOk};
ghost use Rattle.json.specs.Find.{as_str};
ghost use Rattle.json.specs.{Json.Json, Json.value, Json.items, Json.members, Json.read_key, Token.Token as JsonToken};
ghost use Rattle.json.specs.Value.{value_view};
ghost use Rattle.bd_value.specs.Limits.{most_levels};
ghost use Rattle.bd_value.specs.Tree.{Doc, Tree, pairs_of, fields_of, items_of};
ghost use Rattle.bd_value.specs.View.{tree_of, pairs};
ghost use Rattle.bd_extjson_fault.specs.JsonFault.{IsLocated, ReportsBadUtf8};
ghost use Rattle.bd_extjson_fault.specs.TextFault.{text_fault};
ghost use Rattle.bd_extjson_fault.specs.declared.json_fault.JsonFaultKind.TheVariants as faults;
ghost use Rattle.bd_extjson_wrapper.specs.WholeNumber.{whole_64};
ghost use Rattle.bd_extjson_wrapper.specs.Wrapper.{wrapper_of, through, after_key, Fails, Gives, TakesMemory};
ghost use Rattle.bd_extjson_wrapper.specs.declared.wrapper.Trouble.TheVariants as troubles;
ghost use Rattle.bd_extjson_wrapper.specs.declared.wrapper.Wrapper.TheVariants as kinds;
ghost use Rattle.bd_extjson.specs.Read.{ReadsAs, json, reading, document, bare_number, with_scope, wrap, wrap_items, wrap_object, wrapped, wrap_fields};

use crate::fixed::{read_fixed, takes_memory};
use bd_extjson_fault::{JsonFault, JsonFaultKind, diagnose, text_of};
use bd_extjson_wrapper::{Trouble, Wrapper, names_code, names_scope, unwrap_single, whole};
use bd_value::{Document, MOST_BRACKETS, MOST_LEVELS, Value, has_zero};
use json::{Reader, Scratch, Token};
use std::alloc::Global;

/// The value that was read, or why it was not.
type Read<T> = Result<T, Trouble>;

/// Reads a document from a text: Extended JSON v2, canonical form, and bare whole numbers, with any white space and escapes
/// of JSON.
///
/// # Errors
/// One for each rule of `JsonFaultKind`, with its byte. JSON is checked first, over the whole text, and then the tree from
/// left to right. `NoMemory` if memory runs out.
pub fn read_doc(alloc: Global, text: &[u8]) -> Result<Document, JsonFault>
    // The document read is the one that the text is.
    ensures found { IfOk result (λ d. ReadsAs text.now (pairs d)) }
    // A text that is a document is read, unless memory runs out.
    ensures none { IfErr result (λ f. f.kind ≢ faults.NoMemory →
        (d : Doc) → ReadsAs text.now d → ⊥) }
    ensures offset { IfErr result (IsLocated (length text.now)) }
    ensures utf8 { IfErr result (ReportsBadUtf8 text.now) }
    // Which fault is reported, and at which byte, is a function of the text.
    ensures fault { IfErr result (λ f. f.kind ≢ faults.NoMemory → f ≡ text_fault text.now) }
{
    let mut scratch = Scratch::new(alloc);
    read_doc_with(alloc, text, &mut scratch)
}

/// `read_doc`, with a buffer for the texts that have escapes, which a caller reuses from text to text.
#[tactic(auto, using(crate::proofs::ReadLemmas::no_text, crate::proofs::ReadLemmas::valid_text))]
pub fn read_doc_with(
    alloc: Global,
    text: &[u8],
    scratch: &mut Scratch,
) -> Result<Document, JsonFault>
    ensures found { IfOk result (λ d. ReadsAs text.now (pairs d)) }
    ensures none { IfErr result (λ f. f.kind ≢ faults.NoMemory →
        (d : Doc) → ReadsAs text.now d → ⊥) }
    ensures offset { IfErr result (IsLocated (length text.now)) }
    ensures utf8 { IfErr result (ReportsBadUtf8 text.now) }
    ensures fault { IfErr result (λ f. f.kind ≢ faults.NoMemory → f ≡ text_fault text.now) }
{
    read_doc_text(alloc, text_of(text)?, scratch)
}

/// `read_doc_with`, for a text that is known to be UTF-8.
pub fn read_doc_text(
    alloc: Global,
    text: &str,
    scratch: &mut Scratch,
) -> Result<Document, JsonFault>
    ensures found { IfOk result (λ d. ReadsAs text.now (pairs d)) }
    ensures none { IfErr result (λ f. f.kind ≢ faults.NoMemory →
        (d : Doc) → ReadsAs text.now d → ⊥) }
    ensures offset { IfErr result (IsLocated (length text.now)) }
    ensures fault { IfErr result (λ f. f.kind ≢ faults.NoMemory → f ≡ text_fault text.now) }
{
    match read_text(alloc, text, scratch) {
        Ok(document) => Ok(document),
        // No pass looks for a fault.
        Err(Trouble::Memory) => Err(JsonFault {
            kind: JsonFaultKind::NoMemory,
            at: 0,
        }),
        Err(Trouble::Refused) => Err(fault_of(alloc, text)),
    }
}

/// The fault of a text that is no document. The pass over the text that looks for it is made for no other.
pub fn fault_of(alloc: Global, text: &str) -> JsonFault
    requires { (d : Doc) → ReadsAs text.now d → ⊥ }
    ensures offset { IsLocated (length text.now) result }
    ensures fault { result.kind ≢ faults.NoMemory → result ≡ text_fault text.now }
{
    diagnose(alloc, text)
}

fn read_text(alloc: Global, text: &str, scratch: &mut Scratch) -> Read<Document>
    ensures { Gives pairs result (reading text.now) }
{
    let value = read_whole(alloc, text, scratch)?;
    document_of(value).ok_or(Trouble::Refused)
}

fn read_whole(alloc: Global, text: &str, scratch: &mut Scratch) -> Read<Value>
    ensures { Gives tree_of result (option_and_then (wrap most_levels) (json text.now)) }
{
    let mut reader = Reader::new(text, scratch)?;
    let value = read_value(alloc, &mut reader, MOST_LEVELS, MOST_BRACKETS)?;
    if reader.next().is_some() {
        return Err(Trouble::Refused);
    }
    Ok(value)
}

/// The document that a value is.
#[tactic(auto, using(crate::proofs::ReadLemmas::document_steps))]
fn document_of(value: Value) -> Option<Document>
    ensures { option_map pairs result ≡ option_map pairs_of (document (tree_of value)) }
{
    match value {
        Value::Doc(document) => Some(document),
        _ => None,
    }
}

/// One value, with at most `depth_left` levels of documents and arrays, and `depth` levels of brackets.
#[cycle(reading)]
#[tactic(auto, using(crate::proofs::ReadLemmas::value_steps))]
fn read_value(
    alloc: Global,
    reader: &mut Reader<'_>,
    depth_left: usize,
    depth: usize,
) -> Read<Value>
    ensures gives { Gives (λ v.
        (tree_of v, reader.new)) result (through (wrap depth_left) (value depth reader.old)) }
    ensures shorter { OnOk result (length reader.new < length reader.old) }
{
    let token = reader.next().ok_or(Trouble::Refused)?;
    match token {
        Token::String(text) => Ok(Value::Text(String::from_str(alloc, text)?)),
        Token::Number(text) => bare_number(text).ok_or(Trouble::Refused),
        Token::Bool(b) => Ok(Value::Bool(b)),
        Token::Null => Ok(Value::Null),
        Token::EndObject | Token::EndArray | Token::Key(_) | Token::Bad => Err(Trouble::Refused),
        Token::BeginArray => {
            if depth == 0 {
                return Err(Trouble::Refused);
            }
            if depth_left == 0 {
                return Err(Trouble::Refused);
            }
            Ok(Value::Array(read_items(alloc, reader, depth_left - 1, depth - 1)?))
        }
        Token::BeginObject => {
            if depth == 0 {
                return Err(Trouble::Refused);
            }
            read_object(alloc, reader, depth_left, depth - 1)
        }
    }
}

#[cycle(reading)]
#[tactic(auto, using(crate::proofs::ReadLemmas::items_steps))]
fn read_items(
    alloc: Global,
    reader: &mut Reader<'_>,
    depth_left: usize,
    depth: usize,
) -> Read<Vec<Value>>
    ensures gives { Gives (λ v. (items_of (map tree_of v.items), reader.new)) result
        (through (wrap_items depth_left) (items (value depth) (length reader.old) reader.old)) }
    ensures shorter { OnOk result (length reader.new < length reader.old) }
{
    let mut found = Vec::new(alloc);
    while !reader.take_end_array() {
        let value = read_value(alloc, reader, depth_left, depth)?;
        found.push(value)?;
    }
    Ok(found)
}

/// What follows the brace of an object.
#[cycle(reading)]
#[tactic(auto, using(crate::proofs::ReadLemmas::object_steps))]
fn read_object(
    alloc: Global,
    reader: &mut Reader<'_>,
    depth_left: usize,
    depth: usize,
) -> Read<Value>
    ensures gives { Gives (λ v. (tree_of v, reader.new)) result
        (through (wrap_object depth_left) (members (value depth) (length reader.old) reader.old)) }
    ensures shorter { OnOk result (length reader.new < length reader.old) }
{
    let first = reader.next_key()?;
    if let Some(wrapper) = first.and_then(Wrapper::from_name) {
        return read_wrapper(alloc, reader, wrapper, depth_left, depth);
    }
    if depth_left == 0 {
        return Err(Trouble::Refused);
    }
    Ok(Value::Doc(read_fields(alloc, reader, first, depth_left - 1, depth)?))
}

/// What follows the first name of an object that is not a wrapper.
#[cycle(reading)]
#[tactic(auto, using(crate::proofs::ReadLemmas::fields_steps))]
fn read_fields<'a>(
    alloc: Global,
    reader: &mut Reader<'a>,
    first: Option<&'a str>,
    depth_left: usize,
    depth: usize,
) -> Read<Document>
    ensures gives { Gives (λ d.
        (fields_of (pairs d), reader.new)) result (through (wrap_fields depth_left)
        (after_key depth (length reader.old) (option_map (λ s. s.now) first.entry) reader.old)) }
    ensures shorter { OnOk result (length reader.new ≤ length reader.old) }
{
    let mut read = Document::new(alloc);
    let mut next = first;
    while let Some(name) = next {
        let value = read_value(alloc, reader, depth_left, depth)?;
        if has_zero(name) {
            return Err(Trouble::Refused);
        }
        read.push(String::from_str(alloc, name)?, value)?;
        next = reader.next_key()?;
    }
    Ok(read)
}

/// Reads what follows the first name of an object, which is that wrapper's: the value that the object means, with at most
/// `depth_left` levels of documents and arrays, and `depth` levels of brackets.
///
/// # Errors
/// `Trouble::Refused` if it means no value; `Trouble::Memory`.
#[cycle(reading)]
pub fn read_wrapper(
    alloc: Global,
    reader: &mut Reader<'_>,
    wrapper: Wrapper,
    depth_left: usize,
    depth: usize,
) -> Result<Value, Trouble>
    ensures gives { (name : List ℕ) →
        wrapper_of name ≡ Some wrapper → Gives (λ v. (tree_of v, reader.new)) result (through
        (wrap_object depth_left) (after_key depth (length reader.old) (Some name) reader.old)) }
    ensures shorter { OnOk result (length reader.new < length reader.old) }
    // Memory runs out only for a value with a text or data, or for code with scope.
    ensures memory { result ≡ Err troubles.Memory →
        TakesMemory wrapper ⊎ (wrapper ≡ kinds.Scope) }
{
    if wrapper.is_scope() {
        return read_scope_first(alloc, reader, depth_left, depth);
    }
    if !takes_memory(wrapper) {
        return read_fixed(alloc, reader, wrapper, depth).ok_or(Trouble::Refused);
    }
    let part = read_part(alloc, reader, depth)?;
    let Some(second) = reader.next_key()? else {
        return unwrap_single(alloc, wrapper, &part);
    };
    if !wrapper.is_code() {
        return Err(Trouble::Refused);
    }
    read_scope_second(alloc, reader, &part, second, depth_left, depth)
}

/// What follows the second name of an object that began with `$code`.
#[cycle(reading)]
fn read_scope_second(
    alloc: Global,
    reader: &mut Reader<'_>,
    code: &json::Value<'_>,
    second: &str,
    depth_left: usize,
    depth: usize,
) -> Read<Value>
    ensures gives { (n : ℕ) (t : Option Tree) → length reader.old ≤ n →
        Gives (λ v. (tree_of v, reader.new)) result (through (wrapped depth_left kinds.Code
        (value_view code.now) t) (after_key depth n (Some second.now) reader.old)) }
    ensures shorter { OnOk result (length reader.new < length reader.old) }
{
    if depth_left == 0 {
        return Err(Trouble::Refused);
    }
    if !names_scope(second) {
        return Err(Trouble::Refused);
    }
    let scope = read_value(alloc, reader, depth_left - 1, depth)?;
    end_object(reader)?;
    code_with_scope(alloc, code, scope)
}

/// What follows the first name of an object, `$scope`.
#[cycle(reading)]
fn read_scope_first(
    alloc: Global,
    reader: &mut Reader<'_>,
    depth_left: usize,
    depth: usize,
) -> Read<Value>
    ensures gives { (name : List ℕ) →
        wrapper_of name ≡ Some kinds.Scope → Gives (λ v. (tree_of v, reader.new)) result (through
        (wrap_object depth_left) (after_key depth (length reader.old) (Some name) reader.old)) }
    ensures shorter { OnOk result (length reader.new < length reader.old) }
{
    if depth_left == 0 {
        return Err(Trouble::Refused);
    }
    let scope = read_value(alloc, reader, depth_left - 1, depth)?;
    // No `?` here: each would add code that drops the scope.
    match read_code(alloc, reader, depth) {
        Ok(code) => code_with_scope(alloc, &code, scope),
        Err(trouble) => Err(trouble),
    }
}

/// The code that follows such a scope, and the brace that ends the object.
fn read_code<'a>(alloc: Global, reader: &mut Reader<'a>, depth: usize) -> Read<json::Value<'a>>
    ensures code { IfOk result (λ code. (n depth_left : ℕ) (j : Json) (u : Tree) →
        length reader.old ≤ n → 0 < depth_left →
        through (wrapped depth_left kinds.Scope j (Some u)) (members (value depth) n reader.old)
        ≡ option_map (λ t. (t, reader.new)) (with_scope (as_str (value_view code)) (Some u))) }
    ensures none { IfErr result (λ e. (n depth_left : ℕ) (j : Json) (t : Option Tree) →
        length reader.old ≤ n → Fails e
        (through (wrapped depth_left kinds.Scope j t) (members (value depth) n reader.old))) }
    ensures shorter { OnOk result (length reader.new < length reader.old) }
{
    let Some(second) = reader.next_key()? else {
        return Err(Trouble::Refused);
    };
    if !names_code(second) {
        return Err(Trouble::Refused);
    }
    let code = read_part(alloc, reader, depth)?;
    end_object(reader)?;
    Ok(code)
}

/// Code with scope, from the JSON value after `$code` and the value after `$scope`.
#[tactic(auto, using(crate::proofs::MemberLemmas::scope_steps))]
fn code_with_scope(alloc: Global, code: &json::Value<'_>, scope: Value) -> Read<Value>
    ensures { Gives tree_of result
        (with_scope (as_str (value_view code.now)) (Some (tree_of scope))) }
{
    let text = code.as_str().ok_or(Trouble::Refused)?;
    let scope = document_of(scope).ok_or(Trouble::Refused)?;
    Ok(Value::CodeScope(String::from_str(alloc, text)?, scope))
}

/// One JSON value inside a wrapper.
fn read_part<'a>(alloc: Global, reader: &mut Reader<'a>, depth: usize) -> Read<json::Value<'a>>
    ensures gives { Gives (λ v. (value_view v, reader.new)) result (value depth reader.old) }
    ensures shorter { OnOk result (length reader.new < length reader.old) }
{
    match json::Value::read(alloc, reader, depth) {
        Ok(part) => Ok(part),
        Err(json::Error::OutOfMemory) => Err(Trouble::Memory),
        Err(_) => Err(Trouble::Refused),
    }
}

/// The brace that ends an object.
pub(crate) fn end_object(reader: &mut Reader<'_>) -> Read<()>
    ensures ended { OnOk result (read_key reader.old ≡ Some (None, reader.new)) }
    ensures refused { IfErr result (λ e. (e ≡ troubles.Refused)
        × ((r : List JsonToken) → read_key reader.old ≢ Some (None, r))) }
    ensures shorter { OnOk result (length reader.new < length reader.old) }
{
    match reader.next_key()? {
        None => Ok(()),
        Some(_) => Err(Trouble::Refused),
    }
}

/// A bare whole number: an Int32 if it fits, else an Int64. None if it is not a whole number of 64 bits.
pub fn bare_number(text: &str) -> Option<Value>
    ensures { option_map tree_of result ≡ bare_number (whole_64 text.now) }
{
    let number = whole(text)?;
    match i32::try_from(number) {
        Ok(small) => Some(Value::Int32(small)),
        Err(_) => Some(Value::Int64(number)),
    }
}
