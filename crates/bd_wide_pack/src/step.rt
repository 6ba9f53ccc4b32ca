//! A document with doubles and decimal128, from two documents that have other values for them, in step.

ghost use Rattle.std.specs.Prelude.{◌≡◌, ◌++◌, ◌∷◌, ◌↔◌, [], ℕ, List, Ok, IfOk, IfSome, IfNone, IsTrue, MatchOption, OnOk, pos, true, false};
ghost use Rattle.bd_value.specs.declared.node.Kind.TheVariants as kinds;
ghost use Rattle.bd_value.specs.Tree as trees;
ghost use Rattle.bd_value.specs.Tree.{Doc, Fields, leaf, doc, code_scope, fields_of, int32};
ghost use Rattle.bd_value.specs.View.{kind_of};
ghost use Rattle.bd_bson_view.specs.Raw.{value_tree, value_source, remaining_pairs, elements_source};
ghost use Rattle.bd_bson_view.specs.Spelling.{IsDocument, IsValue, framed, is_holder, string};
ghost use Rattle.bd_wide_number.specs.declared.number.Number.TheVariants.{Whole, Double, Decimal128};
ghost use Rattle.bd_wide_pack.specs.Filled.{AreFilled};
ghost use Rattle.bd_wide_pack.specs.Written.{IsWritten};
ghost use Rattle.bd_wide_pack.specs.inside.Mixed.{AreMixed, AreUnlike, HasName, IsMixed, IsPut, IsUnlike};

use bd_bson_view::{Elements, RawDoc, RawValue, raw_parts, type_byte};
use bd_value::{Kind, NoMemory, Node, Reading, Scalar};
use bd_wide::{append_long, append_number, seal};
use bd_wide_number::Number;

/// The bytes of both documents.
#[derive(Clone, Copy)]
struct Sources<'a> {
    wholes: &'a [u8],
    texts: &'a [u8],
}

/// Appends the document with the numbers, where the two documents have the int32 0 and the empty text. False if they differ in
/// another way, or in another number of places.
pub fn mix(
    wholes: &[u8],
    texts: &[u8],
    numbers: &[Number],
    out: &mut Vec<u8>,
) -> Result<bool, NoMemory>
    requires wholes { (w : Doc) × IsDocument w wholes.now }
    requires texts { (t : Doc) × IsDocument t texts.now }
    ensures mixed { (w t : Doc) → IsDocument w wholes.now → IsDocument t texts.now
        → result ≡ Ok true → (d : Doc) × (bytes : List ℕ)
        × AreFilled (fields_of d) (fields_of w) (fields_of t) numbers.now []
        × IsWritten (doc (fields_of d)) bytes
        × (out.new.items ≡ out.old.items ++ bytes) }
    ensures unlike { (w t : Doc) → IsDocument w wholes.now → IsDocument t texts.now
        → result ≡ Ok false → (fs : Fields)
        → AreFilled fs (fields_of w) (fields_of t) numbers.now [] → ⊥ }
{
    let sources = Sources { wholes, texts };
    let whole = RawDoc::whole(wholes).elements();
    let text = RawDoc::whole(texts).elements();
    let Some(rest) = body(true, whole, text, sources, numbers, out)? else {
        return Ok(false);
    };
    Ok(rest.is_empty())
}

/// Appends a document or an array of the elements of both with the numbers, and returns the numbers that remain; None if the
/// elements differ in another way.
#[cycle(mixing)]
fn body<'a>(
    named: bool,
    wholes: Elements<'_>,
    texts: Elements<'_>,
    sources: Sources<'_>,
    numbers: &'a [Number],
    out: &mut Vec<u8>,
) -> Result<Option<&'a [Number]>, NoMemory>
    requires { (elements_source wholes ≡ sources.wholes.now)
        × (elements_source texts ≡ sources.texts.now) }
    ensures { IfOk result (λ o. MatchOption o
        (AreUnlike named (remaining_pairs wholes.entry)
        (remaining_pairs texts.entry) numbers.entry.now)
        (λ rest. (bytes : List ℕ)
        × AreMixed named 0 (remaining_pairs wholes.entry)
        (remaining_pairs texts.entry) numbers.entry.now rest.now bytes
        × (out.new.items ≡ out.old.items ++ framed bytes))) }
{
    let at = out.len();
    out.extend_from_slice(b"\0\0\0\0")?;
    let Some(rest) = elements(named, wholes, texts, sources, numbers, out)? else {
        return Ok(None);
    };
    out.push(0)?;
    seal(at, out);
    Ok(Some(rest))
}

/// Appends the elements of both with the numbers, and returns the numbers that remain; None if they differ in another way.
#[cycle(mixing)]
fn elements<'a>(
    named: bool,
    wholes: Elements<'_>,
    texts: Elements<'_>,
    sources: Sources<'_>,
    numbers: &'a [Number],
    out: &mut Vec<u8>,
) -> Result<Option<&'a [Number]>, NoMemory>
    requires { (elements_source wholes ≡ sources.wholes.now)
        × (elements_source texts ≡ sources.texts.now) }
    ensures { IfOk result (λ o. MatchOption o
        (AreUnlike named (remaining_pairs wholes.entry)
        (remaining_pairs texts.entry) numbers.entry.now)
        (λ rest. (bytes : List ℕ)
        × AreMixed named 0 (remaining_pairs wholes.entry)
        (remaining_pairs texts.entry) numbers.entry.now rest.now bytes
        × (out.new.items ≡ out.old.items ++ bytes))) }
{
    let mut whole_rest = wholes;
    let mut text_rest = texts;
    let mut rest = numbers;
    let mut index = 0usize;
    while let Some((name, whole, whole_after)) = whole_rest.next() {
        let Some((other, text, text_after)) = text_rest.next() else {
            return Ok(None);
        };
        if names_differ(named, name, other) {
            return Ok(None);
        }
        let mut digits = itoa::Buffer::new();
        let under = name_of(named, name, index, &mut digits);
        let Some(more) = value(under, whole, text, sources, rest, out)? else {
            return Ok(None);
        };
        rest = more;
        index += 1;
        whole_rest = whole_after;
        text_rest = text_after;
    }
    match text_rest.next() {
        Some(_) => Ok(None),
        None => Ok(Some(rest)),
    }
}

/// The name of an element: of an array it is the index in decimal.
fn name_of<'a>(named: bool, name: &'a str, index: usize, digits: &'a mut itoa::Buffer) -> &'a str
    ensures { HasName named index name.now result.now }
{
    if named { name } else { digits.format(index) }
}

/// Whether two names differ, where they matter.
fn names_differ(named: bool, name: &str, other: &str) -> bool
    ensures same { result ≡ false → named ≡ true → name.now ≡ other.now }
    ensures differ { result ≡ true → (named ≡ true) × (name.now ≡ other.now → ⊥) }
{
    named && name != other
}

/// Appends an element with the value of both, or with the next number, and returns the numbers that remain; None if they differ
/// in another way.
#[cycle(mixing)]
fn value<'a>(
    name: &str,
    whole: RawValue<'_>,
    text: RawValue<'_>,
    sources: Sources<'_>,
    numbers: &'a [Number],
    out: &mut Vec<u8>,
) -> Result<Option<&'a [Number]>, NoMemory>
    requires { (value_source whole ≡ sources.wholes.now) × (value_source text ≡ sources.texts.now) }
    ensures { IfOk result (λ o. MatchOption o
        (IsUnlike (value_tree whole.entry) (value_tree text.entry) numbers.entry.now)
        (λ rest. IsMixed name.now (value_tree whole.entry) (value_tree text.entry)
        numbers.entry.now rest.now
        out.old.items out.new.items)) }
{
    match whole.kind() {
        Kind::Doc => document(name, whole, text, sources, numbers, out),
        Kind::Array => array(name, whole, text, sources, numbers, out),
        Kind::CodeScope => scoped(name, whole, text, sources, numbers, out),
        kind => scalar(kind, name, whole, text, sources, numbers, out),
    }
}

/// The same, if the first value is a document.
#[cycle(mixing)]
fn document<'a>(
    name: &str,
    whole: RawValue<'_>,
    text: RawValue<'_>,
    sources: Sources<'_>,
    numbers: &'a [Number],
    out: &mut Vec<u8>,
) -> Result<Option<&'a [Number]>, NoMemory>
    requires { (value_source whole ≡ sources.wholes.now)
        × (value_source text ≡ sources.texts.now)
        × (kind_of (value_tree whole) ≡ kinds.Doc) }
    ensures { IfOk result (λ o. MatchOption o
        (IsUnlike (value_tree whole.entry) (value_tree text.entry) numbers.entry.now)
        (λ rest. IsMixed name.now (value_tree whole.entry) (value_tree text.entry)
        numbers.entry.now rest.now out.old.items out.new.items)) }
{
    let Kind::Doc = text.kind() else {
        return Ok(None);
    };
    put_name(type_byte(Kind::Doc), name, out)?;
    let (wholes, texts) = (whole.parts(), text.parts());
    let Some(rest) = body(true, wholes, texts, sources, numbers, out)? else {
        return Ok(None);
    };
    Ok(Some(rest))
}

/// The same, if the first value is an array.
#[cycle(mixing)]
fn array<'a>(
    name: &str,
    whole: RawValue<'_>,
    text: RawValue<'_>,
    sources: Sources<'_>,
    numbers: &'a [Number],
    out: &mut Vec<u8>,
) -> Result<Option<&'a [Number]>, NoMemory>
    requires { (value_source whole ≡ sources.wholes.now)
        × (value_source text ≡ sources.texts.now)
        × (kind_of (value_tree whole) ≡ kinds.Array) }
    ensures { IfOk result (λ o. MatchOption o
        (IsUnlike (value_tree whole.entry) (value_tree text.entry) numbers.entry.now)
        (λ rest. IsMixed name.now (value_tree whole.entry) (value_tree text.entry)
        numbers.entry.now rest.now out.old.items out.new.items)) }
{
    let Kind::Array = text.kind() else {
        return Ok(None);
    };
    put_name(type_byte(Kind::Array), name, out)?;
    let (wholes, texts) = (whole.parts(), text.parts());
    let Some(rest) = body(false, wholes, texts, sources, numbers, out)? else {
        return Ok(None);
    };
    Ok(Some(rest))
}

/// The same, if the first value is code with scope.
#[cycle(mixing)]
fn scoped<'a>(
    name: &str,
    whole: RawValue<'_>,
    text: RawValue<'_>,
    sources: Sources<'_>,
    numbers: &'a [Number],
    out: &mut Vec<u8>,
) -> Result<Option<&'a [Number]>, NoMemory>
    requires { (value_source whole ≡ sources.wholes.now)
        × (value_source text ≡ sources.texts.now)
        × (kind_of (value_tree whole) ≡ kinds.CodeScope) }
    ensures { IfOk result (λ o. MatchOption o
        (IsUnlike (value_tree whole.entry) (value_tree text.entry) numbers.entry.now)
        (λ rest. IsMixed name.now (value_tree whole.entry) (value_tree text.entry)
        numbers.entry.now rest.now out.old.items out.new.items)) }
{
    let Some((code, wholes)) = code_and_scope(whole) else {
        return Ok(None);
    };
    let Some((other, texts)) = code_and_scope(text) else {
        return Ok(None);
    };
    if names_differ(true, code, other) {
        return Ok(None);
    }
    put_name(type_byte(Kind::CodeScope), name, out)?;
    let at = out.len();
    put_code(code, out)?;
    let Some(rest) = body(true, wholes, texts, sources, numbers, out)? else {
        return Ok(None);
    };
    seal(at, out);
    Ok(Some(rest))
}

/// The code and the elements of the scope of code with scope.
fn code_and_scope(value: RawValue<'_>) -> Option<(&str, Elements<'_>)>
    ensures some { IfSome result (λ x.
        value_tree value.entry ≡ code_scope x.0.now (fields_of (remaining_pairs x.1))) }
    ensures same_source { IfSome result (λ x. elements_source x.1 ≡ value_source value.entry) }
    ensures none { IfNone result ((s : List ℕ) (fs : Fields)
        → value_tree value.entry ≡ code_scope s fs → ⊥) }
{
    let scope = value.scope()?;
    let elements = scope.elements()?;
    match value.scalar() {
        Some(Scalar::CodeScope(code)) => Some((code, elements)),
        _ => None,
    }
}

/// The same, if the first value contains no other.
fn scalar<'a>(
    kind: Kind,
    name: &str,
    whole: RawValue<'_>,
    text: RawValue<'_>,
    sources: Sources<'_>,
    numbers: &'a [Number],
    out: &mut Vec<u8>,
) -> Result<Option<&'a [Number]>, NoMemory>
    requires sources { (value_source whole ≡ sources.wholes.now)
        × (value_source text ≡ sources.texts.now) }
    requires kind { kind_of (value_tree whole) ≡ kind }
    requires scalar { is_holder kind ≡ false }
    ensures { IfOk result (λ o. MatchOption o
        (IsUnlike (value_tree whole.entry) (value_tree text.entry) numbers.entry.now)
        (λ rest. IsMixed name.now (value_tree whole.entry) (value_tree text.entry)
        numbers.entry.now rest.now out.old.items out.new.items)) }
{
    if let Some(bytes) = same_bytes(kind, whole, text, sources) {
        put_name(type_byte(kind), name, out)?;
        out.extend_from_slice(bytes)?;
        return Ok(Some(numbers));
    }
    let Some((number, rest)) = next_number(whole, text, numbers) else {
        return Ok(None);
    };
    put_number(name, number, out)?;
    Ok(Some(rest))
}

/// The bytes of the scalar that both values are.
fn same_bytes<'a>(
    kind: Kind,
    whole: RawValue<'_>,
    text: RawValue<'_>,
    sources: Sources<'a>,
) -> Option<&'a [u8]>
    requires sources { (value_source whole ≡ sources.wholes.now)
        × (value_source text ≡ sources.texts.now) }
    requires kind { kind_of (value_tree whole) ≡ kind }
    requires scalar { is_holder kind ≡ false }
    ensures some { IfSome result (λ bytes. (value_tree text.entry ≡ value_tree whole.entry)
        × IsValue (value_tree whole.entry) bytes.now) }
    ensures none { IfNone result (value_tree text.entry ≡ value_tree whole.entry → ⊥) }
{
    if text.kind() != kind {
        return None;
    }
    let bytes = spelled(sources.wholes, whole);
    let other = spelled(sources.texts, text);
    if other != bytes {
        return None;
    }
    Some(bytes)
}

/// The next number and those after it, if one value is the int32 0 and the other the empty text.
fn next_number<'a>(
    whole: RawValue<'_>,
    text: RawValue<'_>,
    numbers: &'a [Number],
) -> Option<(Number, &'a [Number])>
    ensures some { IfSome result (λ r. (value_tree whole.entry ≡ leaf (int32 (pos 0)))
        × (value_tree text.entry ≡ leaf (trees.text [])) × (numbers.entry.now ≡ r.0 ∷ r.1.now)) }
    ensures none { IfNone result (value_tree whole.entry ≡ leaf (int32 (pos 0))
        → value_tree text.entry ≡ leaf (trees.text []) → numbers.entry.now ≡ []) }
{
    if !is_zero(whole) || !is_empty_text(text) {
        return None;
    }
    match numbers {
        [number, rest @ ..] => Some((*number, rest)),
        [] => None,
    }
}

/// Whether a value is the int32 0.
fn is_zero(value: RawValue<'_>) -> bool
    ensures { IsTrue result ↔ (value_tree value.entry ≡ leaf (int32 (pos 0))) }
{
    matches!(value.scalar(), Some(Scalar::Int32(0)))
}

/// Whether a value is the empty text.
fn is_empty_text(value: RawValue<'_>) -> bool
    ensures { IsTrue result ↔ (value_tree value.entry ≡ leaf (trees.text [])) }
{
    match value.scalar() {
        Some(Scalar::Text(contents)) => contents.is_empty(),
        _ => false,
    }
}

/// The bytes of a value, after its type and its name.
fn spelled<'a>(bytes: &'a [u8], value: RawValue<'_>) -> &'a [u8]
    requires { value_source value ≡ bytes.now }
    ensures { IsValue (value_tree value.entry) result.now }
{
    let at = value.at();
    let (_, here) = bytes.split_at(at.start as usize);
    let (content, _) = here.split_at(raw_parts::size(value.kind(), here));
    content
}

/// Appends the beginning of an element: its type, its name and a zero.
fn put_name(type_byte: u8, name: &str, out: &mut Vec<u8>) -> Result<(), NoMemory>
    ensures { OnOk result (out.new.items ≡ out.old.items ++ (type_byte ∷ (name.now ++ 0 ∷ []))) }
{
    out.push(type_byte)?;
    out.extend_from_slice(name.as_bytes())?;
    out.push(0)?;
    Ok(())
}

/// Appends an element that is a number.
fn put_number(name: &str, number: Number, out: &mut Vec<u8>) -> Result<(), NoMemory>
    ensures { OnOk result (IsPut number name.now out.old.items out.new.items) }
{
    match number {
        Number::Whole(z) => put_whole(name, z, out),
        Number::Double(bits) => put_double(name, bits, out),
        Number::Decimal128(low, high) => put_decimal128(name, low, high, out),
    }
}

/// Appends an element that is an int64.
fn put_whole(name: &str, z: i64, out: &mut Vec<u8>) -> Result<(), NoMemory>
    ensures { OnOk result (IsPut (Whole z) name.now out.old.items out.new.items) }
{
    put_name(0x12, name, out)?;
    append_long(z.cast_unsigned(), out)?;
    Ok(())
}

/// Appends an element that is a double.
fn put_double(name: &str, bits: u64, out: &mut Vec<u8>) -> Result<(), NoMemory>
    ensures { OnOk result (IsPut (Double bits) name.now out.old.items out.new.items) }
{
    put_name(0x01, name, out)?;
    append_long(bits, out)?;
    Ok(())
}

/// Appends an element that is a decimal128.
fn put_decimal128(name: &str, low: u64, high: u64, out: &mut Vec<u8>) -> Result<(), NoMemory>
    ensures { OnOk result (IsPut (Decimal128 low high) name.now out.old.items out.new.items) }
{
    put_name(0x13, name, out)?;
    append_long(low, out)?;
    append_long(high, out)?;
    Ok(())
}

/// Appends a code with its length, after four bytes for the length of all.
fn put_code(code: &str, out: &mut Vec<u8>) -> Result<(), NoMemory>
    ensures { OnOk result (out.new.items
        ≡ out.old.items ++ (0 ∷ 0 ∷ 0 ∷ 0 ∷ string code.now)) }
{
    out.extend_from_slice(b"\0\0\0\0")?;
    append_number(code.len() as u64 + 1, out)?;
    out.extend_from_slice(code.as_bytes())?;
    out.push(0)?;
    Ok(())
}
