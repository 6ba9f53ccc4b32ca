//! Values written as bytes: nested values, scalars, and the parts of these; and why a document is not written.

ghost use Rattle.std.specs.Prelude.{◌≡◌, ◌≤◌, ◌+◌, ◌-◌, ◌++◌, ◌∷◌, [], length, take, drop, vec_len, decimal, false, IfErr, OnErr, OnOk};
ghost use Rattle.std.specs.Io.{StartsWith};
ghost use Rattle.bd_value.specs.Limits.{longest_document};
ghost use Rattle.bd_value.specs.View.{view_of};
ghost use Rattle.bd_value.specs.Tree.{fields_of, items_of, values_of, HasNoParts};
ghost use Rattle.bd_value.specs.Fits.{zero_in_leaf, has_zero, zero_in, zero_in_fields, zero_in_items};
ghost use Rattle.bd_bson_view.specs.Spelling.{type_byte as byte_of, number, long, string, data_of, framed, element, IsName, IsValue, AreFields, AreItems};
ghost use Rattle.bd_bson_write.specs.TreeBytes.{LeafSpells, OverrunsLimit, bytes_of, fields_bytes, items_bytes, leaf_bytes};

use bd_bson_view::type_byte;
use bd_value::{Kind, LONGEST_DOCUMENT, NoMemory, Reading, Scalar};
use std::alloc::AllocError;
use thiserror::Error;

/// Why a document was not written.
#[derive(Debug, Clone, Copy, Drop, PartialEq, Eq, Error)]
pub enum WriteFault {
    /// It nests deeper than 200 levels.
    #[error("too deep")]
    TooDeep = 1,
    /// A name, or a text of a regular expression, contains a zero.
    #[error("zero in a name")]
    NulInName = 2,
    /// It has more than 16,793,600 bytes.
    #[error("document too long")]
    TooLong = 3,
    /// Memory ran out.
    #[error("no memory")]
    NoMemory = 4,
}

impl From<AllocError> for WriteFault {
    ghost use Rattle.bd_bson_write.specs.declared.writing.WriteFault.TheVariants.{NoMemory as no_memory};

    ghost from_gives = { λ _ f. f ≡ no_memory };

    fn from(_error: AllocError) -> WriteFault {
        WriteFault::NoMemory
    }
}

/// Appends the bytes of a value. The names of an array's elements are their indexes from 0.
#[cycle(writing)]
#[tactic(auto, using(bd_value::proofs::PrefixLemmas::prefixes))]
pub(crate) fn put_value<N: Reading>(node: N, out: &mut Vec<u8>) -> Result<(), WriteFault>
    requires { zero_in (N.tree node) ≡ false }
    ensures ok { OnOk result (out.new.items ≡ out.old.items ++ bytes_of (N.tree node)) }
    ensures spells { OnOk result (IsValue (N.tree node) (bytes_of (N.tree node))) }
    ensures fault { IfErr result
        (OverrunsLimit (length out.old.items + length (bytes_of (N.tree node)))) }
    ensures prefix { OnErr result (StartsWith out.new.items out.old.items) }
{
    match node.kind() {
        Kind::Doc => append_fields::<N>(node.parts(), out),
        Kind::Array => append_items::<N>(node.parts(), out),
        _ => append_leaf(node, out),
    }
}

/// Appends the document of these pairs.
#[cycle(writing)]
#[tactic(auto, using(bd_value::proofs::PrefixLemmas::prefixes))]
fn append_fields<N: Reading>(fields: N::Rest, out: &mut Vec<u8>) -> Result<(), WriteFault>
    requires { zero_in_fields (fields_of (N.remaining fields)) ≡ false }
    ensures ok { OnOk result (out.new.items
        ≡ out.old.items ++ framed (fields_bytes (fields_of (N.remaining fields)))) }
    ensures spells { OnOk result (AreFields
        (fields_of (N.remaining fields)) (fields_bytes (fields_of (N.remaining fields)))) }
    ensures fault { IfErr result (OverrunsLimit (length out.old.items
        + length (framed (fields_bytes (fields_of (N.remaining fields)))))) }
    ensures prefix { OnErr result (StartsWith out.new.items out.old.items) }
{
    let at = out.len();
    append_number(0, out)?;
    let mut rest = fields;
    while let Some(next) = N::next(&rest) {
        append_element(next.0, next.1, out)?;
        rest = next.2;
    }
    out.extend_from_slice(b"\0")?;
    seal(at, out)
}

/// Appends the array of these elements, whose names are their indexes from 0.
#[cycle(writing)]
#[tactic(auto, using(bd_value::proofs::PrefixLemmas::prefixes))]
fn append_items<N: Reading>(items: N::Rest, out: &mut Vec<u8>) -> Result<(), WriteFault>
    requires { zero_in_items (items_of (values_of (N.remaining items))) ≡ false }
    ensures ok { OnOk result (out.new.items
        ≡ out.old.items ++ framed (items_bytes 0 (items_of (values_of (N.remaining items))))) }
    ensures spells { OnOk result (AreItems (items_of (values_of (N.remaining items)))
        (items_bytes 0 (items_of (values_of (N.remaining items))))) }
    ensures fault { IfErr result (OverrunsLimit (length out.old.items
        + length (framed (items_bytes 0 (items_of (values_of (N.remaining items))))))) }
    ensures prefix { OnErr result (StartsWith out.new.items out.old.items) }
{
    let at = out.len();
    append_number(0, out)?;
    let mut index: u32 = 0;
    let mut rest = items;
    while let Some(next) = N::next(&rest) {
        let mut digits = itoa::Buffer::new();
        append_element(digits.format(index), next.1, out)?;
        index += 1;
        rest = next.2;
    }
    out.extend_from_slice(b"\0")?;
    seal(at, out)
}

/// Appends an element: its type, its name and its value.
#[cycle(writing)]
#[tactic(auto, using(bd_value::proofs::PrefixLemmas::prefixes))]
fn append_element<N: Reading>(name: &str, node: N, out: &mut Vec<u8>) -> Result<(), WriteFault>
    requires name { has_zero name.now ≡ false }
    requires zero { zero_in (N.tree node) ≡ false }
    ensures ok { OnOk result
        ((out.new.items ≡ out.old.items ++ element (N.tree node) name.now (bytes_of (N.tree node)))
        × (length out.old.items ≤ longest_document)) }
    ensures spells { OnOk result (IsName name.now
        × IsValue (N.tree node) (bytes_of (N.tree node))) }
    ensures fault { IfErr result (OverrunsLimit (length out.old.items
        + length (element (N.tree node) name.now (bytes_of (N.tree node))))) }
    ensures prefix { OnErr result (StartsWith out.new.items out.old.items) }
{
    append_label(node.kind(), name, out)?;
    put_value(node, out)
}

/// Appends a value that is neither a document nor an array. Code with scope begins with the count of its bytes.
#[cycle(writing)]
#[tactic(auto, using(bd_value::proofs::PrefixLemmas::prefixes))]
fn append_leaf<N: Reading>(node: N, out: &mut Vec<u8>) -> Result<(), WriteFault>
    requires kind { HasNoParts (N.tree node) }
    requires zero { zero_in (N.tree node) ≡ false }
    ensures ok { OnOk result (out.new.items ≡ out.old.items ++ bytes_of (N.tree node)) }
    ensures spells { OnOk result (IsValue (N.tree node) (bytes_of (N.tree node))) }
    ensures fault { IfErr result
        (OverrunsLimit (length out.old.items + length (bytes_of (N.tree node)))) }
    ensures prefix { OnErr result (StartsWith out.new.items out.old.items) }
{
    let Some(scalar_leaf) = node.leaf() else {
        unreachable!()
    };
    let Some(scope) = node.scope() else {
        return put_scalar(scalar_leaf, out);
    };
    let at = out.len();
    append_number(0, out)?;
    put_scalar(scalar_leaf, out)?;
    put_value(scope, out)?;
    seal(at, out)
}

/// Appends what precedes an element's value, its type and its name: BSON 1.1, `element`.
///
/// # Errors
/// `WriteFault::TooLong` if there are more than 16,793,600 bytes before it; `WriteFault::NoMemory`. In both cases `out` is
/// unchanged.
#[inline(always)]
pub fn append_label(kind: Kind, name: &str, out: &mut Vec<u8>) -> Result<(), WriteFault>
    ensures ok { OnOk result ((out.new.items ≡ out.old.items
        ++ (byte_of kind ∷ (name.now ++ 0 ∷ []))) × (length out.old.items ≤ longest_document)) }
    ensures fault { IfErr result (OverrunsLimit (length out.old.items)) }
    ensures err { OnErr result (out.new.items ≡ out.old.items) }
{
    let before = out.len();
    if before > LONGEST_DOCUMENT {
        return Err(WriteFault::TooLong);
    }
    out.extend_from_slice(&[type_byte(kind)])?;
    if write_name(name, out).is_err() {
        out.truncate(before);
        return Err(WriteFault::NoMemory);
    }
    Ok(())
}

/// Puts the count of the bytes from an offset on into the four bytes at that offset.
#[tactic(auto, unfolding(bd_bson_view::specs::Spelling::number))]
pub(crate) fn seal(at: usize, out: &mut Vec<u8>) -> Result<(), WriteFault>
    requires { at + 4 ≤ vec_len out.old }
    ensures ok { OnOk result (out.new.items ≡ take at out.old.items
        ++ (number (length out.old.items - at) ++ drop (at + 4) out.old.items)) }
    ensures within { OnOk result (length out.new.items ≤ longest_document) }
    ensures fault { IfErr result (OverrunsLimit (length out.old.items)) }
    ensures err { OnErr result (out.new.items ≡ out.old.items) }
{
    if out.len() > LONGEST_DOCUMENT {
        return Err(WriteFault::TooLong);
    }
    let length = (out.len() - at) as u32;
    let bytes: &mut [u8] = out;
    bytes[at..at + 4].copy_from_slice(&length.to_le_bytes());
    Ok(())
}

/// Appends the bytes of a scalar, or of the code of code with scope: BSON 1.1, the values of `element`.
///
/// # Errors
/// `WriteFault::TooLong` if a text or data has more than 16,793,600 bytes; `WriteFault::NoMemory`. In both cases `out` is
/// unchanged.
#[inline(always)]
pub fn write_scalar(scalar: Scalar<'_>, out: &mut Vec<u8>) -> Result<(), WriteFault>
    requires { zero_in_leaf (view_of scalar) ≡ false }
    ensures ok { OnOk result (out.new.items ≡ out.old.items ++ leaf_bytes (view_of scalar.entry)) }
    ensures spells { OnOk result (LeafSpells (view_of scalar.entry)) }
    ensures fault { IfErr result
        (OverrunsLimit (length out.old.items + length (leaf_bytes (view_of scalar.entry)))) }
    ensures err { OnErr result (out.new.items ≡ out.old.items) }
{
    let before = out.len();
    let written = put_scalar(scalar, out);
    if written.is_err() {
        out.truncate(before);
    }
    written
}

/// The same, but on an error `out` may end with some of the bytes.
#[inline(always)]
#[tactic(auto, using(bd_value::proofs::PrefixLemmas::prefixes))]
fn put_scalar(scalar: Scalar<'_>, out: &mut Vec<u8>) -> Result<(), WriteFault>
    requires { zero_in_leaf (view_of scalar) ≡ false }
    ensures ok { OnOk result (out.new.items ≡ out.old.items ++ leaf_bytes (view_of scalar.entry)) }
    ensures spells { OnOk result (LeafSpells (view_of scalar.entry)) }
    ensures fault { IfErr result
        (OverrunsLimit (length out.old.items + length (leaf_bytes (view_of scalar.entry)))) }
    ensures prefix { OnErr result (StartsWith out.new.items out.old.items) }
{
    match scalar {
        Scalar::MinKey | Scalar::Undefined | Scalar::Null | Scalar::MaxKey => {}
        Scalar::Int32(number) => append_number(number.cast_unsigned(), out)?,
        Scalar::Int64(number) | Scalar::Date(number) => append_long(number.cast_unsigned(), out)?,
        Scalar::Timestamp { seconds, increment } => {
            append_number(increment, out)?;
            append_number(seconds, out)?;
        }
        Scalar::Bool(truth) => out.extend_from_slice(&[u8::from(truth)])?,
        Scalar::ObjectId(id) => out.extend_from_slice(&id)?,
        Scalar::Text(text) | Scalar::Symbol(text) | Scalar::Code(text) | Scalar::CodeScope(text) =>
            { append_string(text, out)? }
        Scalar::DbPointer { space, id } => {
            append_string(space, out)?;
            out.extend_from_slice(&id)?;
        }
        Scalar::Regex { pattern, options } => {
            write_name(pattern, out)?;
            write_name(options, out)?;
        }
        Scalar::Binary { subtype, payload } => append_binary(subtype, payload, out)?,
    }
    Ok(())
}

/// Appends binary data: BSON 1.1, `binary`, the count of the bytes, the subtype, the bytes.
///
/// # Errors
/// `WriteFault::TooLong` if there are more than 16,793,600 bytes; `WriteFault::NoMemory`. In both cases `out` may end with some
/// of the bytes.
#[tactic(auto, using(bd_value::proofs::PrefixLemmas::prefixes))]
fn append_binary(subtype: u8, payload: &[u8], out: &mut Vec<u8>) -> Result<(), WriteFault>
    ensures ok { OnOk result
        ((out.new.items ≡ out.old.items
        ++ (number (length (data_of subtype payload.now)) ++ subtype ∷ data_of subtype payload.now))
        × (length (data_of subtype payload.now) ≤ 16793604)) }
    ensures fault { IfErr result
        (OverrunsLimit (length out.old.items + length
        (number (length (data_of subtype payload.now)) ++ subtype ∷ data_of subtype payload.now))) }
    ensures prefix { OnErr result (StartsWith out.new.items out.old.items) }
{
    if payload.len() > LONGEST_DOCUMENT {
        return Err(WriteFault::TooLong);
    }
    append_number(data_length(subtype, payload), out)?;
    out.extend_from_slice(&[subtype])?;
    Ok(write_data(subtype, payload, out)?)
}

/// The data of `binary`.
#[tactic(auto, using(bd_value::proofs::PrefixLemmas::prefixes))]
fn write_data(subtype: u8, payload: &[u8], out: &mut Vec<u8>) -> Result<(), NoMemory>
    requires { length payload.now ≤ longest_document }
    ensures ok { OnOk result (out.new.items ≡ out.old.items ++ data_of subtype payload.now) }
    ensures prefix { OnErr result (StartsWith out.new.items out.old.items) }
{
    if subtype == 2 {
        append_number(payload.len() as u32, out)?;
    }
    out.extend_from_slice(payload)
}

/// How many bytes the data of `binary` has: of subtype 02 four more, the count of those after them.
#[tactic(auto, using(bd_bson_view::specs::Unique::number_length))]
fn data_length(subtype: u8, payload: &[u8]) -> u32
    requires { length payload.now ≤ longest_document }
    ensures { (result ≡ length (data_of subtype payload.now)) × (result ≤ 16793604) }
{
    let length = payload.len() as u32;
    if subtype == 2 { length + 4 } else { length }
}

/// Appends a text: BSON 1.1, `string`, the length with the zero at the end, the text, the zero.
///
/// # Errors
/// `WriteFault::TooLong` if the text has more than 16,793,600 bytes; `WriteFault::NoMemory`. In both cases `out` may end with
/// some of the bytes.
#[tactic(auto, using(bd_value::proofs::PrefixLemmas::prefixes))]
#[inline(always)]
fn append_string(text: &str, out: &mut Vec<u8>) -> Result<(), WriteFault>
    ensures ok { OnOk result ((out.new.items ≡ out.old.items ++ string text.now)
        × (length text.now ≤ longest_document)) }
    ensures fault { IfErr result (OverrunsLimit (length out.old.items + length (string text.now))) }
    ensures prefix { OnErr result (StartsWith out.new.items out.old.items) }
{
    if text.len() > LONGEST_DOCUMENT {
        return Err(WriteFault::TooLong);
    }
    append_number(text.len() as u32 + 1, out)?;
    Ok(write_name(text, out)?)
}

/// `cstring`.
#[tactic(auto, using(bd_value::proofs::PrefixLemmas::prefixes))]
#[inline(always)]
fn write_name(name: &str, out: &mut Vec<u8>) -> Result<(), NoMemory>
    ensures ok { OnOk result (out.new.items ≡ out.old.items ++ (name.now ++ 0 ∷ [])) }
    ensures prefix { OnErr result (StartsWith out.new.items out.old.items) }
{
    out.extend_from_slice(name.as_bytes())?;
    out.extend_from_slice(b"\0")
}

/// Appends eight bytes, least first: BSON 1.1, `int64`.
///
/// # Errors
/// `NoMemory`: memory ran out, and `out` is unchanged.
#[inline(always)]
#[tactic(auto, unfolding(bd_bson_view::specs::Spelling::long))]
fn append_long(n: u64, out: &mut Vec<u8>) -> Result<(), NoMemory>
    ensures ok { OnOk result (out.new.items ≡ out.old.items ++ long n) }
    ensures err { OnErr result (out.new.items ≡ out.old.items) }
{
    out.extend_from_slice(&n.to_le_bytes())
}

/// Appends four bytes, least first: BSON 1.1, `int32`.
///
/// # Errors
/// `NoMemory`: memory ran out, and `out` is unchanged.
#[inline(always)]
#[tactic(auto, unfolding(bd_bson_view::specs::Spelling::number))]
pub(crate) fn append_number(n: u32, out: &mut Vec<u8>) -> Result<(), NoMemory>
    ensures ok { OnOk result (out.new.items ≡ out.old.items ++ number n) }
    ensures err { OnErr result (out.new.items ≡ out.old.items) }
{
    out.extend_from_slice(&n.to_le_bytes())
}
