//! The text of a document, and its line: the text and a newline.

ghost use Rattle.std.specs.Prelude.{◌≡◌, ◌≢◌, ◌≤◌, ◌+◌, ◌++◌, ℕ, List, None, length, take, drop, IfOk, OnErr};
ghost use Rattle.bd_value.specs.Limits.{longest_document};
ghost use Rattle.bd_value.specs.Tree.{Tree, array, doc};
ghost use Rattle.bd_value.specs.declared.node.Kind.TheVariants as kinds;
ghost use Rattle.bd_bson_view.specs.declared.raw_parts.ElementType.TheVariants.{Kept};
ghost use Rattle.bd_bson_check.specs.FirstFault.{fault_under};
ghost use Rattle.bd_bson_check.specs.declared.profile.Profile.TheVariants.{All};
ghost use Rattle.bd_wide_dump.specs.WideText.{IsLineOf, IsTextOfBytes};
ghost use Rattle.bd_wide_dump.specs.declared.format.JsonFormat.TheVariants.{Relaxed};
ghost use Rattle.bd_wide_dump.specs.Values.{values_in};
ghost use Rattle.bd_wide_dump.specs.inside.Begins.{AppendsText, HasElements, HasValue};

use crate::element::element_at;
use crate::format::JsonFormat;
use crate::number::{append_decimal128, put_double_there};
use crate::relaxed::{append_kind, append_relaxed};
use bd_bson_view::{ElementType, RawValue, raw_parts as parts};
use bd_extjson_text::{End, VALUE, append_few, append_led, append_name, append_separator};
use bd_value::{Kind, NoMemory};
use std::alloc::Global;

/// A buffer for one line after the other, each over the one before. It is allocated once, and grows if a line is longer.
#[derive(Debug, Drop)]
pub struct WideTextBuffer {
    buffer: Vec<u8>,
}

impl WideTextBuffer {
    /// An empty buffer.
    pub fn new(alloc: Global) -> WideTextBuffer {
        WideTextBuffer {
            buffer: Vec::new(alloc),
        }
    }

    /// The line of a document of all types, whose bytes have no fault: its text, Extended JSON v2 in this format, without
    /// white space, and a newline.
    ///
    /// `NoMemory` if the line does not fit and memory runs out.
    pub fn line(&mut self, format: JsonFormat, bytes: &[u8]) -> Result<&[u8], NoMemory>
        requires { (base : ℕ) × (fault_under All base bytes.now ≡ None) }
        ensures { IfOk result (λ line. IsLineOf format bytes.now line.now) }
    {
        let end = append_wide(format, bytes, &mut self.buffer, 0)?;
        let end = append_few(b"\n", &mut self.buffer, end)?;
        Ok(&self.buffer[..end])
    }
}

/// Appends the text of a document of all types, whose bytes have no fault, after the first `end` bytes of a buffer, and returns
/// where the text ends: Extended JSON v2 in this format, without white space. There is no newline after it.
///
/// On `NoMemory` those `end` bytes are unchanged.
#[inline(always)]
pub fn append_wide(format: JsonFormat, bytes: &[u8], buffer: &mut Vec<u8>, end: usize) -> End
    requires sound { (base : ℕ) × (fault_under All base bytes.now ≡ None) }
    requires buffer { end ≤ length buffer.old.items }
    ensures text { IfOk result (λ to. (text : List ℕ) × IsTextOfBytes format bytes.now text
        × (take to buffer.new.items ≡ take end buffer.old.items ++ text)) }
    ensures within { IfOk result (λ to. to ≤ length buffer.new.items) }
    ensures err { OnErr result (take end buffer.new.items ≡ take end buffer.old.items) }
{
    append_fields(format, bytes, 4, buffer, end)
}

/// Appends the text of the document of the elements at an offset. On `NoMemory` the first `end` bytes are unchanged, and so in
/// the functions below.
#[cycle(wide)]
#[inline(never)]
pub(crate) fn append_fields(
    format: JsonFormat,
    bytes: &[u8],
    start: usize,
    out: &mut Vec<u8>,
    end: usize,
) -> End
    requires short { length bytes.now ≤ longest_document }
    requires elements { HasElements (drop start bytes.now) }
    requires buffer { end ≤ length out.old.items }
    ensures text { (e : HasElements (drop start bytes.now)) → IfOk result (λ to.
        AppendsText format (doc e.fields) out.old.items end to out.new.items) }
    ensures err { OnErr result (take end out.new.items ≡ take end out.old.items) }
{
    let mut at = append_separator(true, b'{', out, end)?;
    let mut later = false;
    let mut next = start;
    while let Some(element) = element_at(bytes, next) {
        at = append_name(later, element.name, out, at)?;
        at = append_value(format, element.typed, bytes, element.start, out, at)?;
        later = true;
        next = element.next;
    }
    append_separator(true, b'}', out, at)
}

/// Appends the text of the array of the elements at an offset.
#[cycle(wide)]
#[inline(never)]
fn append_items(
    format: JsonFormat,
    bytes: &[u8],
    start: usize,
    out: &mut Vec<u8>,
    end: usize,
) -> End
    requires short { length bytes.now ≤ longest_document }
    requires elements { HasElements (drop start bytes.now) }
    requires buffer { end ≤ length out.old.items }
    ensures text { (e : HasElements (drop start bytes.now)) → IfOk result (λ to.
        AppendsText format (array (values_in e.fields)) out.old.items end to out.new.items) }
    ensures err { OnErr result (take end out.new.items ≡ take end out.old.items) }
{
    let mut at = append_separator(true, b'[', out, end)?;
    let mut later = false;
    let mut next = start;
    while let Some(element) = element_at(bytes, next) {
        at = append_separator(later, b',', out, at)?;
        at = append_value(format, element.typed, bytes, element.start, out, at)?;
        later = true;
        next = element.next;
    }
    append_separator(true, b']', out, at)
}

/// Appends the text of the value of that type at an offset. There is space for a short one.
#[cycle(wide)]
#[inline(always)]
pub(crate) fn append_value(
    format: JsonFormat,
    typed: ElementType,
    bytes: &[u8],
    start: usize,
    out: &mut Vec<u8>,
    end: usize,
) -> End
    requires short { length bytes.now ≤ longest_document }
    requires inside { start ≤ length bytes.now }
    requires value { (tree : Tree) × HasValue typed (drop start bytes.now) tree }
    requires buffer { end + VALUE ≤ length out.old.items }
    ensures text { (tree : Tree) → HasValue typed (drop start bytes.now) tree → IfOk result (λ to.
        AppendsText format tree out.old.items end to out.new.items) }
    ensures err { OnErr result (take end out.new.items ≡ take end out.old.items) }
{
    match typed {
        ElementType::Double => Ok(put_double_there(format, bytes, start, out, end)),
        ElementType::Decimal128 => append_decimal128(bytes, start, out, end),
        ElementType::Kept(kind) => append_kept(format, kind, bytes, start, out, end),
    }
}

/// The same for a kind of value.
#[cycle(wide)]
#[inline(always)]
fn append_kept(
    format: JsonFormat,
    kind: Kind,
    bytes: &[u8],
    start: usize,
    out: &mut Vec<u8>,
    end: usize,
) -> End
    requires short { length bytes.now ≤ longest_document }
    requires inside { start ≤ length bytes.now }
    requires value { (tree : Tree) × HasValue (Kept kind) (drop start bytes.now) tree }
    requires buffer { end + VALUE ≤ length out.old.items }
    ensures text { (tree : Tree) → HasValue (Kept kind) (drop start bytes.now) tree →
        IfOk result (λ to. AppendsText format tree out.old.items end to out.new.items) }
    ensures err { OnErr result (take end out.new.items ≡ take end out.old.items) }
{
    match kind {
        Kind::Doc => append_fields(format, bytes, start + 4, out, end),
        Kind::Array => append_items(format, bytes, start + 4, out, end),
        Kind::CodeScope => append_scope(format, bytes, start, out, end),
        _ => match format {
            JsonFormat::Canonical => append_kind(
                format,
                RawValue::there(kind, bytes, start),
                out,
                end,
            ),
            JsonFormat::Relaxed => append_relaxed_scalar(kind, bytes, start, out, end),
        },
    }
}

/// The same for a scalar in relaxed form: apart, since its view would be set to zero for each scalar in canonical form too.
#[inline(never)]
fn append_relaxed_scalar(
    kind: Kind,
    bytes: &[u8],
    start: usize,
    out: &mut Vec<u8>,
    end: usize,
) -> End
    requires short { length bytes.now ≤ longest_document }
    requires inside { start ≤ length bytes.now }
    requires scalar { (kind ≢ kinds.Doc) × ((kind ≢ kinds.Array) × (kind ≢ kinds.CodeScope)) }
    requires value { (tree : Tree) × HasValue (Kept kind) (drop start bytes.now) tree }
    requires buffer { end + VALUE ≤ length out.old.items }
    ensures text { (tree : Tree) → HasValue (Kept kind) (drop start bytes.now) tree →
        IfOk result (λ to. AppendsText Relaxed tree out.old.items end to out.new.items) }
    ensures err { OnErr result (take end out.new.items ≡ take end out.old.items) }
{
    append_relaxed(RawValue::there(kind, bytes, start), out, end)
}

/// Appends the text of the code with scope at an offset.
#[cycle(wide)]
#[inline(never)]
fn append_scope(
    format: JsonFormat,
    bytes: &[u8],
    start: usize,
    out: &mut Vec<u8>,
    end: usize,
) -> End
    requires short { length bytes.now ≤ longest_document }
    requires value { (tree : Tree) × HasValue (Kept kinds.CodeScope) (drop start bytes.now) tree }
    requires buffer { end ≤ length out.old.items }
    ensures text { (tree : Tree) → HasValue (Kept kinds.CodeScope) (drop start bytes.now) tree →
        IfOk result (λ to. AppendsText format tree out.old.items end to out.new.items) }
    ensures err { OnErr result (take end out.new.items ≡ take end out.old.items) }
{
    let (_, here) = bytes.split_at(start + 4);
    let code = parts::text(here);
    let at = append_led(b"{\"$code\":", code, out, end)?;
    let at = append_few(b",\"$scope\":", out, at)?;
    let at = append_fields(format, bytes, start + 13 + code.len(), out, at)?;
    append_few(b"}", out, at)
}
