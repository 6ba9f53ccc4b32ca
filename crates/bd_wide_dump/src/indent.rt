//! The text of a document on many lines, printed while the document is read.

ghost use Rattle.std.specs.Prelude.{◌≡◌, ◌<◌, ◌≤◌, ◌+◌, ◌++◌, ◌∷◌, [], ℕ, List, None, length, take, drop, IfOk, OnErr, false, true, if◌then◌else◌};
ghost use Rattle.bd_value.specs.Limits.{longest_document, longest_input};
ghost use Rattle.bd_value.specs.Tree as trees;
ghost use Rattle.bd_value.specs.Tree.{Tree, array, doc, leaf};
ghost use Rattle.bd_bson_view.specs.Raw.{value_tree};
ghost use Rattle.bd_bson_view.specs.Spelling.{as_double};
ghost use Rattle.bd_bson_view.specs.declared.raw_parts.ElementType.TheVariants.{Kept};
ghost use Rattle.bd_bson_check.specs.FirstFault.{fault_under};
ghost use Rattle.bd_bson_check.specs.declared.profile.Profile.TheVariants.{All};
ghost use Rattle.bd_extjson_text.specs.Buffer.{Appends};
ghost use Rattle.bd_extjson_text.specs.Text.{quoted, scalar_text, text};
ghost use Rattle.bd_wide_dump.specs.Pretty.{indented, laid_out, line_end};
ghost use Rattle.bd_wide_dump.specs.Values.{values_in};
ghost use Rattle.bd_wide_dump.specs.WideText.{IsDoubleIn, IsNumberText, IsTextOfBytes};
ghost use Rattle.bd_wide_dump.specs.declared.pretty.Position.TheVariants.{Outside};
ghost use Rattle.bd_wide_dump.specs.inside.Begins.{AppendsBy, HasElements, HasValue};
ghost use Rattle.bd_wide_dump.specs.inside.Indents.{IsBinaryText, IsDateAt, IsLaid, IsLaidText, IsWrapped, after_contents, before_contents, is_direct};

use crate::element::element_at;
use crate::format::JsonFormat;
use crate::line::append_value;
use crate::number::{append_digits, is_bare, long};
use crate::pretty::{BLOCK, append_line_end, append_pretty, put_line_end};
use crate::relaxed::append_kind;
use bd_bson_view::{ElementType, RawValue};
use bd_extjson_text::{End, VALUE, append_few, append_name, append_node, append_separator};
use bd_value::Kind;
use bd_wide_text::put as put_slice;

/// More space than a brace and the line end after it take.
const OPENING: usize = 2 * BLOCK + 1;

/// How few brackets are open where the text of binary data is written at once.
const SHALLOW: usize = 14;

/// Appends the text of a document of all types, whose bytes have no fault, on many lines, with a tab for each bracket that is open,
/// after the first `end` bytes of a buffer, and returns where the text ends. There is no line end after it. `spare` is a buffer for
/// the text of one value.
///
/// On `NoMemory` those `end` bytes are unchanged.
pub fn indent_wide(
    format: JsonFormat,
    bytes: &[u8],
    spare: &mut Vec<u8>,
    buffer: &mut Vec<u8>,
    end: usize,
) -> End
    requires sound { (base : ℕ) × (fault_under All base bytes.now ≡ None) }
    requires buffer { end ≤ length buffer.old.items }
    ensures text { IfOk result (λ to. (line : List ℕ) × IsTextOfBytes format bytes.now line
        × (take to buffer.new.items ≡ take end buffer.old.items ++ indented line)) }
    ensures within { IfOk result (λ to. to ≤ length buffer.new.items) }
    ensures err { OnErr result (take end buffer.new.items ≡ take end buffer.old.items) }
{
    indent_fields(format, bytes, 4, 0, spare, buffer, end)
}

/// Appends the text of the document of the elements at an offset, where that many brackets are open. On `NoMemory` the first `end`
/// bytes are unchanged, and so in the functions below.
#[cycle(indented)]
#[inline(never)]
pub(crate) fn indent_fields(
    format: JsonFormat,
    bytes: &[u8],
    start: usize,
    level: usize,
    spare: &mut Vec<u8>,
    out: &mut Vec<u8>,
    end: usize,
) -> End
    requires short { length bytes.now ≤ longest_document }
    requires elements { HasElements (drop start bytes.now) }
    requires level { level ≤ start }
    requires buffer { end ≤ length out.old.items }
    ensures text { (e : HasElements (drop start bytes.now)) → IfOk result (λ to. AppendsBy
        (IsLaidText format level (doc e.fields)) out.old.items end to out.new.items) }
    ensures err { OnErr result (take end out.new.items ≡ take end out.old.items) }
{
    let mut at = append_separator(true, b'{', out, end)?;
    let mut later = false;
    let mut next = start;
    while let Some(element) = element_at(bytes, next) {
        let inner = level + 1;
        at = append_label(later, inner, element.name, out, at)?;
        at = indent_value(
            format,
            element.typed,
            bytes,
            element.start,
            inner,
            spare,
            out,
            at,
        )?;
        later = true;
        next = element.next;
    }
    append_closing(later, level, b'}', out, at)
}

/// Appends the text of the array of the elements at an offset, where that many brackets are open.
#[cycle(indented)]
#[inline(never)]
fn indent_items(
    format: JsonFormat,
    bytes: &[u8],
    start: usize,
    level: usize,
    spare: &mut Vec<u8>,
    out: &mut Vec<u8>,
    end: usize,
) -> End
    requires short { length bytes.now ≤ longest_document }
    requires elements { HasElements (drop start bytes.now) }
    requires level { level ≤ start }
    requires buffer { end ≤ length out.old.items }
    ensures text { (e : HasElements (drop start bytes.now)) → IfOk result (λ to. AppendsBy
        (IsLaidText format level (array (values_in e.fields))) out.old.items end to
        out.new.items) }
    ensures err { OnErr result (take end out.new.items ≡ take end out.old.items) }
{
    let mut at = append_separator(true, b'[', out, end)?;
    let mut later = false;
    let mut next = start;
    while let Some(element) = element_at(bytes, next) {
        let inner = level + 1;
        at = append_item(later, inner, out, at)?;
        at = indent_value(
            format,
            element.typed,
            bytes,
            element.start,
            inner,
            spare,
            out,
            at,
        )?;
        later = true;
        next = element.next;
    }
    append_closing(later, level, b']', out, at)
}

/// Appends the text of the value of that type at an offset. There is space for a short one.
#[cycle(indented)]
#[inline(always)]
fn indent_value(
    format: JsonFormat,
    typed: ElementType,
    bytes: &[u8],
    start: usize,
    level: usize,
    spare: &mut Vec<u8>,
    out: &mut Vec<u8>,
    end: usize,
) -> End
    requires short { length bytes.now ≤ longest_document }
    requires inside { start ≤ length bytes.now }
    requires value { (tree : Tree) × HasValue typed (drop start bytes.now) tree }
    requires level { level ≤ start }
    requires buffer { end + VALUE ≤ length out.old.items }
    ensures text { (tree : Tree) → HasValue typed (drop start bytes.now) tree → IfOk result (λ to.
        AppendsBy (IsLaidText format level tree) out.old.items end to out.new.items) }
    ensures err { OnErr result (take end out.new.items ≡ take end out.old.items) }
{
    match typed {
        ElementType::Double => indent_double(format, bytes, start, level, out, end),
        ElementType::Decimal128 => {
            indent_other(format, typed, bytes, start, level, spare, out, end)
        }
        ElementType::Kept(kind) => {
            indent_kept(format, kind, bytes, start, level, spare, out, end)
        }
    }
}

/// The same for a kind of value.
#[cycle(indented)]
#[inline(always)]
fn indent_kept(
    format: JsonFormat,
    kind: Kind,
    bytes: &[u8],
    start: usize,
    level: usize,
    spare: &mut Vec<u8>,
    out: &mut Vec<u8>,
    end: usize,
) -> End
    requires short { length bytes.now ≤ longest_document }
    requires inside { start ≤ length bytes.now }
    requires value { (tree : Tree) × HasValue (Kept kind) (drop start bytes.now) tree }
    requires level { level ≤ start }
    requires buffer { end + VALUE ≤ length out.old.items }
    ensures text { (tree : Tree) → HasValue (Kept kind) (drop start bytes.now) tree →
        IfOk result (λ to. AppendsBy (IsLaidText format level tree) out.old.items end to
        out.new.items) }
    ensures err { OnErr result (take end out.new.items ≡ take end out.old.items) }
{
    match kind {
        Kind::Doc => indent_fields(format, bytes, start + 4, level, spare, out, end),
        Kind::Array => indent_items(format, bytes, start + 4, level, spare, out, end),
        _ if is_direct(format, kind) => {
            indent_direct(format, kind, bytes, start, level, spare, out, end)
        }
        _ => {
            let typed = ElementType::Kept(kind);
            indent_other(format, typed, bytes, start, level, spare, out, end)
        }
    }
}

/// The same of any value, whose text is made on one line before.
#[inline(never)]
fn indent_other(
    format: JsonFormat,
    typed: ElementType,
    bytes: &[u8],
    start: usize,
    level: usize,
    spare: &mut Vec<u8>,
    out: &mut Vec<u8>,
    end: usize,
) -> End
    requires short { length bytes.now ≤ longest_document }
    requires inside { start ≤ length bytes.now }
    requires value { (tree : Tree) × HasValue typed (drop start bytes.now) tree }
    requires level { level ≤ start }
    requires buffer { end ≤ length out.old.items }
    ensures text { (tree : Tree) → HasValue typed (drop start bytes.now) tree → IfOk result (λ to.
        AppendsBy (IsLaidText format level tree) out.old.items end to out.new.items) }
    ensures err { OnErr result (take end out.new.items ≡ take end out.old.items) }
{
    let at = append_few(b"", spare, 0)?;
    let size = append_value(format, typed, bytes, start, spare, at)?;
    append_pretty(level, &spare[..size], out, end)
}

/// Whether the texts of a kind of value are printed at once in a format.
#[inline(always)]
fn is_direct(format: JsonFormat, kind: Kind) -> bool
    ensures { result ≡ is_direct format kind }
{
    match kind {
        Kind::Text | Kind::Null | Kind::Bool | Kind::Int32 | Kind::Int64 => true,
        Kind::ObjectId | Kind::Binary => true,
        Kind::Date => match format {
            JsonFormat::Canonical => true,
            JsonFormat::Relaxed => false,
        },
        _ => false,
    }
}

/// Appends the text of the value of such a kind at an offset. There is space for a short one.
#[inline(always)]
fn indent_direct(
    format: JsonFormat,
    kind: Kind,
    bytes: &[u8],
    start: usize,
    level: usize,
    spare: &mut Vec<u8>,
    out: &mut Vec<u8>,
    end: usize,
) -> End
    requires short { length bytes.now ≤ longest_document }
    requires inside { start ≤ length bytes.now }
    requires value { (tree : Tree) × HasValue (Kept kind) (drop start bytes.now) tree }
    requires direct { is_direct format kind ≡ true }
    requires level { level ≤ start }
    requires buffer { end + VALUE ≤ length out.old.items }
    ensures text { (tree : Tree) → HasValue (Kept kind) (drop start bytes.now) tree →
        IfOk result (λ to. AppendsBy (IsLaidText format level tree) out.old.items end to
        out.new.items) }
    ensures err { OnErr result (take end out.new.items ≡ take end out.old.items) }
{
    let node = RawValue::there(kind, bytes, start);
    match kind {
        Kind::ObjectId => indent_string(b"\"$oid\": \"", node, level, out, end),
        Kind::Date => indent_date(bytes, start, level, out, end),
        Kind::Binary => indent_binary(node, level, spare, out, end),
        Kind::Int32 => match format {
            JsonFormat::Canonical => { indent_string(b"\"$numberInt\": \"", node, level, out, end) }
            JsonFormat::Relaxed => append_kind(format, node, out, end),
        },
        Kind::Int64 => match format {
            JsonFormat::Canonical => {
                indent_string(b"\"$numberLong\": \"", node, level, out, end)
            }
            JsonFormat::Relaxed => append_kind(format, node, out, end),
        },
        _ => append_kind(format, node, out, end),
    }
}

/// Appends the text of a scalar whose text is a string in a wrapper. `lead` is the name of the wrapper, and all up to the contents of
/// the string: it takes as many bytes as the wrapper does up to there on one line, and so it is written over these.
#[inline(always)]
fn indent_string(
    lead: &[u8],
    node: RawValue<'_>,
    level: usize,
    out: &mut Vec<u8>,
    end: usize,
) -> End
    requires wrapper { IsWrapped lead.now (text (value_tree node)) }
    requires level { level ≤ longest_input }
    requires buffer { end + OPENING ≤ length out.old.items }
    ensures { Appends out.old.items end result out.new.items
        (laid_out Outside level 0 (text (value_tree node.entry))) }
{
    let at = append_opening(level, out, end)?;
    let to = append_node(node, out, at)?;
    put_over(lead, out.as_mut_slice(), at);
    append_closing(true, level, b'}', out, to - 1)
}

/// Writes bytes after the text, and returns where it ends.
#[inline(always)]
fn put(bytes: &[u8], out: &mut Vec<u8>, end: usize) -> usize
    requires { end + length bytes.now ≤ length out.old.items }
    ensures text { take result out.new.items ≡ take end out.old.items ++ bytes.now }
    ensures end { result ≡ end + length bytes.now }
    ensures size { length out.new.items ≡ length out.old.items }
{
    put_slice(bytes, out.as_mut_slice(), end)
}

/// Writes bytes over others.
#[inline(always)]
fn put_over(bytes: &[u8], buffer: &mut [u8], at: usize)
    requires { at + length bytes.now ≤ length buffer.old }
    ensures { buffer.new
        ≡ take at buffer.old ++ (bytes.now ++ drop (at + length bytes.now) buffer.old) }
{
    buffer[at..at + bytes.len()].copy_from_slice(bytes);
}

/// Appends the text of the date at an offset in canonical form. The bytes of a date are those of an int64.
fn indent_date(bytes: &[u8], start: usize, level: usize, out: &mut Vec<u8>, end: usize) -> End
    requires short { length bytes.now ≤ longest_document }
    requires inside { start ≤ length bytes.now }
    requires date { (s : trees.Scalar) × IsDateAt s (drop start bytes.now) }
    requires level { level ≤ longest_document }
    requires buffer { end + OPENING ≤ length out.old.items }
    ensures { (s : trees.Scalar) → IsDateAt s (drop start bytes.now) →
        Appends out.old.items end result out.new.items (laid_out Outside level 0 (scalar_text s)) }
{
    let at = append_opening(level, out, end)?;
    let at = put(b"\"$date\": ", out, at);
    let inner = RawValue::there(Kind::Int64, bytes, start);
    let at = indent_string(b"\"$numberLong\": \"", inner, level + 1, out, at)?;
    append_closing(true, level, b'}', out, at)
}

/// Appends the text of binary data. It is made on one line before, and the strings in it are copied from there.
#[inline(never)]
fn indent_binary(
    node: RawValue<'_>,
    level: usize,
    spare: &mut Vec<u8>,
    out: &mut Vec<u8>,
    end: usize,
) -> End
    requires binary { (contents : List ℕ) × (digits : List ℕ)
        × IsBinaryText contents digits (text (value_tree node)) }
    requires level { level ≤ longest_document }
    requires buffer { end + VALUE ≤ length out.old.items }
    ensures { Appends out.old.items end result out.new.items
        (laid_out Outside level 0 (text (value_tree node.entry))) }
{
    let at = append_few(b"", spare, 0)?;
    let size = append_node(node, spare, at)?;
    if level >= SHALLOW {
        return append_pretty(level, &spare[..size], out, end);
    }
    let (contents, digits) = binary_strings(&spare[..size]);
    let at = put_before_contents(level, out, end);
    let at = append_few(contents, out, at)?;
    Ok(put_after_contents(level, digits, out, at))
}

/// The strings in the text of binary data on one line.
#[inline(always)]
fn binary_strings(text: &[u8]) -> (&[u8], &[u8])
    requires { (contents : List ℕ) × (digits : List ℕ) × IsBinaryText contents digits text.now }
    ensures strings { (contents : List ℕ) → (digits : List ℕ)
        → IsBinaryText contents digits text.now
        → (result.0.now ≡ quoted contents) × (result.1.now ≡ quoted digits) }
    ensures size { length result.1.now ≡ 4 }
{
    let size = text.len();
    (&text[21..size - 17], &text[size - 6..size - 2])
}

/// Writes the text of binary data before the first string in it.
#[inline(always)]
fn put_before_contents(level: usize, out: &mut Vec<u8>, end: usize) -> usize
    requires level { level < SHALLOW }
    requires buffer { end + VALUE ≤ length out.old.items }
    ensures text { take result out.new.items ≡ take end out.old.items ++ before_contents level }
    ensures within { result ≤ length out.new.items }
{
    let inner = level + 1;
    let at = put(b"{", out, end);
    let at = put_line_end(inner, out, at);
    let at = put(b"\"$binary\": {", out, at);
    let at = put_line_end(inner + 1, out, at);
    put(b"\"base64\": ", out, at)
}

/// Writes the text of binary data after the first string in it.
#[inline(always)]
fn put_after_contents(level: usize, digits: &[u8], out: &mut Vec<u8>, end: usize) -> usize
    requires level { level < SHALLOW }
    requires digits { length digits.now ≡ 4 }
    requires buffer { end + VALUE ≤ length out.old.items }
    ensures text { take result out.new.items
        ≡ take end out.old.items ++ after_contents level digits.now }
    ensures within { result ≤ length out.new.items }
{
    let inner = level + 1;
    let at = put(b",", out, end);
    let at = put_line_end(inner + 1, out, at);
    let at = put(b"\"subType\": ", out, at);
    let at = put(digits, out, at);
    let at = put_line_end(inner, out, at);
    let at = put(b"}", out, at);
    let at = put_line_end(level, out, at);
    put(b"}", out, at)
}

/// Appends the text of the double at an offset.
#[inline(never)]
fn indent_double(
    format: JsonFormat,
    bytes: &[u8],
    start: usize,
    level: usize,
    out: &mut Vec<u8>,
    end: usize,
) -> End
    requires value { 8 ≤ length (drop start bytes.now) }
    requires level { level ≤ longest_document }
    requires buffer { end + OPENING ≤ length out.old.items }
    ensures text { IfOk result (λ e. AppendsBy (IsLaid level
        (IsNumberText format as_double (drop start bytes.now))) out.old.items end e
        out.new.items) }
    ensures err { OnErr result (take end out.new.items ≡ take end out.old.items) }
{
    let (_, value) = bytes.split_at(start);
    let bits = long(value);
    if is_bare(format, bits) {
        return append_digits(bits, out, end);
    }
    indent_wrapped(bits, level, out, end)
}

/// Appends a double in its wrapper.
fn indent_wrapped(bits: u64, level: usize, out: &mut Vec<u8>, end: usize) -> End
    requires level { level ≤ longest_document }
    requires buffer { end + OPENING ≤ length out.old.items }
    ensures text { IfOk result (λ e.
        AppendsBy (IsLaid level (IsDoubleIn false bits)) out.old.items end e out.new.items) }
    ensures err { OnErr result (take end out.new.items ≡ take end out.old.items) }
{
    let at = append_opening(level, out, end)?;
    let at = put(b"\"$numberDouble\": \"", out, at);
    let at = append_digits(bits, out, at)?;
    let at = append_separator(true, b'"', out, at)?;
    append_closing(true, level, b'}', out, at)
}

/// Appends a comma, if `later`, a line end and that many tabs.
#[inline(always)]
fn append_line(later: bool, level: usize, out: &mut Vec<u8>, end: usize) -> End
    requires { end ≤ length out.old.items }
    ensures text { Appends out.old.items end result out.new.items
        ((if later then 44 ∷ [] else []) ++ line_end level) }
    ensures capacity { IfOk result (λ e. e + BLOCK ≤ length out.new.items) }
{
    let at = append_separator(later, b',', out, end)?;
    append_line_end(level, out, at)
}

/// Appends what is before an element of an array, and makes space for a value: `VALUE` bytes.
#[inline(always)]
fn append_item(later: bool, level: usize, out: &mut Vec<u8>, end: usize) -> End
    requires { end ≤ length out.old.items }
    ensures text { Appends out.old.items end result out.new.items
        ((if later then 44 ∷ [] else []) ++ line_end level) }
    ensures capacity { IfOk result (λ e. e + VALUE ≤ length out.new.items) }
{
    let at = append_line(later, level, out, end)?;
    append_separator(false, b',', out, at)
}

/// Appends what is before the value of a member, and makes space for a value: `VALUE` bytes.
#[inline(always)]
fn append_label(later: bool, level: usize, name: &str, out: &mut Vec<u8>, end: usize) -> End
    requires { end ≤ length out.old.items }
    ensures text { Appends out.old.items end result out.new.items
        (((if later then 44 ∷ [] else []) ++ line_end level)
        ++ (quoted name.now ++ 58 ∷ 32 ∷ [])) }
    ensures capacity { IfOk result (λ e. e + VALUE ≤ length out.new.items) }
{
    let at = append_line(later, level, out, end)?;
    let at = append_name(false, name, out, at)?;
    append_separator(true, b' ', out, at)
}

/// Appends a brace and the line end after it, and makes space for a value: `VALUE` bytes.
#[inline(always)]
fn append_opening(level: usize, out: &mut Vec<u8>, end: usize) -> End
    requires level { level ≤ longest_input }
    requires buffer { end + OPENING ≤ length out.old.items }
    ensures text { Appends out.old.items end result out.new.items (123 ∷ line_end (level + 1)) }
    ensures capacity { IfOk result (λ e. e + VALUE ≤ length out.new.items) }
{
    let at = put(b"{", out, end);
    let at = append_line_end(level + 1, out, at)?;
    append_separator(false, b',', out, at)
}

/// Appends a bracket that ends an array or an object, on a line of its own if these are not empty.
#[inline(always)]
fn append_closing(is_filled: bool, level: usize, bracket: u8, out: &mut Vec<u8>, end: usize) -> End
    requires { end ≤ length out.old.items }
    ensures { Appends out.old.items end result out.new.items
        ((if is_filled then line_end level else []) ++ bracket ∷ []) }
{
    if is_filled {
        let at = append_line(false, level, out, end)?;
        return Ok(put(&[bracket], out, at));
    }
    append_separator(true, bracket, out, end)
}
