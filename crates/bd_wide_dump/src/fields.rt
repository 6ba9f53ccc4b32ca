//! Documents with the requested fields alone: their bytes, and their texts.

ghost use Rattle.std.specs.Prelude.{◌≡◌, ◌≤◌, ◌-◌, ◌++◌, ◌∷◌, [], ℕ, List, None, length, take, drop, IfOk, OnOk, OnErr, option_map};
ghost use Rattle.bd_value.specs.Limits.{longest_document};
ghost use Rattle.bd_value.specs.Tree.{Doc, Fields, fields_of};
ghost use Rattle.bd_bson_view.specs.Spelling.{IsDocumentBy, valued};
ghost use Rattle.bd_bson_check.specs.FirstFault.{fault_under};
ghost use Rattle.bd_bson_check.specs.declared.profile.Profile.TheVariants.{All};
ghost use Rattle.bd_path.specs.Path.{component_names};
ghost use Rattle.bd_wide_dump.specs.Pretty.{indented};
ghost use Rattle.bd_wide_dump.specs.Projected.{IsProjectedText, below, ends, projected, projected_value, rest_below};
ghost use Rattle.bd_wide_dump.specs.Raw.{raw};
ghost use Rattle.bd_wide_dump.specs.Fields.{requested};
ghost use Rattle.bd_wide_dump.specs.inside.Projects.{paths_of};
ghost use Rattle.bd_wide_dump.specs.inside.Begins.{HasElements, IsElement};
ghost use Rattle.bd_wide_dump.specs.inside.Projects.{AddsElement, AddsFramed, array_type, remaining};

use crate::element::{Element, element_at};
use crate::format::JsonFormat;
use crate::indent::indent_fields;
use crate::line::append_fields;
use bd_bson_view::ElementType;
use bd_bson_write::{WriteFault, begin_body, end_body};
use bd_extjson_text::{End, append_few};
use bd_path::{Component, Path};
use bd_value::{Kind, NoMemory};
use std::alloc::{AllocError, Global};

/// A requested field: the names that lead to it from a document or an array, without those before it.
#[derive(Clone, Copy)]
pub(crate) struct Field<'a> {
    names: &'a [Component],
}

/// What is requested in the value of a name.
fn below<'a>(alloc: Global, name: &str, fields: &[Field<'a>]) -> Result<Vec<Field<'a>>, NoMemory>
    ensures { IfOk result (λ inner.
        paths_of inner.items ≡ below name.now (paths_of fields.now)) }
{
    let mut inner = Vec::new(alloc);
    let mut rest = fields;
    while let [field, others @ ..] = rest {
        if let Some(names) = rest_below(name, field.names) {
            inner.push(Field { names })?;
        }
        rest = others;
    }
    Ok(inner)
}

/// The names after the first, if that is this name.
fn rest_below<'a>(name: &str, names: &'a [Component]) -> Option<&'a [Component]>
    ensures { option_map (λ rest. component_names rest.now) result
        ≡ rest_below name.now (component_names names.entry.now) }
{
    let (first, rest) = names.split_first()?;
    if first.name.as_str() == name {
        return Some(rest);
    }
    None
}

/// Whether all of a value is requested.
fn ends(fields: &[Field<'_>]) -> bool
    ensures { result ≡ ends (paths_of fields.now) }
{
    let mut rest = fields;
    while let [field, others @ ..] = rest {
        if let [] = field.names {
            return true;
        }
        rest = others;
    }
    false
}

/// Appends the document, or the array, of what remains of the elements at an offset.
#[cycle(projecting)]
fn append_elements(
    alloc: Global,
    is_array: bool,
    fields: &[Field<'_>],
    bytes: &[u8],
    start: usize,
    out: &mut Vec<u8>,
) -> Result<(), WriteFault>
    requires short { length bytes.now ≤ longest_document }
    requires elements { HasElements (drop start bytes.now) }
    ensures framed { (e : HasElements (drop start bytes.now)) → OnOk result
        (AddsFramed is_array (paths_of fields.now) e.fields out.old.items out.new.items) }
    ensures within { OnOk result (length out.new.items ≤ longest_document) }
{
    let begun = begin_body(out)?;
    let mut next = start;
    while let Some(element) = element_at(bytes, next) {
        append_element(alloc, is_array, fields, bytes, next, &element, out)?;
        next = element.next;
    }
    end_body(begun, out)
}

/// Appends what remains of an element of a document or an array.
#[cycle(projecting)]
fn append_element(
    alloc: Global,
    is_array: bool,
    fields: &[Field<'_>],
    bytes: &[u8],
    at: usize,
    element: &Element<'_>,
    out: &mut Vec<u8>,
) -> Result<(), WriteFault>
    requires short { length bytes.now ≤ longest_document }
    requires element { (fs : Fields) × IsElement bytes.now at fs
        element.now.typed element.now.name.now element.now.start element.now.next }
    ensures { (fs : Fields)
        (e : IsElement bytes.now at fs element.now.typed element.now.name.now
        element.now.start element.now.next) → OnOk result (AddsElement element.now.name.now
        (remaining is_array (paths_of fields.now) element.now.name.now e.tree)
        out.old.items out.new.items) }
{
    if is_array {
        return append_inside(alloc, fields, bytes, at, element, out);
    }
    let inner = below(alloc, element.name, fields)?;
    if inner.is_empty() {
        return Ok(());
    }
    if ends(&inner) {
        append_range(bytes, at, element.next, out)?;
        return Ok(());
    }
    append_inside(alloc, &inner, bytes, at, element, out)
}

/// Appends an element with what remains of its value, if it is a document or an array.
#[cycle(projecting)]
fn append_inside(
    alloc: Global,
    fields: &[Field<'_>],
    bytes: &[u8],
    at: usize,
    element: &Element<'_>,
    out: &mut Vec<u8>,
) -> Result<(), WriteFault>
    requires short { length bytes.now ≤ longest_document }
    requires element { (fs : Fields) × IsElement bytes.now at fs
        element.now.typed element.now.name.now element.now.start element.now.next }
    ensures { (fs : Fields)
        (e : IsElement bytes.now at fs element.now.typed element.now.name.now
        element.now.start element.now.next) → OnOk result (AddsElement element.now.name.now
        (projected_value (paths_of fields.now) e.tree) out.old.items out.new.items) }
{
    let Some(is_array) = array_type(element.typed) else {
        return Ok(());
    };
    append_range(bytes, at, element.start, out)?;
    append_elements(alloc, is_array, fields, bytes, element.start + 4, out)
}

/// Whether a type is that of arrays, if it is that of arrays or of documents.
pub(crate) fn array_type(typed: ElementType) -> Option<bool>
    ensures { result ≡ array_type typed }
{
    match typed {
        ElementType::Kept(Kind::Doc) => Some(false),
        ElementType::Kept(Kind::Array) => Some(true),
        _ => None,
    }
}

/// Appends the bytes from one offset to another.
fn append_range(bytes: &[u8], at: usize, to: usize, out: &mut Vec<u8>) -> Result<(), NoMemory>
    requires { (at ≤ to) × (to ≤ length bytes.now) }
    ensures { OnOk result
        (out.new.items ≡ out.old.items ++ take (to - at) (drop at bytes.now)) }
{
    let (_, more) = bytes.split_at(at);
    let (range, _) = more.split_at(to - at);
    out.extend_from_slice(range)
}

/// All of the requested fields, from the top of a document.
fn all_fields<'a>(alloc: Global, paths: &'a [Path]) -> Result<Vec<Field<'a>>, NoMemory>
    ensures { IfOk result (λ fields. paths_of fields.items ≡ requested paths.entry.now) }
{
    let mut fields = Vec::new(alloc);
    let mut rest = paths;
    while let [path, others @ ..] = rest {
        let names = path.components();
        fields.push(Field { names })?;
        rest = others;
    }
    Ok(fields)
}

/// Makes `out` the bytes of the document of the requested fields of a document of all types, whose bytes have no fault.
fn project(alloc: Global, paths: &[Path], bytes: &[u8], out: &mut Vec<u8>) -> Result<(), NoMemory>
    requires { (base : ℕ) × (fault_under All base bytes.now ≡ None) }
    ensures elements { (d : Doc) → IsDocumentBy (valued raw) d bytes.now → OnOk result
        ((e : HasElements (drop 4 out.new.items))
        × (e.fields ≡ projected (requested paths.now) (fields_of d))) }
    ensures short { OnOk result (length out.new.items ≤ longest_document) }
{
    let fields = all_fields(alloc, paths)?;
    out.clear();
    match append_elements(alloc, false, &fields, bytes, 4, out) {
        Ok(()) => Ok(()),
        // A document is no longer than before, so memory ran out.
        Err(_) => Err(AllocError),
    }
}

/// Appends the text of the requested fields of a document of all types, whose bytes have no fault, after the first `end` bytes of a
/// buffer, and returns where the text ends. `projected` is a buffer for the bytes of the document of these fields.
///
/// On `NoMemory` those `end` bytes are unchanged.
pub fn append_projected(
    alloc: Global,
    format: JsonFormat,
    paths: &[Path],
    bytes: &[u8],
    projected: &mut Vec<u8>,
    buffer: &mut Vec<u8>,
    end: usize,
) -> End
    requires sound { (base : ℕ) × (fault_under All base bytes.now ≡ None) }
    requires buffer { end ≤ length buffer.old.items }
    ensures text { IfOk result (λ to. (text : List ℕ)
        × IsProjectedText format (requested paths.now) bytes.now text
        × (take to buffer.new.items ≡ take end buffer.old.items ++ text)) }
    ensures within { IfOk result (λ to. to ≤ length buffer.new.items) }
    ensures err { OnErr result (take end buffer.new.items ≡ take end buffer.old.items) }
{
    project(alloc, paths, bytes, projected)?;
    append_fields(format, projected, 4, buffer, end)
}

/// The same on many lines, with a tab for each bracket that is open. `spare` is a buffer for the text of one value.
pub fn indent_projected(
    alloc: Global,
    format: JsonFormat,
    paths: &[Path],
    bytes: &[u8],
    projected: &mut Vec<u8>,
    spare: &mut Vec<u8>,
    buffer: &mut Vec<u8>,
    end: usize,
) -> End
    requires sound { (base : ℕ) × (fault_under All base bytes.now ≡ None) }
    requires buffer { end ≤ length buffer.old.items }
    ensures text { IfOk result (λ to. (line : List ℕ)
        × IsProjectedText format (requested paths.now) bytes.now line
        × (take to buffer.new.items ≡ take end buffer.old.items ++ indented line)) }
    ensures within { IfOk result (λ to. to ≤ length buffer.new.items) }
    ensures err { OnErr result (take end buffer.new.items ≡ take end buffer.old.items) }
{
    project(alloc, paths, bytes, projected)?;
    indent_fields(format, projected, 4, 0, spare, buffer, end)
}

/// A buffer for one line after the other, of the requested fields of a document each, each line over the one before.
#[derive(Debug, Drop)]
pub struct FieldsBuffer {
    projected: Vec<u8>,
    buffer: Vec<u8>,
}

impl FieldsBuffer {
    /// An empty buffer.
    pub fn new(alloc: Global) -> FieldsBuffer {
        FieldsBuffer {
            projected: Vec::new(alloc),
            buffer: Vec::new(alloc),
        }
    }

    /// The line of the requested fields of a document of all types, whose bytes have no fault: their text, Extended JSON v2 in
    /// this format, without white space, and a newline.
    ///
    /// `NoMemory` if the line does not fit and memory runs out.
    pub fn line(
        &mut self,
        alloc: Global,
        format: JsonFormat,
        paths: &[Path],
        bytes: &[u8],
    ) -> Result<&[u8], NoMemory>
        requires { (base : ℕ) × (fault_under All base bytes.now ≡ None) }
        ensures { IfOk result (λ line. (text : List ℕ)
            × IsProjectedText format (requested paths.now) bytes.now text
            × (line.now ≡ text ++ 10 ∷ [])) }
    {
        let projected = &mut self.projected;
        let end = append_projected(alloc, format, paths, bytes, projected, &mut self.buffer, 0)?;
        let end = append_few(b"\n", &mut self.buffer, end)?;
        Ok(&self.buffer[..end])
    }
}
