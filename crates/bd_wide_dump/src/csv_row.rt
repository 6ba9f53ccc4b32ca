//! Rows of CSV.

ghost use Rattle.std.specs.Prelude.{◌≡◌, ◌≤◌, ◌==◌, ◌++◌, ◌∷◌, [], ℕ, List, None, Some, length, take, IfOk, OnErr, if◌then◌else◌};
ghost use Rattle.std.specs.List.{list_any};
ghost use Rattle.csv.specs.Writing.{default_writer, field_text, needs_byte, needs_quotes, quoted};
ghost use Rattle.bd_value.specs.Limits.{longest_document};
ghost use Rattle.bd_value.specs.Tree.{Doc, Tree, doc, fields_of};
ghost use Rattle.bd_bson_view.specs.Spelling.{IsDocumentBy, valued};
ghost use Rattle.bd_bson_check.specs.FirstFault.{fault_under};
ghost use Rattle.bd_bson_check.specs.declared.profile.Profile.TheVariants.{All};
ghost use Rattle.bd_extjson_text.specs.Buffer.{Appends};
ghost use Rattle.bd_path.specs.PathNames.{names_of};
ghost use Rattle.bd_wide_dump.specs.Csv.{IsCell, IsRowOf, follow, header};
ghost use Rattle.bd_wide_dump.specs.Fields.{requested};
ghost use Rattle.bd_wide_dump.specs.Raw.{raw};
ghost use Rattle.bd_wide_dump.specs.inside.Begins.{AppendsBy};

use crate::follow::{Found, follow};
use crate::plain::append_plain;
use bd_bson_view::ElementType;
use bd_extjson_text::{End, append_few, append_separator};
use bd_path::Path;
use bd_value::{Kind, NoMemory};
use std::alloc::Global;

/// Buffers for one row of CSV after the other, each over the one before. They are allocated once, and grow if a row is longer.
#[derive(Debug, Drop)]
pub struct CsvBuffer {
    cell: Vec<u8>,
    buffer: Vec<u8>,
}

impl CsvBuffer {
    /// Empty buffers.
    pub fn new(alloc: Global) -> CsvBuffer {
        CsvBuffer {
            cell: Vec::new(alloc),
            buffer: Vec::new(alloc),
        }
    }

    /// The header row: the paths as they were given.
    ///
    /// `NoMemory` if it does not fit and memory runs out.
    pub fn header(&mut self, paths: &[Path]) -> Result<&[u8], NoMemory>
        ensures { IfOk result (λ row. row.now ≡ header paths.now) }
    {
        let end = append_csv_header(paths, &mut self.buffer, 0)?;
        Ok(&self.buffer[..end])
    }

    /// The row of a document of all types, whose bytes have no fault: RFC 4180 with a line feed at its end, a field for each of
    /// these paths. A path leads through documents by names, and through arrays by indexes; a field that is missing is empty.
    ///
    /// `NoMemory` if the row does not fit and memory runs out.
    pub fn row(&mut self, paths: &[Path], bytes: &[u8]) -> Result<&[u8], NoMemory>
        requires { (base : ℕ) × (fault_under All base bytes.now ≡ None) }
        ensures { IfOk result (λ row. IsRowOf (requested paths.now) bytes.now row.now) }
    {
        let cell = &mut self.cell;
        let end = append_csv_row(paths, bytes, cell, &mut self.buffer, 0)?;
        Ok(&self.buffer[..end])
    }
}

/// Appends the header row of CSV, the paths as they were given, after the first `end` bytes of a buffer, and returns where it ends.
///
/// On `NoMemory` those `end` bytes are unchanged.
pub fn append_csv_header(paths: &[Path], buffer: &mut Vec<u8>, end: usize) -> End
    requires { end ≤ length buffer.old.items }
    ensures { Appends buffer.old.items end result buffer.new.items (header paths.now) }
{
    let mut at = end;
    let mut later = false;
    let mut rest = paths;
    while let [path, others @ ..] = rest {
        at = append_separator(later, b',', buffer, at)?;
        at = append_field(path.as_str().as_bytes(), buffer, at)?;
        later = true;
        rest = others;
    }
    end_row(at == end, buffer, at)
}

/// Appends the row of a document of all types, whose bytes have no fault, after the first `end` bytes of a buffer, and returns
/// where it ends: a field for each of these paths, and a line feed. `cell` is a buffer for the text of one field.
///
/// On `NoMemory` those `end` bytes are unchanged.
pub fn append_csv_row(
    paths: &[Path],
    bytes: &[u8],
    cell: &mut Vec<u8>,
    buffer: &mut Vec<u8>,
    end: usize,
) -> End
    requires sound { (base : ℕ) × (fault_under All base bytes.now ≡ None) }
    requires buffer { end ≤ length buffer.old.items }
    ensures text { IfOk result (λ to. (row : List ℕ) × IsRowOf (requested paths.now) bytes.now row
        × (take to buffer.new.items ≡ take end buffer.old.items ++ row)) }
    ensures within { IfOk result (λ to. to ≤ length buffer.new.items) }
    ensures err { OnErr result (take end buffer.new.items ≡ take end buffer.old.items) }
{
    let mut at = end;
    let mut later = false;
    let mut rest = paths;
    while let [path, others @ ..] = rest {
        let size = write_cell(path, bytes, cell)?;
        at = append_separator(later, b',', buffer, at)?;
        at = append_field(&cell[..size], buffer, at)?;
        later = true;
        rest = others;
    }
    end_row(at == end, buffer, at)
}

/// Writes the text of the field that a path leads to from a document to the start of a buffer, and returns where it ends.
fn write_cell(path: &Path, bytes: &[u8], cell: &mut Vec<u8>) -> End
    requires { (d : Doc) × IsDocumentBy (valued raw) d bytes.now }
    ensures text { (d : Doc) → IsDocumentBy (valued raw) d bytes.now → IfOk result (λ size.
        IsCell (follow (Some (doc (fields_of d))) (names_of path.now))
        (take size cell.new.items)) }
    ensures within { IfOk result (λ size. size ≤ length cell.new.items) }
{
    let whole = Found {
        typed: ElementType::Kept(Kind::Doc),
        start: 0,
    };
    let Some(found) = follow(path.components(), bytes, whole) else {
        return Ok(0);
    };
    let at = append_few(b"", cell, 0)?;
    append_plain(bytes, found, cell, at)
}

/// Appends the end of a row: two quotation marks if the row is empty, and a line feed.
fn end_row(is_empty: bool, out: &mut Vec<u8>, end: usize) -> End
    requires { end ≤ length out.old.items }
    ensures { Appends out.old.items end result out.new.items
        (if is_empty then 34 ∷ 34 ∷ 10 ∷ [] else 10 ∷ []) }
{
    if is_empty {
        return append_few(b"\"\"\n", out, end);
    }
    append_few(b"\n", out, end)
}

/// Appends a field: RFC 4180, in quotation marks if it has to be.
fn append_field(field: &[u8], out: &mut Vec<u8>, end: usize) -> End
    requires { end ≤ length out.old.items }
    ensures { Appends out.old.items end result out.new.items
        (field_text default_writer field.now) }
{
    if needs_quotes(field) {
        return append_quoted(field, out, end);
    }
    append_few(field, out, end)
}

/// Whether a field has to be in quotation marks.
fn needs_quotes(field: &[u8]) -> bool
    ensures { result ≡ needs_quotes default_writer field.now }
{
    let mut rest = field;
    while let [byte, others @ ..] = rest {
        if is_quotation(*byte) {
            return true;
        }
        rest = others;
    }
    false
}

/// Whether a field with this byte has to be in quotation marks.
fn is_quotation(byte: u8) -> bool
    ensures { result ≡ needs_byte default_writer byte }
{
    byte == b',' || byte == b'"' || byte == b'\r' || byte == b'\n'
}

/// Appends a field in quotation marks, with those in it doubled.
fn append_quoted(field: &[u8], out: &mut Vec<u8>, end: usize) -> End
    requires { end ≤ length out.old.items }
    ensures { Appends out.old.items end result out.new.items
        (quoted default_writer field.now) }
{
    let mut at = append_few(b"\"", out, end)?;
    let mut rest = field;
    while let [byte, others @ ..] = rest {
        at = append_inside(*byte, out, at)?;
        rest = others;
    }
    append_few(b"\"", out, at)
}

/// Appends a byte between quotation marks.
fn append_inside(byte: u8, out: &mut Vec<u8>, end: usize) -> End
    requires { end ≤ length out.old.items }
    ensures { Appends out.old.items end result out.new.items
        (if byte == 34 then 34 ∷ 34 ∷ [] else byte ∷ []) }
{
    if byte == b'"' {
        return append_few(b"\"\"", out, end);
    }
    append_few(&[byte], out, end)
}
