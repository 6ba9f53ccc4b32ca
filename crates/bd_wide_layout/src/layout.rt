//! The layout of texts, and the text of a document in it.

ghost use Rattle.std.specs.Prelude.{◌≡◌, ◌≤◌, ◌++◌, ℕ, List, None, length, take, IfOk, OnErr};
ghost use Rattle.bd_bson_check.specs.FirstFault.{fault_under};
ghost use Rattle.bd_bson_check.specs.declared.profile.Profile.TheVariants.{All};
ghost use Rattle.bd_wide_layout.specs.Layout.{IsTextOfBytes, json_view, layout_view};
ghost use Rattle.bd_wide_layout.specs.inside.Line.{IsJsonOfBytes};
ghost use Rattle.bd_wide_dump.specs.Pretty.{indented};

use bd_extjson_text::End;
use bd_path::Path;
use bd_wide_dump::{
    JsonFormat, append_csv_row, append_projected, append_wide, indent_projected, indent_wide,
};
use std::alloc::Global;

/// How the texts of documents are laid out.
#[derive(Drop)]
pub enum Layout {
    /// As JSON.
    Json(JsonLayout),
    /// As rows of CSV.
    Csv(CsvLayout),
}

/// How texts of JSON are laid out.
#[derive(Drop)]
pub struct JsonLayout {
    /// The format of each text.
    pub format: JsonFormat,
    /// The paths to the requested fields, of which none leads to another; without them, all of each document is requested.
    pub paths: Option<Vec<Path>>,
    /// Whether the texts are the elements of one array; else a line ends after each.
    pub is_array: bool,
    /// Whether each text is on many lines.
    pub is_pretty: bool,
}

/// How rows of CSV are laid out.
#[derive(Drop)]
pub struct CsvLayout {
    /// The paths to the fields of a row.
    pub columns: Vec<Path>,
    /// What is before the rows: the header row, or nothing.
    pub header: Vec<u8>,
}

/// Buffers for what the text of one document is made of. They are allocated once, and grow.
#[derive(Debug, Drop)]
pub struct Scratch {
    /// The bytes of the requested fields.
    projected: Vec<u8>,
    /// The text of one value.
    text: Vec<u8>,
}

impl Scratch {
    /// Empty buffers.
    pub fn new(alloc: Global) -> Scratch {
        Scratch {
            projected: Vec::new(alloc),
            text: Vec::new(alloc),
        }
    }
}

impl Layout {
    ghost use Rattle.std.specs.Prelude.{◌≡◌};
    ghost use Rattle.bd_wide_layout.specs.Layout.{before, closing, ending, layout_view, opening, separator};

    /// What is before the first document.
    pub fn opening(&self) -> &[u8]
        ensures { result.now ≡ opening (layout_view self.now) }
    {
        match self {
            Layout::Json(json) => match (json.is_array, json.is_pretty) {
                (true, true) => b"[\n",
                (true, false) => b"[",
                (false, _) => b"",
            },
            Layout::Csv(csv) => &csv.header,
        }
    }

    /// What is between two documents.
    pub fn separator(&self) -> &'static [u8]
        ensures { result.now ≡ separator (layout_view self.now) }
    {
        match self {
            Layout::Json(json) => match (json.is_array, json.is_pretty) {
                (true, true) => b",\n",
                (true, false) => b",",
                (false, _) => b"",
            },
            Layout::Csv(_) => b"",
        }
    }

    /// What is before the document of that number, the first of which is 0.
    pub fn before(&self, number: u32) -> &'static [u8]
        ensures { result.now ≡ before (layout_view self.now) number }
    {
        match number {
            0 => b"",
            _ => self.separator(),
        }
    }

    /// What is after each document.
    pub fn ending(&self) -> &'static [u8]
        ensures { result.now ≡ ending (layout_view self.now) }
    {
        match self {
            Layout::Json(json) => { if json.is_array { b"" } else { b"\n" } }
            Layout::Csv(_) => b"",
        }
    }

    /// What is after the last document.
    pub fn closing(&self) -> &'static [u8]
        ensures { result.now ≡ closing (layout_view self.now) }
    {
        match self {
            Layout::Json(json) => match (json.is_array, json.is_pretty) {
                (true, true) => b"]\n\n",
                (true, false) => b"]\n",
                (false, _) => b"",
            },
            Layout::Csv(_) => b"",
        }
    }
}

/// Appends the text in a layout of a document of all types, whose bytes have no fault, after the first `end` bytes of a buffer, and
/// returns where the text ends.
///
/// On `NoMemory` those `end` bytes are unchanged.
#[inline(always)]
pub fn append_document(
    alloc: Global,
    layout: &Layout,
    bytes: &[u8],
    scratch: &mut Scratch,
    buffer: &mut Vec<u8>,
    end: usize,
) -> End
    requires sound { (base : ℕ) × (fault_under All base bytes.now ≡ None) }
    requires buffer { end ≤ length buffer.old.items }
    ensures text { IfOk result (λ to. (text : List ℕ)
        × IsTextOfBytes (layout_view layout.now) bytes.now text
        × (take to buffer.new.items ≡ take end buffer.old.items ++ text)) }
    ensures within { IfOk result (λ to. to ≤ length buffer.new.items) }
    ensures err { OnErr result (take end buffer.new.items ≡ take end buffer.old.items) }
{
    match layout {
        Layout::Csv(csv) => append_csv_row(&csv.columns, bytes, &mut scratch.text, buffer, end),
        Layout::Json(json) => {
            if json.is_pretty {
                return append_indented(alloc, json, bytes, scratch, buffer, end);
            }
            append_json(alloc, json, bytes, &mut scratch.projected, buffer, end)
        }
    }
}

/// Appends the text of a document on one line.
#[inline(always)]
fn append_json(
    alloc: Global,
    json: &JsonLayout,
    bytes: &[u8],
    projected: &mut Vec<u8>,
    buffer: &mut Vec<u8>,
    end: usize,
) -> End
    requires sound { (base : ℕ) × (fault_under All base bytes.now ≡ None) }
    requires buffer { end ≤ length buffer.old.items }
    ensures text { IfOk result (λ to. (text : List ℕ)
        × IsJsonOfBytes (json_view json.now) bytes.now text
        × (take to buffer.new.items ≡ take end buffer.old.items ++ text)) }
    ensures within { IfOk result (λ to. to ≤ length buffer.new.items) }
    ensures err { OnErr result (take end buffer.new.items ≡ take end buffer.old.items) }
{
    match &json.paths {
        None => append_wide(json.format, bytes, buffer, end),
        Some(paths) => append_projected(alloc, json.format, paths, bytes, projected, buffer, end),
    }
}

/// Appends the text of a document on many lines.
fn append_indented(
    alloc: Global,
    json: &JsonLayout,
    bytes: &[u8],
    scratch: &mut Scratch,
    buffer: &mut Vec<u8>,
    end: usize,
) -> End
    requires sound { (base : ℕ) × (fault_under All base bytes.now ≡ None) }
    requires buffer { end ≤ length buffer.old.items }
    ensures text { IfOk result (λ to. (line : List ℕ)
        × IsJsonOfBytes (json_view json.now) bytes.now line
        × (take to buffer.new.items ≡ take end buffer.old.items ++ indented line)) }
    ensures within { IfOk result (λ to. to ≤ length buffer.new.items) }
    ensures err { OnErr result (take end buffer.new.items ≡ take end buffer.old.items) }
{
    let spare = &mut scratch.text;
    match &json.paths {
        None => indent_wide(json.format, bytes, spare, buffer, end),
        Some(paths) => {
            let projected = &mut scratch.projected;
            indent_projected(
                alloc,
                json.format,
                paths,
                bytes,
                projected,
                spare,
                buffer,
                end,
            )
        }
    }
}
