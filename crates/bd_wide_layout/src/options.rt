//! The layout that options request.

ghost use Rattle.std.specs.Prelude.{◌≡◌, [], IfOk, if◌then◌else◌, option_map};
ghost use Rattle.bd_wide_dump.specs.Csv.{header};
ghost use Rattle.bd_wide_layout.specs.Layout.{layout_view};
ghost use Rattle.bd_wide_layout.specs.Options.{csv_named, format_named, go_together, go_with_csv, go_with_json, is_csv, is_format, is_json, json_named, layout_named};

use crate::layout::{CsvLayout, JsonLayout, Layout};
use bd_cli_args::LayoutOptions;
use bd_path::Path;
use bd_value::NoMemory;
use bd_wide_dump::{JsonFormat, append_csv_header, read_columns, read_fields};
use std::alloc::Global;

/// Whether options are those of one layout: the words are known, and each has the words beside it that it needs, and no others.
pub fn go_together(options: &LayoutOptions) -> bool
    ensures { result ≡ go_together options.now }
{
    if is_csv(options.output.as_deref()) {
        go_with_csv(options)
    } else {
        go_with_json(options)
    }
}

/// Whether options are those of a layout of CSV: `--fields` is given, and no word for JSON alone.
fn go_with_csv(options: &LayoutOptions) -> bool
    ensures { result ≡ go_with_csv options.now }
{
    (options.fields.is_some() && !options.no_id)
        && (!options.format.is_some() && (!options.is_array && !options.is_pretty))
}

/// Whether options are those of a layout of JSON: the words are known, no header is left out, and `--noId` has `--fields` beside it.
fn go_with_json(options: &LayoutOptions) -> bool
    ensures { result ≡ go_with_json options.now }
{
    (is_json(options.output.as_deref()) && is_format(options.format.as_deref()))
        && (!options.no_header && (options.fields.is_some() || !options.no_id))
}

/// Whether the word of `--type` is `csv`.
fn is_csv(word: Option<&str>) -> bool
    ensures { result ≡ is_csv (option_map (λ w. w.now) word.entry) }
{
    matches!(word, Some("csv"))
}

/// Whether the word of `--type` is `json`, or is not given.
fn is_json(word: Option<&str>) -> bool
    ensures { result ≡ is_json (option_map (λ w. w.now) word.entry) }
{
    match word {
        None | Some("json") => true,
        Some(_) => false,
    }
}

/// Whether the word of `--jsonFormat` names a format, or is not given.
fn is_format(word: Option<&str>) -> bool
    ensures { result ≡ is_format (option_map (λ w. w.now) word.entry) }
{
    match word {
        None | Some("canonical") | Some("relaxed") => true,
        Some(_) => false,
    }
}

/// The format that the word of `--jsonFormat` names; canonical if it is not `relaxed`.
fn format_named(word: Option<&str>) -> JsonFormat
    ensures { result ≡ format_named (option_map (λ w. w.now) word.entry) }
{
    match word {
        Some("relaxed") => JsonFormat::Relaxed,
        _ => JsonFormat::Canonical,
    }
}

/// The layout that options request; None if their fields are refused: one of them is no path, one leads to another, or one leads to
/// `_id` and it is left out; or if CSV has none. It fails only if memory runs out.
pub fn read_layout(alloc: Global, options: &LayoutOptions) -> Result<Option<Layout>, NoMemory>
    ensures { IfOk result (λ layout. option_map layout_view layout ≡ layout_named options.now) }
{
    if !is_csv(options.output.as_deref()) {
        return read_json(alloc, options);
    }
    match &options.fields {
        Some(text) => read_csv(alloc, options.no_header, text),
        None => Ok(None),
    }
}

/// The layout of JSON that options request.
fn read_json(alloc: Global, options: &LayoutOptions) -> Result<Option<Layout>, NoMemory>
    ensures { IfOk result (λ layout. option_map layout_view layout ≡ json_named options.now) }
{
    let format = format_named(options.format.as_deref());
    let is_array = options.is_array;
    let is_pretty = options.is_pretty;
    let paths = match &options.fields {
        None => None,
        Some(text) => match read_fields(alloc, text, options.no_id)? {
            None => return Ok(None),
            paths => paths,
        },
    };
    Ok(Some(Layout::Json(JsonLayout {
        format,
        paths,
        is_array,
        is_pretty,
    })))
}

/// The layout of CSV that the text of `--fields` requests.
fn read_csv(alloc: Global, no_header: bool, text: &str) -> Result<Option<Layout>, NoMemory>
    ensures { IfOk result (λ layout.
        option_map layout_view layout ≡ csv_named no_header text.now) }
{
    let Some(columns) = read_columns(alloc, text)? else {
        return Ok(None);
    };
    let header = header_of(alloc, no_header, &columns)?;
    Ok(Some(Layout::Csv(CsvLayout { columns, header })))
}

/// What is before the rows of these fields: the header row, or nothing.
fn header_of(alloc: Global, no_header: bool, columns: &[Path]) -> Result<Vec<u8>, NoMemory>
    ensures { IfOk result (λ v. v.items ≡ (if no_header then [] else header columns.now)) }
{
    let mut row = Vec::new(alloc);
    if no_header {
        return Ok(row);
    }
    let end = append_csv_header(columns, &mut row, 0)?;
    row.truncate(end);
    Ok(row)
}
