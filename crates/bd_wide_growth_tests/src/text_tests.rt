//! Texts that are appended: after a refusal the bytes before the text are unchanged, and the call is made again.
use crate::answers::{RowFault, is_whole};
use crate::samples::DOCUMENT;
use bd_bson_check::{Profile, check_bytes};
use bd_extjson_text::End;
use bd_path::Path;
use bd_wide_dump::{
    JsonFormat, append_csv_header, append_csv_row, append_projected, append_wide, indent_projected,
    indent_wide, read_columns,
};
use bd_wide_text::{write_decimal128, write_double};
use std::alloc::Global;

/// What is appended: a number, or a text of the document or of some fields of it, on one line or on many.
#[derive(Clone, Copy)]
enum Row {
    Double,
    Decimal128,
    Wide,
    Projected,
    CsvRow,
    CsvHeader,
    Indented,
    IndentedFields,
}

/// The texts of the numbers are in the corpus of MongoDB's drivers.
const ROWS: [(Row, &[u8]); 8] = [
    (Row::Double, b"-1.2345678921232E+18"),
    (
        Row::Decimal128,
        b"-1.000000000000000000000000000000000E+6144",
    ),
    (
        Row::Wide,
        br#"{"d":{"$numberDouble":"1.5"},"e":{"$numberDecimal":"1.5"},"s":"a,b","o":{"x":{"$numberInt":"7"}}}"#,
    ),
    (Row::Projected, br#"{"s":"a,b","o":{"x":7}}"#),
    (Row::CsvRow, b"7,\"a,b\",\n"),
    (Row::CsvHeader, b"o.x,s,none\n"),
    (
        Row::Indented,
        b"{\n\t\"d\": {\n\t\t\"$numberDouble\": \"1.5\"\n\t},\n\t\"e\": {\n\t\t\"$numberDecimal\": \"1.5\"\n\t},\n\t\"s\": \"a,b\",\n\t\"o\": {\n\t\t\"x\": {\n\t\t\t\"$numberInt\": \"7\"\n\t\t}\n\t}\n}",
    ),
    (
        Row::IndentedFields,
        b"{\n\t\"s\": \"a,b\",\n\t\"o\": {\n\t\t\"x\": 7\n\t}\n}",
    ),
];

/// The requested fields, and the buffers of the calls.
#[derive(Drop)]
struct Sources {
    paths: Vec<Path>,
    projected: Vec<u8>,
    cell: Vec<u8>,
}

/// Appends by the call of a row after the first two bytes, and returns where the text ends.
fn append(alloc: Global, from: &mut Sources, row: Row, out: &mut Vec<u8>) -> End {
    if out.len() < 2 {
        return Ok(0);
    }
    let Ok(()) = check_bytes(alloc, Profile::All, DOCUMENT, 0, 0) else {
        return Ok(0);
    };
    let paths = &from.paths;
    match row {
        Row::Double | Row::Decimal128 => append_number(row, out),
        Row::Wide => append_wide(JsonFormat::Canonical, DOCUMENT, out, 2),
        Row::Projected => append_projected(
            alloc,
            JsonFormat::Relaxed,
            paths,
            DOCUMENT,
            &mut from.projected,
            out,
            2,
        ),
        Row::CsvRow => append_csv_row(paths, DOCUMENT, &mut from.cell, out, 2),
        Row::CsvHeader => append_csv_header(paths, out, 2),
        Row::Indented => { indent_wide(JsonFormat::Canonical, DOCUMENT, &mut from.cell, out, 2) }
        Row::IndentedFields => indent_projected(
            alloc,
            JsonFormat::Relaxed,
            paths,
            DOCUMENT,
            &mut from.projected,
            &mut from.cell,
            out,
            2,
        ),
    }
}

/// The same for a number.
fn append_number(row: Row, out: &mut Vec<u8>) -> End {
    out.truncate(2);
    match row {
        Row::Double => write_double(0xc3b1_2210_f4f5_1b2a, out)?,
        _ => write_decimal128(0x38c1_5b0a_0000_0000, 0xdffe_314d_c644_8d93, out)?,
    }
    Ok(out.len())
}

/// Whether each text is appended to two bytes, with ten bytes more in the buffer.
fn appends(alloc: Global) -> Result<bool, RowFault> {
    let Some(paths) = read_columns(alloc, "o.x,s,none")? else {
        return Ok(false);
    };
    let mut from = Sources {
        paths,
        projected: Vec::new(alloc),
        cell: Vec::new(alloc),
    };
    for (row, wanted) in ROWS {
        let mut out = Vec::from_slice(alloc, b"xy          ")?;
        let end = match append(alloc, &mut from, row, &mut out) {
            Ok(end) => end,
            Err(_) if out.starts_with(b"xy") => append(alloc, &mut from, row, &mut out)?,
            Err(_) => return Ok(false),
        };
        out.truncate(end);
        if out.strip_prefix(b"xy".as_slice()) != Some(wanted) {
            return Ok(false);
        }
    }
    Ok(true)
}

#[test]
fn texts(rt: HostRuntime) {
    assert!(rt; is_whole!(appends(rt.alloc())));
}
