//! Layouts, and the texts in them: a call that was refused is made again with the same buffers.
use crate::answers::{RowFault, is_whole};
use crate::samples::DOCUMENT;
use bd_bson_check::{Profile, check_bytes};
use bd_cli_args::LayoutOptions;
use bd_value::NoMemory;
use bd_wide_layout::{LayoutBuffer, read_layout};
use std::alloc::Global;

/// The options for rows of CSV, or for an array of texts on many lines.
fn options(alloc: Global, is_csv: bool) -> Result<LayoutOptions, NoMemory> {
    let word = if is_csv { "csv" } else { "json" };
    Ok(LayoutOptions {
        output: Some(String::from_str(alloc, word)?),
        format: None,
        fields: Some(String::from_str(alloc, "o.x,s")?),
        no_id: !is_csv,
        no_header: false,
        is_array: !is_csv,
        is_pretty: !is_csv,
    })
}

/// Whether this is before the first document, and these are the texts of the second and the third.
fn lays_out(alloc: Global, is_csv: bool, opening: &[u8], wanted: &[u8]) -> Result<bool, RowFault> {
    check_bytes(alloc, Profile::All, DOCUMENT, 0, 0)?;
    let Some(layout) = read_layout(alloc, &options(alloc, is_csv)?)? else {
        return Ok(false);
    };
    let mut buffer = LayoutBuffer::new(alloc);
    for number in 1..3 {
        if buffer.piece(alloc, &layout, number, DOCUMENT).is_err() {
            buffer.piece(alloc, &layout, number, DOCUMENT)?;
        }
        if buffer.piece(alloc, &layout, number, DOCUMENT)? != wanted {
            return Ok(false);
        }
    }
    Ok(layout.opening() == opening)
}

#[test]
fn layouts(rt: HostRuntime) {
    let rows: [(bool, &[u8], &[u8]); 2] = [
        (true, b"o.x,s\n", b"7,\"a,b\"\n"),
        (
            false,
            b"[\n",
            b",\n{\n\t\"s\": \"a,b\",\n\t\"o\": {\n\t\t\"x\": {\n\t\t\t\"$numberInt\": \"7\"\n\t\t}\n\t}\n}",
        ),
    ];
    for (is_csv, opening, wanted) in rows {
        assert!(rt;
            is_whole!(lays_out(rt.alloc(), is_csv, opening, wanted)),
            "{is_csv}"
        );
    }
}
