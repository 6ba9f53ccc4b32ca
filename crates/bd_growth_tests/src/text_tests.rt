//! Texts and bytes that are appended: after a refusal the vector is unchanged, and the call is repeated.
use crate::answers::{RowFault, is_whole};
use crate::samples::{ONE, TWICE, dump_of};
use bd_bson_check::read_document;
use bd_bson_dump::Dump;
use bd_cli_service::{Reply, write_reply};
use bd_cursor_request::{Batch, Token};
use bd_extjson_pack::Packer;
use bd_extjson_text::{TextBuffer, write_doc, write_node, write_value};
use bd_value::{Document, NoMemory, Value};
use std::alloc::Global;

/// What is appended: 1, {"a":1,"a":2} in memory, {"a":1} in a dump, its line, a reply that has it, or the bytes of a line.
#[derive(Clone, Copy)]
enum Row {
    Value,
    Tree,
    View,
    Line,
    Reply,
    Packed(&'static [u8]),
}

const ROWS: [(Row, &[u8]); 8] = [
    (Row::Value, b"{\"$numberInt\":\"1\"}"),
    (
        Row::Tree,
        br#"{"a":{"$numberInt":"1"},"a":{"$numberInt":"2"}}"#,
    ),
    (Row::View, b"{\"a\":{\"$numberInt\":\"1\"}}"),
    // The second overwrites the first.
    (Row::Line, b"{\"a\":{\"$numberInt\":\"1\"}}\n"),
    (Row::Line, b"{\"a\":{\"$numberInt\":\"1\"}}\n"),
    (
        Row::Reply,
        br#"{"ok":true,"documents":[{"a":{"$numberInt":"1"}}],"end":false,"token":"AQIAAAAAAAAAAgAAAAAAAAAAAAAAAAAAAAAAAAAAAAAAAAAAAAAAAAAAAAAA"}"#,
    ),
    // One that is packed from its tokens, and one for which a tree is built first.
    (Row::Packed(b"{\"a\":1}"), ONE),
    (
        Row::Packed(b"{\"a\":{\"$scope\":{\"x\":1},\"$code\":\"g\"}}"),
        b"\x1e\0\0\0\x0fa\0\x16\0\0\0\x02\0\0\0g\0\x0c\0\0\0\x10x\0\x01\0\0\0\0\0",
    ),
];

/// The inputs of the calls, the buffer for all lines, and the packer.
#[derive(Drop)]
struct Sources {
    document: Document,
    dump: Dump,
    reply: Reply,
    buffer: TextBuffer,
    packer: Packer,
}

fn read_sources(alloc: Global) -> Result<Sources, RowFault> {
    let batch = Batch {
        places: Vec::from_slice(alloc, &[0])?,
        token: Some(Token {
            given: 2,
            last: 2,
            digest: [0; 32],
        }),
        end: false,
    };
    Ok(Sources {
        document: read_document(alloc, TWICE, 0, 0)?,
        dump: dump_of(alloc, ONE)?,
        reply: Reply::Gave(batch),
        buffer: TextBuffer::new(alloc),
        packer: Packer::new(alloc),
    })
}

/// Appends by the call of a row. A line that is refused appends nothing.
fn append(alloc: Global, from: &mut Sources, row: Row, out: &mut Vec<u8>) -> Result<(), NoMemory> {
    match row {
        Row::Value => write_value(&Value::Int32(1), out),
        Row::Tree => write_doc(&from.document, out),
        Row::View if from.dump.len() == 1 => write_node(from.dump.document(0).value(), out),
        Row::Line if from.dump.len() == 1 => {
            out.extend_from_slice(from.buffer.line(from.dump.document(0).value())?)
        }
        Row::View | Row::Line => Ok(()),
        Row::Reply => write_reply(alloc, &from.dump, &from.reply, out),
        Row::Packed(line) => match from.packer.pack_line(line, out) {
            Ok(_) => Ok(()),
            Err(out_of_memory) => Err(out_of_memory),
        },
    }
}

/// Whether all is appended to two bytes, which alone remain after a refusal.
fn appends(alloc: Global) -> Result<bool, RowFault> {
    let mut from = read_sources(alloc)?;
    for (row, wanted) in ROWS {
        let mut out = Vec::from_slice(alloc, b"xy")?;
        if append(alloc, &mut from, row, &mut out).is_err() {
            if out.as_slice() != b"xy".as_slice() {
                return Ok(false);
            }
            append(alloc, &mut from, row, &mut out)?;
        }
        if out.strip_prefix(b"xy".as_slice()) != Some(wanted) {
            return Ok(false);
        }
    }
    Ok(true)
}

#[test]
fn lent_vectors(rt: HostRuntime) {
    assert!(rt; is_whole!(appends(rt.alloc())));
}
