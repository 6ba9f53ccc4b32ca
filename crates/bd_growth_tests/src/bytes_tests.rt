//! Documents in memory and in bytes, and devices that are read completely, and document by document.
use crate::answers::{RowFault, is_whole};
use crate::samples::{FIVE, MIXED, ONE, SEVERAL_KEYS, TWICE, dump_of};
use bd_bson_check::{FaultKind, read_document};
use bd_bson_stream::{DocFault, DocReader};
use bd_bson_write::write_document;
use bd_extjson::read_doc;
use bd_extjson_fault::JsonFaultKind;
use bd_io_device::{Limits, MemoryInput, ReadFault, read_all};
use bd_value::{Document, Value};
use std::alloc::Global;

/// Whether a document is {"a":1}.
fn is_one(document: &Document) -> bool {
    document.len() == 1 && matches!(document.first("a"), Some(Value::Int32(1)))
}

/// Adds a number under `a`. A push that was refused leaves the same pairs, and is repeated.
fn push(alloc: Global, document: &mut Document, number: i32) -> Result<bool, RowFault> {
    let before = document.len();
    let name = String::from_str(alloc, "a")?;
    if document.push(name, Value::Int32(number)).is_ok() {
        return Ok(true);
    }
    let is_remaining = document.len() == before;
    document.push(String::from_str(alloc, "a")?, Value::Int32(number))?;
    Ok(is_remaining)
}

fn pushes(alloc: Global) -> Result<bool, RowFault> {
    let mut document = Document::new(alloc);
    for (number, wanted) in [(1, ONE), (2, TWICE)] {
        let is_pushed = push(alloc, &mut document, number)?;
        if !is_pushed || write_document(alloc, &document)?.as_slice() != wanted {
            return Ok(false);
        }
    }
    Ok(true)
}

/// Documents that are read from bytes.
fn documents(alloc: Global) -> Result<bool, RowFault> {
    Ok(is_one(&read_document(alloc, ONE, 0, 0)?))
}

/// Copies from a view of a dump.
fn copies(alloc: Global) -> Result<bool, RowFault> {
    let dump = dump_of(alloc, ONE)?;
    if dump.len() != 1 {
        return Ok(false);
    }
    let view = dump.document(0);
    let document = view.to_document(alloc)?;
    let value = view.value().to_value(alloc)?;
    Ok(is_one(&document) && matches!(&value, Value::Doc(same) if is_one(same)))
}

/// Texts of documents, and the bytes of these.
const ROWS: [(&str, &[u8]); 5] = [
    (r#"{"a":1}"#, ONE),
    (
        r#"{"a":2147483648}"#,
        b"\x10\0\0\0\x12a\0\0\0\0\x80\0\0\0\0\0",
    ),
    (r#"{"a":[5,7,5]} {"a":5}"#, SEVERAL_KEYS),
    (r#"{"a":[]} {} {"a":null} {"a":[3,1]} {"a":2}"#, MIXED),
    (r#"{"a":0} {"a":1} {"a":2} {"a":3} {"a":4}"#, FIVE),
];

/// Whether the documents of texts, separated by spaces, have these bytes.
fn are_written(alloc: Global, texts: &str, wanted: &[u8]) -> Result<bool, RowFault> {
    let mut bytes = Vec::new(alloc);
    for text in texts.split(' ') {
        let document = read_doc(alloc, text.as_bytes())?;
        bytes.extend_from_slice(&write_document(alloc, &document)?)?;
    }
    Ok(bytes.as_slice() == wanted)
}

/// Bytes with a string of length 0, and a text with a fraction.
fn faults(alloc: Global) -> Result<bool, RowFault> {
    let bytes = b"\x0c\0\0\0\x02a\0\0\0\0\0\0";
    let Err(fault) = read_document(alloc, bytes, 0, 0) else {
        return Ok(false);
    };
    let Err(unread) = read_doc(alloc, b"{\"a\":1.5}") else {
        return Ok(false);
    };
    if fault.kind != FaultKind::BadStringLength {
        return Err(RowFault::from(fault));
    }
    if unread.kind != JsonFaultKind::NotInProfile || unread.at != 5 {
        return Err(RowFault::from(unread));
    }
    Ok(fault.offset == 7 && matches!(fault.path.as_slice(), [name] if name.as_str() == "a"))
}

/// Five bytes.
const EMPTY: &[u8] = b"\x05\0\0\0\0";

/// Whether reading five bytes, one per read, is refused for this reason; None if all are read.
fn reads(alloc: Global, limits: Limits, wanted: Option<ReadFault>) -> Result<bool, RowFault> {
    let mut input = MemoryInput::new(EMPTY, 1, None);
    match read_all(alloc, &mut input, limits) {
        Ok(bytes) => Ok(wanted.is_none() && bytes.as_slice() == EMPTY),
        Err(fault) if wanted == Some(fault) => Ok(true),
        Err(fault) => Err(RowFault::from(fault)),
    }
}

/// A document, and two bytes of a length. After a refusal each further call fails.
fn cut_short_documents(alloc: Global) -> Result<bool, RowFault> {
    let input = MemoryInput::new(b"\x0c\0\0\0\x10a\0\x01\0\0\0\0\x05\0", 5, None);
    let limits = Limits {
        bytes: 100,
        turns: 100,
    };
    let mut reader = DocReader::new(alloc, input, limits);
    if !reader.advance()? || reader.bytes() != ONE {
        return Ok(false);
    }
    match reader.next() {
        Ok(_) => Ok(false),
        Err(DocFault::Frame(it)) if it.kind == FaultKind::ShortLength => Ok(it.offset == 12),
        Err(fault) => Err(RowFault::from(fault)),
    }
}

/// The result of the row with that name.
fn answer(alloc: Global, row: &str) -> Result<bool, RowFault> {
    match row {
        "pushes" => pushes(alloc),
        "a document" => documents(alloc),
        "copies" => copies(alloc),
        "faults" => faults(alloc),
        "documents that are cut" => cut_short_documents(alloc),
        _ => Err(RowFault::Otherwise),
    }
}

#[test]
fn documents_and_bytes(rt: HostRuntime) {
    for row in [
        "pushes",
        "a document",
        "copies",
        "faults",
        "documents that are cut",
    ] {
        assert!(rt; is_whole!(answer(rt.alloc(), row)), "{row}");
    }
    for (texts, bytes) in ROWS {
        assert!(rt; is_whole!(are_written(rt.alloc(), texts, bytes)), "{texts}");
    }
    // The fifth byte is one too many, the fourth read is, or the sixth finds the end.
    for (bytes, turns, wanted) in [
        (5, 6, None),
        (4, 9, Some(ReadFault::TooLong)),
        (5, 3, Some(ReadFault::TooManyTurns)),
    ] {
        let limits = Limits { bytes, turns };
        assert!(rt;
            is_whole!(reads(rt.alloc(), limits, wanted)),
            "{bytes}, {turns}"
        );
    }
}
