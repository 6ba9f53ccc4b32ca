//! Documents that are written, and those that are not. The bytes are also tested through the program:
//! `tests/rows/pack-bytes.jsonl`.
use crate::samples::{elements, every_kind, joined};
use bd_bson_check::read_document;
use bd_bson_write::{WriteFault, write_document};
use bd_value::{Document, NoMemory, Value};
use std::alloc::Global;
use std::process::Abort;
use std::test::Fail;

/// Whether the document of the bytes is written as the expected bytes.
fn is_written(rt: &impl Abort, alloc: Global, bytes: &[u8], want: &[u8]) -> bool {
    assert!(rt; bytes.len() < 100_000);
    match read_document(alloc, bytes, 0, 0) {
        Ok(document) => {
            write_document(alloc, &document).is_ok_and(|written| written.as_slice() == want)
        }
        Err(_) => false,
    }
}

/// The array of the samples, with its elements' indexes as names. No other sample has an array with other names.
const ARRAY: &[u8] = b"\x04a\0\x12\0\0\0\x100\0\x07\0\0\0\x0a1\0\xff2\0\0";

/// Whether a document of these bytes of elements is written as a document of the others.
fn are_written(
    rt: &impl Abort,
    alloc: Global,
    elements: &[u8],
    want: &[u8],
) -> Result<bool, NoMemory> {
    let bytes = joined(alloc, elements, b"")?;
    Ok(is_written(rt, alloc, &bytes, &joined(alloc, want, b"")?))
}

/// The bytes that are written for an element.
fn plain<'a>(name: &str, element: &'a [u8]) -> &'a [u8] {
    if name == "a" { ARRAY } else { element }
}

/// The document of the bytes that are written for all.
fn every_plain_kind(alloc: Global) -> Result<Vec<u8>, NoMemory> {
    let mut all = Vec::new(alloc);
    for (name, element, _) in elements() {
        all.extend_from_slice(plain(name, element))?;
    }
    joined(alloc, &all, b"")
}

#[test]
fn writes_every_kind(rt: HostRuntime) -> Result<(), Fail> {
    let alloc = rt.alloc();
    for (name, element, _) in elements() {
        let is_right = are_written(&rt, alloc, element, plain(name, element))?;
        assert!(rt; is_right, "{name}");
    }
    assert!(rt; is_written(&rt, alloc, &every_kind(alloc)?, &every_plain_kind(alloc)?));
    Ok(())
}

/// No element; a repeated name and an empty one; a text, a code and a pointer's text with zeros; arrays of two and of twelve.
#[test]
fn writes_what_was_read(rt: HostRuntime) {
    let rows: &[&[u8]] = &[
        b"\x05\0\0\0\0",
        b"\x1a\0\0\0\x10a\0\x01\0\0\0\x08a\0\x01\x12\0\xfe\xff\xff\xff\xff\xff\xff\xff\0",
        b"\x2e\0\0\0\x02t\0\x02\0\0\0\0\0\x0dc\0\x03\0\0\0\0\0\0\x0cp\0\x03\0\0\0n\0\0\0\0\0\0\0\0\0\0\0\0\0\0\0",
        b"\x1b\0\0\0\x04a\0\x13\0\0\0\x100\0\x07\0\0\0\x101\0\x08\0\0\0\0\0",
        b"\x33\0\0\0\x04a\0\x2b\0\0\0\
            \x0a0\0\x0a1\0\x0a2\0\x0a3\0\x0a4\0\x0a5\0\x0a6\0\x0a7\0\x0a8\0\x0a9\0\x0a10\0\x0a11\0\0\0",
    ];
    for bytes in rows {
        assert!(rt; is_written(&rt, rt.alloc(), bytes, bytes), "{bytes:?}");
    }
}

/// A document with one pair.
fn document_of(alloc: Global, name: &str, value: Value) -> Result<Document, NoMemory> {
    let mut document = Document::new(alloc);
    document.push(String::from_str(alloc, name)?, value)?;
    Ok(document)
}

fn pattern(alloc: Global, pattern: &str, options: &str) -> Result<Value, NoMemory> {
    Ok(Value::Regex {
        pattern: String::from_str(alloc, pattern)?,
        options: String::from_str(alloc, options)?,
    })
}

/// An array with a code whose scope has a document with a zero in a name.
fn zero_inside(alloc: Global) -> Result<Value, NoMemory> {
    let zero = document_of(alloc, "a\0", Value::Null)?;
    let scope = document_of(alloc, "b", Value::Doc(zero))?;
    let code = Value::CodeScope(String::from_str(alloc, "c")?, scope);
    Ok(Value::Array(Vec::from_array(alloc, [Value::Null, code])?))
}

/// The document that a row names.
fn sample(alloc: Global, name: &str) -> Result<Document, NoMemory> {
    let value = match name {
        "no element" => return Ok(Document::new(alloc)),
        "zero in a name" => return document_of(alloc, "a\0", Value::Null),
        "zero in a pattern" => pattern(alloc, "p\0q", "i")?,
        "zero in options" => pattern(alloc, "p", "\0")?,
        "zero inside" => zero_inside(alloc)?,
        _ => Value::CodeScope(String::from_str(alloc, "c")?, Document::new(alloc)),
    };
    document_of(alloc, "d", value)
}

/// How many bytes are written for `levels` documents, each the field `a` of the one outside it, the innermost this one, or
/// why none are.
fn written(
    alloc: Global,
    levels: u32,
    inside: Result<Document, NoMemory>,
) -> Result<usize, WriteFault> {
    let mut document = inside?;
    for _ in 1..levels {
        document = document_of(alloc, "a", Value::Doc(document))?;
    }
    let bytes = write_document(alloc, &document)?;
    Ok(bytes.len())
}

/// A scope and its code are two levels. Too many levels are reported before a zero.
#[test]
fn refuses_zeros_and_201_levels(rt: HostRuntime) {
    let nul = Some(WriteFault::NulInName);
    let deep = Some(WriteFault::TooDeep);
    let rows = [
        (1, "zero in a name", nul),
        (2, "zero in a name", nul),
        (1, "zero inside", nul),
        (1, "zero in a pattern", nul),
        (1, "zero in options", nul),
        (200, "no element", None),
        (201, "no element", deep),
        (201, "zero in a name", deep),
        (200, "zero in a name", nul),
        (198, "scope", None),
        (199, "scope", deep),
    ];
    for (levels, name, want) in rows {
        let refused = match written(rt.alloc(), levels, sample(rt.alloc(), name)) {
            Ok(_) => None,
            Err(fault) => Some(fault),
        };
        assert!(rt; refused == want, "{levels} levels, {name}");
    }
}

/// The document of one text of `length` bytes.
fn document_of_text(alloc: Global, length: usize) -> Result<Document, NoMemory> {
    let mut long = "x".repeat(alloc, 65_536)?.repeat(alloc, length / 65_536)?;
    long.push_str("x".repeat(alloc, length % 65_536)?.as_str())?;
    document_of(alloc, "a", Value::Text(long))
}

/// A text takes 13 bytes more in its document: 4 of the length, 3 of the type and the name, 4 of its own length, a zero
/// after it and one at the end. Of 200 levels each takes seven bytes, the innermost five.
#[test]
fn writes_16793600_bytes(rt: HostRuntime) {
    let alloc = rt.alloc();
    let deepest = written(alloc, 200, sample(alloc, "no element"));
    assert!(rt; matches!(deepest, Ok(1597)));
    let longest = written(alloc, 1, document_of_text(alloc, 16_793_587));
    assert!(rt; matches!(longest, Ok(16_793_600)));
    for length in [16_793_588, 16_793_600, 16_793_601] {
        let refused = written(alloc, 1, document_of_text(alloc, length));
        assert!(rt; matches!(refused, Err(WriteFault::TooLong)), "of {length}");
    }
}
