//! Offsets of faults, prefixes of documents, and frames. Documents and faults of other bytes are tested through the program:
//! `tests/rows/check-*.jsonl` and `cut-kinds.jsonl`.
use crate::samples::{every_kind, is_printed, joined};
use bd_bson_check::{Fault, FaultKind, check_document, next_frame, read_document};
use bd_value::{NoMemory, Tree};
use std::alloc::Global;
use std::process::Abort;
use std::test::Fail;

/// Whether a call returned a fault with this message.
fn is_fault<T: Drop>(alloc: Global, given: Result<T, Fault>, want: &str) -> bool {
    match given {
        Ok(_) => false,
        Err(fault) => format!(in alloc; "{fault}").is_ok_and(|text| text.as_str() == want),
    }
}

/// Asserts the fault of the bytes as document 3 at the offset 100, both when they are read and when they are only checked.
fn refused(rt: &impl Abort, alloc: Global, bytes: &[u8], want: &str) {
    assert!(rt; bytes.len() < 100_000);
    let is_checked = is_fault(alloc, check_document(alloc, bytes, 100, 3), want);
    let is_read = is_fault(alloc, read_document(alloc, bytes, 100, 3), want);
    assert!(rt; is_checked && is_read, "{want:?} was wanted of {bytes:?}");
}

/// Faults of a document with a byte too many, in an array and in a scope, and at the last bytes of the longest dump.
#[test]
fn adds_an_offset_and_a_number(rt: HostRuntime) {
    let alloc = rt.alloc();
    let rows: &[(&[u8], &str)] = &[
        (b"\x05\0\0\0\0\0", "document 3, byte 100: bad length"),
        (
            b"\x1c\0\0\0\x04a\0\x14\0\0\0\x10z\0\x07\0\0\0\x03y\0\x05\0\0\0\x01\0\0",
            "document 3, byte 125: no terminator",
        ),
        (
            b"\x1b\0\0\0\x0fc\0\x13\0\0\0\x02\0\0\0x\0\x09\0\0\0\x08b\0\x02\0\0",
            "document 3, byte 124: bad boolean",
        ),
    ];
    for (bytes, want) in rows {
        refused(&rt, alloc, bytes, want);
    }
    let one = read_document(alloc, b"\x0c\0\0\0\x10a\0\x01\0\0\0\0", 4, 7);
    let want = r#"{"a":{"$numberInt":"1"}}"#;
    assert!(rt; one.is_ok_and(|document| is_printed(alloc, Tree::Doc(&document), want)));
    let base = 4_294_967_286;
    assert!(rt; check_document(alloc, b"\x09\0\0\0\x08b\0\x01\0", base, 0).is_ok());
    let last = check_document(alloc, b"\x09\0\0\0\x08b\0\x02\0", base, 4_294_967_295);
    let want = "document 4294967295, byte 4294967293: bad boolean";
    assert!(rt; is_fault(alloc, last, want));
    // No row prints these two.
    let words = (FaultKind::DumpTooLong.words(), FaultKind::NoMemory.words());
    assert!(rt; words.0 == "dump too long" && words.1 == "no memory");
}

/// Asserts whether the bytes are a document, and that no shorter prefix of them is one.
fn no_prefix(rt: &impl Abort, alloc: Global, bytes: &[u8], is_one: bool) {
    assert!(rt; bytes.len() < 100_000);
    assert!(rt; read_document(alloc, bytes, 0, 0).is_ok() == is_one);
    for splits in 0..bytes.len() {
        let want = match splits {
            0..4 => "document 3, byte 100: length cut short",
            _ => "document 3, byte 100: bad length",
        };
        refused(rt, alloc, &bytes[..splits], want);
    }
}

/// A document of n levels.
fn nested(alloc: Global, levels: u32) -> Result<Vec<u8>, NoMemory> {
    let mut bytes = joined(alloc, b"", b"")?;
    for _ in 1..levels {
        bytes = joined(alloc, b"\x03a\0", &bytes)?;
    }
    Ok(bytes)
}

/// Prefixes of the document of each kind, of binary data of subtype 02, of a timestamp, and of a text with a zero; of the
/// most levels, and of one more, which are no document even as a whole.
#[test]
fn no_prefix_of_a_document_is_one(rt: HostRuntime) -> Result<(), Fail> {
    let rows: &[&[u8]] = &[
        b"\x13\0\0\0\x05x\0\x06\0\0\0\x02\x02\0\0\0\xff\xff\0",
        b"\x10\0\0\0\x11t\0\x02\0\0\0\x01\0\0\0\0",
        b"\x10\0\0\0\x02s\0\x04\0\0\0a\0b\0\0",
    ];
    for bytes in rows {
        no_prefix(&rt, rt.alloc(), bytes, true);
    }
    no_prefix(&rt, rt.alloc(), &every_kind(rt.alloc())?, true);
    for (levels, is_one) in [(200, true), (201, false)] {
        no_prefix(&rt, rt.alloc(), &nested(rt.alloc(), levels)?, is_one);
    }
    Ok(())
}

/// A frame does not depend on the contents of its document: a double, and then the document {"a":1}.
#[test]
fn frames_documents(rt: HostRuntime) {
    let alloc = rt.alloc();
    let bytes = b"\x10\0\0\0\x01d\0\0\0\0\0\0\0\xf0\x3f\0\x0c\0\0\0\x10a\0\x01\0\0\0\0";
    for (at, number, length) in [(0, 0, 16), (16, 1, 12), (28, 2, 0)] {
        assert!(rt; at <= 28);
        let is_found = match next_frame(alloc, bytes, at, number) {
            Ok(Some(frame)) => frame.start == at && frame.length == length,
            Ok(None) => length == 0,
            Err(_) => false,
        };
        assert!(rt; is_found, "at {at}");
    }
}
