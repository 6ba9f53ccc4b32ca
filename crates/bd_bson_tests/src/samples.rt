//! What the tests share: an element of each kind that was written by hand.
use bd_bson_check::check_document;
use bd_bson_view::RawDoc;
use bd_extjson_text::write_node;
use bd_value::{NoMemory, Reading};
use std::alloc::Global;
use std::process::Abort;

/// An element that was written by hand: its name; its type byte, its name and its value; the canonical text of the value.
pub(crate) type Element<'a> = (&'a str, &'a [u8], &'a str);

static ELEMENTS: [Element<'static>; 19] = [
    ("min", b"\xffmin\0", r#"{"$minKey":1}"#),
    ("un", b"\x06un\0", r#"{"$undefined":true}"#),
    ("", b"\x0a\0", "null"),
    ("i", b"\x10i\0\xfe\xff\xff\xff", r#"{"$numberInt":"-2"}"#),
    (
        "l",
        b"\x12l\0\x01\0\0\0\x01\0\0\0",
        r#"{"$numberLong":"4294967297"}"#,
    ),
    ("t", b"\x02t\0\x04\0\0\0a\0b\0", r#""a\u0000b""#),
    ("s", b"\x0es\0\x03\0\0\0\xc3\xa9\0", r#"{"$symbol":"é"}"#),
    (
        "d",
        b"\x03d\0\x0c\0\0\0\x10x\0\x05\0\0\0\0",
        r#"{"x":{"$numberInt":"5"}}"#,
    ),
    (
        "a",
        b"\x04a\0\x12\0\0\0\x10z\0\x07\0\0\0\x0a\0\xffyy\0\0",
        r#"[{"$numberInt":"7"},null,{"$minKey":1}]"#,
    ),
    (
        "b",
        b"\x05b\0\x07\0\0\0\x02\x03\0\0\0\x07\0\xff",
        r#"{"$binary":{"base64":"BwD/","subType":"02"}}"#,
    ),
    (
        "o",
        b"\x07o\0\x01\x02\x03\x04\x05\x06\x07\x08\x09\x0a\x0b\x0c",
        r#"{"$oid":"0102030405060708090a0b0c"}"#,
    ),
    ("f", b"\x08f\0\x01", "true"),
    (
        "when",
        b"\x09when\0\xff\xff\xff\xff\xff\xff\xff\xff",
        r#"{"$date":{"$numberLong":"-1"}}"#,
    ),
    (
        "ts",
        b"\x11ts\0\x02\0\0\0\xff\xff\xff\xff",
        r#"{"$timestamp":{"t":4294967295,"i":2}}"#,
    ),
    (
        "r",
        b"\x0br\0pq\0i\0",
        r#"{"$regularExpression":{"pattern":"pq","options":"i"}}"#,
    ),
    (
        "p",
        b"\x0cp\0\x02\0\0\0n\0\0\x01\x02\x03\x04\x05\x06\x07\x08\x09\x0a\x0b",
        r#"{"$dbPointer":{"$ref":"n","$id":{"$oid":"000102030405060708090a0b"}}}"#,
    ),
    ("c", b"\x0dc\0\x02\0\0\0x\0", r#"{"$code":"x"}"#),
    (
        "w",
        b"\x0fw\0\x13\0\0\0\x02\0\0\0y\0\x09\0\0\0\x08k\0\0\0",
        r#"{"$code":"y","$scope":{"k":false}}"#,
    ),
    ("max", b"\x7fmax\0", r#"{"$maxKey":1}"#),
];

/// An element of each kind, in the order of the kinds.
pub(crate) fn elements() -> &'static [Element<'static>] {
    &ELEMENTS
}

/// The document of these bytes of elements, the others after the first.
pub(crate) fn joined(alloc: Global, first: &[u8], others: &[u8]) -> Result<Vec<u8>, NoMemory> {
    let size = first.len().wrapping_add(others.len()).wrapping_add(5) as u64;
    let mut bytes = Vec::from_slice(alloc, &size.to_le_bytes()[..4])?;
    bytes.extend_from_slice(first)?;
    bytes.extend_from_slice(others)?;
    bytes.push(0)?;
    Ok(bytes)
}

/// The document with an element of each kind.
pub(crate) fn every_kind(alloc: Global) -> Result<Vec<u8>, NoMemory> {
    let mut bytes = Vec::new(alloc);
    for (_, element, _) in elements() {
        bytes.extend_from_slice(element)?;
    }
    joined(alloc, &bytes, b"")
}

/// A view of the bytes, which are a document without a fault.
pub(crate) fn view<'a>(rt: &impl Abort, alloc: Global, bytes: &'a [u8]) -> RawDoc<'a> {
    assert!(rt; bytes.len() < 100_000);
    match check_document(alloc, bytes, 0, 0) {
        Ok(document) => document,
        Err(_) => panic!(rt; "a document was wanted"),
    }
}

/// Whether this is the canonical text of the node.
pub(crate) fn is_printed<N: Reading>(alloc: Global, node: N, want: &str) -> bool {
    let mut text = Vec::new(alloc);
    match write_node(node, &mut text) {
        Ok(()) => text.as_slice() == want.as_bytes(),
        Err(_) => false,
    }
}
