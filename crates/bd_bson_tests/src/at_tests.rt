//! Values found again by their `At` in a dump, at offsets that were counted by hand, and reads that were counted.

ghost use Rattle.std.specs.Prelude.{◌≡◌, IfSome};
ghost use Rattle.bd_bson_view.specs.Raw.{document_source, value_source, value_tree};
ghost use Rattle.bd_bson_dump.specs.Collection.{bytes_of};

use crate::samples::is_printed;
use bd_bson_dump::{Dump, read_dump};
use bd_bson_view::{At, RawDoc, RawValue};
use bd_value::{Class, Kind, Reading, class_of_node};
use std::alloc::Global;
use std::process::Abort;
use std::test::Fail;

/// An empty document, and at byte 5 one of five fields.
const BYTES: &[u8] =
    b"\x05\0\0\0\0\x34\0\0\0\x10a\0\x01\0\0\0\x02s\0\x03\0\0\0hi\0\x0an\0\x03d\0\x0c\0\0\0\x10x\0\x05\0\0\0\0\x04e\0\x09\0\0\0\x080\0\x01\0\0";

/// A field, or the first value inside it: its name, whether it is inside, its type byte, its offset, its class and its text.
type Found<'a> = (&'a str, bool, u8, u32, Class, &'a str);

/// Values that are found again.
static VALUES: [Found<'static>; 7] = [
    ("a", false, 0x10, 12, Class::Number, r#"{"$numberInt":"1"}"#),
    ("s", false, 0x02, 19, Class::Text, r#""hi""#),
    ("n", false, 0x0A, 29, Class::Null, "null"),
    (
        "d",
        false,
        0x03,
        32,
        Class::Doc,
        r#"{"x":{"$numberInt":"5"}}"#,
    ),
    ("e", false, 0x04, 47, Class::Array, "[true]"),
    ("d", true, 0x10, 39, Class::Number, r#"{"$numberInt":"5"}"#),
    ("e", true, 0x08, 54, Class::Bool, "true"),
];

fn values() -> &'static [Found<'static>] {
    &VALUES
}

fn sample(alloc: Global) -> Result<Dump, Fail> {
    let bytes = Vec::from_slice(alloc, BYTES)?;
    Ok(read_dump(alloc, bytes)?)
}

/// The document with that number.
fn document<'a>(rt: &impl Abort, dump: &'a Dump, number: u32) -> RawDoc<'a>
    ensures { document_source result ≡ bytes_of dump.now }
{
    let count = dump.len();
    assert!(rt; number < count);
    dump.document(number)
}

/// The value found at the `At` of a value.
fn again<'a>(dump: &'a Dump, value: RawValue<'_>) -> RawValue<'a>
    requires { value_source value ≡ bytes_of dump.now }
    ensures value { value_tree result ≡ value_tree value.entry }
    ensures same_source { value_source result ≡ bytes_of dump.now }
{
    dump.value_at(value.at())
}

/// The value of that name, or the first value inside it.
fn value_in<'a>(whole: RawValue<'a>, name: &str, is_inside: bool) -> Option<RawValue<'a>>
    ensures { IfSome result (λ v. value_source v ≡ value_source whole.entry) }
{
    let value = whole.first(name)?;
    if !is_inside {
        return Some(value);
    }
    let elements = value.elements()?;
    let (_, first, _) = elements.next()?;
    Some(first)
}

/// Whether that value is at its offset, and the value found there is the same.
fn is_found(alloc: Global, dump: &Dump, whole: RawValue<'_>, row: &Found<'_>) -> bool
    requires { value_source whole ≡ bytes_of dump.now }
{
    let (name, is_inside, kind, start, class, printed) = *row;
    let Some(value) = value_in(whole, name, is_inside) else {
        return false;
    };
    let found = again(dump, value);
    let is_there = value.at() == At { kind, start };
    is_there && class_of_node(found) == class && is_printed(alloc, found, printed)
}

/// The whole document, its fields, and the values inside them are in the same bytes.
#[test]
fn finds_values_again(rt: HostRuntime) -> Result<(), Fail> {
    let alloc = rt.alloc();
    let dump = sample(alloc)?;
    let whole = document(&rt, &dump, 1).value();
    assert!(rt;
        whole.at()
            == At {
                kind: 0x03,
                start: 5
            }
    );
    let same = again(&dump, whole);
    assert!(rt; same.kind() == Kind::Doc && same.len() == 5);
    for row in values() {
        let (name, is_inside, ..) = *row;
        assert!(rt;
            is_found(alloc, &dump, same, row),
            "{name}, inside: {is_inside}"
        );
    }
    Ok(())
}

/// A null and an undefined that no document contains have an `At` too, even in a dump of no bytes.
#[test]
fn finds_what_takes_no_byte(rt: HostRuntime) -> Result<(), Fail> {
    let alloc = rt.alloc();
    let text = r#"{"$undefined":true}"#;
    let dump = read_dump(alloc, Vec::new(alloc))?;
    assert!(rt; is_printed(alloc, dump.value_at(At::null()), "null"));
    assert!(rt; is_printed(alloc, dump.value_at(At::undefined()), text));
    Ok(())
}

#[test]
fn counts_reads_of_documents(rt: HostRuntime) -> Result<(), Fail> {
    let alloc = rt.alloc();
    let dump = sample(alloc)?;
    assert!(rt; dump.reads() == 0);
    let whole = document(&rt, &dump, 0).value();
    assert!(rt; dump.reads() == 1);
    // A value found by its `At` is not a read, and neither are the bytes.
    let found = again(&dump, whole);
    assert!(rt; is_printed(alloc, found, "{}"));
    assert!(rt; dump.bytes().len() == 57);
    assert!(rt; dump.reads() == 1);
    for number in [1, 1, 0] {
        assert!(rt; document(&rt, &dump, number).is_empty() == (number == 0));
    }
    assert!(rt; dump.reads() == 4);
    Ok(())
}
