//! Documents on many lines. The expected texts are those of lines.rt and texts worked by hand, as Python's `json` lays them out.

ghost use Rattle.std.specs.Prelude.{◌≤◌, length};

use crate::dump::lines::EACH_TYPE;
use bd_bson_check::{Profile, check_bytes};
use bd_wide_dump::{JsonFormat, indent_projected, indent_wide, read_fields};
use std::alloc::{AllocError, Global};
use std::process::Abort;
use std::test::Fail;

/// The document has this text in that format.
fn text_is(
    rt: &impl Abort,
    alloc: Global,
    format: JsonFormat,
    bytes: &[u8],
    expected: &[u8],
) -> Result<(), Fail>
    requires { length bytes.now ≤ 10000 }
{
    check_bytes(alloc, Profile::All, bytes, 0, 0)?;
    let mut spare = Vec::new(alloc);
    let mut buffer = Vec::new(alloc);
    let end = indent_wide(format, bytes, &mut spare, &mut buffer, 0)?;
    assert!(rt; &buffer[..end] == expected);
    Ok(())
}

#[test]
fn each_type(rt: HostRuntime) -> Result<(), Fail> {
    text_is(
        &rt,
        rt.alloc(),
        JsonFormat::Canonical,
        EACH_TYPE,
        b"{\n\t\"d\": {\n\t\t\"$numberDouble\": \"1.5\"\n\t},\n\t\"s\": \"a\",\n\t\"o\": {},\n\t\"a\": [],\n\t\"b\": {\n\t\t\"$binary\": {\n\t\t\t\"base64\": \"AQI=\",\n\t\t\t\"subType\": \"00\"\n\t\t}\n\t},\n\t\"u\": {\n\t\t\"$undefined\": true\n\t},\n\t\"i\": {\n\t\t\"$oid\": \"000102030405060708090a0b\"\n\t},\n\t\"t\": true,\n\t\"w\": {\n\t\t\"$date\": {\n\t\t\t\"$numberLong\": \"0\"\n\t\t}\n\t},\n\t\"n\": null,\n\t\"r\": {\n\t\t\"$regularExpression\": {\n\t\t\t\"pattern\": \"p\",\n\t\t\t\"options\": \"i\"\n\t\t}\n\t},\n\t\"p\": {\n\t\t\"$dbPointer\": {\n\t\t\t\"$ref\": \"n\",\n\t\t\t\"$id\": {\n\t\t\t\t\"$oid\": \"000102030405060708090a0b\"\n\t\t\t}\n\t\t}\n\t},\n\t\"c\": {\n\t\t\"$code\": \"f\"\n\t},\n\t\"y\": {\n\t\t\"$symbol\": \"s\"\n\t},\n\t\"k\": {\n\t\t\"$code\": \"f\",\n\t\t\"$scope\": {}\n\t},\n\t\"j\": {\n\t\t\"$numberInt\": \"7\"\n\t},\n\t\"m\": {\n\t\t\"$timestamp\": {\n\t\t\t\"t\": 1,\n\t\t\t\"i\": 2\n\t\t}\n\t},\n\t\"l\": {\n\t\t\"$numberLong\": \"-2\"\n\t},\n\t\"e\": {\n\t\t\"$numberDecimal\": \"1.5\"\n\t},\n\t\"x\": {\n\t\t\"$maxKey\": 1\n\t},\n\t\"z\": {\n\t\t\"$minKey\": 1\n\t}\n}",
    )
}

#[test]
fn each_type_in_relaxed_form(rt: HostRuntime) -> Result<(), Fail> {
    text_is(
        &rt,
        rt.alloc(),
        JsonFormat::Relaxed,
        EACH_TYPE,
        b"{\n\t\"d\": 1.5,\n\t\"s\": \"a\",\n\t\"o\": {},\n\t\"a\": [],\n\t\"b\": {\n\t\t\"$binary\": {\n\t\t\t\"base64\": \"AQI=\",\n\t\t\t\"subType\": \"00\"\n\t\t}\n\t},\n\t\"u\": {\n\t\t\"$undefined\": true\n\t},\n\t\"i\": {\n\t\t\"$oid\": \"000102030405060708090a0b\"\n\t},\n\t\"t\": true,\n\t\"w\": {\n\t\t\"$date\": \"1970-01-01T00:00:00Z\"\n\t},\n\t\"n\": null,\n\t\"r\": {\n\t\t\"$regularExpression\": {\n\t\t\t\"pattern\": \"p\",\n\t\t\t\"options\": \"i\"\n\t\t}\n\t},\n\t\"p\": {\n\t\t\"$dbPointer\": {\n\t\t\t\"$ref\": \"n\",\n\t\t\t\"$id\": {\n\t\t\t\t\"$oid\": \"000102030405060708090a0b\"\n\t\t\t}\n\t\t}\n\t},\n\t\"c\": {\n\t\t\"$code\": \"f\"\n\t},\n\t\"y\": {\n\t\t\"$symbol\": \"s\"\n\t},\n\t\"k\": {\n\t\t\"$code\": \"f\",\n\t\t\"$scope\": {}\n\t},\n\t\"j\": 7,\n\t\"m\": {\n\t\t\"$timestamp\": {\n\t\t\t\"t\": 1,\n\t\t\t\"i\": 2\n\t\t}\n\t},\n\t\"l\": -2,\n\t\"e\": {\n\t\t\"$numberDecimal\": \"1.5\"\n\t},\n\t\"x\": {\n\t\t\"$maxKey\": 1\n\t},\n\t\"z\": {\n\t\t\"$minKey\": 1\n\t}\n}",
    )
}

#[test]
fn brackets(rt: HostRuntime) -> Result<(), Fail> {
    let bytes =
        b"G\0\0\0\x04a\0)\0\0\0\x100\0\x01\0\0\0\x031\0\x0d\0\0\0\x04b\0\x05\0\0\0\0\0\x022\0\x06\0\0\0{,\":[\0\0\x03c\0\x05\0\0\0\0\x0ad\0\x01e\0\0\0\0\0\0\0\xf0\xff\0";
    text_is(
        &rt,
        rt.alloc(),
        JsonFormat::Relaxed,
        bytes,
        b"{\n\t\"a\": [\n\t\t1,\n\t\t{\n\t\t\t\"b\": []\n\t\t},\n\t\t\"{,\\\":[\"\n\t],\n\t\"c\": {},\n\t\"d\": null,\n\t\"e\": {\n\t\t\"$numberDouble\": \"-Infinity\"\n\t}\n}",
    )
}

#[test]
fn some_fields(rt: HostRuntime) -> Result<(), Fail> {
    let alloc = rt.alloc();
    check_bytes(alloc, Profile::All, EACH_TYPE, 0, 0)?;
    let Some(paths) = read_fields(alloc, "k,o", true)? else {
        return Err(Fail::new("no paths"));
    };
    let mut projected = Vec::new(alloc);
    let mut spare = Vec::new(alloc);
    let mut buffer = Vec::new(alloc);
    let end = indent_projected(
        alloc,
        JsonFormat::Canonical,
        &paths,
        EACH_TYPE,
        &mut projected,
        &mut spare,
        &mut buffer,
        0,
    )?;
    assert!(rt;
        &buffer[..end]
            == b"{\n\t\"o\": {},\n\t\"k\": {\n\t\t\"$code\": \"f\",\n\t\t\"$scope\": {}\n\t}\n}".as_slice()
    );
    Ok(())
}

/// Arrays in arrays, so that there are more tabs than are copied at once.
#[test]
fn many_levels(rt: HostRuntime) -> Result<(), Fail> {
    let alloc = rt.alloc();
    let mut bytes = Vec::from_slice(alloc, b"\x05\0\0\0\0")?;
    for level in 0..39u8 {
        let mut outer = Vec::from_slice(alloc, &(u32::from(level) * 8 + 13).to_le_bytes())?;
        outer.extend_from_slice(b"\x040\0")?;
        outer.extend_from_slice(&bytes)?;
        outer.push(0)?;
        bytes = outer;
    }
    let mut expected = Vec::from_slice(alloc, b"{\n\t\"0\": ")?;
    for level in 2..40u8 {
        expected.extend_from_slice(b"[\n")?;
        push_tabs(level, &mut expected)?;
    }
    expected.extend_from_slice(b"[]")?;
    for passed in 1..39u8 {
        expected.push(b'\n')?;
        push_tabs(39 - passed, &mut expected)?;
        expected.push(b']')?;
    }
    expected.extend_from_slice(b"\n}")?;
    assert_eq!(rt; bytes.len(), 317);
    text_is(&rt, alloc, JsonFormat::Canonical, &bytes, &expected)
}

/// Appends that many tabs.
fn push_tabs(count: u8, text: &mut Vec<u8>) -> Result<(), AllocError> {
    for _ in 0..count {
        text.push(b'\t')?;
    }
    Ok(())
}
