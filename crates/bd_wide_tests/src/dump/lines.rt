//! Documents with doubles and decimal128, at each level.

ghost use Rattle.std.specs.Prelude.{◌≤◌, length};

use bd_bson_check::{Profile, check_bytes};
use bd_wide_dump::{JsonFormat, WideTextBuffer};
use std::alloc::Global;
use std::process::Abort;
use std::test::Fail;

/// A document with a value of each type.
pub(crate) const EACH_TYPE: &[u8] =
    b"\xcd\0\0\0\x01d\0\0\0\0\0\0\0\xf8\x3f\x02s\0\x02\0\0\0a\0\x03o\0\x05\0\0\0\0\x04a\0\x05\0\0\0\0\x05b\0\x02\0\0\0\0\x01\x02\x06u\0\x07i\0\0\x01\x02\x03\x04\x05\x06\x07\x08\x09\x0a\x0b\x08t\0\x01\x09w\0\0\0\0\0\0\0\0\0\x0an\0\x0br\0p\0i\0\x0cp\0\x02\0\0\0n\0\0\x01\x02\x03\x04\x05\x06\x07\x08\x09\x0a\x0b\x0dc\0\x02\0\0\0f\0\x0ey\0\x02\0\0\0s\0\x0fk\0\x0f\0\0\0\x02\0\0\0f\0\x05\0\0\0\0\x10j\0\x07\0\0\0\x11m\0\x02\0\0\0\x01\0\0\0\x12l\0\xfe\xff\xff\xff\xff\xff\xff\xff\x13e\0\x0f\0\0\0\0\0\0\0\0\0\0\0\0\0\x3e\x30\x7fx\0\xffz\0\0";

/// The document has this canonical line.
fn line_is(rt: &impl Abort, alloc: Global, bytes: &[u8], expected: &[u8]) -> Result<(), Fail>
    requires { length bytes.now ≤ 10000 }
{
    line_in(rt, alloc, JsonFormat::Canonical, bytes, expected)
}

/// The document has this line in relaxed form.
fn relaxed_is(rt: &impl Abort, alloc: Global, bytes: &[u8], expected: &[u8]) -> Result<(), Fail>
    requires { length bytes.now ≤ 10000 }
{
    line_in(rt, alloc, JsonFormat::Relaxed, bytes, expected)
}

/// The document has this line in that format.
fn line_in(
    rt: &impl Abort,
    alloc: Global,
    format: JsonFormat,
    bytes: &[u8],
    expected: &[u8],
) -> Result<(), Fail>
    requires { length bytes.now ≤ 10000 }
{
    check_bytes(alloc, Profile::All, bytes, 0, 0)?;
    let mut lines = WideTextBuffer::new(alloc);
    let line = lines.line(format, bytes)?;
    assert!(rt; line == expected);
    Ok(())
}

#[test]
fn line(rt: HostRuntime) -> Result<(), Fail> {
    let bytes = b"\x10\0\0\0\x01d\0\0\0\0\0\0\0\xf8\x3f\0";
    line_is(
        &rt,
        rt.alloc(),
        bytes,
        b"{\"d\":{\"$numberDouble\":\"1.5\"}}\n",
    )
}

#[test]
fn decimal128(rt: HostRuntime) -> Result<(), Fail> {
    // The coefficient 15, and the exponent -1, which is 6175 with its bias: 0x303e before the 48 bits below it.
    let bytes = b"\x18\0\0\0\x13d\0\x0f\0\0\0\0\0\0\0\0\0\0\0\0\0\x3e\x30\0";
    line_is(
        &rt,
        rt.alloc(),
        bytes,
        b"{\"d\":{\"$numberDecimal\":\"1.5\"}}\n",
    )
}

#[test]
fn names_with_escapes(rt: HostRuntime) -> Result<(), Fail> {
    let bytes =
        b"\x24\0\0\0\x02a\"b\0\x04\0\0\0x\ny\0\x10n\0\x07\0\0\0\x12l\0\xfe\xff\xff\xff\xff\xff\xff\xff\0";
    line_is(
        &rt,
        rt.alloc(),
        bytes,
        b"{\"a\\\"b\":\"x\\ny\",\"n\":{\"$numberInt\":\"7\"},\"l\":{\"$numberLong\":\"-2\"}}\n",
    )
}

#[test]
fn nested_arrays(rt: HostRuntime) -> Result<(), Fail> {
    let bytes =
        b"\x2f\0\0\0\x04a\0\x27\0\0\0\x010\0\0\0\0\0\0\0\xf8\x3f\x041\0\x0c\0\0\0\x080\0\x01\x0a1\0\0\x032\0\x05\0\0\0\0\0\0";
    line_is(
        &rt,
        rt.alloc(),
        bytes,
        b"{\"a\":[{\"$numberDouble\":\"1.5\"},[true,null],{}]}\n",
    )
}

#[test]
fn code_with_scope(rt: HostRuntime) -> Result<(), Fail> {
    let bytes =
        b"\x25\0\0\0\x0fc\0\x1a\0\0\0\x02\0\0\0f\0\x10\0\0\0\x01x\0\0\0\0\0\0\0\xf8\x3f\0\x0az\0\0";
    line_is(
        &rt,
        rt.alloc(),
        bytes,
        b"{\"c\":{\"$code\":\"f\",\"$scope\":{\"x\":{\"$numberDouble\":\"1.5\"}}},\"z\":null}\n",
    )
}

#[test]
fn each_type(rt: HostRuntime) -> Result<(), Fail> {
    line_is(
        &rt,
        rt.alloc(),
        EACH_TYPE,
        b"{\"d\":{\"$numberDouble\":\"1.5\"},\"s\":\"a\",\"o\":{},\"a\":[],\"b\":{\"$binary\":{\"base64\":\"AQI=\",\"subType\":\"00\"}},\"u\":{\"$undefined\":true},\"i\":{\"$oid\":\"000102030405060708090a0b\"},\"t\":true,\"w\":{\"$date\":{\"$numberLong\":\"0\"}},\"n\":null,\"r\":{\"$regularExpression\":{\"pattern\":\"p\",\"options\":\"i\"}},\"p\":{\"$dbPointer\":{\"$ref\":\"n\",\"$id\":{\"$oid\":\"000102030405060708090a0b\"}}},\"c\":{\"$code\":\"f\"},\"y\":{\"$symbol\":\"s\"},\"k\":{\"$code\":\"f\",\"$scope\":{}},\"j\":{\"$numberInt\":\"7\"},\"m\":{\"$timestamp\":{\"t\":1,\"i\":2}},\"l\":{\"$numberLong\":\"-2\"},\"e\":{\"$numberDecimal\":\"1.5\"},\"x\":{\"$maxKey\":1},\"z\":{\"$minKey\":1}}\n",
    )
}

#[test]
fn a_line_that_grows(rt: HostRuntime) -> Result<(), Fail> {
    let alloc = rt.alloc();
    // A text of 2,000 bytes and a double: 4 + 2,008 + 11 + 1 bytes.
    let mut bytes = Vec::from_slice(alloc, b"\xe8\x07\0\0\x02s\0\xd1\x07\0\0")?;
    let mut expected = Vec::from_slice(alloc, b"{\"s\":\"")?;
    for _ in 0..2000u16 {
        bytes.push(b'x')?;
        expected.push(b'x')?;
    }
    bytes.extend_from_slice(b"\0\x01d\0\0\0\0\0\0\0\xf8\x3f\0")?;
    expected.extend_from_slice(b"\",\"d\":{\"$numberDouble\":\"1.5\"}}\n")?;
    assert_eq!(rt; bytes.len(), 2024);
    line_is(&rt, alloc, bytes.as_slice(), expected.as_slice())
}

#[test]
fn one_line_after_the_other(rt: HostRuntime) -> Result<(), Fail> {
    let alloc = rt.alloc();
    let first = b"\x10\0\0\0\x01d\0\0\0\0\0\0\0\xf8\x3f\0";
    let second = b"\x08\0\0\0\x0ae\0\0";
    check_bytes(alloc, Profile::All, first, 0, 0)?;
    check_bytes(alloc, Profile::All, second, 0, 0)?;
    let mut lines = WideTextBuffer::new(alloc);
    lines.line(JsonFormat::Canonical, first)?;
    assert!(rt; lines.line(JsonFormat::Canonical, second)? == b"{\"e\":null}\n".as_slice());
    Ok(())
}

#[test]
fn relaxed_numbers(rt: HostRuntime) -> Result<(), Fail> {
    let bytes =
        b"C\0\0\0\x10i\0\0\0\0\x80\x12l\0\xff\xff\xff\xff\xff\xff\xff\x7f\x01d\0\0\0\0\0\0\0\xf0\x3f\x01e\0\x2a\x1b\xf5\xf4\x10\x22\xb1C\x01n\0\0\0\0\0\0\0\xf8\x7f\x01f\0\0\0\0\0\0\0\xf0\xff\0";
    relaxed_is(
        &rt,
        rt.alloc(),
        bytes,
        b"{\"i\":-2147483648,\"l\":9223372036854775807,\"d\":1.0,\"e\":1.2345678921232E+18,\"n\":{\"$numberDouble\":\"NaN\"},\"f\":{\"$numberDouble\":\"-Infinity\"}}\n",
    )
}

#[test]
fn relaxed_dates(rt: HostRuntime) -> Result<(), Fail> {
    let bytes =
        b"G\0\0\0\x09a\0\0\0\0\0\0\0\0\0\x09b\0\xc5\xd8\xd6\xcc\x3b\x01\0\0\x09c\0\xd1\xd6\xd6\xcc\x3b\x01\0\0\x09d\0\xc4\xd8\xd6\xcc\x3b\x01\0\0\x09e\0\x02\xd7\xd6\xcc\x3b\x01\0\0\x09f\0\0\xe0\xa6\x9a\xdd\0\0\0\0";
    relaxed_is(
        &rt,
        rt.alloc(),
        bytes,
        b"{\"a\":{\"$date\":\"1970-01-01T00:00:00Z\"},\"b\":{\"$date\":\"2012-12-24T12:15:30.501Z\"},\"c\":{\"$date\":\"2012-12-24T12:15:30.001Z\"},\"d\":{\"$date\":\"2012-12-24T12:15:30.5Z\"},\"e\":{\"$date\":\"2012-12-24T12:15:30.05Z\"},\"f\":{\"$date\":\"2000-02-29T00:00:00Z\"}}\n",
    )
}

#[test]
fn relaxed_dates_of_other_years(rt: HostRuntime) -> Result<(), Fail> {
    let bytes =
        b"1\0\0\0\x09a\0\xc3\x3c\xe7\xb9\xbd\xff\xff\xff\x09b\0\xff\xff\xff\xff\xff\xff\xff\xff\x09c\0\xff\xdb\x1f\xd2w\xe6\0\0\x09d\0\0\xdc\x1f\xd2w\xe6\0\0\0";
    relaxed_is(
        &rt,
        rt.alloc(),
        bytes,
        b"{\"a\":{\"$date\":{\"$numberLong\":\"-284643869501\"}},\"b\":{\"$date\":{\"$numberLong\":\"-1\"}},\"c\":{\"$date\":\"9999-12-31T23:59:59.999Z\"},\"d\":{\"$date\":{\"$numberLong\":\"253402300800000\"}}}\n",
    )
}

#[test]
fn relaxed_at_each_level(rt: HostRuntime) -> Result<(), Fail> {
    let bytes =
        b"c\0\0\0\x04a\0\x1b\0\0\0\x100\0\x01\0\0\0\x031\0\x0c\0\0\0\x10x\0\x07\0\0\0\0\0\x0fc\0\x16\0\0\0\x02\0\0\0f\0\x0c\0\0\0\x10x\0\x07\0\0\0\0\x13e\0\x0f\0\0\0\0\0\0\0\0\0\0\0\0\0\x3e0\x02s\0\x02\0\0\01\0\x11m\0\x02\0\0\0\x01\0\0\0\0";
    relaxed_is(
        &rt,
        rt.alloc(),
        bytes,
        b"{\"a\":[1,{\"x\":7}],\"c\":{\"$code\":\"f\",\"$scope\":{\"x\":7}},\"e\":{\"$numberDecimal\":\"1.5\"},\"s\":\"1\",\"m\":{\"$timestamp\":{\"t\":1,\"i\":2}}}\n",
    )
}
