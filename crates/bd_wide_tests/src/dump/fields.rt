//! The requested fields of documents: MongoDB manual, the inclusion of fields in a projection. The expected texts are worked by hand.

ghost use Rattle.std.specs.Prelude.{◌≤◌, length};

use bd_bson_check::{Profile, check_bytes};
use bd_path::Path;
use bd_wide_dump::{FieldsBuffer, JsonFormat};
use std::alloc::Global;
use std::process::Abort;
use std::test::Fail;

/// The line of these two fields of the document, in relaxed form.
fn line_is(
    rt: &impl Abort,
    alloc: Global,
    first: &str,
    second: &str,
    bytes: &[u8],
    expected: &[u8],
) -> Result<(), Fail>
    requires { length bytes.now ≤ 10000 }
{
    check_bytes(alloc, Profile::All, bytes, 0, 0)?;
    let mut paths = Vec::new(alloc);
    paths.push(Path::parse(alloc, first)?)?;
    paths.push(Path::parse(alloc, second)?)?;
    let mut lines = FieldsBuffer::new(alloc);
    let line = lines.line(alloc, JsonFormat::Relaxed, &paths, bytes)?;
    assert!(rt; line == expected);
    Ok(())
}

/// {"a":1,"b":{"c":2,"d":3},"e":4}
const NESTED: &[u8] =
    b")\0\0\0\x10a\0\x01\0\0\0\x03b\0\x13\0\0\0\x10c\0\x02\0\0\0\x10d\0\x03\0\0\0\0\x10e\0\x04\0\0\0\0";

/// {"a":[{"b":1,"c":2},3,[{"b":4}],{"c":5}]}
const ARRAYS: &[u8] =
    b"P\0\0\0\x04a\0H\0\0\0\x030\0\x13\0\0\0\x10b\0\x01\0\0\0\x10c\0\x02\0\0\0\0\x101\0\x03\0\0\0\x042\0\x14\0\0\0\x030\0\x0c\0\0\0\x10b\0\x04\0\0\0\0\0\x033\0\x0c\0\0\0\x10c\0\x05\0\0\0\0\0\0";

#[test]
fn fields(rt: HostRuntime) -> Result<(), Fail> {
    let alloc = rt.alloc();
    line_is(
        &rt,
        alloc,
        "b.d",
        "a",
        NESTED,
        b"{\"a\":1,\"b\":{\"d\":3}}\n",
    )?;
    line_is(&rt, alloc, "b", "x", NESTED, b"{\"b\":{\"c\":2,\"d\":3}}\n")?;
    line_is(&rt, alloc, "a.c", "e", NESTED, b"{\"e\":4}\n")?;
    line_is(&rt, alloc, "b.x", "c", NESTED, b"{\"b\":{}}\n")
}

#[test]
fn arrays(rt: HostRuntime) -> Result<(), Fail> {
    let alloc = rt.alloc();
    line_is(
        &rt,
        alloc,
        "a.b",
        "b",
        ARRAYS,
        b"{\"a\":[{\"b\":1},[{\"b\":4}],{}]}\n",
    )?;
    line_is(&rt, alloc, "a.0", "b", ARRAYS, b"{\"a\":[{},[{}],{}]}\n")
}
