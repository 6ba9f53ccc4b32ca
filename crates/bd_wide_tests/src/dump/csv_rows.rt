//! Rows of CSV. The expected texts are what Python's `csv` writes of fields that are worked by hand.

ghost use Rattle.std.specs.Prelude.{◌≤◌, length};

use bd_bson_check::{Profile, check_bytes};
use bd_wide_dump::{CsvBuffer, read_columns};
use std::alloc::Global;
use std::process::Abort;
use std::test::Fail;

/// The row of these fields of the document.
fn row_is(
    rt: &impl Abort,
    alloc: Global,
    fields: &str,
    bytes: &[u8],
    expected: &[u8],
) -> Result<(), Fail>
    requires { length bytes.now ≤ 10000 }
{
    check_bytes(alloc, Profile::All, bytes, 0, 0)?;
    let Some(paths) = read_columns(alloc, fields)? else {
        return Err(Fail::new("no paths"));
    };
    let mut rows = CsvBuffer::new(alloc);
    let row = rows.row(&paths, bytes)?;
    assert!(rt; row == expected);
    Ok(())
}

#[test]
fn strings(rt: HostRuntime) -> Result<(), Fail> {
    let bytes =
        b",\0\0\0\x02s\0\x06\0\0\0a,\"b\"\0\x02t\0\x04\0\0\0 x \0\x02u\0\x08\0\0\0one\ntwo\0\0";
    row_is(
        &rt,
        rt.alloc(),
        "s,t,u,none",
        bytes,
        b"\"a,\"\"b\"\"\", x ,\"one\ntwo\",\n",
    )
}

#[test]
fn numbers(rt: HostRuntime) -> Result<(), Fail> {
    let bytes =
        b"V\0\0\0\x10i\0\xfb\xff\xff\xff\x12l\0\x01\0\0\0\0\0 \0\x01d\0\0\0\0\0\0\0\xf8?\x01e\0\0\0\0\0\0\0\xf8\x7f\x01f\0\0\0\0\0\0\0\xf0\xff\x01g\0\0\0\0\0\0\0\0\x80\x13h\0\x0f\0\0\0\0\0\0\0\0\0\0\0\0\0>0\0";
    row_is(
        &rt,
        rt.alloc(),
        "h,i,l,d,e,f,g",
        bytes,
        b"1.5,-5,9007199254740993,1.5,NaN,-Infinity,-0.0\n",
    )
}

#[test]
fn scalars(rt: HostRuntime) -> Result<(), Fail> {
    let bytes =
        b"B\0\0\0\x07_id\0P\x7f\x1fw\xbc\xf8l\xd7\x99C\x90\x11\ta\0\xc5\xd8\xd6\xcc;\x01\0\0\tb\0\xff\xff\xff\xff\xff\xff\xff\xff\tc\0\0\0\0\0\0\0\0\0\x08d\0\x01\x08e\0\0\nf\0\0";
    row_is(
        &rt,
        rt.alloc(),
        "_id,a,b,c,d,e,f",
        bytes,
        b"507f1f77bcf86cd799439011,2012-12-24T12:15:30.501Z,\"{\"\"$date\"\":{\"\"$numberLong\"\":\"\"-1\"\"}}\",1970-01-01T00:00:00Z,true,false,\n",
    )
}

#[test]
fn binary(rt: HostRuntime) -> Result<(), Fail> {
    let bytes =
        b"@\0\0\0\x05a\0\x10\0\0\0\x04s\xff\xd2dD\xb3Li\x94\xb1\xac\x1f/l+n\x05b\0\x03\0\0\0\x04abc\x05c\0\x10\0\0\0\x03s\xff\xd2dD\xb3Li\x94\xb1\xac\x1f/l+n\0";
    row_is(
        &rt,
        rt.alloc(),
        "a,b,c",
        bytes,
        b"73ffd264-44b3-4c69-94b1-ac1f2f6c2b6e,\"{\"\"$binary\"\":{\"\"base64\"\":\"\"YWJj\"\",\"\"subType\"\":\"\"04\"\"}}\",\"{\"\"$binary\"\":{\"\"base64\"\":\"\"c//SZESzTGmUsawfL2wrbg==\"\",\"\"subType\"\":\"\"03\"\"}}\"\n",
    )
}

#[test]
fn nested(rt: HostRuntime) -> Result<(), Fail> {
    let bytes =
        b"`\0\0\0\x03d\0\x17\0\0\0\x10x\0\x01\0\0\0\x01y\0\0\0\0\0\0\0\0@\0\x04a\0/\0\0\0\x100\0\x07\0\0\0\x031\0\x17\0\0\0\x10x\0\x01\0\0\0\x01y\0\0\0\0\0\0\0\0@\0\x022\0\x02\0\0\0z\0\0\x0br\0^a\0i\0\x10d\0\t\0\0\0\0";
    row_is(
        &rt,
        rt.alloc(),
        "d,a,r",
        bytes,
        b"\"{\"\"x\"\":1,\"\"y\"\":2.0}\",\"[7,{\"\"x\"\":1,\"\"y\"\":2.0},\"\"z\"\"]\",\"{\"\"$regularExpression\"\":{\"\"pattern\"\":\"\"^a\"\",\"\"options\"\":\"\"i\"\"}}\"\n",
    )
}

#[test]
fn paths(rt: HostRuntime) -> Result<(), Fail> {
    let bytes =
        b"`\0\0\0\x03d\0\x17\0\0\0\x10x\0\x01\0\0\0\x01y\0\0\0\0\0\0\0\0@\0\x04a\0/\0\0\0\x100\0\x07\0\0\0\x031\0\x17\0\0\0\x10x\0\x01\0\0\0\x01y\0\0\0\0\0\0\0\0@\0\x022\0\x02\0\0\0z\0\0\x0br\0^a\0i\0\x10d\0\t\0\0\0\0";
    row_is(
        &rt,
        rt.alloc(),
        "d.y,a.1.x,a.2,a.3,a.x,a.1.none",
        bytes,
        b"2.0,1,z,,,\n",
    )
}

#[test]
fn alone(rt: HostRuntime) -> Result<(), Fail> {
    let bytes =
        b"`\0\0\0\x03d\0\x17\0\0\0\x10x\0\x01\0\0\0\x01y\0\0\0\0\0\0\0\0@\0\x04a\0/\0\0\0\x100\0\x07\0\0\0\x031\0\x17\0\0\0\x10x\0\x01\0\0\0\x01y\0\0\0\0\0\0\0\0@\0\x022\0\x02\0\0\0z\0\0\x0br\0^a\0i\0\x10d\0\t\0\0\0\0";
    row_is(&rt, rt.alloc(), "none", bytes, b"\"\"\n")
}

#[test]
fn header(rt: HostRuntime) -> Result<(), Fail> {
    let alloc = rt.alloc();
    let Some(paths) = read_columns(alloc, "a.b,x y,\"q\"")? else {
        return Err(Fail::new("no paths"));
    };
    let mut rows = CsvBuffer::new(alloc);
    let row = rows.header(&paths)?;
    assert!(rt; row == b"a.b,x y,\"\"\"q\"\"\"\n".as_slice());
    Ok(())
}

#[test]
fn refused_columns(rt: HostRuntime) -> Result<(), Fail> {
    let alloc = rt.alloc();
    assert!(rt; read_columns(alloc, "a,,b")?.is_none());
    assert!(rt; read_columns(alloc, "a.b,a")?.is_none());
    assert!(rt; read_columns(alloc, "")?.is_none());
    assert!(rt; read_columns(alloc, "_id,a")?.is_some());
    Ok(())
}
