//! Lines of numbers of all types. The bytes are worked by hand, by BSON 1.1; the faults by the rules of Extended JSON.
use bd_extjson_fault::{JsonFault, JsonFaultKind};
use bd_extjson_pack::LineFault;
use bd_wide_pack::WidePacker;
use std::alloc::Global;
use std::process::Abort;
use std::test::Fail;

/// The line is packed as these bytes.
fn packs(rt: &impl Abort, alloc: Global, line: &[u8], wanted: &[u8]) -> Result<(), Fail> {
    let mut packer = WidePacker::new(alloc);
    let mut out = Vec::new(alloc);
    out.push(7)?;
    let fault = packer.pack_line(line, &mut out)?;
    assert!(rt; fault.is_none());
    match out.as_slice() {
        [7, bytes @ ..] => assert!(rt; bytes == wanted),
        _ => assert!(rt; false),
    }
    Ok(())
}

/// The line has this fault at this byte.
fn is_bad(
    rt: &impl Abort,
    alloc: Global,
    line: &[u8],
    kind: JsonFaultKind,
    at: u64,
) -> Result<(), Fail> {
    let mut packer = WidePacker::new(alloc);
    let mut out = Vec::new(alloc);
    let fault = packer.pack_line(line, &mut out)?;
    assert!(rt; fault == Some(LineFault::Unread(JsonFault { kind, at })));
    assert!(rt; out.is_empty());
    Ok(())
}

#[test]
fn numbers(rt: HostRuntime) -> Result<(), Fail> {
    let alloc = rt.alloc();
    let double = b"\x10\0\0\0\x01a\0\0\0\0\0\0\0\xf8\x3f\0";
    packs(&rt, alloc, b"{\"a\":1.5}", double)?;
    packs(&rt, alloc, b"{ \"a\" : 15e-1 }", double)?;
    packs(&rt, alloc, b"{\"a\":{\"$numberDouble\":\"1.5\"}}", double)?;
    packs(
        &rt,
        alloc,
        b"{\"a\":{\"$numberDecimal\":\"1.5\"}}",
        b"\x18\0\0\0\x13a\0\x0f\0\0\0\0\0\0\0\0\0\0\0\0\0\x3e\x30\0",
    )?;
    packs(
        &rt,
        alloc,
        b"{\"a\":[{\"$numberDouble\":\"-Infinity\"},1]}",
        b"\x1f\0\0\0\x04a\0\x17\0\0\0\x010\0\0\0\0\0\0\0\xf0\xff\x101\0\x01\0\0\0\0\0",
    )
}

#[test]
fn without_numbers(rt: HostRuntime) -> Result<(), Fail> {
    packs(&rt, rt.alloc(), b"{}", b"\x05\0\0\0\0")?;
    packs(
        &rt,
        rt.alloc(),
        b"{\"a\":\"1.5\"}",
        b"\x10\0\0\0\x02a\0\x04\0\0\01.5\0\0",
    )
}

#[test]
fn wrappers(rt: HostRuntime) -> Result<(), Fail> {
    let alloc = rt.alloc();
    let bad = JsonFaultKind::BadWrapper;
    is_bad(&rt, alloc, b"{\"a\":{\"$numberDouble\":\"abc\"}}", bad, 5)?;
    is_bad(&rt, alloc, b"{\"a\":{\"$numberDouble\":1.5}}", bad, 5)?;
    is_bad(
        &rt,
        alloc,
        b"{\"a\":{\"$numberDouble\":\"1\",\"b\":1}}",
        bad,
        5,
    )?;
    is_bad(
        &rt,
        alloc,
        b"{\"a\":{\"$timestamp\":{\"t\":1.5,\"i\":1}}}",
        bad,
        5,
    )?;
    is_bad(&rt, alloc, b"{\"a\":{\"$symbol\":1.5}}", bad, 5)
}

#[test]
fn ranges(rt: HostRuntime) -> Result<(), Fail> {
    let alloc = rt.alloc();
    let range = JsonFaultKind::NumberRange;
    is_bad(&rt, alloc, b"{\"a\":1e999}", range, 5)?;
    is_bad(&rt, alloc, b"{\"a\":-1e999}", range, 5)?;
    is_bad(&rt, alloc, b"{\"a\":9223372036854775808}", range, 5)?;
    is_bad(
        &rt,
        alloc,
        b"{\"a\":1.5,\"b\":{\"$numberDouble\":\"1e999\"}}",
        range,
        13,
    )?;
    is_bad(
        &rt,
        alloc,
        b"{\"a\":{\"$numberDecimal\":\"1E6145\"}}",
        range,
        5,
    )
}

#[test]
fn others(rt: HostRuntime) -> Result<(), Fail> {
    let alloc = rt.alloc();
    is_bad(&rt, alloc, b"1.5", JsonFaultKind::NotADocument, 0)?;
    is_bad(&rt, alloc, b"[1.5]", JsonFaultKind::NotADocument, 0)?;
    is_bad(&rt, alloc, b"{\"a\":1.5,}", JsonFaultKind::Syntax, 9)?;
    is_bad(&rt, alloc, b"{\"a\":1.}", JsonFaultKind::Syntax, 7)?;
    is_bad(&rt, alloc, b"{\"a\":1.5}x", JsonFaultKind::TrailingText, 9)?;
    is_bad(
        &rt,
        alloc,
        b"{\"a\":{\"$uuid\":\"\"}}",
        JsonFaultKind::BadWrapper,
        5,
    )
}
