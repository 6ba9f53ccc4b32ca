//! Documents in step. The bytes are worked by hand, by BSON 1.1.
ghost use Rattle.std.specs.Prelude.{◌≤◌, length};

use bd_bson_check::check_document;
use bd_wide_number::Number;
use bd_wide_pack::mix;
use std::alloc::Global;
use std::process::Abort;
use std::test::Fail;

/// A double, 1.5.
const DOUBLE: Number = Number::Double(0x3ff8_0000_0000_0000);

/// A decimal128, 1.5.
const DECIMAL: Number = Number::Decimal128(15, 0x303e_0000_0000_0000);

/// The two documents have this document for the numbers, or differ in more than these.
fn is(
    rt: &impl Abort,
    alloc: Global,
    whole: &[u8],
    text: &[u8],
    numbers: &[Number],
    wanted: Option<&[u8]>,
) -> Result<(), Fail>
    requires { (length whole.now ≤ 1000) × (length text.now ≤ 1000) }
{
    check_document(alloc, whole, 0, 0)?;
    check_document(alloc, text, 0, 0)?;
    let mut out = Vec::new(alloc);
    let mixed = mix(whole, text, numbers, &mut out)?;
    match wanted {
        Some(bytes) => assert!(rt; mixed && out.as_slice() == bytes),
        None => assert!(rt; !mixed),
    }
    Ok(())
}

#[test]
fn nested(rt: HostRuntime) -> Result<(), Fail> {
    // {"a": [0, NUMBER], "b": NUMBER}
    let whole = b"\x22\0\0\0\x04a\0\x13\0\0\0\x100\0\0\0\0\0\x101\0\0\0\0\0\0\x10b\0\0\0\0\0\0";
    let text =
        b"\x24\0\0\0\x04a\0\x14\0\0\0\x100\0\0\0\0\0\x021\0\x01\0\0\0\0\0\x02b\0\x01\0\0\0\0\0";
    let wanted =
        b"\x32\0\0\0\x04a\0\x1f\0\0\0\x100\0\0\0\0\0\x131\0\x0f\0\0\0\0\0\0\0\0\0\0\0\0\0\x3e\x30\0\x01b\0\0\0\0\0\0\0\xf8\x3f\0";
    is(
        &rt,
        rt.alloc(),
        whole,
        text,
        &[DECIMAL, DOUBLE],
        Some(wanted),
    )?;
    is(&rt, rt.alloc(), whole, text, &[DECIMAL], None)?;
    is(
        &rt,
        rt.alloc(),
        whole,
        text,
        &[DECIMAL, DOUBLE, DOUBLE],
        None,
    )?;
    is(&rt, rt.alloc(), text, whole, &[DECIMAL, DOUBLE], None)
}

#[test]
fn scopes(rt: HostRuntime) -> Result<(), Fail> {
    // {"c": code "x" with the scope {"d": NUMBER}}
    let whole = b"\x1e\0\0\0\x0fc\0\x16\0\0\0\x02\0\0\0x\0\x0c\0\0\0\x10d\0\0\0\0\0\0\0";
    let text = b"\x1f\0\0\0\x0fc\0\x17\0\0\0\x02\0\0\0x\0\x0d\0\0\0\x02d\0\x01\0\0\0\0\0\0";
    let wanted =
        b"\x22\0\0\0\x0fc\0\x1a\0\0\0\x02\0\0\0x\0\x10\0\0\0\x01d\0\0\0\0\0\0\0\xf8\x3f\0\0";
    is(&rt, rt.alloc(), whole, text, &[DOUBLE], Some(wanted))
}

#[test]
fn others(rt: HostRuntime) -> Result<(), Fail> {
    let alloc = rt.alloc();
    let empty = b"\x05\0\0\0\0";
    is(&rt, alloc, empty, empty, &[], Some(empty))?;
    is(&rt, alloc, empty, empty, &[DOUBLE], None)?;
    // 1 and the empty string
    let one = b"\x0c\0\0\0\x10d\0\x01\0\0\0\0";
    let text = b"\x0d\0\0\0\x02d\0\x01\0\0\0\0\0";
    is(&rt, alloc, one, text, &[DOUBLE], None)?;
    // other names
    let whole = b"\x0c\0\0\0\x10e\0\0\0\0\0\0";
    is(&rt, alloc, whole, text, &[DOUBLE], None)
}
