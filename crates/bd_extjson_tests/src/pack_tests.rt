//! Lines that one packer packs in turn.
use bd_extjson_fault::{JsonFault, JsonFaultKind};
use bd_extjson_pack::{LineFault, Packer};
use std::test::Fail;

/// The bytes of a line are appended, and a line that is refused leaves the output unchanged.
#[test]
fn packs_after_what_is_there(rt: HostRuntime) -> Result<(), Fail> {
    let mut packer = Packer::new(rt.alloc());
    let mut out = Vec::from_slice(rt.alloc(), b"xy")?;
    let kind = JsonFaultKind::NotInProfile;
    let double = LineFault::Unread(JsonFault { kind, at: 5 });
    for (line, fault, bytes) in [
        (r#"{"a":1.5}"#, Some(double), b"xy".as_slice()),
        ("{}", None, b"xy\x05\0\0\0\0".as_slice()),
        (r#"{"a":1.5}"#, Some(double), b"xy\x05\0\0\0\0".as_slice()),
        (
            r#"{"c":"\u0041"}"#,
            None,
            b"xy\x05\0\0\0\0\x0e\0\0\0\x02c\0\x02\0\0\0A\0\0".as_slice(),
        ),
    ] {
        let reported = packer.pack_line(line.as_bytes(), &mut out)?;
        assert!(rt; reported == fault && out.as_slice() == bytes, "{line}");
    }
    Ok(())
}
