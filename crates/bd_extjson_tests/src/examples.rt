//! The examples of use in the roots of `bd_extjson_fault`, `bd_extjson`, `bd_extjson_pack`, `bd_extjson_text` and `bd_extjson_wrapper`.
use bd_extjson::read_doc;
use bd_extjson_fault::{JsonFaultKind, diagnose};
use bd_extjson_pack::Packer;
use bd_extjson_text::{write_doc, write_value};
use bd_extjson_wrapper::{Wrapper, whole};
use bd_value::Value;
use std::test::Fail;

#[test]
fn text(rt: HostRuntime) -> Result<(), Fail> {
    let alloc = rt.alloc();
    let mut text = Vec::new(alloc);
    write_value(&Value::Int32(5), &mut text)?;
    assert!(rt; text.as_slice() == b"{\"$numberInt\":\"5\"}".as_slice());
    Ok(())
}

#[test]
fn wrapper(rt: HostRuntime) {
    assert!(rt; Wrapper::from_name("$oid") == Some(Wrapper::Oid));
    assert!(rt; Wrapper::from_name("oid").is_none());
    assert!(rt; whole("-5") == Some(-5) && whole("05").is_none());
}

#[test]
fn extjson(rt: HostRuntime) -> Result<(), Fail> {
    let alloc = rt.alloc();
    let document = read_doc(alloc, b"{\"a\":1}")?;
    let mut text = Vec::new(alloc);
    write_doc(&document, &mut text)?;
    assert!(rt; text.as_slice() == b"{\"a\":{\"$numberInt\":\"1\"}}".as_slice());
    Ok(())
}

#[test]
fn diagnosed(rt: HostRuntime) {
    let alloc = rt.alloc();
    let fault = diagnose(alloc, "{\"a\":1.5}");
    assert!(rt; fault.kind == JsonFaultKind::NotInProfile && fault.at == 5);
}

#[test]
fn pack(rt: HostRuntime) -> Result<(), Fail> {
    let alloc = rt.alloc();
    let mut packer = Packer::new(alloc);
    let mut bytes = Vec::new(alloc);
    let fault = packer.pack_line(b"{\"a\":1}", &mut bytes)?;
    assert!(rt; fault.is_none());
    assert!(rt; bytes.as_slice() == b"\x0c\0\0\0\x10a\0\x01\0\0\0\0".as_slice());
    Ok(())
}
