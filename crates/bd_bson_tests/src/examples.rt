//! The examples of use in the roots of `bd_bson_dump`, `bd_bson_check`, `bd_bson_view`, `bd_bson_stream`, `bd_value` and `bd_bson_write`.
use bd_bson_check::{FaultKind, check_document};
use bd_bson_dump::read_dump;
use bd_bson_stream::DocBuffer;
use bd_bson_write::write_document;
use bd_io_device::{Limits, MemoryInput};
use bd_value::{Document, Node, Scalar, Value};
use std::test::Fail;

#[test]
fn raw(rt: HostRuntime) -> Result<(), Fail> {
    let alloc = rt.alloc();
    let bytes = b"\x0c\0\0\0\x10a\0\x01\0\0\0\0";
    let document = check_document(alloc, bytes, 0, 0)?;
    let field = document.first("a").ok_or("a field")?;
    assert!(rt; matches!(field.scalar(), Some(Scalar::Int32(1))));
    Ok(())
}

#[test]
fn check(rt: HostRuntime) {
    let alloc = rt.alloc();
    let bytes = b"\x0c\0\0\0\x02s\0\0\0\0\0\0";
    match check_document(alloc, bytes, 0, 0) {
        Ok(_) => assert!(rt; false, "a string has a length above 0"),
        Err(fault) => {
            assert!(rt; fault.kind == FaultKind::BadStringLength && fault.offset == 7);
        }
    }
}

#[test]
fn write(rt: HostRuntime) -> Result<(), Fail> {
    let alloc = rt.alloc();
    let mut document = Document::new(alloc);
    document.push(String::from_str(alloc, "a")?, Value::Int32(1))?;
    let bytes = write_document(alloc, &document)?;
    assert!(rt; bytes.as_slice() == b"\x0c\0\0\0\x10a\0\x01\0\0\0\0".as_slice());
    Ok(())
}

#[test]
fn dump(rt: HostRuntime) -> Result<(), Fail> {
    let alloc = rt.alloc();
    let bytes = Vec::from_slice(alloc, b"\x05\0\0\0\0\x0c\0\0\0\x10a\0\x01\0\0\0\0")?;
    let dump = read_dump(alloc, bytes)?;
    let count = dump.len();
    assert!(rt; count == 2);
    assert!(rt; dump.document(1).first("a").is_some());
    Ok(())
}

#[test]
fn value(rt: HostRuntime) -> Result<(), Fail> {
    let alloc = rt.alloc();
    let mut document = Document::new(alloc);
    document.push(String::from_str(alloc, "a")?, Value::Int32(1))?;
    assert!(rt; document.len() == 1);
    assert!(rt; matches!(document.first("a"), Some(Value::Int32(1))));
    Ok(())
}

#[test]
fn stream(rt: HostRuntime) -> Result<(), Fail> {
    let alloc = rt.alloc();
    let limits = Limits {
        bytes: 100,
        turns: 100,
    };
    let mut input = MemoryInput::new(b"\x05\0\0\0\0\x05\0\0\0\0", 3, None);
    let mut documents = DocBuffer::new(alloc, limits);
    let is_there = documents.read_next(&mut input)?;
    assert!(rt; is_there && documents.bytes() == b"\x05\0\0\0\0".as_slice());
    assert!(rt; documents.offset() == 5 && documents.number() == 1);
    Ok(())
}
