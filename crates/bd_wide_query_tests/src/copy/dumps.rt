//! Dumps of several documents.

use crate::copy::copies::{COPY, DOCUMENT, Seven};
use bd_wide_copy::{Longs, read_wide_dump, write_copy};
use std::test::Fail;

/// The document of all types, the empty document, and {"a":int32 1}.
fn bytes() -> [&'static [u8]; 3] {
    [DOCUMENT, b"\x05\0\0\0\0", b"\x0c\0\0\0\x10a\0\x01\0\0\0\0"]
}

#[test]
fn three_documents(rt: HostRuntime) -> Result<(), Fail> {
    let alloc = rt.alloc();
    let mut all = Vec::new(alloc);
    for document in bytes() {
        all.extend_from_slice(document)?;
    }
    let dump = read_wide_dump(alloc, all)?;
    let count = dump.len();
    assert!(rt; count == 3);
    assert!(rt; !dump.is_plain());
    assert!(rt; dump.document(0) == DOCUMENT);
    assert!(rt; dump.document(1) == b"\x05\0\0\0\0".as_slice());
    assert!(rt; dump.document(2) == b"\x0c\0\0\0\x10a\0\x01\0\0\0\0".as_slice());
    let mut wanted = Vec::new(alloc);
    wanted.extend_from_slice(COPY)?;
    wanted.extend_from_slice(b"\x05\0\0\0\0\x0c\0\0\0\x10a\0\x07\0\0\0\0")?;
    let mut out = Vec::new(alloc);
    dump.write_copy(&Seven, Longs::none(), &mut out)?;
    assert!(rt; out.as_slice() == wanted.as_slice());
    Ok(())
}

#[test]
fn plain(rt: HostRuntime) -> Result<(), Fail> {
    let alloc = rt.alloc();
    let bytes = b"\x0c\0\0\0\x10a\0\x01\0\0\0\0";
    let dump = read_wide_dump(alloc, Vec::from_slice(alloc, bytes)?)?;
    assert!(rt; dump.is_plain());
    let again = dump.into_bytes();
    assert!(rt; again.as_slice() == bytes.as_slice());
    Ok(())
}

#[test]
fn fault_in_the_second_document(rt: HostRuntime) -> Result<(), Fail> {
    let alloc = rt.alloc();
    // the empty document, and one whose type byte 0x14 BSON does not have
    let bytes = b"\x05\0\0\0\0\x08\0\0\0\x14a\0\0";
    match read_wide_dump(alloc, Vec::from_slice(alloc, bytes)?) {
        Ok(_) => assert!(rt; false),
        Err(fault) => {
            assert!(rt; fault.document == 1);
            assert!(rt; fault.offset == 9);
        }
    }
    Ok(())
}

#[test]
fn ranks(rt: HostRuntime) -> Result<(), Fail> {
    let alloc = rt.alloc();
    // {"d":1.5}, {"a":int32 2}, {"d":1.5}: the numbers 1.5 and 2 have the codes 1 and 3
    let bytes =
        b"\x10\0\0\0\x01d\0\0\0\0\0\0\0\xf8\x3f\0\x0c\0\0\0\x10a\0\x02\0\0\0\0\x10\0\0\0\x01d\0\0\0\0\0\0\0\xf8\x3f\0";
    let dump = read_wide_dump(alloc, Vec::from_slice(alloc, bytes)?)?;
    let Ok(table) = dump.numbers(alloc)?.into_table() else {
        assert!(rt; false);
        return Ok(());
    };
    let count = table.len();
    assert!(rt; count == 2);
    table.codes_fit();
    let mut copy = Vec::new(alloc);
    dump.write_copy(&table, Longs::none(), &mut copy)?;
    let wanted =
        b"\x0c\0\0\0\x10d\0\x01\0\0\0\0\x0c\0\0\0\x10a\0\x03\0\0\0\0\x0c\0\0\0\x10d\0\x01\0\0\0\0";
    assert!(rt; copy.as_slice() == wanted.as_slice());
    // a query with a number between them: the code is even
    let mut query = Vec::new(alloc);
    write_copy(
        &table,
        Longs::none(),
        b"\x10\0\0\0\x01d\0\0\0\0\0\0\0\xfc\x3f\0",
        &mut query,
    )?;
    assert!(rt; query.as_slice() == b"\x0c\0\0\0\x10d\0\x02\0\0\0\0".as_slice());
    Ok(())
}
