//! A document of a dump that is printed for one of its copy.

use bd_bson_dump::read_dump;
use bd_cli_print::PlacePrinter;
use bd_wide_copy::read_wide_dump;
use bd_wide_find::WidePrinter;
use std::test::Fail;

#[test]
fn print_a_document(rt: HostRuntime) -> Result<(), Fail> {
    let alloc = rt.alloc();
    // {"d":1.5}, and its copy {"d":int32 7}
    let bytes = b"\x10\0\0\0\x01d\0\0\0\0\0\0\0\xf8\x3f\0";
    let dump = read_wide_dump(alloc, Vec::from_slice(alloc, bytes)?)?;
    let copy = b"\x0c\0\0\0\x10d\0\x07\0\0\0\0";
    let copy = read_dump(alloc, Vec::from_slice(alloc, copy)?)?;
    assert!(rt; dump.len() > 0);
    let mut buffer = Vec::new(alloc);
    let end = WidePrinter { dump: &dump }.append(&copy, 0, &mut buffer, 0)?;
    assert!(rt; &buffer[..end] == b"{\"d\":{\"$numberDouble\":\"1.5\"}}".as_slice());
    Ok(())
}
