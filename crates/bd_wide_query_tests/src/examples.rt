//! The examples of use in the roots of `bd_wide_rank`, `bd_wide_copy` and `bd_wide_query`.
use crate::copy::copies::Seven;
use bd_extjson_text::write_doc;
use bd_wide_copy::{Longs, read_wide_dump};
use bd_wide_number::Number;
use bd_wide_query::{code_query, read_query};
use bd_wide_rank::Numbers;
use std::test::Fail;

#[test]
fn between_two(rt: HostRuntime) -> Result<(), Fail> {
    let alloc = rt.alloc();
    let mut numbers = Numbers::new(alloc);
    for number in [Number::Whole(1), Number::Whole(2)] {
        numbers.push(number)?;
    }
    let table = numbers.into_table().expect(&rt, "few numbers");
    let query = read_query(alloc, b"{\"a\":{\"$gt\":1.5,\"$size\":2}}")?;
    let longs = Longs::none();
    let coded = code_query(
        alloc,
        &query.wholes,
        &query.texts,
        &query.numbers,
        &table,
        longs,
    )?;
    let mut text = Vec::new(alloc);
    write_doc(&coded.expect(&rt, "a query"), &mut text)?;
    let wanted = b"{\"a\":{\"$gt\":{\"$numberLong\":\"2\"},\"$size\":{\"$numberInt\":\"2\"}}}";
    assert!(rt; text.as_slice() == wanted.as_slice());
    Ok(())
}

#[test]
fn prices(rt: HostRuntime) -> Result<(), Fail> {
    let alloc = rt.alloc();
    // The decimal128 29.95, and the double next to it, which is less.
    let exact = Number::Decimal128(2995, 0x303c_0000_0000_0000);
    let near = Number::Double(0x403d_f333_3333_3333);
    let mut numbers = Numbers::new(alloc);
    for number in [exact, near, Number::Whole(30), exact] {
        numbers.push(number)?;
    }
    let table = numbers.into_table().expect(&rt, "few numbers");
    assert!(rt; table.code(near) == 1);
    assert!(rt; table.code(exact) == 3);
    assert!(rt; table.code(Number::Whole(30)) == 5);
    assert!(rt; table.code(Number::Whole(29)) == 0);
    Ok(())
}

#[test]
fn copy(rt: HostRuntime) -> Result<(), Fail> {
    let alloc = rt.alloc();
    // {"d":1.5}, and {"d":int32 7}
    let bytes = b"\x10\0\0\0\x01d\0\0\0\0\0\0\0\xf8\x3f\0";
    let dump = read_wide_dump(alloc, Vec::from_slice(alloc, bytes)?)?;
    let mut copy = Vec::new(alloc);
    dump.write_copy(&Seven, Longs::none(), &mut copy)?;
    assert!(rt; copy.as_slice() == b"\x0c\0\0\0\x10d\0\x07\0\0\0\0".as_slice());
    Ok(())
}
