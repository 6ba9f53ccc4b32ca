//! Texts of queries. The documents and the bytes of the faults are worked by hand.

use bd_extjson_fault::{JsonFault, JsonFaultKind};
use bd_extjson_text::write_doc;
use bd_wide_number::Number;
use bd_wide_query::read_query;
use std::alloc::Global;
use std::process::Abort;
use std::test::Fail;

/// The text of a query is these two documents, with these numbers.
fn reads(
    rt: &impl Abort,
    alloc: Global,
    text: &[u8],
    (wholes, texts): (&[u8], &[u8]),
    numbers: &[Number],
) -> Result<(), Fail> {
    let query = read_query(alloc, text)?;
    let mut out = Vec::new(alloc);
    write_doc(&query.wholes, &mut out)?;
    assert!(rt; out.as_slice() == wholes);
    out.clear();
    write_doc(&query.texts, &mut out)?;
    assert!(rt; out.as_slice() == texts);
    assert!(rt; query.numbers.len() == numbers.len());
    for (one, other) in query.numbers.iter().zip(numbers) {
        assert!(rt; is_same(*one, *other));
    }
    Ok(())
}

/// Whether both numbers are of one type and have the same bits.
fn is_same(one: Number, other: Number) -> bool {
    match (one, other) {
        (Number::Double(bits), Number::Double(others)) => bits == others,
        (Number::Decimal128(low, high), Number::Decimal128(others, upper)) => {
            low == others && high == upper
        }
        _ => false,
    }
}

/// The text has this fault at this byte.
fn is_bad(
    rt: &impl Abort,
    alloc: Global,
    text: &[u8],
    kind: JsonFaultKind,
    at: u64,
) -> Result<(), Fail> {
    match read_query(alloc, text) {
        Ok(_) => assert!(rt; false),
        Err(fault) => assert!(rt; fault == JsonFault { kind, at }),
    }
    Ok(())
}

#[test]
fn numbers(rt: HostRuntime) -> Result<(), Fail> {
    let alloc = rt.alloc();
    reads(
        &rt,
        alloc,
        b"{\"price\":{\"$gt\":9.75}}",
        (
            b"{\"price\":{\"$gt\":{\"$numberInt\":\"0\"}}}",
            b"{\"price\":{\"$gt\":\"\"}}",
        ),
        &[Number::Double(0x4023_8000_0000_0000)],
    )?;
    reads(
        &rt,
        alloc,
        b"{\"a\":{\"$numberDecimal\":\"1.5\"},\"b\":[{\"$numberDouble\":\"-0.0\"},true]}",
        (
            b"{\"a\":{\"$numberInt\":\"0\"},\"b\":[{\"$numberInt\":\"0\"},true]}",
            b"{\"a\":\"\",\"b\":[\"\",true]}",
        ),
        &[
            Number::Decimal128(15, 0x303e_0000_0000_0000),
            Number::Double(0x8000_0000_0000_0000),
        ],
    )
}

#[test]
fn without_numbers(rt: HostRuntime) -> Result<(), Fail> {
    let alloc = rt.alloc();
    reads(&rt, alloc, b"{}", (b"{}", b"{}"), &[])?;
    let document = b"{\"a\":\"1.5\"}";
    reads(
        &rt,
        alloc,
        b"{ \"a\" : \"1.5\" }",
        (document, document),
        &[],
    )
}

#[test]
fn faults(rt: HostRuntime) -> Result<(), Fail> {
    let alloc = rt.alloc();
    let bad = JsonFaultKind::BadWrapper;
    // in the text with whole numbers, in the one with empty texts, in both, and without numbers
    is_bad(&rt, alloc, b"{\"a\":{\"$symbol\":1.5}}", bad, 5)?;
    is_bad(
        &rt,
        alloc,
        b"{\"a\":{\"$timestamp\":{\"t\":1.5,\"i\":1}}}",
        bad,
        5,
    )?;
    is_bad(&rt, alloc, b"{\"a\":1.5,}", JsonFaultKind::Syntax, 9)?;
    is_bad(&rt, alloc, b"{\"a\":1,}", JsonFaultKind::Syntax, 7)?;
    is_bad(&rt, alloc, b"[1.5]", JsonFaultKind::NotADocument, 0)
}

#[test]
fn faults_of_numbers(rt: HostRuntime) -> Result<(), Fail> {
    let alloc = rt.alloc();
    let bad = JsonFaultKind::BadWrapper;
    is_bad(&rt, alloc, b"{\"a\":{\"$numberDecimal\":\"x\"}}", bad, 5)?;
    is_bad(
        &rt,
        alloc,
        b"{\"a\":1.5,\"b\":{\"$numberDouble\":1}}",
        bad,
        13,
    )?;
    is_bad(
        &rt,
        alloc,
        b"{\"a\":{\"$gt\":1e999}}",
        JsonFaultKind::NumberRange,
        12,
    )
}
