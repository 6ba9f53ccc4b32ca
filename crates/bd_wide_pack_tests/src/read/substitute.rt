//! Lines with other values for their numbers.
use bd_extjson_fault::{JsonFault, JsonFaultKind};
use bd_wide_number::Number;
use bd_wide_substitute::{Substituted, fault_of_line, substitute};
use std::alloc::Global;
use std::process::Abort;
use std::test::Fail;

/// The line becomes these two, and has this many numbers.
fn becomes(
    rt: &impl Abort,
    alloc: Global,
    (line, wholes, texts): (&[u8], &[u8], &[u8]),
    count: usize,
) -> Result<(), Fail> {
    let mut made = Substituted::new(alloc);
    let has = substitute(line, &mut made)?;
    assert!(rt; has == (count > 0));
    assert!(rt; made.numbers.len() == count);
    if has {
        assert!(rt; made.wholes.as_slice() == wholes);
        assert!(rt; made.texts.as_slice() == texts);
    }
    Ok(())
}

#[test]
fn bare_numbers(rt: HostRuntime) -> Result<(), Fail> {
    let alloc = rt.alloc();
    becomes(
        &rt,
        alloc,
        (
            b"{\"a\":1.5,\"b\":[-1e5, 0.0]}",
            b"{\"a\":0  ,\"b\":[0   , 0  ]}",
            b"{\"a\":\"\" ,\"b\":[\"\"  , \"\" ]}",
        ),
        3,
    )
}

#[test]
fn wrappers(rt: HostRuntime) -> Result<(), Fail> {
    let alloc = rt.alloc();
    becomes(
        &rt,
        alloc,
        (
            b"{\"a\":{\"$numberDouble\":\"NaN\"}}",
            b"{\"a\":0                      }",
            b"{\"a\":\"\"                     }",
        ),
        1,
    )?;
    becomes(
        &rt,
        alloc,
        (
            b"{\"a\":{ \"$numberDecimal\" :\t\"1E3\" },\"b\":1}",
            b"{\"a\":0                           ,\"b\":1}",
            b"{\"a\":\"\"                          ,\"b\":1}",
        ),
        1,
    )
}

#[test]
fn dates_and_uuids(rt: HostRuntime) -> Result<(), Fail> {
    let mut made = Substituted::new(rt.alloc());
    let line =
        b"{\"a\":{\"$date\":\"2026-10-01T00:00:00Z\"},\"b\":1.5,\"c\":{\"$uuid\":\"00000000-0000-0000-0000-000000000000\"}}";
    assert!(rt; substitute(line, &mut made)?);
    assert!(rt; made.numbers.len() == 1);
    let wholes =
        b"{\"a\":{\"$date\":{\"$numberLong\":\"1790812800000\"}},\"b\":0  ,\"c\":{\"$binary\":{\"base64\":\"AAAAAAAAAAAAAAAAAAAAAA==\",\"subType\":\"04\"}}}";
    assert!(rt; made.wholes.as_slice() == wholes.as_slice());
    let texts =
        b"{\"a\":{\"$date\":{\"$numberLong\":\"1790812800000\"}},\"b\":\"\" ,\"c\":{\"$binary\":{\"base64\":\"AAAAAAAAAAAAAAAAAAAAAA==\",\"subType\":\"04\"}}}";
    assert!(rt; made.texts.as_slice() == texts.as_slice());
    // a fault after them, by the byte of the line
    let fault = JsonFault {
        kind: JsonFaultKind::Syntax,
        at: wholes.len() as u64,
    };
    assert!(rt; fault_of_line(line, fault).at == line.len() as u64);
    let at_number = JsonFault {
        kind: JsonFaultKind::Syntax,
        at: 51,
    };
    assert!(rt; fault_of_line(line, at_number).at == 42);
    Ok(())
}

/// The line stays as it is.
fn stays(rt: &impl Abort, alloc: Global, line: &[u8]) -> Result<(), Fail> {
    becomes(rt, alloc, (line, line, line), 0)
}

#[test]
fn others(rt: HostRuntime) -> Result<(), Fail> {
    let alloc = rt.alloc();
    stays(&rt, alloc, b"")?;
    stays(&rt, alloc, b"{\"a\":1,\"b\":-12,\"c\":[0]}")?;
    // in strings, also after an escaped quote
    stays(&rt, alloc, b"{\"1.5\":\"2.5\",\"a\":\"\\\"1.5\"}")?;
    stays(&rt, alloc, b"\"a\\\\\",\"1.5\"")?;
    // a string without an end
    stays(&rt, alloc, b"{\"a\":\"1.5")?;
    // not spelled as numbers, or beyond the doubles
    stays(&rt, alloc, b"[1., .5, +1.5, 1.5.5, 01.5, 1e, -, 1e999]")?;
    stays(&rt, alloc, b"{\"$numberDouble\":\"abc\"}")?;
    stays(&rt, alloc, b"{\"$numberDouble\":1.}")?;
    stays(&rt, alloc, b"{\"$numberDouble\":\"1\",\"a\":1}")?;
    stays(&rt, alloc, b"{\"$numberDecimal\":\"1E9999\"}")?;
    stays(&rt, alloc, b"{\"$date\":{\"$numberLong\":\"1\"}}")?;
    stays(&rt, alloc, b"{\"$date\":\"2026-10-01\"}")?;
    stays(&rt, alloc, b"{\"$uuid\":\"\"}")?;
    stays(&rt, alloc, b"{\"$numberLong\":\"1\"}")
}

#[test]
fn numbers(rt: HostRuntime) -> Result<(), Fail> {
    let line = b"[1.5,{\"$numberDecimal\":\"-0.1\"},{\"$numberDouble\":\"1\"}]";
    let mut made = Substituted::new(rt.alloc());
    assert!(rt; substitute(line, &mut made)?);
    match made.numbers.as_slice() {
        [
            Number::Double(a),
            Number::Decimal128(low, high),
            Number::Double(b),
        ] => {
            assert!(rt; *a == 0x3ff8_0000_0000_0000);
            assert!(rt; *low == 1 && *high == 0xb03e_0000_0000_0000);
            assert!(rt; *b == 0x3ff0_0000_0000_0000);
        }
        _ => assert!(rt; false),
    }
    Ok(())
}
