//! Lines as bytes: after a refusal the bytes before are unchanged, and the call is made again on the same buffers.
use crate::answers::{RowFault, is_whole};
use bd_bson_check::check_document;
use bd_wide_number::Number;
use bd_wide_pack::{WidePacker, mix};
use bd_wide_substitute::{Substituted, substitute};
use std::alloc::Global;

/// {"d":1.5}
const DOUBLE: &[u8] = b"\x10\0\0\0\x01d\0\0\0\0\0\0\0\xf8\x3f\0";

/// Lines and their bytes: as `dump` writes it, with another text, with a value longer than in the line, without doubles, and a faulty one.
const LINES: [(&[u8], &[u8]); 5] = [
    (b"{\"d\":{\"$numberDouble\":\"1.5\"}}", DOUBLE),
    (b"{ \"d\" : 15e-1 }", DOUBLE),
    (
        b"{\"u\":{\"$uuid\":\"73ffd264-44b3-4c69-94b1-ac1f2f6c2b6e\"}}",
        b"\x1d\0\0\0\x05u\0\x10\0\0\0\x04s\xff\xd2dD\xb3Li\x94\xb1\xac\x1f/l+n\0",
    ),
    (b"{ \"a\" : 1 }", b"\x0c\0\0\0\x10a\0\x01\0\0\0\0"),
    (b"{\"d\":1.5,}", b""),
];

/// Whether each line is packed after two bytes, which alone remain after a refusal and if the line is faulty.
fn packs(alloc: Global) -> Result<bool, RowFault> {
    let mut packer = WidePacker::new(alloc);
    for (line, wanted) in LINES {
        let mut out = Vec::from_slice(alloc, b"xy")?;
        let fault = match packer.pack_line(line, &mut out) {
            Ok(fault) => fault,
            Err(_) if out.len() == 2 => packer.pack_line(line, &mut out)?,
            Err(_) => return Ok(false),
        };
        let is_same = out.strip_prefix(b"xy".as_slice()) == Some(wanted);
        if !is_same || fault.is_some() != wanted.is_empty() {
            return Ok(false);
        }
    }
    Ok(true)
}

/// A line with a double, a date and a decimal128 becomes two texts, in buffers that are used again.
fn substitutes(alloc: Global) -> Result<bool, RowFault> {
    let line = b"[1.5,{\"$date\":\"1970-01-01T00:00:00Z\"},{\"$numberDecimal\":\"1\"}]";
    let mut made = Substituted::new(alloc);
    let has_values = match substitute(line, &mut made) {
        Ok(has_values) => has_values,
        Err(_) => substitute(line, &mut made)?,
    };
    let wholes = b"[0  ,{\"$date\":{\"$numberLong\":\"0\"}},0                     ]";
    let texts = b"[\"\" ,{\"$date\":{\"$numberLong\":\"0\"}},\"\"                    ]";
    let are_same = made.wholes.as_slice() == wholes.as_slice()
        && made.texts.as_slice() == texts.as_slice();
    Ok(has_values && are_same && made.numbers.len() == 2)
}

/// {"a":0,"b":0} and {"a":"","b":""} with 1.5 as a double and as a decimal128.
fn mixes(alloc: Global) -> Result<bool, RowFault> {
    let wholes = b"\x13\0\0\0\x10a\0\0\0\0\0\x10b\0\0\0\0\0\0";
    let texts = b"\x15\0\0\0\x02a\0\x01\0\0\0\0\x02b\0\x01\0\0\0\0\0";
    let numbers = [
        Number::Double(0x3ff8_0000_0000_0000),
        Number::Decimal128(15, 0x303e_0000_0000_0000),
    ];
    check_document(alloc, wholes, 0, 0)?;
    check_document(alloc, texts, 0, 0)?;
    let mut out = Vec::from_slice(alloc, b"xy")?;
    let is_mixed = match mix(wholes, texts, &numbers, &mut out) {
        Ok(is_mixed) => is_mixed,
        Err(_) => {
            out.truncate(2);
            mix(wholes, texts, &numbers, &mut out)?
        }
    };
    let wanted =
        b"xy\x23\0\0\0\x01a\0\0\0\0\0\0\0\xf8\x3f\x13b\0\x0f\0\0\0\0\0\0\0\0\0\0\0\0\0\x3e\x30\0";
    Ok(is_mixed && out.as_slice() == wanted.as_slice())
}

#[test]
fn lines(rt: HostRuntime) {
    assert!(rt; is_whole!(packs(rt.alloc())));
    assert!(rt; is_whole!(substitutes(rt.alloc())));
    assert!(rt; is_whole!(mixes(rt.alloc())));
}
