//! Dumps of all types, their numbers, and their copies with codes.
use crate::answers::{RowFault, is_whole};
use crate::samples::{DOCUMENT, THREE};
use bd_bson_check::FaultKind;
use bd_wide_copy::{Longs, WideDump, collect_numbers, read_wide_dump, write_copy};
use bd_wide_number::Number;
use bd_wide_rank::{Numbers, Table};
use std::alloc::Global;

/// The decimal128 one tenth above a whole number, which no double equals.
fn above(whole: u32) -> Number {
    Number::Decimal128(10 * u64::from(whole) + 1, 0x303e_0000_0000_0000)
}

/// The whole numbers below 20, and one above each. A number that was refused is added again, and is there once.
fn tables(alloc: Global) -> Result<bool, RowFault> {
    let mut numbers = Numbers::new(alloc);
    for i in 0..20 {
        for number in [Number::Whole(i64::from(i)), above(i)] {
            if numbers.push(number).is_err() {
                numbers.push(number)?;
            }
        }
    }
    let Ok(table) = numbers.into_table() else {
        return Ok(false);
    };
    let codes = table.codes(alloc)?;
    for i in 0..20u32 {
        let code = 4 * i as i32 + 1;
        let is_whole = table.code(Number::Whole(i64::from(i))) == code;
        if !is_whole || table.code(above(i)) != code + 2 {
            return Ok(false);
        }
    }
    Ok(table.len() == 40 && codes.first() == Some(&1) && codes.last() == Some(&79))
}

/// The numbers of a document are added to two others, which alone remain after a refusal.
fn collects(alloc: Global) -> Result<bool, RowFault> {
    let mut numbers = Vec::new(alloc);
    numbers.push(Number::Whole(8))?;
    numbers.push(Number::Whole(9))?;
    if collect_numbers(DOCUMENT, &mut numbers).is_err() {
        if numbers.len() != 2 {
            return Ok(false);
        }
        collect_numbers(DOCUMENT, &mut numbers)?;
    }
    Ok(matches!(
        numbers.as_slice(),
        [
            Number::Whole(8),
            Number::Whole(9),
            Number::Double(0x3ff8_0000_0000_0000),
            Number::Decimal128(15, 0x303e_0000_0000_0000),
            Number::Whole(7)
        ]
    ))
}

/// The document, and its copy by a table of 7 alone.
fn copies_a_document(alloc: Global) -> Result<bool, RowFault> {
    let mut numbers = Numbers::new(alloc);
    numbers.push(Number::Whole(7))?;
    let Ok(table) = numbers.into_table() else {
        return Ok(false);
    };
    table.codes_fit();
    let mut out = Vec::from_slice(alloc, b"xy")?;
    if write_copy(&table, Longs::none(), DOCUMENT, &mut out).is_err() {
        if out.as_slice() != b"xy".as_slice() {
            return Ok(false);
        }
        write_copy(&table, Longs::none(), DOCUMENT, &mut out)?;
    }
    let wanted = b"xy\
        \x2d\0\0\0\x10d\0\0\0\0\0\x10e\0\0\0\0\0\
        \x02s\0\x04\0\0\0a,b\0\x03o\0\x0c\0\0\0\x10x\0\x01\0\0\0\0\0";
    Ok(out.as_slice() == wanted.as_slice())
}

/// The table of the numbers of a dump: NaN, 1.5 and 2.
fn table_of(alloc: Global, dump: &WideDump) -> Result<Option<Table>, RowFault> {
    Ok(dump.numbers(alloc)?.into_table().ok())
}

/// A dump, and its copy.
fn copies_a_dump(alloc: Global) -> Result<bool, RowFault> {
    let dump = read_wide_dump(alloc, Vec::from_slice(alloc, THREE)?)?;
    let Some(table) = table_of(alloc, &dump)? else {
        return Ok(false);
    };
    table.codes_fit();
    let mut out = Vec::from_slice(alloc, b"xy")?;
    if dump.write_copy(&table, Longs::none(), &mut out).is_err() {
        if out.as_slice() != b"xy".as_slice() {
            return Ok(false);
        }
        dump.write_copy(&table, Longs::none(), &mut out)?;
    }
    let wanted = b"xy\
        \x0c\0\0\0\x10a\0\x03\0\0\0\0\
        \x0c\0\0\0\x10a\0\x05\0\0\0\0\
        \x0c\0\0\0\x10a\0\x01\0\0\0\0";
    Ok(out.as_slice() == wanted.as_slice())
}

/// {"a":1.5}, and a document with a boolean of 2.
fn faults(alloc: Global) -> Result<bool, RowFault> {
    let bytes = b"\x10\0\0\0\x01a\0\0\0\0\0\0\0\xf8\x3f\0\x09\0\0\0\x08b\0\x02\0";
    let Err(fault) = read_wide_dump(alloc, Vec::from_slice(alloc, bytes)?) else {
        return Ok(false);
    };
    if fault.kind != FaultKind::BadBoolean {
        return Err(RowFault::from(fault));
    }
    let is_at = fault.document == 1 && fault.offset == 23;
    Ok(is_at && matches!(fault.path.as_slice(), [name] if name.as_str() == "b"))
}

/// The result of the row with that name.
fn answer(alloc: Global, row: &str) -> Result<bool, RowFault> {
    match row {
        "tables" => tables(alloc),
        "numbers" => collects(alloc),
        "a document" => copies_a_document(alloc),
        "a dump" => copies_a_dump(alloc),
        "faults" => faults(alloc),
        _ => Err(RowFault::Otherwise),
    }
}

#[test]
fn dumps(rt: HostRuntime) {
    for row in ["tables", "numbers", "a document", "a dump", "faults"] {
        assert!(rt; is_whole!(answer(rt.alloc(), row)), "{row}");
    }
}
