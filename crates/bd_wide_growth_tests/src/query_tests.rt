//! Queries with codes, and filters beside NaN.
use crate::answers::{RowFault, is_whole};
use bd_extjson::read_doc;
use bd_extjson_text::{write_doc, write_path};
use bd_query::matches;
use bd_query_filter::parse;
use bd_value::Tree;
use bd_wide_number::Number;
use bd_wide_query::{classes_of, code_query, exclude_nan, read_query, third_class};
use bd_wide_rank::{Numbers, Table};
use std::alloc::Global;

/// The table of NaN, 1 and 2, whose codes are 1, 3 and 5.
fn table(alloc: Global) -> Result<Option<Table>, RowFault> {
    let mut numbers = Numbers::new(alloc);
    for number in [
        Number::Whole(1),
        Number::Whole(2),
        Number::Double(0x7ff8_0000_0000_0000),
    ] {
        numbers.push(number)?;
    }
    Ok(numbers.into_table().ok())
}

/// A query with a number in an array and in a scope, and with the name of a type.
const QUERY: &[u8] =
    br#"{"a":{"$in":[1.5,2]},"b":{"$type":["double"]},"c":{"$code":"f","$scope":{"x":{"$numberDecimal":"1.0"}}}}"#;

/// The same with codes. Doubles alone are an int64.
const CODED: &[u8] =
    br#"{"a":{"$in":[{"$numberLong":"4"},{"$numberLong":"5"}]},"b":{"$type":["long"]},"c":{"$code":"f","$scope":{"x":{"$numberLong":"3"}}}}"#;

fn codes(alloc: Global) -> Result<bool, RowFault> {
    let query = read_query(alloc, QUERY)?;
    let Some(table) = table(alloc)? else {
        return Ok(false);
    };
    let longs = classes_of(&query.texts);
    let coded = code_query(
        alloc,
        &query.wholes,
        &query.texts,
        &query.numbers,
        &table,
        longs,
    )?;
    let Some(coded) = coded else {
        return Ok(false);
    };
    let mut text = Vec::new(alloc);
    write_doc(&coded, &mut text)?;
    Ok(text.as_slice() == CODED)
}

/// The path to a `$type` in an array that needs a third class.
fn splits(alloc: Global) -> Result<bool, RowFault> {
    let query = read_doc(
        alloc,
        br#"{"a":{"$type":"int"},"$or":[{"a":1},{"a":{"$type":"long"}}]}"#,
    )?;
    let Some(split) = third_class(alloc, &query)? else {
        return Ok(false);
    };
    let mut path = Vec::new(alloc);
    write_path(&split.path, &mut path)?;
    Ok(path.as_slice() == b"\"$or.1.a.$type\"".as_slice())
}

/// At most 2, with codes: 1 and 2 are, and neither NaN nor more is.
fn excludes(alloc: Global) -> Result<bool, RowFault> {
    let Some(table) = table(alloc)? else {
        return Ok(false);
    };
    let query = read_doc(alloc, br#"{"a":{"$lte":{"$numberLong":"5"}}}"#)?;
    let filter = exclude_nan(alloc, parse(alloc, &query)?, &table)?;
    for (text, wanted) in [
        ("{\"a\":1}", false),
        ("{\"a\":3}", true),
        ("{\"a\":5}", true),
        ("{\"a\":7}", false),
    ] {
        let document = read_doc(alloc, text.as_bytes())?;
        if matches(&filter, Tree::Doc(&document)) != wanted {
            return Ok(false);
        }
    }
    Ok(true)
}

#[test]
fn queries(rt: HostRuntime) {
    assert!(rt; is_whole!(codes(rt.alloc())));
    assert!(rt; is_whole!(splits(rt.alloc())));
    assert!(rt; is_whole!(excludes(rt.alloc())));
}
