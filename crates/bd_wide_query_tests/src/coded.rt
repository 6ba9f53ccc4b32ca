//! Queries with codes, at each place of a query.

use bd_extjson::read_doc;
use bd_extjson_text::write_doc;
use bd_wide_number::Number;
use bd_wide_query::{classes_of, code_query};
use bd_wide_rank::Numbers;
use std::alloc::Global;
use std::process::Abort;
use std::test::Fail;

/// The double 1.5.
const DOUBLE: Number = Number::Double(0x3ff8_0000_0000_0000);

/// The decimal128 2.5.
const DECIMAL: Number = Number::Decimal128(25, 0x303e_0000_0000_0000);

/// The two documents, with a double and a decimal128 in turn, are this query with codes, among the numbers 1, 1.5 and 2; or a number
/// is where nothing is compared with it.
fn is(
    rt: &impl Abort,
    alloc: Global,
    whole: &[u8],
    text: &[u8],
    wanted: Option<&[u8]>,
) -> Result<(), Fail> {
    let mut numbers = Numbers::new(alloc);
    for number in [Number::Whole(1), DOUBLE, Number::Whole(2)] {
        numbers.push(number)?;
    }
    let table = numbers.into_table().expect(rt, "few numbers");
    let wholes = read_doc(alloc, whole)?;
    let texts = read_doc(alloc, text)?;
    let longs = classes_of(&texts);
    let coded = code_query(alloc, &wholes, &texts, &[DOUBLE, DECIMAL], &table, longs)?;
    match (coded, wanted) {
        (Some(document), Some(bytes)) => {
            let mut out = Vec::new(alloc);
            write_doc(&document, &mut out)?;
            assert!(rt; out.as_slice() == bytes);
        }
        (None, None) => {}
        _ => assert!(rt; false),
    }
    Ok(())
}

#[test]
fn values_to_equal(rt: HostRuntime) -> Result<(), Fail> {
    let alloc = rt.alloc();
    let whole = b"{\"a\":0,\"b\":{\"c\":[0,2,0]}}";
    let text = b"{\"a\":\"\",\"b\":{\"c\":[\"\",2,0]}}";
    let wanted =
        b"{\"a\":{\"$numberLong\":\"3\"},\"b\":{\"c\":[{\"$numberLong\":\"6\"},{\"$numberLong\":\"5\"},{\"$numberLong\":\"0\"}]}}";
    is(&rt, alloc, whole, text, Some(wanted))
}

#[test]
fn operators(rt: HostRuntime) -> Result<(), Fail> {
    let alloc = rt.alloc();
    let whole =
        b"{\"$or\":[{\"a\":{\"$not\":{\"$in\":[0,\"x\"]}}},{\"b\":{\"$elemMatch\":{\"$lt\":0,\"$exists\":1}}}]}";
    let text =
        b"{\"$or\":[{\"a\":{\"$not\":{\"$in\":[\"\",\"x\"]}}},{\"b\":{\"$elemMatch\":{\"$lt\":\"\",\"$exists\":1}}}]}";
    let wanted =
        b"{\"$or\":[{\"a\":{\"$not\":{\"$in\":[{\"$numberLong\":\"3\"},\"x\"]}}},{\"b\":{\"$elemMatch\":{\"$lt\":{\"$numberLong\":\"6\"},\"$exists\":{\"$numberInt\":\"1\"}}}}]}";
    is(&rt, alloc, whole, text, Some(wanted))
}

#[test]
fn names_of_operators_in_values(rt: HostRuntime) -> Result<(), Fail> {
    let alloc = rt.alloc();
    let whole = b"{\"a\":{\"b\":{\"$size\":0}},\"$elemMatch\":[2]}";
    let text = b"{\"a\":{\"b\":{\"$size\":\"\"}},\"$elemMatch\":[2]}";
    let wanted =
        b"{\"a\":{\"b\":{\"$size\":{\"$numberLong\":\"3\"}}},\"$elemMatch\":[{\"$numberLong\":\"5\"}]}";
    is(&rt, alloc, whole, text, Some(wanted))
}

#[test]
fn numbers_that_are_not_compared_with(rt: HostRuntime) -> Result<(), Fail> {
    let alloc = rt.alloc();
    is(
        &rt,
        alloc,
        b"{\"a\":{\"$size\":0}}",
        b"{\"a\":{\"$size\":\"\"}}",
        None,
    )?;
    is(
        &rt,
        alloc,
        b"{\"a\":{\"$type\":[2,0]}}",
        b"{\"a\":{\"$type\":[2,\"\"]}}",
        None,
    )?;
    is(&rt, alloc, b"{\"$and\":0}", b"{\"$and\":\"\"}", None)
}

#[test]
fn two_classes(rt: HostRuntime) -> Result<(), Fail> {
    let alloc = rt.alloc();
    // Doubles alone are separated from the others.
    let query =
        b"{\"a\":{\"$type\":\"double\",\"$not\":{\"$type\":[16,\"string\",{\"$numberLong\":\"18\"},\"decimal\"]}},\"b\":{\"$type\":\"number\"},\"c\":{\"d\":{\"$type\":\"number\"}}}";
    let wanted =
        b"{\"a\":{\"$type\":\"long\",\"$not\":{\"$type\":[\"int\",\"string\",\"int\",\"int\"]}},\"b\":{\"$type\":\"number\"},\"c\":{\"d\":{\"$type\":\"number\"}}}";
    is(&rt, alloc, query, query, Some(wanted))?;
    // All are named: they stay.
    let all = b"{\"a\":{\"$type\":[\"double\",\"int\",\"long\",\"decimal\"]}}";
    is(&rt, alloc, all, all, Some(all))
}

#[test]
fn code_with_scope(rt: HostRuntime) -> Result<(), Fail> {
    let alloc = rt.alloc();
    let whole = b"{\"a\":{\"$code\":\"f\",\"$scope\":{\"x\":0}}}";
    let text = b"{\"a\":{\"$code\":\"f\",\"$scope\":{\"x\":\"\"}}}";
    let wanted = b"{\"a\":{\"$code\":\"f\",\"$scope\":{\"x\":{\"$numberLong\":\"3\"}}}}";
    is(&rt, alloc, whole, text, Some(wanted))
}
