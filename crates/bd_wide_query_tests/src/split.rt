//! Paths to the `$type`s that split the types of numbers.

use bd_extjson::read_doc;
use bd_extjson_text::write_path;
use bd_wide_copy::Longs;
use bd_wide_query::{Split, first_split, third_class};
use std::alloc::Global;
use std::process::Abort;
use std::test::Fail;

/// To the first `$type` of a query that splits the types of numbers leads the one path, and to the first that needs a third class the
/// other, if it has such ones: the names, joined by dots, between quotation marks.
fn are(
    rt: &impl Abort,
    alloc: Global,
    query: &[u8],
    first: Option<&[u8]>,
    third: Option<&[u8]>,
) -> Result<(), Fail> {
    let query = read_doc(alloc, query)?;
    is_at(rt, alloc, first_split(alloc, Longs::none(), &query)?, first)?;
    is_at(rt, alloc, third_class(alloc, &query)?, third)
}

fn is_at(
    rt: &impl Abort,
    alloc: Global,
    split: Option<Split>,
    wanted: Option<&[u8]>,
) -> Result<(), Fail> {
    match (split, wanted) {
        (Some(split), Some(wanted)) => {
            let mut path = Vec::new(alloc);
            write_path(&split.path, &mut path)?;
            assert!(rt; path.as_slice() == wanted);
        }
        (None, None) => {}
        _ => assert!(rt; false),
    }
    Ok(())
}

#[test]
fn no_class_too_many(rt: HostRuntime) -> Result<(), Fail> {
    let alloc = rt.alloc();
    are(&rt, alloc, b"{}", None, None)?;
    // All types are named, or none.
    let alike = b"{\"a\":{\"$type\":\"number\"},\"b\":{\"$type\":[2,1,16,18,19]},\"$type\":\"x\"}";
    are(&rt, alloc, alike, None, None)?;
    // Each splits doubles from the others.
    let two =
        b"{\"a\":{\"$exists\":1,\"$type\":\"double\"},\"b\":{\"$not\":{\"$type\":[16,18,19]}}}";
    are(&rt, alloc, two, Some(b"\"a.$type\""), None)
}

#[test]
fn the_first_path(rt: HostRuntime) -> Result<(), Fail> {
    let alloc = rt.alloc();
    // The second splits as the first.
    let later =
        b"{\"$or\":[{\"a\":{\"$type\":\"double\"}},{\"b\":{\"$type\":1}},{\"a\":{\"$type\":19}},{\"a\":{\"$type\":16}}]}";
    are(
        &rt,
        alloc,
        later,
        Some(b"\"$or.0.a.$type\""),
        Some(b"\"$or.2.a.$type\""),
    )?;
    let inner =
        b"{\"a\":{\"$elemMatch\":{\"b.c\":{\"$not\":{\"$type\":\"int\"}}}},\"c\":{\"$type\":[\"long\",\"decimal\"]}}";
    are(
        &rt,
        alloc,
        inner,
        Some(b"\"a.$elemMatch.b.c.$not.$type\""),
        Some(b"\"c.$type\""),
    )
}

#[test]
fn values_compared_as_wholes(rt: HostRuntime) -> Result<(), Fail> {
    let alloc = rt.alloc();
    let query =
        b"{\"a\":[[0,{\"$type\":1}]],\"b\":{\"$code\":\"f\",\"$scope\":{\"$type\":{\"$type\":\"int\"}}}}";
    are(
        &rt,
        alloc,
        query,
        Some(b"\"a.0.1.$type\""),
        Some(b"\"b.$scope.$type.$type\""),
    )
}
