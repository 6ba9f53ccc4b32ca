//! Bounds of filters, worked out by hand.
use crate::filter_tests::split_filter;
use bd_extjson::read_doc;
use bd_index_bounds::Bounds;
use bd_path::{Path, keys};
use bd_query_filter::Filter;
use bd_value::{Tree, Value};
use std::alloc::Global;
use std::process::Abort;

/// A filter, a document of several keys, and how many of them are inside for an index on `a`, whether it counts as multikey
/// or not.
const ANY_INDEX: &str = r#"{"a":{"$gte":5}} | {"a":[5,7,5]} | 2
{"a":[1,2]} | {"a":[2,1]} | 1
{"a":{"$in":[1,[2,3],9]}} | {"a":[1,2,3]} | 2
{"a":{"$type":["string","bool"]}} | {"a":["x",{"$symbol":"y"},true,1]} | 3
{"a":{"$elemMatch":{"$gt":4,"$lt":6}}} | {"a":[1,9]} | 0
{"b":1,"a":{"$ne":7,"$lt":3}} | {"a":[1,2,3]} | 2"#;

/// The path `a`.
fn path_a(rt: &impl Abort, alloc: Global) -> Path {
    Path::parse(alloc, "a").expect(rt, "a path")
}

/// The keys of the document of a text.
fn keys_of(rt: &impl Abort, alloc: Global, text: &str) -> Vec<Value> {
    let document = read_doc(alloc, text.as_bytes()).expect(rt, text);
    keys(alloc, Tree::Doc(&document), &path_a(rt, alloc)).expect(rt, text)
}

/// How many of the keys are inside the bounds of the filter of a line.
fn count_inside(
    rt: &impl Abort,
    alloc: Global,
    line: &str,
    filter: &Filter,
    multikey: bool,
    keys: &[Value],
) -> u64 {
    let path = path_a(rt, alloc);
    let given = Bounds::of(alloc, filter, &path, multikey).expect(rt, line);
    let bounds = given.expect(rt, line);
    let mut inside = 0u64;
    for key in keys {
        inside = inside.saturating_add(u64::from(bounds.contains(Tree::Value(key))));
    }
    inside
}

/// In the program an index over such a document is always multikey.
#[test]
fn counts_keys_inside(rt: HostRuntime) {
    for line in ANY_INDEX.lines() {
        let (filter, rest) = split_filter(&rt, rt.alloc(), line);
        let (document, count) = rest.split_once(" | ").expect(&rt, line);
        let keys = keys_of(&rt, rt.alloc(), document);
        for multikey in [true, false] {
            let inside = count_inside(&rt, rt.alloc(), line, &filter, multikey, &keys);
            assert!(rt; count.parse::<u64>() == Ok(inside), "{line}");
        }
    }
}

/// How many ranges there are.
fn ranges(bounds: &Bounds<'_>) -> u64 {
    match bounds {
        Bounds::Range { .. } => 1,
        Bounds::And(parts) | Bounds::Or(parts) => {
            let mut count = 0u64;
            for part in parts {
                count = count.saturating_add(ranges(part));
            }
            count
        }
    }
}

/// Two lists of members stay side by side, without one range for each pair of members.
#[test]
fn two_lists_stay_two(rt: HostRuntime) {
    let (filter, _) = split_filter(
        &rt,
        rt.alloc(),
        r#"{"a":{"$in":[1,2,3,4,5,6,7,8,9]},"$and":[{"a":{"$in":[11,2,13,4,15,6,17,8,19]}}]} | "#,
    );
    let path = path_a(&rt, rt.alloc());
    let bounds = Bounds::of(rt.alloc(), &filter, &path, false).expect(&rt, "bounds");
    assert!(rt; matches!(&bounds, Some(b) if ranges(b) == 18));
}
