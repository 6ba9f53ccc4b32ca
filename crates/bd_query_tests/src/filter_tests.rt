//! Filters that are made by hand, and filters of texts over documents in memory.
use bd_extjson::read_doc;
use bd_path::Path;
use bd_query::matches;
use bd_query_filter::{Filter, FilterFaultKind, Members, Operator, parse};
use bd_value::{Tree, Value};
use std::alloc::Global;
use std::process::Abort;

/// Whether the document of a text matches a filter.
fn is_match(rt: &impl Abort, alloc: Global, filter: &Filter, text: &str) -> bool {
    let document = read_doc(alloc, text.as_bytes()).expect(rt, text);
    matches(filter, Tree::Doc(&document))
}

/// Whether the document of a line matches a filter as the line says.
fn is_as_reported(rt: &impl Abort, alloc: Global, filter: &Filter, line: &str) -> bool {
    let (document, wanted) = line.split_once(" | ").expect(rt, line);
    wanted.parse::<bool>() == Ok(is_match(rt, alloc, filter, document))
}

/// These operators at the path `a.b`.
fn at_path(rt: &impl Abort, alloc: Global, operators: Vec<Operator>) -> Filter {
    let path = Path::parse(alloc, "a.b").expect(rt, "a path");
    Filter::Field { path, operators }
}

/// Above four and none of seven, or an empty array: `{"$or":[{"a.b":{"$gt":4,"$not":{"$in":[7]}}},{"a.b":{"$size":0}}]}`.
fn above_four_or_empty(rt: &impl Abort, alloc: Global) -> Filter {
    let values = vec![in alloc; Value::Int32(7)].expect(rt, "a member");
    let seven = Members::new(alloc, values).expect(rt, "members");
    let inside = vec![in alloc; Operator::In(seven)].expect(rt, "an operator");
    let greater = Operator::Greater(Value::Int32(4));
    let operators = vec![in alloc; greater, Operator::Not(inside)].expect(rt, "operators");
    let above_four = at_path(rt, alloc, operators);
    let size = vec![in alloc; Operator::Size(0)].expect(rt, "an operator");
    let filters = vec![in alloc; above_four, at_path(rt, alloc, size)].expect(rt, "filters");
    Filter::Or(filters)
}

/// Documents, and whether that filter matches them.
const ABOVE_FOUR_OR_EMPTY: &str = r#"{"a":{"b":5}} | true
{"a":[{"b":1},{"b":[2,9]}]} | true
{"a":{"b":[]}} | true
{"a":[{"b":7},{"b":[]}]} | true
{} | false
{"a":5} | false
{"a":{"b":4}} | false
{"a":{"b":7}} | false
{"a":[{"b":9},{"b":7}]} | false"#;

#[test]
fn takes_filters_made_by_hand(rt: HostRuntime) {
    let filter = above_four_or_empty(&rt, rt.alloc());
    for line in ABOVE_FOUR_OR_EMPTY.lines() {
        assert!(rt; is_as_reported(&rt, rt.alloc(), &filter, line), "{line}");
    }
}

/// The filter of that name without members. Its operator is at the path `a.b`.
fn without_members(rt: &impl Abort, alloc: Global, name: &str) -> Filter {
    let operator = match name {
        "$and" => return Filter::And(Vec::new(alloc)),
        "$or" => return Filter::Or(Vec::new(alloc)),
        "$nor" => return Filter::Nor(Vec::new(alloc)),
        "no operator" => return at_path(rt, alloc, Vec::new(alloc)),
        "$not" => Operator::Not(Vec::new(alloc)),
        "$type" => Operator::Type(Vec::new(alloc)),
        "$elemMatch of operators" => Operator::ElemMatch(Vec::new(alloc)),
        _ => Operator::ElemMatchDocument(Vec::new(alloc)),
    };
    let operators = vec![in alloc; operator].expect(rt, "an operator");
    at_path(rt, alloc, operators)
}

/// A part without members, which no text can be: each of none holds, and none of them does.
#[test]
fn takes_parts_of_no_members(rt: HostRuntime) {
    for (name, wanted) in [
        ("$and", true),
        ("$or", false),
        ("$nor", true),
        ("no operator", true),
        ("$not", false),
        ("$type", false),
        ("$elemMatch of operators", true),
        ("$elemMatch of a filter", false),
    ] {
        let filter = without_members(&rt, rt.alloc(), name);
        let is_taken = is_match(&rt, rt.alloc(), &filter, r#"{"a":{"b":[5]}}"#);
        assert!(rt; is_taken == wanted, "{name}");
    }
}

/// A filter, a document in memory, and whether it matches. The rows of `tests/rows` have these too, over bytes.
const IN_MEMORY: &str = r#"{"a.b":5} | {"a":[5,[],{"b":5}]} | true
{"a":2} | {"a":1,"a":2} | false
{"a.0.0":5} | {"a":[{"0":[5]}]} | true
{"a.b":null} | {"a":[{},{"b":1}]} | true
{"a.b":null} | {"a":[1]} | false
{"a":[5,"x"]} | {"a":[{"$numberLong":"5"},{"$symbol":"x"}]} | true
{"a":{"$ne":5}} | {"a":[4,5]} | false
{"a":{"$gt":4,"$lt":6}} | {"a":[1,9]} | true
{"a":{"$nin":[1,5]}} | {"a":[[1],[5]]} | true
{"a":{"$all":[5,[5]]}} | {"a":[5]} | true
{"a":{"$size":2}} | {"a":[[1,2]]} | false
{"a.b":{"$exists":false}} | {"a":[[{"b":1}]]} | true
{"a":{"$type":"object"}} | {"a":{"$code":"x","$scope":{}}} | false
{"a":{"$not":{"$gt":5}}} | {"a":[1,9]} | false
{"a":{"$elemMatch":{"$gt":4,"$lt":6}}} | {"a":[1,9]} | false
{"a":{"$elemMatch":{"b":5,"c":7}}} | {"a":[{"b":5},{"c":7,"b":5}]} | true
{"a.0.0":{"$elemMatch":{"$eq":5}}} | {"a":[{"0":[[5]]}]} | true
{"$nor":[{"a":5},{"b":7}]} | {"a":7,"b":5} | true"#;

/// The filter of a line, and the rest of it.
pub(crate) fn split_filter<'a>(rt: &impl Abort, alloc: Global, line: &'a str) -> (Filter, &'a str) {
    let (query, rest) = line.split_once(" | ").expect(rt, line);
    let query = read_doc(alloc, query.as_bytes()).expect(rt, line);
    (parse(alloc, &query).expect(rt, line), rest)
}

#[test]
fn looks_at_documents_in_memory(rt: HostRuntime) {
    for line in IN_MEMORY.lines() {
        let (filter, rest) = split_filter(&rt, rt.alloc(), line);
        assert!(rt; is_as_reported(&rt, rt.alloc(), &filter, rest), "{line}");
    }
    // No row can cause it.
    assert!(rt; FilterFaultKind::NoMemory.words() == "no memory");
}
