//! Paths, the keys that they reach, filters, and their bounds.
use crate::answers::{RowFault, is_whole};
use crate::samples::read_filter;
use bd_extjson::read_doc;
use bd_index_bounds::Bounds;
use bd_path::{Dir, Key, Path, key_nodes, keys, sort_key};
use bd_query::matches;
use bd_query_filter::{Filter, FilterFaultKind, parse};
use bd_value::{Reading, Tree, Value, compare_nodes, try_copy};
use std::alloc::Global;
use std::cmp::Ordering;

/// Whether keys are these values.
pub(crate) fn are_values<N: Reading>(keys: &[Key<N>], values: &[Value]) -> bool {
    let mut wanted = values.iter();
    for key in keys {
        let (Key::Node(node), Some(value)) = (*key, wanted.next()) else {
            return false;
        };
        if compare_nodes(node, Tree::Value(value)) != Ordering::Equal {
            return false;
        }
    }
    wanted.next().is_none()
}

/// The keys of 5, 7 and 5 are 5 and 7.
fn keys_of_an_array(alloc: Global) -> Result<bool, RowFault> {
    let document = read_doc(alloc, b"{\"a\":[5,7,5]}")?;
    let path = Path::parse(alloc, "a")?;
    let nodes = key_nodes(alloc, Tree::Doc(&document), &path)?;
    let are_keys = are_values(&nodes, &[Value::Int32(5), Value::Int32(7)]);
    let values = keys(alloc, Tree::Doc(&document), &path)?;
    Ok(are_keys && matches!(values.as_slice(), [Value::Int32(5), Value::Int32(7)]))
}

/// A copy of the array has all its elements.
fn copies(alloc: Global) -> Result<bool, RowFault> {
    let document = read_doc(alloc, b"{\"a\":[5,7,5]}")?;
    let Some(array) = document.first("a") else {
        return Ok(false);
    };
    let copy = try_copy(alloc, array)?;
    Ok(compare_nodes(Tree::Value(&copy), Tree::Value(array)) == Ordering::Equal)
}

fn greatest_key(alloc: Global) -> Result<Value, RowFault> {
    let document = read_doc(alloc, b"{\"a\":[5,7,5]}")?;
    let path = Path::parse(alloc, "a")?;
    Ok(sort_key(alloc, Tree::Doc(&document), &path, Dir::Down)?)
}

/// The greatest of them is 7, and so is its copy.
fn copies_a_key(alloc: Global) -> Result<bool, RowFault> {
    let key = greatest_key(alloc)?;
    let copy = try_copy(alloc, &key)?;
    Ok(matches!(&key, Value::Int32(7)) && matches!(&copy, Value::Int32(7)))
}

fn components(alloc: Global) -> Result<bool, RowFault> {
    let path = Path::parse(alloc, "a.0")?;
    let copy = path.try_copy(alloc)?;
    if path.len() != 2 || copy.len() != 2 {
        return Ok(false);
    }
    Ok(path.component(0) == "a" && path.component(1) == "0" && copy.component(1) == "0")
}

fn is_match(alloc: Global, filter: &Filter, text: &str) -> Result<bool, RowFault> {
    let document = read_doc(alloc, text.as_bytes())?;
    Ok(matches(filter, Tree::Doc(&document)))
}

/// Greater than 1: 2 is, and 1 is not.
fn greater_than_one(alloc: Global) -> Result<bool, RowFault> {
    let filter = read_filter(alloc, "{\"a\":{\"$gt\":1}}")?;
    Ok(is_match(alloc, &filter, "{\"a\":2}")? && !is_match(alloc, &filter, "{\"a\":1}")?)
}

/// An operator and a field in one document.
fn mixed(alloc: Global) -> Result<bool, RowFault> {
    let document = read_doc(alloc, b"{\"a\":{\"$gt\":1,\"b\":2}}")?;
    let Err(fault) = parse(alloc, &document) else {
        return Ok(false);
    };
    if fault.kind != FilterFaultKind::MixedOperators {
        return Err(RowFault::from(fault));
    }
    Ok(matches!(fault.place.as_slice(), [a, b] if a.as_str() == "a" && b.as_str() == "b"))
}

/// A filter for what is not null has no bounds; the bounds of one from 5 on contain 5.
fn bounds(alloc: Global) -> Result<bool, RowFault> {
    let path = Path::parse(alloc, "a")?;
    let other = read_filter(alloc, "{\"a\":{\"$ne\":null}}")?;
    if Bounds::of(alloc, &other, &path, false)?.is_some() {
        return Ok(false);
    }
    let from_five = read_filter(alloc, "{\"a\":{\"$gte\":5}}")?;
    let bounds = Bounds::of(alloc, &from_five, &path, false)?;
    Ok(matches!(&bounds, Some(b) if b.contains(Tree::Value(&Value::Int32(5)))))
}

/// The result of the row with that name.
fn answer(alloc: Global, row: &str) -> Result<bool, RowFault> {
    match row {
        "keys" => keys_of_an_array(alloc),
        "copies" => copies(alloc),
        "a copy of a key" => copies_a_key(alloc),
        "components" => components(alloc),
        "a filter" => greater_than_one(alloc),
        "a fault" => mixed(alloc),
        "bounds" => bounds(alloc),
        _ => Err(RowFault::Otherwise),
    }
}

#[test]
fn paths_and_filters(rt: HostRuntime) {
    for row in [
        "keys",
        "copies",
        "a copy of a key",
        "components",
        "a filter",
        "a fault",
        "bounds",
    ] {
        assert!(rt; is_whole!(answer(rt.alloc(), row)), "{row}");
    }
}
