//! The examples of use in the roots of `bd_index_bounds`, `bd_query_filter`, `bd_index_prefix`, `bd_index`, `bd_path` and `bd_query`.
use crate::index_samples::{read_documents, read_filter};
use bd_extjson::read_doc;
use bd_index::Index;
use bd_index_bounds::Bounds;
use bd_index_prefix::{Prefix, compare_prefixes};
use bd_path::{Dir, Path, sort_key, sort_key_node};
use bd_query::matches;
use bd_query_filter::{FilterFaultKind, parse};
use bd_value::{Tree, Value};
use std::cmp::Ordering;
use std::test::Fail;

#[test]
fn shirts_in_stock(rt: HostRuntime) -> Result<(), Fail> {
    let alloc = rt.alloc();
    let query = read_doc(alloc, b"{\"qty\":{\"$gte\":5},\"size\":\"S\"}")?;
    let filter = parse(alloc, &query)?;
    let shirt = read_doc(alloc, b"{\"name\":\"shirt\",\"size\":\"S\",\"qty\":7}")?;
    assert!(rt; matches(&filter, Tree::Doc(&shirt)));
    Ok(())
}

#[test]
fn mixed(rt: HostRuntime) -> Result<(), Fail> {
    let alloc = rt.alloc();
    let query = read_doc(alloc, b"{\"qty\":{\"$gte\":5,\"size\":\"S\"}}")?;
    let is_mixed = match parse(alloc, &query) {
        Ok(_) => false,
        Err(fault) => fault.kind == FilterFaultKind::MixedOperators,
    };
    assert!(rt; is_mixed);
    Ok(())
}

#[test]
fn sort_key_of_a_document(rt: HostRuntime) -> Result<(), Fail> {
    let alloc = rt.alloc();
    let document = read_doc(alloc, b"{\"a\":[{\"b\":7},{\"b\":5}]}")?;
    let path = Path::parse(alloc, "a.b")?;
    let key = sort_key(alloc, Tree::Doc(&document), &path, Dir::Up)?;
    assert!(rt; matches!(key, Value::Int32(5)));
    Ok(())
}

#[test]
fn between_four_and_six(rt: HostRuntime) -> Result<(), Fail> {
    let alloc = rt.alloc();
    let query = read_doc(alloc, b"{\"a\":{\"$gt\":4,\"$lt\":6}}")?;
    let filter = parse(alloc, &query)?;
    let path = Path::parse(alloc, "a")?;
    let bounds = Bounds::of(alloc, &filter, &path, false)?;
    assert!(rt; matches!(&bounds, Some(b) if b.contains(Tree::Value(&Value::Int32(5)))));
    assert!(rt; matches!(&bounds, Some(b) if !b.contains(Tree::Value(&Value::Int32(9)))));
    Ok(())
}

#[test]
fn greater_than_six(rt: HostRuntime) -> Result<(), Fail> {
    let alloc = rt.alloc();
    let dump = read_documents(alloc, "{\"a\":1};{};{\"a\":[7,3]};{\"a\":8};{\"a\":2}")?;
    let filter = read_filter(alloc, "{\"a\":{\"$gt\":6}}")?;
    let path = Path::parse(alloc, "a")?;
    let index = Index::build(alloc, &dump, path)?;
    let bounds = Bounds::of(alloc, &filter, index.path(), index.multikey())?;
    let found = index.places(alloc, &dump, bounds.as_ref())?;
    assert!(rt; found.entries == 2 && found.places.as_slice() == [2, 3].as_slice());
    Ok(())
}

#[test]
fn seven_before_nine(rt: HostRuntime) -> Result<(), Fail> {
    let alloc = rt.alloc();
    let dump = read_documents(alloc, "{\"a\":7};{\"a\":9}")?;
    if dump.len() < 2 {
        return Err("two documents".into());
    }
    let path = Path::parse(alloc, "a")?;
    let seven = Prefix::of(sort_key_node(dump.document(0).value(), &path, Dir::Up));
    let nine = Prefix::of(sort_key_node(dump.document(1).value(), &path, Dir::Up));
    assert!(rt; compare_prefixes(seven, nine) == Some(Ordering::Less));
    Ok(())
}
