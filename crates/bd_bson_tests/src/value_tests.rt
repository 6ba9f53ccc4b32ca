//! Documents, and depths that were counted by hand.
use crate::samples::elements;
use bd_extjson::read_doc;
use bd_value::{Document, NoMemory, Tree, Value, depth, depth_of, has_zero};
use std::alloc::Global;
use std::process::Abort;
use std::test::Fail;

/// Names, and a date under each.
const DATES: [(&str, i64); 4] = [("b", 0), ("b", 1), ("", 2), ("a", 3)];

fn dates(alloc: Global) -> Result<Document, NoMemory> {
    let mut document = Document::new(alloc);
    for (name, date) in DATES {
        document.push(String::from_str(alloc, name)?, Value::Date(date))?;
    }
    Ok(document)
}

/// Whether the pair at an index is this name with this date.
fn has_date(document: &Document, index: usize, name: &str, date: i64) -> bool {
    if index >= document.len() {
        return false;
    }
    let (found, value) = document.pair(index);
    found == name && matches!(value, Value::Date(it) if *it == date)
}

/// A repeated name stays at its index, and so does an empty one.
#[test]
fn keeps_pairs_in_their_order(rt: HostRuntime) -> Result<(), Fail> {
    assert!(rt; has_zero("t\0u") && !has_zero("t0u"));
    assert!(rt; Document::new(rt.alloc()).is_empty());
    let document = dates(rt.alloc())?;
    assert!(rt; !document.is_empty() && document.len() == 4);
    for (index, (name, date)) in DATES.iter().enumerate() {
        assert!(rt; has_date(&document, index, name, *date), "at {index}");
    }
    assert!(rt; matches!(document.first("b"), Some(Value::Date(0))));
    assert!(rt; document.first("c").is_none());
    Ok(())
}

/// The text of the document of every kind.
fn every_kind(alloc: Global) -> Result<String, Fail> {
    let mut text = String::from_str(alloc, "{\"\":null")?;
    for (name, _, printed) in elements() {
        write!(text, ",\"{name}\":{printed}")?;
    }
    text.push_str("}")?;
    Ok(text)
}

/// The levels of a document, those of the value in `a`, and the document. A scope is one level and its code another.
const LEVELS: &str = r#"1 0 {}
1 0 {"a":7}
2 1 {"a":[]}
3 2 {"a":{"b":{}}}
1 0 {"a":{"$code":""}}
3 2 {"a":{"$code":"","$scope":{}}}"#;

/// Whether a document has the stated number of levels, and so has the value in `a`, if any.
fn has_levels(rt: &impl Abort, alloc: Global, line: &str) -> bool {
    let (levels, rest) = line.split_once(' ').expect(rt, line);
    let (alone, text) = rest.split_once(' ').expect(rt, line);
    let document = read_doc(alloc, text.as_bytes()).expect(rt, line);
    let found = match document.first("a") {
        Some(value) => depth_of(Tree::Value(value)),
        None => 0,
    };
    levels.parse::<u64>() == Ok(depth(&document)) && alone.parse::<u64>() == Ok(found)
}

#[test]
fn counts_levels(rt: HostRuntime) -> Result<(), Fail> {
    let alloc = rt.alloc();
    let kinds = every_kind(alloc)?;
    let lines = format!(in alloc;
        "{LEVELS}\n3 1 {kinds}\n5 4 {{\"a\":[null,{kinds},[]],\"\":null}}"
    )?;
    for line in lines.lines() {
        assert!(rt; has_levels(&rt, alloc, line), "{line}");
    }
    Ok(())
}
