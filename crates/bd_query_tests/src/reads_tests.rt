//! How many documents are read, of which no contract says anything.
ghost use Rattle.bd_index.specs.IndexView.{IsIndexOf};

use crate::index_samples::{read_documents, read_filter};
use bd_bson_dump::Dump;
use bd_index::Index;
use bd_index_bounds::Bounds;
use bd_path::{Dir, Path};
use std::alloc::Global;
use std::test::Fail;

/// A thousand documents, the numbers from 0 to 999 under `a`.
fn thousand(alloc: Global) -> Result<Dump, Fail> {
    let mut text = String::from_str(alloc, "{\"a\":0}")?;
    for n in 1..1000u32 {
        text.push_str(format!(in alloc; ";{{\"a\":{n}}}")?.as_str())?;
    }
    read_documents(alloc, text.as_str())
}

/// The filters, and the documents inside their bounds, each with an entry.
const QUERIES: [(&str, &[u32]); 4] = [
    (r#"{"a":7}"#, &[7]),
    (r#"{"a":{"$gt":996}}"#, &[997, 998, 999]),
    (r#"{"a":{"$in":[999,0,500]}}"#, &[0, 500, 999]),
    (r#"{"a":1000}"#, &[]),
];

/// How many keys are read to find a query's documents, if the index finds these; None if it does not.
fn value_reads(
    alloc: Global,
    dump: &Dump,
    index: &Index,
    query: &str,
    wanted: &[u32],
) -> Result<Option<u64>, Fail>
    requires { IsIndexOf dump.now index.now }
{
    let filter = read_filter(alloc, query)?;
    let before = dump.value_reads();
    let bounds = Bounds::of(alloc, &filter, index.path(), index.multikey())?;
    let found = index.places(alloc, dump, bounds.as_ref())?;
    let is_found = found.places.as_slice() == wanted && found.entries == wanted.len() as u64;
    Ok(is_found.then_some(dump.value_reads().saturating_sub(before)))
}

/// How many documents a scan of the index gives.
fn walked(alloc: Global, dump: &Dump, index: &Index) -> Result<u64, Fail>
    requires { IsIndexOf dump.now index.now }
{
    if index.sparse() {
        return Err("a plain index".into());
    }
    let mut walked = 0u64;
    for _ in index.walk(alloc, dump, Dir::Down)? {
        walked = walked.saturating_add(1);
    }
    Ok(walked)
}

/// An index reads each document once, while it is built, and none later: no query scans the documents, nor compares many of
/// the keys.
#[test]
fn reads_none_once_it_is_built(rt: HostRuntime) -> Result<(), Fail> {
    let alloc = rt.alloc();
    let dump = thousand(alloc)?;
    let index = Index::build(alloc, &dump, Path::parse(alloc, "a")?)?;
    assert!(rt; dump.reads() == 1000);
    for (query, wanted) in QUERIES {
        let compared = value_reads(alloc, &dump, &index, query, wanted)?;
        // Each of the two limits of a range is found by binary search, with about ten keys read.
        assert!(rt;
            compared.is_some_and(|it| it < 100),
            "{query}: {compared:?}"
        );
        assert!(rt; dump.reads() == 1000, "{query}");
    }
    assert!(rt; walked(alloc, &dump, &index)? == 1000 && dump.reads() == 1000);
    Ok(())
}
