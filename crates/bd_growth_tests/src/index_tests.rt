//! Indexes, plain and sparse.
ghost use Rattle.bd_index.specs.IndexView.{IsIndexOf};

use crate::answers::{RowFault, is_whole};
use crate::path_tests::are_values;
use crate::samples::{MIXED, SEVERAL_KEYS, dump_of, read_filter};
use bd_bson_dump::Dump;
use bd_index::Index;
use bd_index_bounds::Bounds;
use bd_path::{Dir, Path, sparse_keys};
use bd_value::{NoMemory, Value};
use std::alloc::Global;

/// All entries are from 5 on, in both documents.
fn places(alloc: Global) -> Result<bool, RowFault> {
    let dump = dump_of(alloc, SEVERAL_KEYS)?;
    let index = Index::build(alloc, &dump, Path::parse(alloc, "a")?)?;
    let filter = read_filter(alloc, "{\"a\":{\"$gte\":5}}")?;
    let bounds = Bounds::of(alloc, &filter, index.path(), index.multikey())?;
    let found = index.places(alloc, &dump, bounds.as_ref())?;
    Ok(
        index.entries() == 3
            && index.multikey()
            && found.entries == 3
            && found.places.as_slice() == [0, 1].as_slice(),
    )
}

/// Whether these are the places of a walk, in turn.
fn walks(
    alloc: Global,
    dump: &Dump,
    index: &Index,
    dir: Dir,
    wanted: &[u32],
) -> Result<bool, NoMemory>
    requires { IsIndexOf dump.now index.now }
{
    if index.sparse() {
        return Ok(false);
    }
    let mut wanted = wanted.iter();
    for place in index.walk(alloc, dump, dir)? {
        if wanted.next() != Some(&place) {
            return Ok(false);
        }
    }
    Ok(wanted.next().is_none())
}

fn walks_both_ways(alloc: Global) -> Result<bool, RowFault> {
    let dump = dump_of(alloc, MIXED)?;
    let index = Index::build(alloc, &dump, Path::parse(alloc, "a")?)?;
    let is_up = walks(alloc, &dump, &index, Dir::Up, &[0, 1, 2, 3, 4])?;
    Ok(is_up && walks(alloc, &dump, &index, Dir::Down, &[3, 4, 1, 2, 0])?)
}

/// Whether a document has these keys in a sparse index.
fn has_keys(
    alloc: Global,
    dump: &Dump,
    number: u32,
    path: &Path,
    wanted: &[Value],
) -> Result<bool, RowFault> {
    if number >= dump.len() {
        return Ok(false);
    }
    let keys = sparse_keys(alloc, dump.document(number).value(), path)?;
    Ok(are_values(&keys, wanted))
}

/// No key for a missing field, null, and two numbers.
fn sparse(alloc: Global) -> Result<bool, RowFault> {
    let dump = dump_of(alloc, MIXED)?;
    let index = Index::build_sparse(alloc, &dump, Path::parse(alloc, "a")?)?;
    if index.entries() != 5 || !index.multikey() || !index.sparse() || dump.len() != 5 {
        return Ok(false);
    }
    let rows: [(u32, &[Value]); 3] = [
        (1, &[]),
        (2, &[Value::Null]),
        (3, &[Value::Int32(3), Value::Int32(1)]),
    ];
    for (number, wanted) in rows {
        if !has_keys(alloc, &dump, number, index.path(), wanted)? {
            return Ok(false);
        }
    }
    Ok(true)
}

/// The result of the row with that name.
fn answer(alloc: Global, row: &str) -> Result<bool, RowFault> {
    match row {
        "places" => places(alloc),
        "walks" => walks_both_ways(alloc),
        "a sparse index" => sparse(alloc),
        _ => Err(RowFault::Otherwise),
    }
}

#[test]
fn indexes(rt: HostRuntime) {
    for row in ["places", "walks", "a sparse index"] {
        assert!(rt; is_whole!(answer(rt.alloc(), row)), "{row}");
    }
}
