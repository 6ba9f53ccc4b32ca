//! A sparse index without bounds, which the program does not accept.
use crate::index_samples::read_documents;
use bd_index::Index;
use bd_path::Path;
use std::test::Fail;

#[test]
fn leaves_out_what_is_missing(rt: HostRuntime) -> Result<(), Fail> {
    let alloc = rt.alloc();
    let dump = read_documents(alloc, "{\"a\":[]};{};{\"a\":null};{\"a\":[3,1]};{\"a\":2}")?;
    let index = Index::build_sparse(alloc, &dump, Path::parse(alloc, "a")?)?;
    assert!(rt; index.sparse() && index.multikey() && index.entries() == 5);
    let found = index.places(alloc, &dump, None)?;
    assert!(rt; found.entries == 5 && found.places.as_slice() == [0, 2, 3, 4].as_slice());
    Ok(())
}
