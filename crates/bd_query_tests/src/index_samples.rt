//! Documents and filters of texts.
use bd_bson_dump::{Dump, read_dump};
use bd_bson_write::write_document;
use bd_extjson::read_doc;
use bd_query_filter::{Filter, parse};
use std::alloc::Global;
use std::test::Fail;

/// The dump of documents with a `;` between.
pub(crate) fn read_documents(alloc: Global, documents: &str) -> Result<Dump, Fail> {
    let mut bytes = Vec::new(alloc);
    for text in documents.split(';') {
        append_document(alloc, text, &mut bytes)?;
    }
    let Ok(dump) = read_dump(alloc, bytes) else {
        return Err("a dump".into());
    };
    Ok(dump)
}

fn append_document(alloc: Global, text: &str, bytes: &mut Vec<u8>) -> Result<(), Fail> {
    let document = read_doc(alloc, text.as_bytes())?;
    let written = write_document(alloc, &document)?;
    bytes.extend_from_slice(&written)?;
    Ok(())
}

pub(crate) fn read_filter(alloc: Global, text: &str) -> Result<Filter, Fail> {
    let document = read_doc(alloc, text.as_bytes())?;
    match parse(alloc, &document) {
        Ok(filter) => Ok(filter),
        Err(_) => Err("a filter".into()),
    }
}
