//! Dumps and requests of texts.
use bd_bson_dump::{Dump, read_dump};
use bd_bson_write::write_document;
use bd_cursor_request::Request;
use bd_extjson::read_doc;
use std::alloc::Global;
use std::test::Fail;

/// The dump of documents, one a line.
pub(crate) fn read_documents(alloc: Global, documents: &str) -> Result<Dump, Fail> {
    let mut bytes = Vec::new(alloc);
    for text in documents.lines() {
        append_document(alloc, text, &mut bytes)?;
    }
    let Ok(dump) = read_dump(alloc, bytes) else {
        return Err("a dump".into());
    };
    Ok(dump)
}

/// The dump of `{"a":0}` to `{"a":4}`.
pub(crate) fn five(alloc: Global) -> Result<Dump, Fail> {
    read_documents(
        alloc,
        "{\"a\":0}\n{\"a\":1}\n{\"a\":2}\n{\"a\":3}\n{\"a\":4}",
    )
}

/// The dump of `{"a":1}`, `{}` and `{"a":true,"b":"\""}`.
pub(crate) fn three(alloc: Global) -> Result<Dump, Fail> {
    read_documents(alloc, "{\"a\":1}\n{}\n{\"a\":true,\"b\":\"\\\"\"}")
}

fn append_document(alloc: Global, text: &str, bytes: &mut Vec<u8>) -> Result<(), Fail> {
    let document = read_doc(alloc, text.as_bytes())?;
    let written = write_document(alloc, &document)?;
    bytes.extend_from_slice(&written)?;
    Ok(())
}

/// The request of a filter, a sort, a skip and a limit, with a space between.
pub(crate) fn read_request(alloc: Global, text: &str) -> Result<Request, Fail> {
    let mut parts = text.split(" ");
    let filter = read_doc(alloc, parts.next().unwrap_or("").as_bytes())?;
    let sort = read_doc(alloc, parts.next().unwrap_or("").as_bytes())?;
    let skip = parts.next().unwrap_or("").parse::<u64>()?;
    let limit = parts.next().unwrap_or("").parse::<u64>()?;
    match Request::new(alloc, filter, sort, skip, limit) {
        Ok(request) => Ok(request),
        Err(_) => Err("a request".into()),
    }
}
