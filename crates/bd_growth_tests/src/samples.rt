//! Documents in bytes, and what is read from them.
use crate::answers::RowFault;
use bd_bson_dump::{Dump, read_dump};
use bd_extjson::read_doc;
use bd_query_filter::{Filter, parse};
use std::alloc::Global;

/// {"a":1}
pub(crate) const ONE: &[u8] = b"\x0c\0\0\0\x10a\0\x01\0\0\0\0";

/// {"a":1,"a":2}
pub(crate) const TWICE: &[u8] = b"\x13\0\0\0\x10a\0\x01\0\0\0\x10a\0\x02\0\0\0\0";

/// Two keys of one document: {"a":[5,7,5]} and {"a":5}.
pub(crate) const SEVERAL_KEYS: &[u8] = b"\
    \x22\0\0\0\x04a\0\x1a\0\0\0\x100\0\x05\0\0\0\x101\0\x07\0\0\0\x102\0\x05\0\0\0\0\0\
    \x0c\0\0\0\x10a\0\x05\0\0\0\0";

/// No item, no field and null, the least or the greatest item, and a number: {"a":[]}, {}, {"a":null}, {"a":[3,1]} and {"a":2}.
pub(crate) const MIXED: &[u8] = b"\
    \x0d\0\0\0\x04a\0\x05\0\0\0\0\0\
    \x05\0\0\0\0\
    \x08\0\0\0\x0aa\0\0\
    \x1b\0\0\0\x04a\0\x13\0\0\0\x100\0\x03\0\0\0\x101\0\x01\0\0\0\0\0\
    \x0c\0\0\0\x10a\0\x02\0\0\0\0";

/// The numbers from 0 to 4 under `a`.
pub(crate) const FIVE: &[u8] = b"\
    \x0c\0\0\0\x10a\0\0\0\0\0\0\
    \x0c\0\0\0\x10a\0\x01\0\0\0\0\
    \x0c\0\0\0\x10a\0\x02\0\0\0\0\
    \x0c\0\0\0\x10a\0\x03\0\0\0\0\
    \x0c\0\0\0\x10a\0\x04\0\0\0\0";

pub(crate) fn dump_of(alloc: Global, bytes: &[u8]) -> Result<Dump, RowFault> {
    Ok(read_dump(alloc, Vec::from_slice(alloc, bytes)?)?)
}

pub(crate) fn read_filter(alloc: Global, text: &str) -> Result<Filter, RowFault> {
    let document = read_doc(alloc, text.as_bytes())?;
    Ok(parse(alloc, &document)?)
}
