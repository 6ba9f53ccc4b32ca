//! BSON values and documents as Extended JSON v2, canonical form: written without white space, and read.
//!
//! Which document a text is: `specs/Read.antt`.
//!
//! An example, which `bd_extjson_tests` proves and runs as `examples::extjson`:
//!
//! ```
//! let document = read_doc(alloc, b"{\"a\":1}")?;
//! let mut text = Vec::new(alloc);
//! write_doc(&document, &mut text)?;
//! assert!(rt; text.as_slice() == b"{\"a\":{\"$numberInt\":\"1\"}}".as_slice());
//! ```
//!
//! - `read`: `read_doc`, one pass over the tokens of a text.
//! - `fixed`: values in objects such as `{"$oid":..}` that take no memory.
//! - `laws`: what joins reading and writing.
//!
//! The text of a value is written by `bd_extjson_text`, whose functions are re-exported here.
#![tactic(auto)]

mod fixed;
mod laws;
mod read;

pub use bd_extjson_fault::{JsonFault, JsonFaultKind};
pub use bd_extjson_text::{
    TextBuffer, write_doc, write_node, write_number, write_path, write_string, write_value,
};
pub use bd_extjson_wrapper::{Trouble, Wrapper};
pub use json::Scratch;
pub use laws::{
    document_or_fault, document_reads_back, reads_back, reads_what_fits, text_determines_document,
    texts_are_lines,
};
pub use read::{bare_number, fault_of, read_doc, read_doc_text, read_doc_with, read_wrapper};
