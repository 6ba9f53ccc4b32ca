//! Documents written as BSON: from a tree, from any reading of a value, or in pieces.
//!
//! Which bytes are written: `specs/TreeBytes.antt`.
//!
//! An example, which `bd_bson_tests` proves and runs as `examples::write`:
//!
//! ```
//! let mut document = Document::new(alloc);
//! document.push(String::from_str(alloc, "a")?, Value::Int32(1))?;
//! let bytes = write_document(alloc, &document)?;
//! assert!(rt; bytes.as_slice() == b"\x0c\0\0\0\x10a\0\x01\0\0\0\0".as_slice());
//! ```
//!
//! - `write`: `write_document`, and a document written in pieces.
//! - `counting`: how many bytes a document has, counted before any is written.
//! - `laws`: the bytes written for a document spell it.
//! - `writing`: values, scalars and their parts, which `bd_extjson_pack` writes too, and why a document is not written.
#![tactic(auto)]

mod counting;
mod laws;
mod write;
mod writing;

pub use laws::plainly_spells;
pub use write::{append_value, begin_body, end_body, write_document};
pub use writing::{WriteFault, append_label, write_scalar};
