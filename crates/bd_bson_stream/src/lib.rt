//! The documents of a device, one after the other, in one buffer.
//!
//! What a device gave for a document, and before a fault: `specs/Stream.antt`.
//!
//! An example, which `bd_bson_tests` proves and runs as `examples::stream`:
//!
//! ```
//! let limits = Limits {
//!     bytes: 100,
//!     turns: 100,
//! };
//! let mut input = MemoryInput::new(b"\x05\0\0\0\0\x05\0\0\0\0", 3, None);
//! let mut documents = DocBuffer::new(alloc, limits);
//! let is_there = documents.read_next(&mut input)?;
//! assert!(rt; is_there && documents.bytes() == b"\x05\0\0\0\0".as_slice());
//! assert!(rt; documents.offset() == 5 && documents.number() == 1);
//! ```
//!
//! - `doc_buffer`: `DocBuffer`, the next document of a device that is lent for the call.
//! - `doc_reader`: `DocReader`, the same with its device in it.
#![tactic(auto)]

mod doc_buffer;
mod doc_reader;

pub use doc_buffer::{DocBuffer, DocFault, FrameFault};
pub use doc_reader::{DocReader, RawBytes};
