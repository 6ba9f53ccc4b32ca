//! The documents of a collection, in their bytes.
//!
//! An example, which `bd_bson_tests` proves and runs as `examples::dump`:
//!
//! ```
//! let bytes = Vec::from_slice(alloc, b"\x05\0\0\0\0\x0c\0\0\0\x10a\0\x01\0\0\0\0")?;
//! let dump = read_dump(alloc, bytes)?;
//! let count = dump.len();
//! assert!(rt; count == 2);
//! assert!(rt; dump.document(1).first("a").is_some());
//! ```
//!
//! - `collection`: `Dump`, the documents of a collection in their bytes.
//! - `collecting`: `read_dump`, which reads one, and `index_dump`, which takes one that was checked.
//! - `laws`: what is found in each document of a dump.
#![tactic(auto)]

mod collecting;
mod collection;
mod laws;

pub use collecting::{index_dump, read_dump};
pub use collection::Dump;
pub use laws::{checks_as_the_scan, checks_in_turn};
