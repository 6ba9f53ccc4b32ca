//! Lines of Extended JSON as BSON. Which document a line is, and which bytes: `specs/Packable.antt`.
//!
//! An example, which `bd_extjson_tests` proves and runs as `examples::pack`:
//!
//! ```
//! let mut packer = Packer::new(alloc);
//! let mut bytes = Vec::new(alloc);
//! let fault = packer.pack_line(b"{\"a\":1}", &mut bytes)?;
//! assert!(rt; fault.is_none());
//! assert!(rt; bytes.as_slice() == b"\x0c\0\0\0\x10a\0\x01\0\0\0\0".as_slice());
//! ```
//!
//! - `line`: `Packer`, which packs a line at a time.
//! - `canonical_line`: the bytes straight from a line as `dump` writes it.
//! - `tokens`: the bytes straight from the tokens of any other line.
//! - `elements`: elements and strings, begun and ended.
//! - `refusal`: why a text gives no bytes.
//! - `laws`: the packed bytes spell the line's document.
#![tactic(auto)]

pub mod canonical_line;
pub mod elements;
mod laws;
mod line;
mod refusal;
mod tokens;

pub use laws::{packs_documents, reads_within_limits};
pub use line::{LineFault, Packer};
pub use refusal::Refusal;
