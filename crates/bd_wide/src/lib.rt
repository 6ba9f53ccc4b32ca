//! Documents in which other bytes replace the numbers.
//!
//! What may be written for a document's bytes, whatever they are: `specs/Rewritten.antt`.
//!
//! An example, which `bd_wide_tests` proves and runs as `examples::number`:
//!
//! ```
//! // the double 1.5
//! let number = number_in(ElementType::Double, b"\0\0\0\0\0\0\xf8\x3f");
//! assert!(rt; matches!(number, Some(Number::Double(0x3ff8_0000_0000_0000))));
//! ```
//!
//! - `rewrite`: `write_rewritten`, the one walker, and `NumberWriter`, which it calls for each number.
//! - `element`: the first element of bytes, by sizes alone.
//! - `numbers`: `number_in`, the number in a value: `specs/Numbers.antt`.
//! - `bytes`: numbers read from bytes and appended to them, and the count of the bytes of a document.
#![tactic(auto)]

mod bytes;
mod element;
mod numbers;
mod rewrite;

pub use bytes::{append_long, append_number, long, seal};
pub use element::{Part, first_element, looked_into};
pub use numbers::number_in;
pub use rewrite::{NumberWriter, scope_at, write_rewritten};
