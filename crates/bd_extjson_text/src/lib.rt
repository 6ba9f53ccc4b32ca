//! The text of BSON values: canonical Extended JSON v2, without white space.
//!
//! The text of each value is a function of its tree: `specs/Text.antt`.
//!
//! An example, which `bd_extjson_tests` proves and runs as `examples::text`:
//!
//! ```
//! let mut text = Vec::new(alloc);
//! write_value(&Value::Int32(5), &mut text)?;
//! assert!(rt; text.as_slice() == b"{\"$numberInt\":\"5\"}".as_slice());
//! ```
//!
//! - `text`: `write_node`, `write_value` and `write_doc`: a value in memory or in bytes, a value, a document; `TextBuffer`,
//!   the buffer of a line for one node after the other.
//! - `scalar`: a row of the conversion table each, and numbers, base64 and hexadecimal digits.
//! - `json_string`: strings, how far one needs no escape, and the names of a path.
//! - `buffer`: text that is written into a buffer whose space was made once.
#![tactic(auto)]

mod buffer;
mod json_string;
mod scalar;
mod text;

pub use buffer::{End, VALUE};
pub use json_string::{append_name, append_separator, plain_length, write_path, write_string};
pub use scalar::{append_few, append_led, write_number};
pub use text::{TextBuffer, append_node, write_doc, write_node, write_value};
