//! Lines of Extended JSON with numbers of all types, as BSON. Which document a line is, and which bytes: `specs/WideLine.antt`.
//!
//! A line that is canonical text is packed straight from it. Any other is read twice, by the reader of nineteen types: with a whole
//! number for each double and decimal128, and with an empty text. Where the two documents differ is the next number, and the document
//! with the numbers is written from both. A line without such numbers is packed at once.
//!
//! An example, which `bd_wide_pack_tests` proves and runs as `examples::packed`:
//!
//! ```
//! let mut packer = WidePacker::new(alloc);
//! let mut out = Vec::new(alloc);
//! let fault = packer.pack_line(b"{\"d\":1.5}", &mut out)?;
//! assert!(rt; fault.is_none());
//! let wanted = b"\x10\0\0\0\x01d\0\0\0\0\0\0\0\xf8\x3f\0";
//! assert!(rt; out.as_slice() == wanted.as_slice());
//! ```
//!
//! - `line`: `WidePacker`, which packs a line at a time.
//! - `canonical_line`: the bytes straight from a line as `dump` writes it.
//! - `step`: `mix`, which writes the document with the numbers: `specs/Filled.antt`.
//! - `laws`: two documents and numbers have one such document at most, and what `dump` prints is packed as it was:
//!   `specs/RoundTrip.antt`; or with the same values: `specs/SameValues.antt`.
#![tactic(auto)]

mod canonical_line;
mod laws;
mod line;
mod step;

pub use laws::{dump_then_pack, dump_then_pack_by_value, one_document};
pub use line::WidePacker;
pub use step::mix;
