//! A text of Extended JSON with values of the same length in place of its doubles and decimal128, and with its dates and UUIDs in
//! canonical form.
//!
//! A double is a bare number with a fraction or an exponent, or `{"$numberDouble":T}`; a decimal128 is `{"$numberDecimal":T}`.
//! In one text each is a whole number, in another an empty string. Only blanks follow, up to the same length, so every other byte
//! of the text has its offset, and so has each fault. A date or a UUID, `{"$date":T}` and `{"$uuid":T}`, becomes longer in both: then
//! `fault_of_line` finds the byte of the text. If a document is read of both texts, each value in which they differ is one
//! of the numbers, in order; and a number that is no value, as in a date, is refused in one of them. What is not spelled as a
//! number stays, and is refused in both.
//!
//! What the two texts are: `specs/Substitutes.antt`, `specs/Made.antt`. What a fault of one of them says of the line: `specs/Reported.antt`.
//! Which two documents, or which fault, they are together: `specs/Both.antt`.
//!
//! An example, which `bd_wide_pack_tests` proves and runs as `examples::substituted`:
//!
//! ```
//! let mut made = Substituted::new(alloc);
//! assert!(rt; substitute(b"[1.5,2]", &mut made)?);
//! assert!(rt; made.wholes.as_slice() == b"[0  ,2]".as_slice());
//! assert!(rt; made.texts.as_slice() == b"[\"\" ,2]".as_slice());
//! assert!(rt; made.numbers.len() == 1);
//! ```
//!
//! - `scan`: `substitute`, from the start of a text to its end.
//! - `wrapped`: the wrappers of values.
//! - `both`: `earlier`, the first of the faults of both texts.
//! - `reported`: what is wrong with a line, by what is wrong with a text.
//! - `blank`: the parts of a text that are skipped.
//! - `laws`: a text is read once, and one without such values as it is.
#![tactic(auto)]

mod blank;
mod both;
mod laws;
mod reported;
mod scan;
mod wrapped;

pub use both::earlier;
pub use laws::{texts_are_read_once, texts_without_values_stay};
pub use reported::fault_of_line;
pub use scan::{Substituted, substitute};
pub use wrapped::WideValue;
