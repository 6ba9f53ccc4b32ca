//! The text of a document of all 21 types of BSON 1.1, from its bytes, in canonical or relaxed form.
//!
//! What the text is: `specs/WideText.antt`, and of a date in relaxed form: `specs/RelaxedDate.antt`. A number is its type and its
//! bits: `specs/Raw.antt`.
//!
//! An example, which `bd_wide_tests` proves and runs as `examples::all_types`:
//!
//! ```
//! let bytes = b"\x10\0\0\0\x01d\0\0\0\0\0\0\0\xf8\x3f\0";
//! check_bytes(alloc, Profile::All, bytes, 0, 0)?;
//! let mut lines = WideTextBuffer::new(alloc);
//! let line = lines.line(JsonFormat::Canonical, bytes)?;
//! assert!(rt; line == b"{\"d\":{\"$numberDouble\":\"1.5\"}}\n".as_slice());
//! ```
//!
//! - `line`: `append_wide`, the text of a document after what a buffer has, and `WideTextBuffer`, the buffer of a line for one
//!   document after the other.
//! - `fields`: `append_projected` and `FieldsBuffer`, the same for the requested fields of a document alone: `specs/Projected.antt`;
//!   `indent_projected`: that text on many lines.
//! - `requested`: `read_fields` and `read_columns`, the fields that a text requests: `specs/Fields.antt`.
//! - `csv_row`: `append_csv_header`, `append_csv_row` and `CsvBuffer`, rows of CSV: `specs/Csv.antt`. RFC 4180 is as the kit's crate
//!   `csv` defines it.
//! - `follow`: the value that a path leads to; `plain`: its text in a row: `specs/Plain.antt`.
//! - `indent`: `indent_wide`, the text of a document on many lines: `specs/Pretty.antt`.
//! - `pretty`: a text of JSON on many lines, from the text on one line.
//! - `element`: the next element of a document, read without a check.
//! - `format`: `JsonFormat`, canonical or relaxed.
//! - `number`: doubles and decimal128.
//! - `relaxed`: the other scalars, of which whole numbers and dates differ between the formats.
//! - `laws`: different numbers differ; bytes are at most one document; a date has one text in relaxed form; a text on many lines has
//!   more white space alone; documents of the nineteen kinds are printed as `bd_extjson_text` prints them.
#![tactic(auto)]

mod csv_row;
mod element;
mod fields;
mod follow;
mod format;
mod indent;
mod laws;
mod line;
mod number;
mod plain;
mod pretty;
mod relaxed;
mod requested;

pub use csv_row::{CsvBuffer, append_csv_header, append_csv_row};
pub use fields::{FieldsBuffer, append_projected, indent_projected};
pub use format::JsonFormat;
pub use indent::indent_wide;
pub use laws::{
    csv_rows_as_worked, csv_rows_read_back, numbers_differ, one_date_text, one_wide_document,
    only_white_space_is_more, paths_as_worked, plain_lines, pretty_texts_as_worked,
    projections_as_worked,
};
pub use line::{WideTextBuffer, append_wide};
pub use requested::{read_columns, read_fields};
