//! A search over a dump of all 21 types of BSON 1.1.
//!
//! What is searched is a copy of the dump, with a code in place of each number: an int32 or an int64, by the two classes of types that
//! `$type` of the query separates. What is printed are the documents of the dump itself: document n of the copy is document n of the dump.
//!
//! An example, which `bd_wide_tests` proves and runs as `examples::find_by_value`:
//!
//! ```
//! // {"a":1.5}, {"a":2}
//! let bytes = b"\x10\0\0\0\x01a\0\0\0\0\0\0\0\xf8\x3f\0\x0c\0\0\0\x10a\0\x02\0\0\0\0";
//! let options = FindOptions {
//!     query: None,
//!     sort: None,
//!     skip: 0,
//!     limit: 0,
//!     batch: None,
//!     index: None,
//!     after: None,
//! };
//! let layout = Layout::Json(JsonLayout {
//!     format: JsonFormat::Canonical,
//!     paths: None,
//!     is_array: false,
//!     is_pretty: false,
//! });
//! let mut file = MemoryInput::new(bytes, 28, None);
//! let mut buffer = [0; 100];
//! let mut out = MemoryOutput::new(&mut buffer, 100, None);
//! let mut reported = [0; 200];
//! let mut err = MemoryOutput::new(&mut reported, 200, None);
//! let status = find(
//!     alloc,
//!     "bsonwide",
//!     &layout,
//!     Form::Lines,
//!     b"{\"a\":{\"$lt\":1.75}}",
//!     &options,
//!     &mut file,
//!     &mut out,
//!     &mut err,
//! );
//! assert!(rt; status == Status::Done);
//! assert!(rt; out.bytes() == b"{\"a\":{\"$numberDouble\":\"1.5\"}}\n".as_slice());
//! ```
//!
//! - `find`: the command, over any devices: `specs/Find.antt`.
//! - `question`: what its query and its options ask.
//! - `options`: what the options request, and the messages for texts that are refused: `specs/Options.antt`.
//! - `load`: `load_wide`, a dump of all types in memory: `specs/Load.antt`.
//! - `coded`: the search with codes, and the copy that is searched: `specs/Coded.antt`.
//! - `printer`: what prints the documents of the dump, in a layout, and `WidePrinter`, in canonical form: `specs/Printer.antt`;
//!   `WideBytes` and `NamedBytes`, which print their bytes.
//! - `laws`: a request with codes selects of the copy what the request by value selects of the documents.
#![tactic(auto)]

mod coded;
pub mod find;
mod laws;
mod load;
mod options;
mod printer;
mod question;

pub use coded::{beside_nan, coded_copy, table_of};
pub use laws::coded_copies_answer_by_value;
pub use load::load_wide;
pub use printer::{NamedBytes, WideBytes, WidePrinter};
