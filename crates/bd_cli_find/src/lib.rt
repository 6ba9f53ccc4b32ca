//! The command `find` over any devices: the first batch of the requested documents.
//!
//! The output for each command line and each input: `specs/Find.antt`.
//!
//! An example, which `bd_cli_tests` proves and runs as `examples::find_in_a_dump`:
//!
//! ```
//! let options = FindOptions {
//!     query: Some(String::from_str(alloc, "{\"a\":1}")?),
//!     sort: None,
//!     skip: 0,
//!     limit: 0,
//!     batch: None,
//!     index: None,
//!     after: None,
//! };
//! let mut file = MemoryInput::new(b"\x05\0\0\0\0", 5, None);
//! let mut buffer = [0; 100];
//! let mut out = MemoryOutput::new(&mut [], 1, None);
//! let mut err = MemoryOutput::new(&mut buffer, 100, None);
//! let status = find(alloc, "bsonfind", &options, &mut file, &mut out, &mut err);
//! assert!(rt; status == Status::Done);
//! assert!(rt; err.bytes() == b"0 documents, end\n".as_slice());
//! ```
//!
//! - `find`: the command, and searches of the parts of a collection.
//! - `options`: what its arguments request, with a query from their text or from elsewhere: `specs/Options.antt`.
//! - `batch`: the first batch of a dump, and its output, by any printer of documents, or how many they are.
//! - `around`: the same with what is around the documents, such as the brackets of an array.
//! - `laws`: the parts have the output of the whole.
#![tactic(auto)]

mod around;
mod batch;
pub mod find;
mod laws;
mod options;

pub use around::{Around, print_around};
pub use batch::{print_count, print_found};
pub use laws::parts_print_the_whole;
pub use options::{Search, SearchFault, json_message, report_refused, search_of};
