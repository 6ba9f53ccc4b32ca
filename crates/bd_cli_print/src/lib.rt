//! What prints the documents that a search finds.
//!
//! A search finds places: document numbers of a dump. What prints the documents at these places is a `PlacePrinter`: the documents
//! of the dump itself, or those of which the dump is a copy.
//!
//! An example, which `bd_cli_tests` proves and runs as `examples::print_a_document`:
//!
//! ```
//! let dump = read_dump(alloc, vec![in alloc; 5, 0, 0, 0, 0]?)?;
//! let mut buffer = Vec::new(alloc);
//! let end = NamedPrinter.append(&dump, 0, &mut buffer, 0)?;
//! assert!(rt; &buffer[..end] == b"{}".as_slice());
//! ```
//!
//! - `printer`: `PlacePrinter`, and `NamedPrinter` for the documents of the dump: `specs/Printer.antt`.
#![tactic(auto)]

mod printer;

pub use printer::{NamedPrinter, PlacePrinter};
