//! The commands of `bsonwide`.
//!
//! The command that arguments mean, and what a run of each command prints: `specs/Command.antt`.
//!
//! An example, which `bd_wide_tests` proves and runs as `examples::dumped`:
//!
//! ```
//! let mut input = MemoryInput::new(b"\x05\0\0\0\0", 100, None);
//! let mut commands = MemoryInput::new(b"", 1, None);
//! let mut buffer = [0; 100];
//! let mut out = MemoryOutput::new(&mut buffer, 100, None);
//! let mut reported = [0; 100];
//! let mut err = MemoryOutput::new(&mut reported, 100, None);
//! let mut words = Vec::new(alloc);
//! words.push(String::from_str(alloc, "dump")?)?;
//! words.push(String::from_str(alloc, "people.bson")?)?;
//! let order = parse(alloc, &words)?;
//! assert!(rt; file_of(&order) == "people.bson");
//! let status = run(
//!     alloc,
//!     &order,
//!     None,
//!     &mut input,
//!     &mut commands,
//!     &mut out,
//!     &mut err,
//! );
//! assert!(rt; status == Status::Done);
//! assert!(rt; out.bytes() == b"{}\n".as_slice());
//! ```
//!
//! - `command`: `parse`, the command that arguments mean, and `run`, a whole run of one over devices.
//! - `dump` and `find`: documents of all types, in a layout.
//! - `pack`: the documents of all types in lines.
//! - `laws`: what is printed as CSV is read back, and where the commands print what those of `bsonfind` print.
//! - `output`: the usage and the version.
#![tactic(auto)]

mod command;
mod dump;
mod find;
mod laws;
mod output;
mod pack;

pub use command::{file_of, is_serve, parse, query_file_of, reads_first, run};
pub use laws::{
    csv_is_read_back, documents_are_lines, finds_as_bsonfind, reads_as_bsonfind, serves_as_bsonfind,
};
pub use output::{PROGRAM, report, version};
