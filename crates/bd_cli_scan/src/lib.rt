//! The commands that scan a file document by document, `dump` and `check`, over any devices; and the messages of every command.
//!
//! An example, which `bd_cli_tests` proves and runs as `examples::check_a_dump`:
//!
//! ```
//! let mut file = MemoryInput::new(b"\x05\0\0\0\0", 5, None);
//! let mut buffer = [0; 100];
//! let mut out = MemoryOutput::new(&mut [], 1, None);
//! let mut err = MemoryOutput::new(&mut buffer, 100, None);
//! let status = check(alloc, "bsonfind", &mut file, &mut out, &mut err);
//! assert!(rt; status == Status::Done);
//! assert!(rt; err.bytes() == b"1 documents, 0 faulty\n".as_slice());
//! ```
//!
//! - `dump` and `check`; `check_all_types`, which reads doubles and decimal128 too.
//! - `scan`: the scan of both.
//! - `input`: a file that is read completely, how much of a file is read, and why it is not read to its end.
//! - `output`: the messages of a run, and its exit status.
#![tactic(auto)]

pub mod check;
pub mod dump;
mod input;
pub mod output;
mod scan;

pub use input::{InputFault, LIMITS, read_input};
pub use output::Status;
