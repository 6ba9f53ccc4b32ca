//! What `main` does in both programs: arguments, files and standard streams, around the commands of a `Program`.
//!
//! What is printed for arguments that are not a command: `specs/Usage.antt`. Whether a file is standard input, and whether the
//! version is requested: `specs/Words.antt`. How the text of a query is read: `specs/Query.antt`.
//!
//! An example, which `bd_cli_tests` proves and runs as `examples::help`:
//!
//! ```
//! let mut buffer = [0; 100];
//! let mut out = MemoryOutput::new(&mut buffer, 100, None);
//! let mut err = MemoryOutput::new(&mut [], 1, None);
//! let usage = "usage: bsonfind dump FILE\n";
//! let status = report("bsonfind", usage, &WordsFault::Help, &mut out, &mut err);
//! assert!(rt; status == Status::Done);
//! assert!(rt; out.bytes() == usage.as_bytes());
//! ```
//!
//! - `program`: `Program`, what the programs differ in.
//! - `usage`: `report`, the output for arguments that are not a command, and `print_text`.
//! - `words`: what arguments say without a parser.
//! - `query`: `read_query`, the text of a query in a file.
//! - `process`: `run`, from the arguments to the last byte of standard output. It has no contract, since no contract knows what the system
//!   returns.
#![tactic(auto)]

mod process;
mod program;
mod query;
mod usage;
mod words;

pub use process::run;
pub use program::Program;
pub use query::read_query;
pub use usage::{print_text, report};
pub use words::{is_standard_input, requests_version};
