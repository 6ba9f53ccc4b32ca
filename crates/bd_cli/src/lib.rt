//! The commands of `bsonfind`, over any devices.
//!
//! What a run did, from the clause of `run` down: `specs/Runs.antt`.
//!
//! An example, which `bd_cli_tests` proves and runs as `examples::cli`:
//!
//! ```
//! let order = Order::Check {
//!     file: String::from_str(alloc, "-")?,
//! };
//! let mut file = MemoryInput::new(b"\x05\0\0\0\0", 5, None);
//! let mut commands = MemoryInput::new(b"", 1, None);
//! let mut buffer = [0; 100];
//! let mut out = MemoryOutput::new(&mut [], 1, None);
//! let mut err = MemoryOutput::new(&mut buffer, 100, None);
//! let status = run(alloc, &order, &mut file, &mut commands, &mut out, &mut err);
//! assert!(rt; status == Status::Done);
//! assert!(rt; err.bytes() == b"1 documents, 0 faulty\n".as_slice());
//! ```
//!
//! - `runs`: `run` and `report`.
//! - `serve`: the command `serve`; `serve_dump`, over a dump; `reply_to_commands`, with any session. `bd_cli_scan` has `dump` and
//!   `check`, `bd_cli_files` `pack`, and
//!   `bd_cli_find` `find`.
//! - `laws`: what is true of the output of every command.
#![tactic(auto)]

mod laws;
mod runs;
mod serve;

pub use bd_cli_args::{FindOptions, Order, USAGE, WordsFault, parse_words};
pub use bd_cli_scan::Status;
pub use laws::{check_has_the_status_of_dump, prints_a_prefix, prints_one_thing};
pub use runs::{PROGRAM, report, run};
pub use serve::{reply_to_commands, serve_dump};
