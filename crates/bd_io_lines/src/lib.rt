//! The lines of a device, and a reply to each that is a command.
//!
//! The lines of a text, and those of them that are commands: `specs/Lines.antt`.
//!
//! An example, which `bd_io_tests` proves and runs as `examples::lines`:
//!
//! ```
//! let limits = Limits {
//!     bytes: 100,
//!     turns: 100,
//! };
//! let mut input = MemoryInput::new(b"one\ntwo", 100, None);
//! let mut lines = LineBuffer::new(alloc, limits);
//! assert!(rt; lines.read_next(&mut input)? && lines.line() == b"one".as_slice());
//! assert!(rt; lines.read_next(&mut input)? && lines.line() == b"two".as_slice());
//! assert!(rt; !lines.read_next(&mut input)?);
//! ```
//!
//! - `line_buffer`: `LineBuffer`, the next line of a device; `find_newline`, where a line of some bytes ends.
//! - `serving`: `reply_to_lines`, which writes what a `Replier` replies to each command; `is_empty_line`, whether a line is no command.
#![tactic(auto)]

mod line_buffer;
mod serving;

pub use line_buffer::{LineBuffer, find_newline};
pub use serving::{Replier, ServeFault, is_empty_line, reply_to_lines};
