//! Devices that give and take bytes, with counts of calls and of failures.
//!
//! What contracts see of a device, before a call and after it: `specs/Devices.antt`. What they see of each kind of device:
//! `specs/Input.antt` and `specs/Output.antt`.
//!
//! An example, which `bd_io_tests` proves and runs as `examples::device`:
//!
//! ```
//! let limits = Limits {
//!     bytes: 100,
//!     turns: 100,
//! };
//! let mut input = MemoryInput::new(b"hello", 2, None);
//! let bytes = read_all(alloc, &mut input, limits)?;
//! assert!(rt; bytes.as_slice() == b"hello".as_slice());
//! // Three reads give bytes, and one finds the end.
//! assert!(rt; input.calls() == 4);
//! ```
//!
//! - `input`, `output`: `Input` and `Output`, over the system's readers and writers and over memory; `write_all`.
//! - `reading`: `read_all`, all bytes of a device; `fill`, as many as a buffer takes.
#![tactic(auto)]

mod input;
mod output;
mod reading;

pub use input::{BufferedInput, DeviceFault, Input, MemoryInput, OversizedInput, SystemInput};
pub use output::{FailingWrite, MemoryOutput, Output, SystemOutput, write_all};
pub use reading::{FillCounts, Limits, ReadFault, fill, fill_after, read_all};
