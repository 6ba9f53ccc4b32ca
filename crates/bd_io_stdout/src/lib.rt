//! Standard output in large writes, tied to what is read and to standard error.
//!
//! What was written, what the device has of it, and what is buffered: `specs/OutputBuffer.antt`.
//!
//! An example, which `bd_io_tests` proves and runs as `examples::buffered`:
//!
//! ```
//! let system = SystemOutput::new(Vec::new(alloc));
//! let output_buffer = RefCell::new(OutputBuffer::new(alloc, system));
//! let mut out = SystemOutput::new(BufferedOutput {
//!     output_buffer: &output_buffer,
//! });
//! assert!(rt; write_all(&mut out, b"a line\n").is_ok());
//! assert!(rt; hand_on(&output_buffer) == WriteState::Intact);
//! ```
//!
//! - `output_buffer`: `OutputBuffer`, the buffer of standard output; `BufferedOutput`, `FlushingInput` and `FlushingError` over one.
#![tactic(auto)]

mod output_buffer;

pub use output_buffer::{
    BufferedOutput, FlushingError, FlushingInput, OutputBuffer, WriteState, hand_on,
};
