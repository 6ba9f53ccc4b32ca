//! How the texts of documents of all 21 types are laid out: as JSON, in lines or one array, of whole documents or of some fields; or as
//! rows of CSV.
//!
//! What is printed: `specs/Layout.antt`; what the options of a layout request: `specs/Options.antt`.
//!
//! An example, which `bd_wide_tests` proves and runs as `examples::in_an_array`:
//!
//! ```
//! let layout = Layout::Json(JsonLayout {
//!     format: JsonFormat::Relaxed,
//!     paths: None,
//!     is_array: true,
//!     is_pretty: false,
//! });
//! let bytes = b"\x05\0\0\0\0";
//! check_bytes(alloc, Profile::All, bytes, 0, 0)?;
//! let mut buffer = LayoutBuffer::new(alloc);
//! let piece = buffer.piece(alloc, &layout, 1, bytes)?;
//! assert!(rt; piece == b",{}".as_slice());
//! ```
//!
//! - `layout`: `Layout`, what is around the texts, and `append_document`, the text of a document, by buffers, `Scratch`.
//! - `buffer`: `LayoutBuffer`, the buffer of what is printed for one document after the other.
//! - `options`: `read_layout`, the layout that options request, and `go_together`, whether they request one.
#![tactic(auto)]

mod buffer;
mod layout;
mod options;

pub use buffer::LayoutBuffer;
pub use layout::{CsvLayout, JsonLayout, Layout, Scratch, append_document};
pub use options::{go_together, read_layout};
