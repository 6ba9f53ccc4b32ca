//! The first fault of bytes that must be BSON documents, from left to right; if there is none, a view of the document.
//!
//! Which fault is the first: `specs/FirstFault.antt`. What a dump is, and where it fails: `specs/Dump.antt`.
//!
//! An example, which `bd_bson_tests` proves and runs as `examples::check`:
//!
//! ```
//! let bytes = b"\x0c\0\0\0\x02s\0\0\0\0\0\0";
//! match check_document(alloc, bytes, 0, 0) {
//!     Ok(_) => assert!(rt; false, "a string has a length above 0"),
//!     Err(fault) => {
//!         assert!(rt; fault.kind == FaultKind::BadStringLength && fault.offset == 7);
//!     }
//! }
//! ```
//!
//! - `check`: `check_document`, which descends into nested values, and the documents of a dump in turn.
//! - `quick`: whether bytes are a document, without saying which fault they have.
//! - `parts`: values that contain no other value, and the frames of documents, for both.
//! - `profile`: which types of values are read.
//! - `fault`: why bytes are not a document, and where.
//! - `laws`: bytes have no fault exactly if they spell a document; bytes are a dump or have one first fault.
#![tactic(auto)]

mod check;
mod fault;
mod laws;
mod parts;
mod profile;
mod quick;

pub use check::{Frame, check_bytes, check_document, next_document, next_frame, read_document};
pub use fault::{Fault, FaultKind, frame_fault, want_of_memory};
pub use laws::{
    documents_have_no_fault, dump_or_fault, no_fault_where_spelled, other_faults_are_first_faults,
    scans_in_one_way, scans_on, sound_bytes_are_documents,
};
pub use profile::Profile;
