//! What to write in place of what a text of Extended JSON has at the byte of its fault.
//!
//! People write queries as they write them in mongosh: `ObjectId("..")`, `ISODate("..")`, names without quotation marks. These are no
//! Extended JSON. What to write in their place is a function of the kind of the fault and of the bytes at it: `specs/Advice.antt`.
//!
//! An example, which `bd_wide_tests` proves and runs as `examples::advised`:
//!
//! ```
//! let fault = JsonFault {
//!     kind: JsonFaultKind::Syntax,
//!     at: 7,
//! };
//! let advice = advice_at(b"{\"_id\":ObjectId(\"65f0\")}", fault);
//! assert!(rt; advice == Some("write {\"$oid\":\"..\"}"));
//! ```
//!
//! - `advice`: `advice_at`, by two tables.
#![tactic(auto)]

mod advice;

pub use advice::advice_at;
