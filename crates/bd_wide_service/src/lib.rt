//! A session over a dump of all 21 types of BSON 1.1, which replies to each line that it receives.
//!
//! What is searched is a copy of the dump, with a code in place of each number. What is printed are the documents of the dump itself:
//! document n of the copy is document n of the dump.
//!
//! An example, which `bd_wide_tests` proves and runs as `examples::serve_by_value`:
//!
//! ```
//! // {"a":1.5}, {"a":2}
//! let bytes = b"\x10\0\0\0\x01a\0\0\0\0\0\0\0\xf8\x3f\0\x0c\0\0\0\x10a\0\x02\0\0\0\0";
//! let commands = b"{\"explain\":{\"a\":{\"$lt\":1.75}}}\n";
//! let mut file = MemoryInput::new(bytes, 28, None);
//! let mut commands = MemoryInput::new(commands, 40, None);
//! let mut buffer = [0; 200];
//! let mut out = MemoryOutput::new(&mut buffer, 200, None);
//! let mut reported = [0; 100];
//! let mut err = MemoryOutput::new(&mut reported, 100, None);
//! let status = serve(
//!     alloc,
//!     "bsonwide",
//!     false,
//!     &mut file,
//!     &mut commands,
//!     &mut out,
//!     &mut err,
//! );
//! assert!(rt; status == Status::Done);
//! assert!(rt;
//!     out.bytes()
//!         .ends_with(b"\"matches\":{\"$numberLong\":\"1\"}}\n")
//! );
//! ```
//!
//! - `serve`: the command, over any devices; by value over any dump if that is requested: `specs/Serve.antt`.
//! - `service`: `WideService`, which replies to a line: `specs/ServiceView.antt`, `specs/Reply.antt`.
//! - `plain`: `PlainService`, the same over a dump without doubles and decimal128, as `bsonfind serve` replies.
//! - `places`: the field `places` of `getMore`, over either dump: `specs/Places.antt`.
//! - `call`: the call in a line, by value: `specs/Call.antt`.
#![tactic(auto)]

mod call;
mod places;
mod plain;
pub mod serve;
mod service;
