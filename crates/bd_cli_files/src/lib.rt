//! The files that a command holds: the text of `pack`, and the dump of `find` and `serve`.
//!
//! An example, which `bd_cli_tests` proves and runs as `examples::pack_a_text`:
//!
//! ```
//! let mut file = MemoryInput::new(b"{}\n", 3, None);
//! let mut packed = [0; 5];
//! let mut buffer = [0; 100];
//! let mut out = MemoryOutput::new(&mut packed, 5, None);
//! let mut err = MemoryOutput::new(&mut buffer, 100, None);
//! let status = pack(alloc, "bsonfind", &mut file, &mut out, &mut err);
//! assert!(rt; status == Status::Done);
//! assert!(rt; out.bytes() == b"\x05\0\0\0\0".as_slice());
//! ```
//!
//! - `pack`: the documents of lines of text, as BSON.
//! - `load`: a dump that is read into memory, for `find` and `serve`.
#![tactic(auto)]

pub mod load;
pub mod pack;
