//! Dumps of documents of all types by value: copies with a code in place of each number, and the numbers themselves.
//!
//! A copy has an int32 or an int64 for each number, so `bsonfind` reads it, and none of its documents is longer. Document n of the copy
//! is document n of the dump. Which numbers are an int64: `specs/Classes.antt`. What is a copy: `specs/Copy.antt`; the numbers of documents: `specs/Numbers.antt`; dumps: `specs/Dump.antt`.
//!
//! An example, which `bd_wide_query_tests` proves and runs as `examples::copy`:
//!
//! ```
//! // {"d":1.5}, and {"d":int32 7}
//! let bytes = b"\x10\0\0\0\x01d\0\0\0\0\0\0\0\xf8\x3f\0";
//! let dump = read_wide_dump(alloc, Vec::from_slice(alloc, bytes)?)?;
//! let mut copy = Vec::new(alloc);
//! dump.write_copy(&Seven, Longs::none(), &mut copy)?;
//! assert!(rt; copy.as_slice() == b"\x0c\0\0\0\x10d\0\x07\0\0\0\0".as_slice());
//! ```
//!
//! - `copy`: `write_copy`, the copy of a document, and `Codes`, which gives the code of each number.
//! - `longs`: `Longs`, which types of numbers are an int64 in a copy.
//! - `numbers`: `collect_numbers`, the numbers of a document in order.
//! - `copies`: the same for the documents of a dump in turn.
//! - `dump`: `WideDump`, a dump in memory: its documents, their copies and numbers, and whether it has a double or a decimal128.
//! - `reading`: `read_wide_dump`, which reads one.
//! - `starts`: `Starts`, where the documents of a dump begin, apart from its bytes.
//! - `table`: the codes of a `Table` of `bd_wide_rank`: the ranks of numbers among those of a dump.
//! - `laws`: what is written for a document by value is spelled by the document with codes.
#![tactic(auto)]

mod copies;
mod copy;
mod dump;
mod laws;
mod longs;
mod numbers;
mod reading;
mod starts;
mod table;

pub use copy::{Codes, write_copy};
pub use dump::WideDump;
pub use laws::{copies_are_spelled, plain_documents_by_value};
pub use longs::Longs;
pub use numbers::collect_numbers;
pub use reading::read_wide_dump;
pub use starts::Starts;
