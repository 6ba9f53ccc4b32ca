//! A request to a dump, the position where its answer resumes, and the results of a session's calls.
//!
//! A request is a filter, a sort by up to four paths, and how many documents are skipped and how many are returned at most (MongoDB
//! manual, "cursor.sort()", "cursor.skip()", "cursor.limit()"). A token is a text that says where the answer of a request resumes.
//!
//! An example, which `bd_cli_service_tests` proves and runs as `examples::ten_cheapest`:
//!
//! ```
//! let filter = read_doc(alloc, b"{\"size\":\"S\"}")?;
//! let sort = read_doc(alloc, b"{\"price\":1}")?;
//! let Ok(request) = Request::new(alloc, filter, sort, 0, 10) else {
//!     return Err("a request".into());
//! };
//! assert!(rt; request.sort.len() == 1 && request.limit == 10);
//! ```
//!
//! - `request`: `Request`, the sort that a document describes, and the text in the digest of tokens: `specs/Request.antt`.
//! - `token`: `Token`, to and from its text, and its digest of a dump and a request: `specs/Token.antt`.
//! - `results`: `Batch`, `Made`, the results of a session's calls, and `Refused`, why one is refused: `specs/Results.antt`,
//!   `specs/Refused.antt`.
#![tactic(auto)]

mod request;
mod results;
mod token;

pub use request::Request;
pub use results::{Batch, Made, Refused};
pub use token::{Token, dump_digest, request_digest};
