//! Cursors over a dump: answers in batches, which tokens resume.
//!
//! A session owns a dump and indexes of it. A cursor of it returns the answer of a request in batches of any sizes. The token of
//! each batch resumes with exactly what was not returned, in this session or another over the same dump. Which documents those are:
//! `bd_cursor_model`.
//!
//! An example, which `bd_cli_service_tests` proves and runs as `examples::two_batches`:
//!
//! ```
//! let mut session = Session::new(alloc, dump);
//! let id = session.find(request, Choice::Scan)?;
//! let batch = session.next(id, 2)?;
//! assert!(rt; batch.places.len() == 2 && !batch.end);
//! let batch = session.next(id, 2)?;
//! assert!(rt; batch.places.len() == 1 && batch.end);
//! ```
//!
//! Documents are examined one by one, or reached by an index. An index serves a request by the bounds that the filter gives it,
//! or by its order, which may be that of the sort (MongoDB manual, "Use Indexes to Sort Query Results"). A sparse index serves only
//! if no missing field can match. In each case the answer is the same. `bd_cli_service_tests` proves and runs this as
//! `examples::two_cheapest_by_index`:
//!
//! ```
//! let path = Path::parse(alloc, "price")?;
//! let indexes = [Index::build(alloc, &dump, path)?];
//! let access = Access::of(alloc, &dump, &indexes, &request, &Choice::Auto)?;
//! let places = access.places(alloc, &dump, &request, None, Some(2))?;
//! assert!(rt; places.as_slice() == [2, 0].as_slice());
//! ```
//!
//! - `session`: `Session` and its calls, and the digest of a dump, computed once: `specs/SessionView.antt`.
//! - `cursor`: the open cursors, and the places that remain for each.
//! - `access`: `Access`, how documents are reached, and `Choice`, which index is to be used: `specs/Access.antt`.
//! - `explaining`: `Explain` and `Plan`, how `explain` describes an access path: `specs/Explanation.antt`.
#![tactic(auto)]

mod access;
mod cursor;
mod explaining;
mod session;

pub use access::{Access, Choice};
pub use bd_cursor_model::PlaceSource;
pub use bd_cursor_request::{Batch, Made, Refused, Request, Token, dump_digest, request_digest};
pub use explaining::{Explain, Plan};
pub use session::{Session, requests_are_fair};
