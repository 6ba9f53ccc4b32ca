//! The documents of a dump that a request selects, in their order.
//!
//! A source returns places of documents, which include those of all matches. They are sorted, at most n of them, by keys that are
//! not copied. If a source returns them in that order, nothing is sorted. If few are requested, few are kept: a document that comes
//! after the last of n is left out by one comparison.
//!
//! An example, which `bd_cli_service_tests` proves and runs as `examples::two_cheapest`:
//!
//! ```
//! let source = Scan::new(dump.len());
//! let places = sorted_places(alloc, &dump, &request, source, None, Some(2))?;
//! assert!(rt; places.as_slice() == [2, 0].as_slice());
//! ```
//!
//! - `sorting`: which documents match, and the places of any source in order: `specs/Selection.antt`, what a request selects
//!   from a dump, and `specs/inside/Sorting.antt`.
//! - `ranking`: documents sorted by one path after the other: `specs/inside/Ranking.antt`.
//! - `pivot`: a document that others are compared with: `specs/inside/Sorting.antt`.
//! - `sort_key`: the key of a document on a path, compared by its prefix first (`bd_index_prefix`).
#![tactic(auto)]

mod pivot;
mod ranking;
mod sort_key;
mod sorting;

pub use sorting::{is_match, places_in_order, sorted_places};
