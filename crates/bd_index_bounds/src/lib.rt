//! Bounds: which keys of an index on a path can be those of documents that match a filter.
//!
//! A filter bounds an index if it says what a value at the index's path must be, or in documents of an array on this path
//! (MongoDB manual, "Multikey Index Bounds"). No match is lost: a document that matches has a key inside, for every filter, path
//! and document. How the bounds are written is this project's choice.
//!
//! An example, which `bd_query_tests` proves and runs as `examples::between_four_and_six`:
//!
//! ```
//! let query = read_doc(alloc, b"{\"a\":{\"$gt\":4,\"$lt\":6}}")?;
//! let filter = parse(alloc, &query)?;
//! let path = Path::parse(alloc, "a")?;
//! let bounds = Bounds::of(alloc, &filter, &path, false)?;
//! assert!(rt; matches!(&bounds, Some(b) if b.contains(Tree::Value(&Value::Int32(5)))));
//! assert!(rt; matches!(&bounds, Some(b) if !b.contains(Tree::Value(&Value::Int32(9)))));
//! ```
//!
//! - `bounds`: `Bounds`, ranges combined as in the filter, each between two positions in the order of keys:
//!   `specs/BoundsView.antt`.
//! - `filter_bounds`: `Bounds::of`, the bounds that a filter gives: `specs/Bounds.antt`. They lose no match, nor in a sparse
//!   index if null is outside. If a key is before a cutoff, so are all lesser keys.
//! - `range`: the keys that equal a value, are of a class or compare to a value in one way, and those of several values.
//! - `laws`: bounds lose no match.
#![tactic(auto)]

mod bounds;
mod filter_bounds;
mod laws;
mod range;

pub use bounds::{Bounds, Cutoff, Edge};
pub use laws::{bounded_alike, bounds_lose_no_match, cutoffs_fall_once};
