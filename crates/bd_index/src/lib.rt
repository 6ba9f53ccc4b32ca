//! Multikey indexes over offsets into a dump.
//!
//! An index on a path has an entry for each key of each document of a dump: an array gives the keys of its elements, so that a
//! document may have several (MongoDB manual, "Multikey Indexes"). An entry takes 12 bytes and contains no key, only its offset in
//! the dump, so the index is read together with the dump that it was built from: `IsIndexOf` in `specs/IndexView.antt`. A sparse
//! index has no entry for a missing field.
//!
//! An example, which `bd_query_tests` proves and runs as `examples::greater_than_six`:
//!
//! ```
//! let path = Path::parse(alloc, "a")?;
//! let index = Index::build(alloc, &dump, path)?;
//! let bounds = Bounds::of(alloc, &filter, index.path(), index.multikey())?;
//! let found = index.places(alloc, &dump, bounds.as_ref())?;
//! assert!(rt; found.entries == 2 && found.places.as_slice() == [2, 3].as_slice());
//! ```
//!
//! - `index`, `entry`: `Index`, and how it is built: the keys of all documents, sorted: `specs/Entries.antt`.
//! - `places`: `Index::places`, the documents with an entry inside bounds: `specs/Places.antt`.
//! - `entry_order`, `walk`: `Index::walk`, all documents in the order of a sort: `specs/Walk.antt`.
#![tactic(auto)]

mod entry;
mod entry_order;
mod index;
mod places;
mod walk;

pub use bd_index_bounds::Bounds;
pub use index::Index;
pub use places::Places;
pub use walk::Walk;
