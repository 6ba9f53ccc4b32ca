//! Prefixes of keys, by which most keys compare.
//!
//! To compare two keys of a dump, their bytes are read, which are mostly far apart. A prefix decides most comparisons alone:
//! it is the first 15 bytes of a text and its length, or all of a number, a date or an ObjectId. Prefixes are side by side while
//! keys are sorted.
//!
//! An example, which `bd_query_tests` proves and runs as `examples::seven_before_nine`:
//!
//! ```
//! let seven = Prefix::of(sort_key_node(dump.document(0).value(), &path, Dir::Up));
//! let nine = Prefix::of(sort_key_node(dump.document(1).value(), &path, Dir::Up));
//! assert!(rt; compare_prefixes(seven, nine) == Some(Ordering::Less));
//! ```
//!
//! - `prefix`: `Prefix`, and `compare_prefixes`: `specs/Prefix.antt`.
#![tactic(auto)]

mod prefix;

pub use prefix::{Prefix, compare_prefixes};
