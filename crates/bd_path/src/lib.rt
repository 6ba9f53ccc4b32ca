//! Paths into values: what a path reaches, and the keys by which a document is sorted and indexed.
//!
//! A path is a text of names with full stops between them. It goes into documents by name, and into arrays both by index and
//! through each document in them: MongoDB manual, "Query on Embedded/Nested Documents" and "Query an Array". All functions
//! read a value in memory or in the bytes of a dump.
//!
//! An example, which `bd_query_tests` proves and runs as `examples::sort_key_of_a_document`:
//!
//! ```
//! let document = read_doc(alloc, b"{\"a\":[{\"b\":7},{\"b\":5}]}")?;
//! let path = Path::parse(alloc, "a.b")?;
//! let key = sort_key(alloc, Tree::Doc(&document), &path, Dir::Up)?;
//! assert!(rt; matches!(key, Value::Int32(5)));
//! ```
//!
//! - `path`, `component`: `Path`, a text split into its components: `specs/Path.antt`.
//! - `path_walk`: `any_end`, whether a value that the path reaches passes a test: `specs/Reach.antt`; the path walk for any
//!   collector, which visits each value once from each position of the path: `specs/PathWalk.antt`.
//! - `key`: the keys of a document on a path, as nodes of the document; they always exist: `specs/Key.antt`.
//! - `sort`: the key of a document in a sort, found without a list of keys, and the order of two documents by several paths,
//!   which is total: `specs/Sort.antt`.
//! - `laws`: laws of keys and of sorts.
#![tactic(auto)]

mod component;
mod key;
mod laws;
mod path;
mod path_walk;
mod sort;

pub use component::Component;
pub use key::{Key, all_key_nodes, compare_keys, key_nodes, key_value, keys, sparse_keys};
pub use laws::{keys_are_there, sorts_order_all_documents, sparse_keys_are_the_rest};
pub use path::{Path, PathFault};
pub use path_walk::{EndTest, Visits, any_end, is_document};
pub use sort::{Dir, compare_in, compare_sort, sort_key, sort_key_node};
