//! BSON values and documents in memory.
//!
//! A contract sees a value as a tree and a document as a list of pairs of a name and a tree: `specs/Tree.antt` and
//! `specs/View.antt`. After a call of `value_fits`, `document_fits` or `node_fits`, a proof also knows that the numbers and
//! the texts in it fit their types: `specs/Fits.antt`.
//!
//! An example, which `bd_bson_tests` proves and runs as `examples::value`:
//!
//! ```
//! let mut document = Document::new(alloc);
//! document.push(String::from_str(alloc, "a")?, Value::Int32(1))?;
//! assert!(rt; document.len() == 1);
//! assert!(rt; matches!(document.first("a"), Some(Value::Int32(1))));
//! ```
//!
//! - `document`: `Document` and `Value`, their methods, how deep they nest, copies of any value in memory, and what the types
//!   of an actual value guarantee.
//! - `node`: `Reading` and `Node`, a value in memory or in bytes, with its `Kind` and `Scalar`; `Tree`, one in memory.
//! - `order`: the comparison order, of any two readings: `specs/Order.antt`; `laws`, its laws.
//! - `limits`: the limits of documents, inputs, paths, filters and requests, for all code that checks them.
#![tactic(auto)]

mod document;
mod laws;
mod limits;
mod node;
mod order;

pub use document::{
    Document, NoMemory, Value, depth, depth_of, document_fits, has_zero, node_fits, to_document,
    to_value, try_copy, value_fits,
};
pub use laws::{
    equals_have_one_class, numbers_are_one_line, orders_all_values, pairs_compare_in_turn,
};
pub use limits::{
    GREATEST_COUNT, LONGEST_COMMAND, LONGEST_DOCUMENT, LONGEST_INPUT, MOST_BRACKETS, MOST_CURSORS,
    MOST_FILTER_LEVELS, MOST_INDEXES, MOST_LEVELS, MOST_NAMES, MOST_READS,
};
pub use node::{Class, Kind, Node, Reading, Scalar, Tree, TreeParts};
pub use order::{class, class_of_kind, class_of_node, compare, compare_nodes, equal};
