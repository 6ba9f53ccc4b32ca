//! Queries: which documents match a filter.
//!
//! MongoDB manual, "Query and Projection Operators": comparison, logical, element and array operators, with whole numbers and
//! without regular expressions. What is not supported is refused by name and path.
//!
//! An example, which `bd_query_tests` proves and runs as `examples::shirts_in_stock`:
//!
//! ```
//! let query = read_doc(alloc, b"{\"qty\":{\"$gte\":5},\"size\":\"S\"}")?;
//! let filter = parse(alloc, &query)?;
//! let shirt = read_doc(alloc, b"{\"name\":\"shirt\",\"size\":\"S\",\"qty\":7}")?;
//! assert!(rt; matches(&filter, Tree::Doc(&shirt)));
//! ```
//!
//! - `filter_match`: `matches`, whether a value matches a filter.
//! - `end_test`, `value_test`: tests of an end of a path, and of one value.
//!
//! Filters themselves are those of `bd_query_filter`, whose names are re-exported here.
#![tactic(auto)]

mod end_test;
mod filter_match;
mod value_test;

pub use bd_query_filter::{
    Filter, FilterFault, FilterFaultKind, Members, Operator, bad_documents_alone_are_refused, parse,
};
pub use filter_match::matches;
