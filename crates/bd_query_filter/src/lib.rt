//! Filters: documents of queries, and the first pair or member of one that is not part of a filter.
//!
//! MongoDB manual, "Query and Projection Operators": comparison, logical, element and array operators, with whole numbers and
//! without regular expressions. What is not supported is refused by name and path. Which documents match is defined here too:
//! `specs/FilterMatch.antt`; `bd_query` has the function.
//!
//! An example, which `bd_query_tests` proves and runs as `examples::mixed`:
//!
//! ```
//! let query = read_doc(alloc, b"{\"qty\":{\"$gte\":5,\"size\":\"S\"}}")?;
//! let is_mixed = match parse(alloc, &query) {
//!     Ok(_) => false,
//!     Err(fault) => fault.kind == FilterFaultKind::MixedOperators,
//! };
//! assert!(rt; is_mixed);
//! ```
//!
//! - `filter`: `Filter` and `Operator`, to match on, and `Members`, those of `$in` and `$nin`, looked up by binary search:
//!   `specs/Filter.antt`.
//! - `filter_of`: `parse`, the filter of a document, or its first fault: `specs/FilterOf.antt`. A document is not a filter
//!   exactly if a pair or member of it breaks a rule: `specs/FilterBad.antt`.
//! - `operand`: operators that take values, the types of `$type`, and `Relation`, the order of a value to an operand.
//! - `fault`: `FilterFault`, which pair or member is not part of a filter: `specs/Fault.antt`.
//! - `laws`: which documents are not filters.
#![tactic(auto)]

mod fault;
mod filter;
mod filter_of;
mod laws;
mod operand;

pub use fault::{FilterFault, FilterFaultKind};
pub use filter::{Filter, Members, Operator};
pub use filter_of::parse;
pub use laws::bad_documents_alone_are_refused;
pub use operand::{Relation, relates};
