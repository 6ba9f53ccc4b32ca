//! Queries with doubles and decimal128: their documents with the code of each number that they compare with.
//!
//! A query comes as two documents. In one each double and decimal128 is the int32 0, in the other the empty text; all else is equal. Both
//! are read in step, so each value in which they differ so is the next of the numbers. `bd_wide_substitute` defines which documents a
//! text is, or which fault it has.
//!
//! - The document of both with tags for the numbers: `specs/Tagged.antt`.
//! - The document of a query by value, and with codes: `specs/Coded.antt`. Which numbers are compared with is what `renumber_query` of
//!   `bd_wide_order` says, so its laws hold of what is made here.
//! - NaN in `$lt`, `$lte`, `$gt` and `$gte`, where it is neither below nor above a number: `specs/Nan.antt`.
//!
//! An example, which `bd_wide_query_tests` proves and runs as `examples::between_two`:
//!
//! ```
//! let mut numbers = Numbers::new(alloc);
//! for number in [Number::Whole(1), Number::Whole(2)] {
//!     numbers.push(number)?;
//! }
//! let table = numbers.into_table().expect(&rt, "few numbers");
//! let query = read_query(alloc, b"{\"a\":{\"$gt\":1.5,\"$size\":2}}")?;
//! let longs = Longs::none();
//! let coded = code_query(
//!     alloc,
//!     &query.wholes,
//!     &query.texts,
//!     &query.numbers,
//!     &table,
//!     longs,
//! )?;
//! let mut text = Vec::new(alloc);
//! write_doc(&coded.expect(&rt, "a query"), &mut text)?;
//! let wanted = b"{\"a\":{\"$gt\":{\"$numberLong\":\"2\"},\"$size\":{\"$numberInt\":\"2\"}}}";
//! assert!(rt; text.as_slice() == wanted.as_slice());
//! ```
//!
//! - `coded`: `code_query`, and the values of both documents in step.
//! - `laws`: a filter beside NaN by value, and the same filter with codes; `$type` by classes and by types.
//! - `nan`: `exclude_nan`, the filter with codes beside NaN.
//! - `read`: `read_query`, the two documents of a text and its numbers.
//! - `role`: what a value of a query is: whether it is compared with.
//! - `split`: `third_class` and `first_split`, where a `$type` needs more classes than there are: `specs/Split.antt`.
//! - `types`: `classes_of`, the two classes of the types of numbers that each `$type` of a query treats alike: `specs/Types.antt`.
#![tactic(auto)]

mod coded;
mod laws;
mod nan;
mod read;
mod role;
mod split;
mod types;

pub use coded::code_query;
pub use laws::{numbers_relate_beside_nan, renumbered_beside_nan, types_match_by_class};
pub use nan::exclude_nan;
pub use read::{WideQuery, read_query};
pub use split::{Split, first_split, third_class};
pub use types::classes_of;
