//! Queries and sorts depend on numbers only by their order.
//!
//! Replace the numbers of a dump by others in the same order, and the numbers that a request compares with too: the answer stays
//! the same. Numbers need the same order only within each path, since numbers at different paths are never compared. So `bsonfind`,
//! which reads no doubles, answers over documents with doubles once whole numbers in their order replace them.
//!
//! - `specs/Renumber.antt`: values, documents and filters with other numbers.
//! - `specs/Ranks.antt`: the code of a number by its rank in a table.
//! - `specs/Query.antt`: the documents of queries with other numbers, and requests.
//! - `specs/Pages.antt`: the answer to a request, page by page.
//! - `laws`: order, keys, sorts, matches and answers stay the same; which paths read alike; and that each query has a renumbered
//!   one.
#![tactic(auto)]

mod laws;

pub use laws::{
    answers_stay, numbers_matter_by_order, paths_read_alike, queries_are_renumbered,
    ranked_dumps_answer_by_value,
};
