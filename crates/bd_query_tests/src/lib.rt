//! Tests of the crates of queries, `bd_path`, `bd_query_filter`, `bd_query`, `bd_index_bounds`, `bd_index_prefix` and
//! `bd_index`, over their public calls: filters that no text can be, values in memory, and counted reads. Rows of filters and
//! indexes are in `tests/rows`.
#![tactic(auto)]

#[cfg(test)]
mod bounds_tests;
#[cfg(test)]
mod examples;
#[cfg(test)]
mod filter_tests;
#[cfg(test)]
mod index_samples;
#[cfg(test)]
mod order_tests;
#[cfg(test)]
mod path_tests;
#[cfg(test)]
mod reads_tests;
#[cfg(test)]
mod sparse_tests;
