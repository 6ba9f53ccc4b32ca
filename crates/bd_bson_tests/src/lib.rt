//! Tests of the crates of values and bytes, from `bd_value` to `bd_bson_stream` and `bd_bson_dump`, over their public calls.
//! They are in a crate of their own, since a crate is proved again with its tests, and its edits wait for that. Rows of
//! bytes, and of what is written, are in `tests/rows`.
#![tactic(auto)]

#[cfg(test)]
mod at_tests;
#[cfg(test)]
mod doc_reader_tests;
#[cfg(test)]
mod examples;
#[cfg(test)]
mod samples;
#[cfg(test)]
mod tests;
#[cfg(test)]
mod value_tests;
#[cfg(test)]
mod views_tests;
#[cfg(test)]
mod write_tests;
