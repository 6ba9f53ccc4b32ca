//! Tests of the crates of texts, `bd_extjson_text`, `bd_extjson_wrapper`, `bd_extjson_fault`, `bd_extjson` and
//! `bd_extjson_pack`, over their public calls: those that no row of `tests/rows` covers.
#![tactic(auto)]

#[cfg(test)]
mod diagnose_tests;
#[cfg(test)]
mod examples;
#[cfg(test)]
mod pack_tests;
#[cfg(test)]
mod text_tests;
#[cfg(test)]
mod wrapper_tests;
