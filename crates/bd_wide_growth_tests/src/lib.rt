//! Rows of calls that grow, of all 21 types. `tests/faults/growing_calls.py` runs them once for each growth of their memory, with that
//! one refused. If a call runs out of memory, the row is repeated; a call on buffers that it is passed is made again on the same ones.
//! Each row then has its complete result. Another refusal or a shorter result fails. Whole runs of the program are in
//! `tests/faults/growths.py`.
#![tactic(auto)]

#[cfg(test)]
mod answers;
#[cfg(test)]
mod dump_tests;
#[cfg(test)]
mod layout_tests;
#[cfg(test)]
mod pack_tests;
#[cfg(test)]
mod query_tests;
#[cfg(test)]
mod run_tests;
#[cfg(test)]
mod samples;
#[cfg(test)]
mod text_tests;
