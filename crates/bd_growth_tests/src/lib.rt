//! Rows of calls that grow. `tests/faults/growing_calls.py` runs them once for each growth of their memory, with that one refused.
//! If a call runs out of memory, the row is repeated; a call of a session or on a borrowed vector is made again. Each row then
//! has its complete result, which was worked out by hand. Another refusal or a shorter result fails. Whole runs of the
//! program are in `tests/faults/growths.py`.
#![tactic(auto)]

#[cfg(test)]
mod answers;
#[cfg(test)]
mod bytes_tests;
#[cfg(test)]
mod index_tests;
#[cfg(test)]
mod path_tests;
#[cfg(test)]
mod samples;
#[cfg(test)]
mod service_tests;
#[cfg(test)]
mod session_tests;
#[cfg(test)]
mod text_tests;
