//! Tests of `bd_cli_args`, `bd_cli_scan`, `bd_cli_files`, `bd_cli_find` and `bd_cli`, over their public calls: those that need devices in memory.
//! The output of the program, and each of its reads and writes that fails, is tested with the program itself.
#![tactic(auto)]

#[cfg(test)]
mod answers_tests;
#[cfg(test)]
mod devices;
#[cfg(test)]
mod examples;
#[cfg(test)]
mod run_tests;
#[cfg(test)]
mod serve_tests;
#[cfg(test)]
mod words_tests;
