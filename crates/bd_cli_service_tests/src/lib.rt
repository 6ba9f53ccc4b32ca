//! Tests of the crates of answers, from `bd_cursor_model` and `bd_cursor_request` to `bd_cli_service`, over their public calls. Talks are rows of
//! `tests/rows`, over the program.
#![tactic(auto)]

#[cfg(test)]
mod command_tests;
#[cfg(test)]
mod examples;
#[cfg(test)]
mod hand_tests;
#[cfg(test)]
mod read_tests;
#[cfg(test)]
mod reply_tests;
#[cfg(test)]
mod samples;
