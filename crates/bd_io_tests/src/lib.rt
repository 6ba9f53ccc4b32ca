//! Tests of `bd_io_device`, `bd_io_lines` and `bd_io_stdout`, over their public calls: devices that fail, or give one byte in a
//! call.
#![tactic(auto)]

#[cfg(test)]
mod examples;
#[cfg(test)]
mod flushing_tests;
#[cfg(test)]
mod line_tests;
#[cfg(test)]
mod numbered;
#[cfg(test)]
mod reading_tests;
#[cfg(test)]
mod serving_tests;
#[cfg(test)]
mod system_tests;
#[cfg(test)]
mod writing_tests;
