//! Tests of `bd_wide_read`, `bd_wide_substitute` and `bd_wide_pack`. The expected bits, texts and bytes are worked by hand, by IEEE 754 and
//! BSON 1.1.
#![tactic(auto)]

#[cfg(test)]
mod examples;
#[cfg(test)]
mod line;
#[cfg(test)]
mod mix;
#[cfg(test)]
mod read;
