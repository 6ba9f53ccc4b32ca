//! Texts of numbers, dates and UUIDs, and what they are read as, and lines with other values for their numbers. The expected bits and texts
//! are worked by hand, by IEEE 754 and by the rules of `bd_wide_substitute`.

mod dates;
mod decimals;
mod doubles;
mod substitute;
