//! Numbers of all types in order, and their codes. The expected orders are those of exact fractions, worked outside.

mod codes;
mod order;
mod rising;
