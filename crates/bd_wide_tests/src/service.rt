//! Sessions over dumps of all types. The expected texts are worked by hand.

mod calls;
mod documents;
mod numbers;
mod plain;
mod talk;
