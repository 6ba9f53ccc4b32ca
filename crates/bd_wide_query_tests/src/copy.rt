//! Copies of documents with all types of numbers, their numbers, and dumps of them. The expected bytes are worked by hand.

pub(crate) mod copies;
mod dumps;
