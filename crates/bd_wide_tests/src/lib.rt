//! The examples of `bsonwide`'s crates, numbers, texts of documents, questions and sessions, over their public calls.
#![tactic(auto)]

#[cfg(test)]
mod dump;
#[cfg(test)]
mod examples;
#[cfg(test)]
mod numbers;
#[cfg(test)]
mod printer;
#[cfg(test)]
mod service;
