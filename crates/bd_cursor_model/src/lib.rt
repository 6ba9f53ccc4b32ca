//! Which documents of a dump answer a request, in which order, in which batches, and how an answer is resumed.
//!
//! Documents are known only by their places: how many there are, which match, and how their sort keys compare. So the laws of
//! answers and sessions are true whatever a document is.
//!
//! An example, which `bd_cli_service_tests` proves and runs as `examples::scan`:
//!
//! ```
//! let mut scan = Scan::new(2);
//! assert!(rt; scan.next_place() == Some(0));
//! assert!(rt; scan.next_place() == Some(1));
//! assert!(rt; scan.next_place().is_none());
//! ```
//!
//! - `specs/Answer.antt`: the answer of a request, its batches, and what follows a token.
//! - `source`: `PlaceSource`, which returns places, and `Scan`, which returns all: `specs/Source.antt`.
//! - `specs/Session.antt`: a session as a machine.
//! - `laws`, `specs/Laws.antt`: laws of answers, of collections that are split into parts and searched separately, and of
//!   sessions.
#![tactic(auto)]

mod laws;
mod source;

pub use laws::{
    answers_are_ordered, batches_are_the_first, parts_give_the_whole, places_are_ordered,
    rests_follow, sessions_keep_to_the_answer,
};
pub use source::{PlaceSource, Scan};
