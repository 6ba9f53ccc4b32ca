//! A session over a dump, which replies to each line that it receives.
//!
//! A line is a command as an Extended JSON document. Its reply, and what it changes: `specs/Talk.antt`.
//!
//! An example, which `bd_cli_service_tests` proves and runs as `examples::a_talk`:
//!
//! ```
//! let mut service = Service::new(alloc, dump);
//! let mut text = Vec::new(alloc);
//! service.reply(b"{\"find\":{}}", &mut text)?;
//! assert!(rt; text.as_slice() == b"{\"ok\":true,\"cursor\":{\"$numberLong\":\"1\"}}".as_slice());
//! ```
//!
//! A reply is a document in canonical Extended JSON. It has a result, or says why there is none: the layer that refuses, the number
//! and the message of the reason, and where. This is proved and run as `examples::refused`:
//!
//! ```
//! let reply = Reply::Refused(LineRefusal::Command(CommandFault::MissingField));
//! let mut text = Vec::new(alloc);
//! write_reply(alloc, &dump, &reply, &mut text)?;
//! assert!(rt;
//!     text.as_slice()
//!         == b"{\"ok\":false,\"layer\":\"command\",\"number\":{\"$numberInt\":\"2\"},\"text\":\"missing field\"}".as_slice()
//! );
//! ```
//!
//! - `service`: `Service`, which replies to a line; `reply_to`, the reply over a session; `command_in`, the command in a document;
//!   `perform`, which makes a call: `specs/ServiceView.antt`.
//! - `call`: `call_of`, the session call that a command means; `read_search` and `read_token`, its parts.
//! - `reply`: `Reply` and `LineRefusal`, to match on; `write_reply`, the text of a reply; `write_refusal`: `specs/Reply.antt`.
//! - `batch`: `write_batch`, the reply with a batch, by what prints its documents.
//! - `member`: the pairs of a reply.
//! - `laws`: what is true of every talk.
#![tactic(auto)]

mod batch;
mod call;
mod laws;
mod member;
mod reply;
mod service;

pub use batch::write_batch;
pub use call::{Call, CallFault, call_of, read_search, read_token};
pub use laws::{replies_go_on, talks_keep_to_the_answer, texts_are_talks};
pub use reply::{LineRefusal, Reply, write_refusal, write_reply};
pub use service::{Service, command_in, perform, reply_to};
