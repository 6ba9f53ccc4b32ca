//! Why a text is not a document of Extended JSON, and where: the second pass, over a text that was refused.
//!
//! Which fault it reports, and at which byte, is a function of the text: `text_fault` of `specs/TextFault.antt`.
//!
//! An example, which `bd_extjson_tests` proves and runs as `examples::diagnosed`:
//!
//! ```
//! let fault = diagnose(alloc, "{\"a\":1.5}");
//! assert!(rt; fault.kind == JsonFaultKind::NotInProfile && fault.at == 5);
//! ```
//!
//! - `json_fault`: the kinds of faults, and a fault.
//! - `laws`: laws of the fault of each text.
//! - `second_pass`: `text_of`, which checks bytes for UTF-8, and `diagnose`, a pass over the whole text: its first fault as
//!   JSON, and that of its tree.
//! - `skip`: the tokens of JSON, skipped one by one.
//! - `tree_fault`: what is wrong with a part of a text that is JSON: a number, a name, a wrapper.
#![tactic(auto)]

mod json_fault;
mod laws;
mod second_pass;
mod skip;
mod tree_fault;

pub use json_fault::{JsonFault, JsonFaultKind};
pub use laws::{
    fault_is_located, fault_is_not_early, fault_is_not_late, passes_numbers_of_json,
    wrapper_is_value_or_fault,
};
pub use second_pass::{diagnose, text_of};
