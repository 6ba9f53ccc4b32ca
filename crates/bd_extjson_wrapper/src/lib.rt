//! The objects of Extended JSON that mean values of other kinds, by their first names, such as `{"$oid":..}`.
//!
//! What each means: `specs/Wrapper.antt`. Which texts are whole numbers: `specs/WholeNumber.antt`.
//!
//! An example, which `bd_extjson_tests` proves and runs as `examples::wrapper`:
//!
//! ```
//! assert!(rt; Wrapper::from_name("$oid") == Some(Wrapper::Oid));
//! assert!(rt; Wrapper::from_name("oid").is_none());
//! assert!(rt; whole("-5") == Some(-5) && whole("05").is_none());
//! ```
//!
//! - `wrapper`: `Wrapper`, the kind of object by its first name; `unwrap_single`, its value; `only` and `pair`, its members.
//! - `whole_number`: whole numbers, as texts write them.
#![tactic(auto)]

mod whole_number;
mod wrapper;

pub use whole_number::{is_whole_number, whole, whole_of_32};
pub use wrapper::{
    Trouble, Wrapper, id_of_text, names_code, names_scope, number_of, only, pair, unwrap_single,
};
