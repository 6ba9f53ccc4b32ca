//! Values and documents in their BSON bytes, by views which guarantee that the bytes spell them.
//!
//! What the bytes of a document are: `specs/Spelling.antt`, after BSON 1.1. That bytes spell at most one: `specs/Unique.antt`.
//! What contracts see of a view: `specs/Raw.antt`.
//!
//! An example, which `bd_bson_tests` proves and runs as `examples::raw`:
//!
//! ```
//! let bytes = b"\x0c\0\0\0\x10a\0\x01\0\0\0\0";
//! let document = check_document(alloc, bytes, 0, 0)?;
//! let field = document.first("a").ok_or("a field")?;
//! assert!(rt; matches!(field.scalar(), Some(Scalar::Int32(1))));
//! ```
//!
//! - `raw`: the views, and the offset of the next element.
//! - `views`: the methods of a document and of a value, the contents of a value, its elements, and `At`, its offset.
//! - `laws`: bytes spell at most one document.
//! - `raw_parts`: types of elements, and numbers, names, texts and scalars at the start of bytes, read without a check.
#![tactic(auto)]

mod laws;
mod raw;
pub mod raw_parts;
mod views;

pub use laws::{one_value_is_at, spells_one_document};
pub use raw::{Elements, RawDoc, RawValue};
pub use raw_parts::{ElementType, Holder, element_type, type_byte};
pub use views::At;
