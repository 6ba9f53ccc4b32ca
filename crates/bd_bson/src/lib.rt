//! The family of BSON: documents and dumps in their bytes. This crate re-exports the names that users of the family need,
//! each from the crate that owns it, and has no code.
//!
//! - `bd_bson_view`: `RawDoc` and `RawValue`, a document and a value in their bytes.
//! - `bd_bson_check`: `check_document`, the first fault of a document; `next_document` and `next_frame`, a dump in turn.
//! - `bd_bson_write`: `write_document`, the bytes of a document.
//! - `bd_bson_stream`: `DocReader`, the documents of a dump from a device.
//! - `bd_bson_dump`: `Dump`, the documents of a collection in memory, and `read_dump`, which reads one.
#![tactic(auto)]

pub use bd_bson_check::{
    Fault, FaultKind, Frame, check_document, dump_or_fault, next_document, next_frame,
    no_fault_where_spelled, read_document, scans_in_one_way, scans_on,
};
pub use bd_bson_dump::{Dump, checks_as_the_scan, checks_in_turn, read_dump};
pub use bd_bson_stream::{DocBuffer, DocFault, DocReader, FrameFault, RawBytes};
pub use bd_bson_view::{At, Elements, RawDoc, RawValue, one_value_is_at, spells_one_document};
pub use bd_bson_write::{
    WriteFault, append_label, append_value, begin_body, end_body, write_document,
};
pub use bd_io_device::{
    DeviceFault, FailingWrite, Input, Limits, MemoryInput, MemoryOutput, Output, ReadFault,
    SystemInput, SystemOutput, read_all, write_all,
};
