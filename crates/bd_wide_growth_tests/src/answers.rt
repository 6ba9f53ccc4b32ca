//! The result of a row, and a row that is repeated.
use std::fmt::{Debug, InlineText};

/// Why a row has no result. It is not `Debug` itself, so that each error converts to it.
#[derive(Drop)]
pub(crate) enum RowFault {
    NoMemory,
    /// A call was refused for another reason, or its result is wrong.
    Otherwise,
}

/// Whether the result of a row is complete if memory runs out at most once: at its first try, or at its second if the first
/// runs out of memory. The row is a call, which is written twice.
macro_rules! is_whole {
    ($row:expr) => {
        match $row {
            Err(RowFault::NoMemory) => matches!($row, Ok(true)),
            answer => matches!(answer, Ok(true)),
        }
    };
}

pub(crate) use is_whole;

/// If memory ran out, the debugging text of an error has `NoMemory` in it, or is that of an error of the allocator. A filter
/// is never refused for that.
impl<E: Debug + Drop> From<E> for RowFault {
    fn from(error: E) -> RowFault {
        let text = InlineText::<512>::of(format_args!("{error:?}"));
        let text = text.as_str();
        let is_out_of_memory = text.contains("NoMemory") && !text.starts_with("BadFilter");
        if is_out_of_memory || text.starts_with("Alloc") {
            RowFault::NoMemory
        } else {
            RowFault::Otherwise
        }
    }
}
