//! Why a row has no answer.
use bd_bson_check::Fault;
use bd_bson_write::WriteFault;
use bd_extjson_fault::JsonFault;
use bd_path::PathFault;
use std::alloc::{AllocError, AllocFailed};

/// Why a row has no answer, as a message.
#[derive(Clone, Copy, Drop)]
pub(crate) struct RowFault(pub(crate) &'static str);

impl From<AllocError> for RowFault {
    fn from(_error: AllocError) -> RowFault {
        RowFault("no memory")
    }
}

impl<T: Drop> From<AllocFailed<T>> for RowFault {
    fn from(_error: AllocFailed<T>) -> RowFault {
        RowFault("no memory")
    }
}

impl From<PathFault> for RowFault {
    fn from(fault: PathFault) -> RowFault {
        RowFault(fault.words())
    }
}

impl From<JsonFault> for RowFault {
    fn from(fault: JsonFault) -> RowFault {
        RowFault(fault.kind.words())
    }
}

impl From<WriteFault> for RowFault {
    fn from(_fault: WriteFault) -> RowFault {
        RowFault("no bytes are written of it")
    }
}

impl From<Fault> for RowFault {
    fn from(fault: Fault) -> RowFault {
        RowFault(fault.kind.words())
    }
}
