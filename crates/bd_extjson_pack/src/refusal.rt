//! Why a text gives no bytes.
ghost use Rattle.std.specs.Prelude.{◌≡◌};
ghost use Rattle.bd_bson_write.specs.declared.writing.WriteFault.TheVariants as write_faults;
ghost use Rattle.bd_extjson_pack.specs.declared.refusal.Refusal.TheVariants as refusals;

use bd_bson_write::WriteFault;
use std::alloc::AllocError;

/// Why no bytes were written for a text.
#[derive(Clone, Copy, Drop)]
pub enum Refusal {
    /// It is not read: it is not canonical text, or means no document.
    Unread,
    /// There are too many bytes, or memory ran out.
    Unwritten(WriteFault),
}

impl From<WriteFault> for Refusal {
    ghost from_gives = { λ fault refusal. refusal ≡ refusals.Unwritten fault };

    fn from(fault: WriteFault) -> Refusal {
        Refusal::Unwritten(fault)
    }
}

impl From<AllocError> for Refusal {
    ghost from_gives = { λ _ refusal. refusal ≡ refusals.Unwritten write_faults.NoMemory };

    fn from(_e: AllocError) -> Refusal {
        Refusal::Unwritten(WriteFault::NoMemory)
    }
}

impl From<json::Invalid> for Refusal {
    ghost from_gives = { λ _ refusal. refusal ≡ refusals.Unread };

    fn from(_e: json::Invalid) -> Refusal {
        Refusal::Unread
    }
}
