//! A line as the bytes of the document that it is.
ghost use Rattle.std.specs.Prelude.{◌≡◌, ◌≢◌, ◌++◌, IfErr, IfOk, IfSome, OnErr, OnOk, None, Some, Ok};
ghost use Rattle.std.specs.Str.{IsUtf8};
ghost use Rattle.bd_value.specs.Tree.{Doc};
ghost use Rattle.bd_extjson_fault.specs.TextFault.{text_fault};
ghost use Rattle.bd_extjson_fault.specs.declared.json_fault.JsonFaultKind.TheVariants as kinds;
ghost use Rattle.bd_extjson_pack.specs.Packable.{plain, IsPackable, IsBad};
ghost use Rattle.bd_extjson_pack.specs.declared.line.LineFault.TheVariants.{TooLong, Unread};

use crate::refusal::Refusal;
use crate::tokens::spell_line;
use bd_bson_write::WriteFault;
use bd_extjson::{fault_of, read_doc_text};
use bd_extjson_fault::{JsonFault, JsonFaultKind, text_of};
use bd_value::{Document, NoMemory};
use json::Scratch;
use std::alloc::{AllocError, Global};
use std::mem;
use thiserror::Error;

/// Why a line is not packed.
#[derive(Clone, Copy, Debug, Drop, PartialEq, Eq, Error)]
pub enum LineFault {
    /// It is not a document.
    #[error("{0}")]
    Unread(JsonFault),
    /// Its document has more than 16,793,600 bytes.
    #[error("document too long")]
    TooLong,
}

/// Packs lines. It reuses its buffers from line to line, and has no other state.
#[derive(Drop)]
pub struct Packer {
    alloc: Global,
    scratch: Scratch,
    /// The bytes of one line: in a separate vector, since the limit of a document counts all of the vector that it is written to.
    spelled: Vec<u8>,
}

impl Packer {
    /// A packer that has packed nothing. It takes no memory yet.
    pub fn new(alloc: Global) -> Packer {
        Packer {
            alloc,
            scratch: Scratch::new(alloc),
            spelled: Vec::new(alloc),
        }
    }

    /// Appends the bytes of the document that the line is (Extended JSON v2, canonical form, and bare whole numbers; BSON
    /// 1.1, `document`), or returns why it is none, with `out` unchanged.
    ///
    /// # Errors
    /// `NoMemory` if memory runs out; `out` is unchanged.
    pub fn pack_line(
        &mut self,
        line: &[u8],
        out: &mut Vec<u8>,
    ) -> Result<Option<LineFault>, NoMemory>
        ensures packed { result ≡ Ok None →
            (d : Doc) × IsPackable line.now d × (out.new.items ≡ out.old.items ++ plain d) }
        ensures bad { IfOk result (λ o. IfSome o (λ f. IsBad line.now f × (out.new ≡ out.old))) }
        // Bytes that are not UTF-8 are always reported as such.
        ensures utf8 { ¬ (IsUtf8 line.now) → result ≡ Ok (Some (Unread (text_fault line.now))) }
        ensures err { OnErr result (out.new.items ≡ out.old.items) }
    {
        let text = match text_of(line) {
            Ok(text) => text,
            Err(bad) => return Ok(Some(LineFault::Unread(bad))),
        };
        // The bytes come straight from the text, or from its tokens.
        match spell_line(self.alloc, text, &mut self.scratch, &mut self.spelled) {
            Ok(()) => {
                if out.is_empty() {
                    mem::swap(out, &mut self.spelled);
                } else {
                    out.extend_from_slice(&self.spelled)?;
                }
                Ok(None)
            }
            // No pass follows.
            Err(Refusal::Unwritten(WriteFault::NoMemory)) => Err(AllocError),
            Err(Refusal::Unread) => match fault_of(self.alloc, text) {
                fault if fault.kind == JsonFaultKind::NoMemory => Err(AllocError),
                fault => Ok(Some(LineFault::Unread(fault))),
            },
            // The document of the text is too long, if it is one.
            Err(Refusal::Unwritten(_)) => {
                let read = read_doc_text(self.alloc, text, &mut self.scratch);
                Ok(Some(fault_of_long(read)?))
            }
        }
    }
}

/// What is wrong with a text whose document is too long, if it is one, by how it was read.
#[cold]
fn fault_of_long(read: Result<Document, JsonFault>) -> Result<LineFault, NoMemory>
    ensures document { OnOk read (result ≡ Ok TooLong) }
    ensures fault { IfErr read (λ f. IfOk result (λ why.
        (f.kind ≢ kinds.NoMemory) × (why ≡ Unread f))) }
    ensures memory { IfErr read (λ f. OnErr result (f.kind ≡ kinds.NoMemory)) }
{
    match read {
        Ok(_) => Ok(LineFault::TooLong),
        Err(fault) if fault.kind == JsonFaultKind::NoMemory => Err(AllocError),
        Err(fault) => Ok(LineFault::Unread(fault)),
    }
}
