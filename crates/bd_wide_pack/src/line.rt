//! A line of Extended JSON with doubles and decimal128, and dates and UUIDs as texts, as the bytes of the document that it is.

ghost use Rattle.std.specs.Prelude.{◌≡◌, ◌≤◌, ◌++◌, List, ℕ, IfOk, IfSome, OnErr, OnOk, Ok, None, length};
ghost use Rattle.bd_value.specs.{Limits.longest_document, Tree.Doc};
ghost use Rattle.bd_bson_view.specs.Spelling.{IsDocument};
ghost use Rattle.bd_wide_pack.specs.WideLine.{IsBad, IsMixed, IsPacked};
ghost use Rattle.bd_wide_pack.specs.inside.Outcome.{HasTexts, IsNotMixed, IsOutcome, IsReportedAs, first_of};
ghost use Rattle.bd_wide_substitute.specs.Both.{HasNoValues};

use crate::canonical_line::append_canonical;
use crate::step::mix;
use bd_bson_write::WriteFault;
use bd_extjson_fault::{JsonFault, JsonFaultKind, text_of};
use bd_extjson_pack::{LineFault, Packer, Refusal, packs_documents};
use bd_value::{LONGEST_DOCUMENT, NoMemory};
use bd_wide_number::Number;
use bd_wide_substitute::{Substituted, earlier, fault_of_line, substitute};
use std::alloc::{AllocError, Global};

/// Packs lines with numbers of all types. It reuses its buffers from line to line, and has no other state.
#[derive(Drop)]
pub struct WidePacker {
    packer: Packer,
    /// The two texts of a line with numbers.
    made: Substituted,
    /// The document of a line with whole numbers for its numbers.
    wholes: Vec<u8>,
    /// The one with empty texts for them.
    texts: Vec<u8>,
    /// The one with the numbers.
    mixed: Vec<u8>,
}

impl WidePacker {
    /// A packer that has packed nothing. It takes no memory yet.
    pub fn new(alloc: Global) -> WidePacker {
        WidePacker {
            packer: Packer::new(alloc),
            made: Substituted::new(alloc),
            wholes: Vec::new(alloc),
            texts: Vec::new(alloc),
            mixed: Vec::new(alloc),
        }
    }

    /// Appends the bytes of the document that the line is (Extended JSON v2, canonical form, bare numbers, and dates and UUIDs as
    /// texts; BSON 1.1, `document`, all types), or returns why it is none, with `out` unchanged.
    ///
    /// # Errors
    /// `NoMemory` if memory runs out; `out` is unchanged.
    pub fn pack_line(
        &mut self,
        line: &[u8],
        out: &mut Vec<u8>,
    ) -> Result<Option<LineFault>, NoMemory>
        ensures packed { result ≡ Ok None → (bytes : List ℕ) × IsPacked line.now bytes
            × (out.new.items ≡ out.old.items ++ bytes) }
        ensures bad { IfOk result (λ o. IfSome o (λ f. IsBad line.now f
            × (out.new.items ≡ out.old.items))) }
        ensures err { OnErr result (out.new.items ≡ out.old.items) }
    {
        self.mixed.clear();
        match pack_canonical(line, &mut self.mixed) {
            Ok(()) => {
                out.extend_from_slice(&self.mixed)?;
                Ok(None)
            }
            Err(Refusal::Unwritten(WriteFault::NoMemory)) => Err(AllocError),
            Err(_) => self.pack_other(line, out),
        }
    }

    /// The same for a line that is not written as `dump` writes it, or has too many bytes.
    fn pack_other(&mut self, line: &[u8], out: &mut Vec<u8>) -> Result<Option<LineFault>, NoMemory>
        ensures packed { result ≡ Ok None → (bytes : List ℕ) × IsPacked line.now bytes
            × (out.new.items ≡ out.old.items ++ bytes) }
        ensures bad { IfOk result (λ o. IfSome o (λ f. IsBad line.now f
            × (out.new.items ≡ out.old.items))) }
        ensures err { OnErr result (out.new.items ≡ out.old.items) }
    {
        if substitute(line, &mut self.made)? {
            self.pack_texts(line, out)
        } else {
            self.pack_plain(line, out)
        }
    }

    /// The same for a line without such values: its bytes are those of its document of nineteen types.
    fn pack_plain(&mut self, line: &[u8], out: &mut Vec<u8>) -> Result<Option<LineFault>, NoMemory>
        requires { HasNoValues line.now }
        ensures packed { result ≡ Ok None → (bytes : List ℕ) × IsPacked line.now bytes
            × (out.new.items ≡ out.old.items ++ bytes) }
        ensures bad { IfOk result (λ o. IfSome o (λ f. IsBad line.now f
            × (out.new.items ≡ out.old.items))) }
        ensures err { OnErr result (out.new.items ≡ out.old.items) }
    {
        packs_documents();
        match self.packer.pack_line(line, out)? {
            Some(fault) => Ok(Some(reported(line, fault))),
            None => Ok(None),
        }
    }

    /// The same by the two texts of the line.
    fn pack_texts(&mut self, line: &[u8], out: &mut Vec<u8>) -> Result<Option<LineFault>, NoMemory>
        requires { HasTexts line.now self.old.made }
        ensures packed { result ≡ Ok None → (bytes : List ℕ) × IsPacked line.now bytes
            × (out.new.items ≡ out.old.items ++ bytes) }
        ensures bad { IfOk result (λ o. IfSome o (λ f. IsBad line.now f
            × (out.new.items ≡ out.old.items))) }
        ensures err { OnErr result (out.new.items ≡ out.old.items) }
    {
        let whole = pack_text(&mut self.packer, &self.made.wholes, &mut self.wholes)?;
        let text = pack_text(&mut self.packer, &self.made.texts, &mut self.texts)?;
        match first_fault(whole, text) {
            Some(fault) => Ok(Some(reported(line, fault))),
            None => put_mixed(
                &self.wholes,
                &self.texts,
                &self.made.numbers,
                &mut self.mixed,
                out,
            ),
        }
    }
}

/// Packs a line that is written as `dump` writes it into bytes that are none before.
fn pack_canonical(line: &[u8], bytes: &mut Vec<u8>) -> Result<(), Refusal>
    requires { length bytes.old.items ≡ 0 }
    ensures { OnOk result (IsPacked line.now bytes.new.items) }
{
    match text_of(line) {
        Ok(text) => append_canonical(text, bytes),
        Err(_) => Err(Refusal::Unread),
    }
}

/// The fault of a line, by that of its text.
fn reported(line: &[u8], fault: LineFault) -> LineFault
    ensures { IsReportedAs line.now fault result }
{
    match fault {
        LineFault::Unread(fault) => LineFault::Unread(fault_of_line(line, fault)),
        LineFault::TooLong => LineFault::TooLong,
    }
}

/// Appends the document with the numbers, by two documents with other values for them.
fn put_mixed(
    wholes: &[u8],
    texts: &[u8],
    numbers: &[Number],
    mixed: &mut Vec<u8>,
    out: &mut Vec<u8>,
) -> Result<Option<LineFault>, NoMemory>
    requires wholes { (w : Doc) × IsDocument w wholes.now }
    requires texts { (t : Doc) × IsDocument t texts.now }
    ensures packed { (w t : Doc) → IsDocument w wholes.now → IsDocument t texts.now
        → result ≡ Ok None → (bytes : List ℕ) × IsMixed w t numbers.now bytes
        × (length bytes ≤ longest_document) × (out.new.items ≡ out.old.items ++ bytes) }
    ensures bad { (w t : Doc) → IsDocument w wholes.now → IsDocument t texts.now
        → IfOk result (λ o. IfSome o (λ f. IsNotMixed w t numbers.now f
        × (out.new.items ≡ out.old.items))) }
    ensures err { OnErr result (out.new.items ≡ out.old.items) }
{
    mixed.clear();
    if !mix(wholes, texts, numbers, mixed)? {
        return Ok(Some(LineFault::Unread(NOT_A_DOCUMENT)));
    }
    if mixed.len() > LONGEST_DOCUMENT {
        return Ok(Some(LineFault::TooLong));
    }
    out.extend_from_slice(mixed)?;
    Ok(None)
}

/// A text is no document; it has no offset.
const NOT_A_DOCUMENT: JsonFault = JsonFault {
    kind: JsonFaultKind::NotADocument,
    at: 0,
};

/// Packs a text into bytes that are empty before, and returns what is wrong with it.
fn pack_text(
    packer: &mut Packer,
    text: &[u8],
    bytes: &mut Vec<u8>,
) -> Result<Option<LineFault>, NoMemory>
    ensures { IfOk result (λ o. IsOutcome text.now bytes.new.items o) }
{
    bytes.clear();
    packs_documents();
    packer.pack_line(text, bytes)
}

/// The first of the faults of two texts: one that was not read is before one that is too long.
fn first_fault(whole: Option<LineFault>, text: Option<LineFault>) -> Option<LineFault>
    ensures { result ≡ first_of whole text }
{
    match (whole, text) {
        (Some(LineFault::Unread(one)), Some(LineFault::Unread(other))) => {
            Some(LineFault::Unread(earlier(one, other)))
        }
        (Some(LineFault::Unread(fault)), _) => Some(LineFault::Unread(fault)),
        (_, Some(LineFault::Unread(fault))) => Some(LineFault::Unread(fault)),
        (None, None) => None,
        _ => Some(LineFault::TooLong),
    }
}
