//! The next document of a device, in a buffer that all documents share.

ghost use Rattle.std.specs.Prelude.{◌≡◌, ◌≤◌, ◌<◌, ◌+◌, ◌-◌, ◌*◌, ◌++◌, ◌⊎◌, ◌↔◌, [], ℕ, List, length, take, true, false, None, Ok, Err, IfOk, IfErr, IfSome, IsTrue, OnErr, OnOk};
ghost use Rattle.std.specs.Io.KnownBytes.{Consumes, prepend_known};
ghost use Rattle.bd_value.specs.Limits.{longest_document, longest_input};
ghost use Rattle.bd_io_device.specs.Devices.{AreReads, over};
ghost use Rattle.bd_bson_check.specs.Dump.{stated_length};
ghost use Rattle.bd_bson_stream.specs.declared.doc_buffer.FrameFault.{FrameFault};
ghost use Rattle.bd_bson_stream.specs.declared.doc_buffer.DocFault.TheVariants.{Frame as framed, Read as unread};

use bd_bson_check::{Fault, FaultKind, frame_fault};
use bd_io_device::{Input, Limits, ReadFault, fill, fill_after};
use bd_value::LONGEST_DOCUMENT;
use std::alloc::Global;
use thiserror::Error;

/// A length that is not a document's, and its offset.
#[derive(Clone, Copy, Debug, Drop, PartialEq, Eq, Error)]
#[error("document {document}, byte {offset}: {kind}")]
pub struct FrameFault {
    /// `ShortLength` or `BadLength`.
    pub kind: FaultKind,
    /// The number of the document, counted from 0.
    pub document: u32,
    /// The byte, counted from the first that the device gave.
    pub offset: u64,
}

impl FrameFault {
    /// The same as a fault of a dump, with no path.
    pub fn to_fault(self, alloc: Global) -> Fault
        ensures same { (result.kind ≡ self.kind)
            × (result.document ≡ self.document) × (result.offset ≡ self.offset) }
        ensures path { result.path.items ≡ [] }
    {
        frame_fault(alloc, self.kind, self.offset as usize, self.document)
    }
}

/// Why a device gave no document. It owns no memory, so that `DocReader::next` may lend.
#[derive(Clone, Copy, Debug, Drop, PartialEq, Eq, Error)]
pub enum DocFault {
    /// The length of the document is cut short or bad.
    #[error("{0}")]
    Frame(FrameFault),
    /// The device was not read to the end of the document.
    #[error("{0}")]
    Read(ReadFault),
    /// An earlier call returned an error.
    #[error("an earlier call met a fault")]
    Failed,
}

impl From<ReadFault> for DocFault {
    ghost from_gives = { λ f d. d ≡ unread f };

    fn from(fault: ReadFault) -> DocFault {
        DocFault::Read(fault)
    }
}

/// One document of a device, and how much the device gave up to its end.
#[derive(Drop)]
pub struct DocBuffer {
    /// How much may still be read from the device.
    remaining: Limits,
    buffer: Vec<u8>,
    /// The length of the current document.
    size: usize,
    /// The offset of the next document among all bytes that the device gave.
    offset: u64,
    /// The number of the next document.
    number: u32,
    failed: bool,
    ghost within_limit: { length buffer.items ≤ longest_document },
    ghost inside: { size ≤ length buffer.items },
    ghost short: { offset + remaining.bytes ≤ longest_input },
    ghost counted: { number * 5 ≤ offset },
    ghost emptied: { failed ≡ true → size ≡ 0 },
}

impl DocBuffer {
    ghost use Rattle.bd_bson_stream.specs.Stream.{CountsReads, FailsToRead, FindsEnd, BuffersAsMuch, BuffersNone, IsFrame, KeepsBuffer, ReadsDocument};
    ghost use Rattle.bd_bson_stream.specs.Stream.{buffer_bytes, has_failed, buffered_bytes, held_size, limits_remaining, next_number, next_offset};

    /// No document yet. It takes no memory. `limits.bytes` is at most 4,294,967,295.
    pub fn new(alloc: Global, limits: Limits) -> DocBuffer
        requires { limits.bytes ≤ longest_input }
        ensures starts { (limits_remaining result ≡ limits)
            × (next_offset result ≡ 0) × (next_number result ≡ 0) × (has_failed result ≡ false) }
        ensures empty { (held_size result ≡ 0) × (buffer_bytes result ≡ []) }
    {
        DocBuffer {
            remaining: limits,
            buffer: Vec::new(alloc),
            size: 0,
            offset: 0,
            number: 0,
            failed: false,
        }
    }

    /// Reads the next document of a device into the buffer; false at the end.
    ///
    /// The device gives the bytes of the document, and no byte after them; at the end it gives none. Pass the same device to
    /// all calls.
    ///
    /// # Errors
    /// - `DocFault::Frame`: the length is cut short or bad, as `next_frame` reports for the bytes that follow;
    /// - `DocFault::Read`: before the document was whole a read failed (`Device`), gave more than the limit of bytes
    ///   (`TooLong`), or the limit of reads was reached (`TooManyTurns`); or memory ran out (`NoMemory`);
    /// - `DocFault::Failed`: an earlier call had an error. The device is not read then.
    #[inline(always)]
    pub fn read_next<R: Input>(&mut self, reader: &mut R) -> Result<bool, DocFault>
        ensures reads { result ≡ Ok true →
            ReadsDocument R.state R.read_gives self.old self.new reader.old reader.new }
        ensures end { result ≡ Ok false →
            FindsEnd R.state R.read_gives self.old self.new reader.old reader.new }
        ensures fails { has_failed self.old ≡ false → IfErr result
            (FailsToRead R.state R.read_gives [] self.old self.new reader.old reader.new) }
        // After an error, and only then, the call is refused, and reads nothing.
        ensures refused { (result ≡ Err DocFault.Failed) ↔ IsTrue (has_failed self.old) }
        ensures failed { OnErr result (IsTrue (has_failed self.new)) }
        ensures not_failed { OnOk result (has_failed self.new ≡ false) }
        ensures no_read { result ≡ Err DocFault.Failed → (reader.new ≡ reader.old)
            × BuffersNone self.old self.new × KeepsBuffer self.old self.new }
    {
        if self.failed {
            return Err(DocFault::Failed);
        }
        let result = self.advance(reader);
        self.failed = result.is_err();
        result
    }

    /// The bytes of the current document; empty before the first, at the end and after a fault.
    pub fn bytes(&self) -> &[u8]
        ensures { result.now ≡ buffered_bytes self.now }
    {
        &self.buffer[..self.size]
    }

    /// The offset of the next document's first byte, counted from the first byte that the device gave.
    pub fn offset(&self) -> u64
        ensures { result ≡ next_offset self.now }
    {
        self.offset
    }

    /// The number of the next document, counted from 0.
    pub fn number(&self) -> u32
        ensures { result ≡ next_number self.now }
    {
        self.number
    }

    /// How many bytes are buffered, at most 16,793,600.
    pub fn held(&self) -> usize
        ensures { (result ≡ length (buffer_bytes self.now)) × (result ≤ longest_document) }
    {
        self.buffer.len()
    }

    /// Reads the next document into the buffer; false at the end.
    fn advance<R: Input>(&mut self, reader: &mut R) -> Result<bool, DocFault>
        requires not_failed { self.old.failed ≡ false }
        ensures reads { result ≡ Ok true →
            ReadsDocument R.state R.read_gives self.old self.new reader.old reader.new }
        ensures end { result ≡ Ok false →
            FindsEnd R.state R.read_gives self.old self.new reader.old reader.new }
        ensures fails { IfErr result
            (FailsToRead R.state R.read_gives [] self.old self.new reader.old reader.new) }
        ensures state { self.new.failed ≡ self.old.failed }
    {
        self.size = 0;
        let Some(head) = self.read_length(reader)? else {
            return Ok(false);
        };
        self.read_rest(reader, head)?;
        Ok(true)
    }

    /// Reads the first four bytes of the next document, which state its length; None at the end.
    fn read_length<R: Input>(&mut self, reader: &mut R) -> Result<Option<[u8; 4]>, DocFault>
        requires empty { self.old.size ≡ 0 }
        ensures unchanged { BuffersNone self.old self.new
            × (self.new.failed ≡ self.old.failed) × (self.new.buffer ≡ self.old.buffer) }
        ensures length { IfOk result (λ o. IfSome o (λ head. (5 ≤ stated_length head)
            × (stated_length head ≤ longest_document) × (4 ≤ self.old.remaining.bytes)
            × Consumes (R.state reader.old).remaining (R.state reader.new).remaining head)) }
        ensures reads { IfOk result (λ o. IfSome o (λ head. AreReads R.read_gives
            (self.old.remaining.turns - self.new.remaining.turns) reader.old head reader.new)) }
        ensures counted { OnOk result
            (CountsReads self.old self.new (over R.state reader.old reader.new)) }
        ensures no_failure { OnOk result ((R.state reader.new).failures
            ≡ (R.state reader.old).failures) }
        ensures end { result ≡ Ok None →
            FindsEnd R.state R.read_gives self.old self.new reader.old reader.new }
        ensures fails { IfErr result
            (FailsToRead R.state R.read_gives [] self.old self.new reader.old reader.new) }
    {
        let mut head = [0; 4];
        let filled = fill(reader, &mut head, self.remaining)?;
        self.remaining.turns -= filled.turns;
        if filled.bytes == 0 {
            return Ok(None);
        }
        if filled.bytes < 4 {
            return Err(self.fault(FaultKind::ShortLength));
        }
        let length = u32::from_le_bytes(head);
        if length < 5 || length as usize > LONGEST_DOCUMENT {
            return Err(self.fault(FaultKind::BadLength));
        }
        Ok(Some(head))
    }

    /// Reads the rest of the document that begins with these four bytes.
    fn read_rest<R: Input>(&mut self, reader: &mut R, head: [u8; 4]) -> Result<(), DocFault>
        requires not_failed { self.old.failed ≡ false }
        requires empty { self.old.size ≡ 0 }
        requires length { (5 ≤ stated_length head)
            × (stated_length head ≤ longest_document) × (4 ≤ self.old.remaining.bytes) }
        ensures frame { OnOk result (IsFrame (buffered_bytes self.new)) }
        ensures gives { OnOk result (Consumes (prepend_known head (R.state reader.old).remaining)
            (R.state reader.new).remaining (buffered_bytes self.new)) }
        ensures reads { OnOk result ((given : List ℕ) × (buffered_bytes self.new ≡ head ++ given)
            × AreReads R.read_gives (self.old.remaining.turns
            - self.new.remaining.turns) reader.old given reader.new) }
        ensures offset { OnOk result ((self.new.offset ≡ self.old.offset + self.new.size)
            × (self.new.number ≡ self.old.number + 1)
            × (self.new.remaining.bytes + self.new.size ≡ self.old.remaining.bytes)) }
        ensures state { self.new.failed ≡ self.old.failed }
        ensures counted { OnOk result
            (CountsReads self.old self.new (over R.state reader.old reader.new)) }
        ensures no_failure { OnOk result ((R.state reader.new).failures
            ≡ (R.state reader.old).failures) }
        ensures grown { OnOk result (BuffersAsMuch
            (length self.old.buffer.items) (length self.new.buffer.items) self.new.size) }
        ensures fails { IfErr result
            (FailsToRead R.state R.read_gives head self.old self.new reader.old reader.new) }
    {
        let length = u32::from_le_bytes(head) as usize;
        grow_buffer(&mut self.buffer, length)?;
        let limits = Limits {
            bytes: self.remaining.bytes - 4,
            turns: self.remaining.turns,
        };
        let filled = fill_after(reader, &mut self.buffer, head, length, limits)?;
        self.remaining.turns -= filled.turns;
        if filled.bytes < length - 4 {
            return Err(self.fault(FaultKind::BadLength));
        }
        self.pass(length);
        Ok(())
    }

    /// A fault of the next document as a whole.
    fn fault(&self, kind: FaultKind) -> DocFault
        ensures { (f : FrameFault) × (result ≡ framed f)
            × (f.kind ≡ kind) × (f.offset ≡ self.now.offset) × (f.document ≡ self.now.number) }
    {
        DocFault::Frame(FrameFault {
            kind,
            document: self.number,
            offset: self.offset,
        })
    }

    /// Skips the document of that size, which is in the buffer.
    fn pass(&mut self, size: usize)
        requires not_failed { self.old.failed ≡ false }
        requires size { (5 ≤ size)
            × (size ≤ self.old.remaining.bytes) × (size ≤ length self.old.buffer.items) }
        ensures sized { self.new.size ≡ size }
        ensures offset { (self.new.offset ≡ self.old.offset + size)
            × (self.new.number ≡ self.old.number + 1) }
        ensures remaining { (self.new.remaining.bytes + size ≡ self.old.remaining.bytes)
            × (self.new.remaining.turns ≡ self.old.remaining.turns) }
        ensures unchanged { (self.new.buffer ≡ self.old.buffer)
            × (self.new.failed ≡ self.old.failed) }
    {
        self.remaining.bytes -= size as u64;
        self.offset += size as u64;
        self.number += 1;
        self.size = size;
    }
}

/// Makes the buffer at least `size` bytes long.
fn grow_buffer(buffer: &mut Vec<u8>, size: usize) -> Result<(), ReadFault>
    ensures capacity { OnOk result ((size ≤ length buffer.new.items)
        × ((length buffer.new.items ≡ length buffer.old.items)
        ⊎ ((length buffer.old.items < size) × (length buffer.new.items ≡ size)))) }
    ensures err { OnErr result (buffer.new.items ≡ buffer.old.items) }
    ensures memory { IfErr result (λ f. f ≡ ReadFault.NoMemory) }
{
    if buffer.len() < size && buffer.resize(size, 0).is_err() {
        return Err(ReadFault::NoMemory);
    }
    Ok(())
}
