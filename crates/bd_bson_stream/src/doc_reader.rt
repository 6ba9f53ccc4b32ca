//! The documents of a device, one at a time.
ghost use Rattle.std.specs.Prelude.{◌≡◌, Ok, Err, None, false, true, IfOk, IfErr, IfSome, IsTrue, OnErr, OnOk, [], length, ◌≤◌, ◌↔◌};
ghost use Rattle.std.specs.Io.{StartsWith};
ghost use Rattle.std.specs.Io.KnownBytes.{IsAtEnd};
ghost use Rattle.std.specs.Io.BufRead.{Rests};
ghost use Rattle.std.specs.Borrow.{sem};
ghost use Rattle.bd_value.specs.Limits.{longest_document, longest_input};
ghost use Rattle.bd_bson_stream.specs.Stream.{FailsToRead, FindsEnd, BuffersNone, IsFrame, KeepsBuffer, Leaves, ReadsDocument};
ghost use Rattle.bd_bson_stream.specs.Stream.{buffer_bytes, buffer_of, device_of, has_failed, buffered_bytes, held_size, limits_remaining, next_number, next_offset};
ghost use Rattle.bd_bson_stream.specs.declared.doc_buffer.DocBuffer.{DocBuffer};

use crate::doc_buffer::{DocBuffer, DocFault};
use bd_io_device::{Input, Limits, ReadFault};
use std::alloc::Global;

/// The bytes of a document that a device gave.
#[derive(Clone, Copy, Debug)]
pub struct RawBytes<'a> {
    /// All bytes of the document, as many as its length says.
    pub bytes: &'a [u8],
    /// The offset of the first byte among all bytes that the device gave.
    pub start: u64,
    /// The number of the document, counted from 0.
    pub number: u32,
}

/// The documents of a device, one at a time. One document is buffered.
#[derive(Drop)]
pub struct DocReader<R: Input + Drop> {
    reader: R,
    documents: DocBuffer,
}

impl<R: Input + Drop> DocReader<R> {
    ghost use Rattle.bd_bson_stream.specs.contracts.doc_reader.DocReader.{the_row};

    /// The documents of this device from its next byte on. It takes no memory. `limits.bytes` is at most 4,294,967,295.
    pub fn new(alloc: Global, reader: R, limits: Limits) -> DocReader<R>
        requires { limits.bytes ≤ longest_input }
        ensures reader { (device_of result ≡ reader)
            × (limits_remaining (buffer_of result) ≡ limits)
            × (has_failed (buffer_of result) ≡ false) }
        ensures offset { (next_offset (buffer_of result) ≡ 0)
            × (next_number (buffer_of result) ≡ 0) }
        ensures empty { (held_size (buffer_of result) ≡ 0)
            × (buffer_bytes (buffer_of result) ≡ []) }
    {
        DocReader {
            reader,
            documents: DocBuffer::new(alloc, limits),
        }
    }

    /// How many bytes are buffered, at most 16,793,600.
    pub fn held(&self) -> usize
        ensures { (result ≡ length (buffer_bytes (buffer_of self.now)))
            × (result ≤ longest_document) }
    {
        self.documents.held()
    }

    /// The next document; None at the end. The device gives no byte after it.
    ///
    /// The errors are those of `DocBuffer::read_next`.
    pub fn next(&mut self) -> Result<Option<RawBytes<'_>>, DocFault>
        ensures frame { IfOk result (λ o. IfSome o (λ d. IsFrame d.bytes.now)) }
        ensures prefix { IfOk result (λ o. IfSome o (λ d.
            IfSome (R.state (device_of self.old)).remaining (λ xs. StartsWith xs d.bytes.now))) }
        ensures is_at { IfOk result (λ o. IfSome o (λ d.
            (d.start ≡ next_offset (buffer_of self.old))
            × (d.number ≡ next_number (buffer_of self.old)))) }
        ensures end { result ≡ Ok None → IsAtEnd (R.state (device_of self.old)).remaining }
        ensures refused { (result ≡ Err DocFault.Failed)
            ↔ IsTrue (has_failed (buffer_of self.old)) }
        ensures* after { sem 𝓛 (Rests (the_row R.row) self.entry (λ new.
            Leaves R.state R.read_gives (buffer_of self.old) (device_of self.old) result
            (buffer_of new) (device_of new))) }
    {
        let start = self.documents.offset();
        let number = self.documents.number();
        if !self.advance()? {
            return Ok(None);
        }
        Ok(Some(RawBytes {
            bytes: self.bytes(),
            start,
            number,
        }))
    }

    /// Reads the next document; false at the end. Then call `bytes`.
    ///
    /// It is `next` in two steps: while `next` lends a document, nothing can be said of the reader.
    pub fn advance(&mut self) -> Result<bool, DocFault>
        ensures reads { result ≡ Ok true →
            ReadsDocument R.state R.read_gives (buffer_of self.old) (buffer_of self.new)
            (device_of self.old) (device_of self.new) }
        ensures end { result ≡ Ok false →
            FindsEnd R.state R.read_gives (buffer_of self.old) (buffer_of self.new)
            (device_of self.old) (device_of self.new) }
        ensures fails { has_failed (buffer_of self.old) ≡ false → IfErr result
            (FailsToRead R.state R.read_gives [] (buffer_of self.old) (buffer_of self.new)
            (device_of self.old) (device_of self.new)) }
        ensures refused { (result ≡ Err DocFault.Failed)
            ↔ IsTrue (has_failed (buffer_of self.old)) }
        ensures failed { OnErr result (IsTrue (has_failed (buffer_of self.new))) }
        ensures not_failed { OnOk result (has_failed (buffer_of self.new) ≡ false) }
        ensures no_read { result ≡ Err DocFault.Failed →
            (device_of self.new ≡ device_of self.old)
            × BuffersNone (buffer_of self.old) (buffer_of self.new)
            × KeepsBuffer (buffer_of self.old) (buffer_of self.new) }
    {
        self.documents.read_next(&mut self.reader)
    }

    /// The bytes of the current document; empty before the first, at the end and after a fault.
    pub fn bytes(&self) -> &[u8]
        ensures { result.now ≡ buffered_bytes (buffer_of self.now) }
    {
        self.documents.bytes()
    }
}
