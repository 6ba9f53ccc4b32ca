//! A dump: all documents of a collection, in their bytes.

ghost use Rattle.std.specs.Prelude.{◌≡◌, ◌≤◌, ◌<◌, Some, length, slice_get};
ghost use Rattle.bd_value.specs.Limits.{longest_input};
ghost use Rattle.bd_value.specs.Tree.{Tree};
ghost use Rattle.bd_bson_view.specs.Raw.{document_pairs, document_source, value_source, value_tree};
ghost use Rattle.bd_bson_view.specs.Sound.{IsAt, IsPlace};
ghost use Rattle.bd_bson_dump.specs.Starts.{AreAt, AreAt-prop};

use bd_bson_view::{At, RawDoc, RawValue};
use std::cell::Cell;

/// The documents of a dump, in file order. A document has a number, from 0. The dump has the bytes and the offset of each
/// document, and no trees.
#[derive(Drop)]
pub struct Dump {
    pub(crate) bytes: Vec<u8>,
    pub(crate) starts: Vec<u32>,
    /// How often a document was requested.
    pub(crate) reads: Cell<u64>,
    /// How often a value was requested by its `At`.
    pub(crate) value_reads: Cell<u64>,
    ghost within_limit: { length starts.items ≤ longest_input },
    ghost short: { length bytes.items ≤ longest_input },
    ghost are_at: { AreAt bytes.items starts.items } by { AreAt-prop bytes.items starts.items },
}

impl Dump {
    ghost use Rattle.bd_bson_dump.specs.Collection.{documents, bytes_of};

    /// The number of documents. It takes no memory.
    pub fn len(&self) -> u32
        ensures { result ≡ length (documents self.now) }
    {
        self.starts.len() as u32
    }

    /// The document with that number. It takes no memory.
    pub fn document(&self, n: u32) -> RawDoc<'_>
        requires { n < length (documents self.now) }
        ensures document { slice_get (documents self.now) n ≡ Some (document_pairs result) }
        ensures same_source { document_source result ≡ bytes_of self.now }
    {
        self.reads.set(self.reads.get().saturating_add(1));
        RawDoc::at(&self.bytes, self.starts[n as usize] as usize)
    }

    /// The value at that offset: for the `at` of a view into this dump, the value of the view. It takes no memory, and is not
    /// a read of a document.
    pub fn value_at(&self, at: At) -> RawValue<'_>
        requires { IsPlace (bytes_of self.now) at }
        ensures value { (tree : Tree) →
            IsAt (bytes_of self.now) at tree → value_tree result ≡ tree }
        ensures same_source { value_source result ≡ bytes_of self.now }
    {
        self.value_reads
            .set(self.value_reads.get().saturating_add(1));
        at.value_in(&self.bytes)
    }

    /// How often `document` was called on this dump; it saturates at 18,446,744,073,709,551,615. No contract mentions it: it
    /// is for tests and measurements.
    pub fn reads(&self) -> u64 {
        self.reads.get()
    }

    /// How often `value_at` was called on this dump; it saturates at 18,446,744,073,709,551,615. No contract mentions it: it
    /// is for tests and measurements.
    pub fn value_reads(&self) -> u64 {
        self.value_reads.get()
    }

    /// The bytes that it was read from. It takes no memory.
    pub fn bytes(&self) -> &[u8]
        ensures { result.now ≡ bytes_of self.now }
    {
        &self.bytes
    }
}
