//! A dump of all types in memory: its documents, their copies and their numbers.

ghost use Rattle.std.specs.Prelude.{◌≡◌, ◌≤◌, ◌<◌, ℕ, length, slice_index, true};
ghost use Rattle.bd_value.specs.Limits.{longest_input};
ghost use Rattle.bd_bson_check.specs.declared.profile.Profile.TheVariants.{All, Named};
ghost use Rattle.bd_wide_copy.specs.Starts.{have_no_fault, starts_of};

use crate::copies::{add_all, write_copies};
use crate::copy::Codes;
use crate::longs::Longs;
use crate::starts::Starts;
use bd_bson_view::raw_parts as raw;
use bd_value::NoMemory;
use bd_wide_rank::Numbers;
use std::alloc::Global;

/// The documents of a dump of all types, in file order, in their bytes. A document has a number, from 0.
#[derive(Drop)]
pub struct WideDump {
    pub(crate) bytes: Vec<u8>,
    pub(crate) starts: Vec<u32>,
    /// Whether no document has a double or a decimal128.
    pub(crate) plain: bool,
    ghost fit: { (i : ℕ) → slice_index bytes.items i < 256 },
    ghost short: { length bytes.items ≤ longest_input },
    ghost begin: { starts.items ≡ starts_of bytes.items },
    ghost sound: { have_no_fault All bytes.items starts.items ≡ true },
    ghost plain_is: { plain ≡ have_no_fault Named bytes.items starts.items },
}

impl WideDump {
    ghost use Rattle.std.specs.Prelude.{◌↔◌, ◌^◌, ℤ, List, FitsSigned, IfOk, IsTrue, None, OnErr, OnOk};
    ghost use Rattle.std.specs.Int.{w32};
    ghost use Rattle.bd_value.specs.Tree.{Doc};
    ghost use Rattle.bd_bson_check.specs.Dump.{IsDump};
    ghost use Rattle.bd_bson_check.specs.FirstFault.{fault_under};
    ghost use Rattle.bd_wide.specs.Rewritten.{Adds};
    ghost use Rattle.bd_bson_view.specs.Spelling.{valued};
    ghost use Rattle.bd_wide_copy.specs.Dump.{AreJoinedBy, IsCopyOfDump, AreNumbersOfAll, AreStartsOf, IsCount, IsDocumentAt, bytes_of};
    ghost use Rattle.bd_wide_copy.specs.Numbers.{document_numbers};
    ghost use Rattle.bd_wide_rank.specs.{Rank.AreDistinct, Rank.HaveSame, Table.collected, Worth.worth};

    /// The number of documents. It takes no memory.
    pub fn len(&self) -> u32
        ensures { IsCount (bytes_of self.now) result }
    {
        self.starts.len() as u32
    }

    /// The bytes of the document with that number. They have no fault. It takes no memory.
    pub fn document(&self, n: u32) -> &[u8]
        requires { (count : ℕ) × IsCount (bytes_of self.now) count × (n < count) }
        ensures document { IsDocumentAt (bytes_of self.now) n result.now }
        ensures sound { (base : ℕ) × (fault_under All base result.now ≡ None) }
    {
        let start = self.starts[n as usize] as usize;
        let (_, rest) = self.bytes.split_at(start);
        let size = raw::number(rest) as usize;
        let (document, _) = rest.split_at(size);
        document
    }

    /// Whether the dump is one of the nineteen kinds: no document has a double or a decimal128. It takes no memory.
    pub fn is_plain(&self) -> bool
        ensures { IsTrue result ↔ ((ds : List Doc) × IsDump ds (bytes_of self.now)) }
    {
        self.plain
    }

    /// Appends the copy of each document, in order: the codes of its numbers in place of the numbers, as int64 or int32 by their types.
    ///
    /// # Errors
    /// On `NoMemory`, `out` is unchanged.
    pub fn write_copy<C: Codes>(
        &self,
        codes: &C,
        longs: Longs,
        out: &mut Vec<u8>,
    ) -> Result<(), NoMemory>
        requires { (z : ℤ) → FitsSigned w32 (C.code_of codes.now z) }
        ensures ok { OnOk result (Adds (IsCopyOfDump longs (C.worth_of codes.now)
            (C.code_of codes.now) (bytes_of self.now)) out.old.items out.new.items) }
        ensures err { OnErr result (out.new.items ≡ out.old.items) }
    {
        out.reserve(self.bytes.len())?;
        let before = out.len();
        let written = write_copies(codes, longs, &self.bytes, out);
        if written.is_err() {
            out.truncate(before);
        }
        written
    }

    /// The numbers of the documents: int32, int64, double and decimal128, at any level.
    ///
    /// # Errors
    /// `NoMemory` if memory runs out.
    pub fn numbers(&self, alloc: Global) -> Result<Numbers, NoMemory>
        ensures { IfOk result (λ numbers.
            AreNumbersOfAll (bytes_of self.now) (collected numbers)) }
    {
        let mut numbers = Numbers::new(alloc);
        add_all(alloc, &self.bytes, &mut numbers)?;
        Ok(numbers)
    }

    /// A law: the dump has fewer than 2 ^ 30 different numbers, since each takes six bytes or more.
    pub fn has_few_numbers(&self)
        ensures { (ds : List Doc) (table : List ℤ) →
            AreJoinedBy (valued worth) ds (bytes_of self.now) → AreDistinct table →
            HaveSame table (document_numbers ds) → length table < 2 ^ 30 }
    {}

    /// The bytes that it was read from, and where its documents begin.
    pub fn into_parts(self) -> (Vec<u8>, Starts)
        ensures bytes { result.0.items ≡ bytes_of self }
        ensures starts { AreStartsOf result.1 (bytes_of self) }
    {
        let starts = Starts {
            starts: self.starts,
        };
        (self.bytes, starts)
    }

    /// The bytes that it was read from.
    pub fn into_bytes(self) -> Vec<u8>
        ensures { result.items ≡ bytes_of self }
    {
        self.bytes
    }
}
