//! The texts of the documents of a dump, each by its place.

ghost use Rattle.std.specs.Prelude.{◌≡◌, ◌<◌, ◌≤◌, ◌++◌, ℕ, List, IfOk, OnErr, length, take};
ghost use Rattle.bd_bson_dump.specs.{Collection.documents, declared.collection.Dump.Dump};
ghost use Rattle.bd_cli_print.specs.Printer.{IsNamedText};

use bd_bson_dump::Dump;
use bd_extjson_text::{End, append_few, append_node};

/// What prints the documents at places of a dump.
pub trait PlacePrinter {
    /// It has a document for this place of the dump.
    ghost can_print: { Self → Dump → ℕ → Type 0 };

    /// The text is that of its document for this place of the dump.
    ghost is_text: { Self → Dump → ℕ → List ℕ → Type 0 };

    /// Appends the text of the document for a place of a dump after the first `end` bytes of a buffer, and returns where the
    /// text ends. There is no newline after it.
    ///
    /// On `NoMemory` those `end` bytes are unchanged.
    fn append(&self, dump: &Dump, place: u32, buffer: &mut Vec<u8>, end: usize) -> End
        requires document { can_print self.now dump.now place }
        requires buffer { end ≤ length buffer.old.items }
        ensures text { IfOk result (λ to. (text : List ℕ) × is_text self.now dump.now place text
            × (take to buffer.new.items ≡ take end buffer.old.items ++ text)) }
        ensures within { IfOk result (λ to. to ≤ length buffer.new.items) }
        ensures err { OnErr result (take end buffer.new.items ≡ take end buffer.old.items) };
}

/// Prints the documents of the dump itself.
#[derive(Clone, Copy, Debug)]
pub struct NamedPrinter;

impl PlacePrinter for NamedPrinter {
    ghost can_print = { λ _ dump place. place < length (documents dump) };

    ghost is_text = { λ _ dump place text. IsNamedText (documents dump) place text };

    #[inline(always)]
    fn append(&self, dump: &Dump, place: u32, buffer: &mut Vec<u8>, end: usize) -> End {
        // This makes the space that the text of a value needs.
        let end = append_few(b"", buffer, end)?;
        append_node(dump.document(place).value(), buffer, end)
    }
}
