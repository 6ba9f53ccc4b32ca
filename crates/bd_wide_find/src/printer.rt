//! The texts and the bytes of the documents of a dump of all types, each by its place.

ghost use Rattle.std.specs.Prelude.{◌<◌, ℕ};
ghost use Rattle.bd_bson_dump.specs.Collection.{bytes_of as bytes_of_dump};
ghost use Rattle.bd_wide_copy.specs.Dump.{AreStartsOf, IsCount, IsDocumentAt, bytes_of};
ghost use Rattle.bd_wide_find.specs.Printer.{IsLaidOutText, IsWideText};
ghost use Rattle.bd_wide_layout.specs.Layout.{layout_view};

use bd_bson_dump::Dump;
use bd_cli_print::PlacePrinter;
use bd_extjson_text::{End, append_few};
use bd_wide_copy::{Starts, WideDump};
use bd_wide_dump::{JsonFormat, append_wide};
use bd_wide_layout::{Layout, Scratch, append_document};
use std::alloc::Global;

/// Prints the documents of a dump of all types at the places of a copy of it, in which each document has the same number.
#[derive(Clone, Copy)]
pub struct WidePrinter<'a> {
    /// The dump of all types, and not the copy.
    pub dump: &'a WideDump,
}

impl PlacePrinter for WidePrinter<'_> {
    ghost can_print = { λ printer _ place.
        (count : ℕ) × IsCount (bytes_of printer.dump.now) count × (place < count) };

    ghost is_text = { λ printer _ place text. IsWideText (bytes_of printer.dump.now) place text };

    #[inline(always)]
    fn append(&self, _copy: &Dump, place: u32, buffer: &mut Vec<u8>, end: usize) -> End {
        append_wide(
            JsonFormat::Canonical,
            self.dump.document(place),
            buffer,
            end,
        )
    }
}

/// Prints the documents of a dump of all types in a layout, at the places of a copy of it.
#[derive(Clone, Copy)]
pub(crate) struct LaidOutWide<'a> {
    pub(crate) alloc: Global,
    pub(crate) layout: &'a Layout,
    /// The dump of all types, and not the copy.
    pub(crate) dump: &'a WideDump,
}

impl PlacePrinter for LaidOutWide<'_> {
    ghost can_print = { λ printer _ place.
        (count : ℕ) × IsCount (bytes_of printer.dump.now) count × (place < count) };

    ghost is_text = { λ printer _ place text. IsLaidOutText (layout_view printer.layout.now)
        (bytes_of printer.dump.now) place text };

    #[inline(always)]
    fn append(&self, _copy: &Dump, place: u32, buffer: &mut Vec<u8>, end: usize) -> End {
        let mut scratch = Scratch::new(self.alloc);
        let document = self.dump.document(place);
        append_document(self.alloc, self.layout, document, &mut scratch, buffer, end)
    }
}

/// Prints the documents of the dump itself in a layout.
#[derive(Clone, Copy)]
pub(crate) struct LaidOut<'a> {
    pub(crate) alloc: Global,
    pub(crate) layout: &'a Layout,
    /// Where the documents of the dump begin.
    pub(crate) starts: &'a Starts,
}

impl PlacePrinter for LaidOut<'_> {
    ghost can_print = { λ printer dump place. AreStartsOf printer.starts.now (bytes_of_dump dump)
        × ((count : ℕ) × IsCount (bytes_of_dump dump) count × (place < count)) };

    ghost is_text = { λ printer dump place text. IsLaidOutText (layout_view printer.layout.now)
        (bytes_of_dump dump) place text };

    #[inline(always)]
    fn append(&self, dump: &Dump, place: u32, buffer: &mut Vec<u8>, end: usize) -> End {
        let mut scratch = Scratch::new(self.alloc);
        let document = self.starts.document(dump.bytes(), place);
        append_document(self.alloc, self.layout, document, &mut scratch, buffer, end)
    }
}

/// Prints the bytes of the documents of a dump of all types, at the places of a copy of it.
#[derive(Clone, Copy)]
pub struct WideBytes<'a> {
    /// The dump of all types, and not the copy.
    pub dump: &'a WideDump,
}

impl PlacePrinter for WideBytes<'_> {
    ghost can_print = { λ printer _ place.
        (count : ℕ) × IsCount (bytes_of printer.dump.now) count × (place < count) };

    ghost is_text = { λ printer _ place text. IsDocumentAt (bytes_of printer.dump.now) place text };

    #[inline(always)]
    fn append(&self, _copy: &Dump, place: u32, buffer: &mut Vec<u8>, end: usize) -> End {
        append_few(self.dump.document(place), buffer, end)
    }
}

/// Prints the bytes of the documents of the dump itself.
#[derive(Clone, Copy)]
pub struct NamedBytes<'a> {
    /// Where the documents of the dump begin.
    pub starts: &'a Starts,
}

impl PlacePrinter for NamedBytes<'_> {
    ghost can_print = { λ printer dump place. AreStartsOf printer.starts.now (bytes_of_dump dump)
        × ((count : ℕ) × IsCount (bytes_of_dump dump) count × (place < count)) };

    ghost is_text = { λ _ dump place text. IsDocumentAt (bytes_of_dump dump) place text };

    #[inline(always)]
    fn append(&self, dump: &Dump, place: u32, buffer: &mut Vec<u8>, end: usize) -> End {
        append_few(self.starts.document(dump.bytes(), place), buffer, end)
    }
}
