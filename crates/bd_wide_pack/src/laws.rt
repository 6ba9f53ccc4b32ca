//! Laws of documents with numbers: the contract of each is the law.

ghost use Rattle.std.specs.Prelude.{◌≡◌, ℕ, List};
ghost use Rattle.bd_value.specs.Tree.{Doc, Fields, doc, fields_of};
ghost use Rattle.bd_bson_view.specs.Spelling.{IsDocumentBy, valued};
ghost use Rattle.bd_extjson.specs.Laws.{IsPlain};
ghost use Rattle.bd_wide_dump.specs.{Raw.raw, WideText.AreBytes, WideText.IsTextOf};
ghost use Rattle.bd_wide_dump.specs.declared.format.JsonFormat.{JsonFormat};
ghost use Rattle.bd_wide_dump.specs.declared.format.JsonFormat.TheVariants.{Canonical};
ghost use Rattle.bd_wide_number.specs.declared.number.Number.{Number};
ghost use Rattle.bd_wide_pack.specs.Filled.{AreFilled};
ghost use Rattle.bd_wide_pack.specs.RoundTrip.{IsGivenBack};
ghost use Rattle.bd_wide_pack.specs.SameValues.{IsPackedAlike};
ghost use Rattle.bd_wide_pack.specs.WideLine.{IsPacked};

use bd_wide_dump::numbers_differ;
use bd_wide_read::{decimal128_text_is_read, double_text_is_read};
use bd_wide_substitute::texts_are_read_once;

/// Two documents and numbers have at most one document with the numbers, and the same numbers remain.
pub fn one_document()
    ensures { (fs gs wholes texts : Fields) (before rest others : List Number) →
        AreFilled fs wholes texts before rest → AreFilled gs wholes texts before others →
        (fs ≡ gs) × (rest ≡ others) }
{}

/// `dump` and `pack` undo each other: the canonical text of a document is packed as the bytes of the document, and as no others,
/// if no document in it has the name of a wrapper first, its arrays name their elements 0, 1, .., and its numbers are in
/// their one form.
pub fn dump_then_pack()
    ensures packed { (d : Doc) (bytes text : List ℕ) → IsGivenBack d bytes
        → IsTextOf Canonical (doc (fields_of d)) text → IsPacked text bytes }
    ensures once { (line bytes other : List ℕ) → AreBytes bytes → AreBytes other
        → IsPacked line bytes → IsPacked line other → bytes ≡ other }
{
    numbers_differ();
    texts_are_read_once();
    double_text_is_read();
    decimal128_text_is_read();
}

/// What `dump` prints of any document, in canonical or relaxed form, is packed as the bytes of a document with the same values, if no
/// document in it has the name of a wrapper first: numbers of the same worth, dates of the same time.
pub fn dump_then_pack_by_value()
    ensures { (format : JsonFormat) (d : Doc) (bytes text : List ℕ)
        → IsDocumentBy (valued raw) d bytes → AreBytes bytes → IsPlain (doc (fields_of d))
        → IsTextOf format (doc (fields_of d)) text → IsPackedAlike format (fields_of d) text }
{
    double_text_is_read();
    decimal128_text_is_read();
}
