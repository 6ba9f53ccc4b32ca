//! The texts determine plain documents, and are read back.
ghost use Rattle.std.specs.Prelude.{◌≡◌, ◌==◌, ◌≤◌, ◌↔◌, ℕ, List, All, None, false};
ghost use Rattle.bd_value.specs.Limits.{most_levels};
ghost use Rattle.bd_value.specs.Tree.{depth, Doc, Tree, doc, fields_of};
ghost use Rattle.bd_value.specs.Fits.{Fits, FitsTypes, zero_in};
ghost use Rattle.bd_value.specs.View.{pairs};
ghost use Rattle.bd_extjson.specs.Laws.{IsPlain};
ghost use Rattle.bd_extjson.specs.Read.{ReadsAs};
ghost use Rattle.bd_extjson_fault.specs.TextFault.{first_fault_in};
ghost use Rattle.bd_extjson_text.specs.Text.{text};

use bd_value::{Document, document_fits};

/// The printed text determines the document, for plain documents: those in which no document has the name of a wrapper first.
/// Without that, `{"a":{"$numberInt":"1"}}` is the text of a nested document and of an Int32.
#[tactic(auto, using(crate::proofs::InjectiveLemmas::document_determined))]
pub fn text_determines_document()
    ensures { (c d : Doc) → FitsTypes (doc (fields_of c)) → FitsTypes (doc (fields_of d))
        → IsPlain (doc (fields_of c)) → IsPlain (doc (fields_of d))
        → text (doc (fields_of c)) ≡ text (doc (fields_of d)) → c ≡ d }
{}

/// The printed text of a plain document is read back as that document, whatever kinds of values it contains, if its numbers
/// fit their types, its texts and names are UTF-8, no name and no part of a regular expression contains U+0000, and it is at
/// most 200 levels deep.
#[tactic(auto, using(crate::proofs::ReadBackLemmas::document_back))]
pub fn reads_back()
    ensures { (d : Doc) → Fits (doc (fields_of d)) →
        IsPlain (doc (fields_of d)) → zero_in (doc (fields_of d)) ≡ false →
        depth (doc (fields_of d)) ≤ most_levels → ReadsAs (text (doc (fields_of d))) d }
{}

/// The same for a document in memory, whose numbers, texts and names are as that law needs them, since it exists.
///
/// ```
/// document_reads_back(&document);
/// write_doc(&document, &mut text)?;
/// // A proof now knows that `read_doc(alloc, text.as_bytes())` has no other answer than `document`, or no memory.
/// ```
#[tactic(auto, using(crate::proofs::ReadBackLemmas::document_back))]
pub fn document_reads_back(document: &Document)
    ensures { IsPlain (doc (fields_of (pairs document.now))) →
        zero_in (doc (fields_of (pairs document.now))) ≡ false →
        depth (doc (fields_of (pairs document.now))) ≤ most_levels →
        ReadsAs (text (doc (fields_of (pairs document.now)))) (pairs document.now) }
{
    document_fits(document);
}

/// A document read from a text fits too: its numbers fit their types, and its texts and names are UTF-8.
#[tactic(auto, using(crate::proofs::FitLemmas::reads_sound))]
pub fn reads_what_fits()
    ensures { (text : List ℕ) (d : Doc) → ReadsAs text d → Fits (doc (fields_of d)) }
{}

/// A text is one line: no byte of it is a newline.
#[tactic(auto, using(crate::proofs::TextLemmas::text_line))]
pub fn texts_are_lines()
    ensures { (t : Tree) → FitsTypes t → All (λ b. (b == 10) ≡ false) (text t) }
{}

/// A text has no fault exactly if it is a document. So `text_fault` of any other text is its first fault.
#[tactic(auto, using(crate::proofs::DocumentFaultLemmas::no_fault_where_read))]
pub fn document_or_fault()
    ensures { (text : List ℕ) → (first_fault_in text ≡ None) ↔ ((d : Doc) × ReadsAs text d) }
{}
