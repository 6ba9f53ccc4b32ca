//! The laws of copies. The body of each is empty: its contract is the law.

ghost use Rattle.std.specs.Prelude.{List, ℕ, ℤ, ◌≤◌, length};
ghost use Rattle.bd_value.specs.Limits.{longest_document};
ghost use Rattle.bd_value.specs.Tree.{Doc, Scalar};
ghost use Rattle.bd_bson_view.specs.Spelling.{CanSpell, IsDocument, IsDocumentBy, valued};
ghost use Rattle.bd_bson_view.specs.declared.raw_parts.ElementType.{ElementType};
ghost use Rattle.bd_wide.specs.Rewritten.{IsRewritten};
ghost use Rattle.bd_wide_copy.specs.Copy.{IsCodeOf, IsNoLonger, WholesAreWorth, coded_document, int64_of, number_as};

/// If bytes are a document by value, whatever a number is worth, then what is written for them, with a code for each number, is
/// the document with these codes, unless it is too long. Codes that are no longer than the numbers make no document longer.
pub fn copies_are_spelled()
    ensures spelled { (worth : ElementType → List ℕ → ℤ) (c : ℤ → Scalar) →
        ((z : ℤ) → CanSpell (c z)) → (d : Doc) (bytes new : List ℕ) →
        IsDocumentBy (valued worth) d bytes → IsRewritten (IsCodeOf worth c) bytes new →
        length new ≤ longest_document → IsDocument (coded_document (number_as c) d) new }
    ensures no_longer { (worth : ElementType → List ℕ → ℤ) (c : ℤ → Scalar) →
        ((z : ℤ) → CanSpell (c z)) → IsNoLonger worth c →
        (d : Doc) (bytes new : List ℕ) →
        IsDocumentBy (valued worth) d bytes → IsRewritten (IsCodeOf worth c) bytes new →
        length new ≤ length bytes }
{}

/// A document of the nineteen kinds is a document by value: that in which each int32 and int64 is its worth.
pub fn plain_documents_by_value()
    ensures { (worth : ElementType → List ℕ → ℤ) (f : ℤ → ℤ) → WholesAreWorth worth f →
        (d : Doc) (bytes : List ℕ) → IsDocument d bytes →
        IsDocumentBy (valued worth) (coded_document (number_as (int64_of f)) d) bytes }
{}
