//! A law of the bytes that are written. Its body is empty: its contract is the law.

ghost use Rattle.std.specs.Prelude.{ℕ, List};
ghost use Rattle.bd_value.specs.Tree.{Doc, doc, fields_of};
ghost use Rattle.bd_value.specs.Fits.{Fits};
ghost use Rattle.bd_bson_view.specs.Spelling.{IsDocument};
ghost use Rattle.bd_bson_write.specs.TreeBytes.{SpellsPlainly};

/// The bytes written for a document spell it, by the grammar of BSON, if its numbers fit their types, and its texts and names
/// are UTF-8, as in any document in memory.
pub fn plainly_spells()
    ensures { (d : Doc) (bytes : List ℕ) →
        Fits (doc (fields_of d)) → SpellsPlainly d bytes → IsDocument d bytes }
{}
