//! Laws of packing. The body of each is empty: its contract is the law.

ghost use Rattle.std.specs.Prelude.{◌≡◌, ◌≤◌, ℕ, List, false};
ghost use Rattle.bd_value.specs.Tree.{Doc, doc, fields_of, depth};
ghost use Rattle.bd_extjson_pack.specs.Packable.{plain, IsPackable};
ghost use Rattle.bd_value.specs.Limits.{most_levels};
ghost use Rattle.bd_value.specs.Fits.{zero_in};
ghost use Rattle.bd_bson_view.specs.Spelling.{IsDocument};
ghost use Rattle.bd_bson_write.specs.TreeBytes.{SpellsPlainly};
ghost use Rattle.bd_extjson.specs.Read.{ReadsAs};

/// A document read from a line can be written, except for its length: it is at most 200 levels deep, and no name and no part
/// of a regular expression contains U+0000.
pub fn reads_within_limits()
    ensures deep { (line : List ℕ) (d : Doc) →
        ReadsAs line d → depth (doc (fields_of d)) ≤ most_levels }
    ensures zeros { (line : List ℕ) (d : Doc) →
        ReadsAs line d → zero_in (doc (fields_of d)) ≡ false }
{}

/// So the packed bytes are the line's document, written within all limits, and spell it by the grammar of BSON.
pub fn packs_documents()
    ensures written { (line : List ℕ) (d : Doc) → IsPackable line d → SpellsPlainly d (plain d) }
    ensures spelled { (line : List ℕ) (d : Doc) → IsPackable line d → IsDocument d (plain d) }
{}
