//! Laws of texts with other values for their numbers. The body of each is empty: its contract is the law.

ghost use Rattle.std.specs.Prelude.{◌≡◌, [], List, None, drop, ℕ};
ghost use Rattle.bd_value.specs.Tree.{Doc};
ghost use Rattle.bd_extjson.specs.Read.{ReadsAs, reading};
ghost use Rattle.bd_extjson_fault.specs.TextFault.{text_fault};
ghost use Rattle.bd_extjson_fault.specs.declared.json_fault.JsonFault.{JsonFault};
ghost use Rattle.bd_wide_number.specs.declared.number.Number.{Number};
ghost use Rattle.bd_wide_substitute.specs.Both.{HasNoValues, IsRead, IsUnread};
ghost use Rattle.bd_wide_substitute.specs.Reported.{IsReported};

/// A text without doubles and decimal128 has none in any pieces. Both its documents are the one that it is for the reader of
/// nineteen types, and it has a fault exactly if it has one there, at the same byte.
pub fn texts_without_values_stay()
    ensures read { (source : List ℕ) (wholes texts : Doc) (numbers : List Number) →
        HasNoValues source → IsRead source wholes texts numbers →
        (numbers ≡ []) × ReadsAs source wholes × ReadsAs source texts }
    ensures unread { (source : List ℕ) (fault : JsonFault) →
        HasNoValues source → IsUnread source fault →
        (reading source ≡ None) × (fault.at ≡ (text_fault source).at)
        × IsReported (drop (text_fault source).at source) (text_fault source).kind fault.kind }
{}

/// A text is at most one pair of documents with the same numbers, or it has one fault.
pub fn texts_are_read_once()
    ensures read { (source : List ℕ) (wholes texts ones others : Doc) (numbers more : List Number) →
        IsRead source wholes texts numbers → IsRead source ones others more →
        (wholes ≡ ones) × (texts ≡ others) × (numbers ≡ more) }
    ensures unread { (source : List ℕ) (fault other : JsonFault) →
        IsUnread source fault → IsUnread source other → fault ≡ other }
    ensures apart { (source : List ℕ) (wholes texts : Doc) (numbers : List Number)
        (fault : JsonFault) → IsRead source wholes texts numbers → IsUnread source fault → ⊥ }
{}
