//! Laws of the bytes of documents. The body of each is empty: its contract is the law.

ghost use Rattle.std.specs.Prelude.{◌≡◌, ℕ, List};
ghost use Rattle.bd_value.specs.Tree.{Doc, Tree};
ghost use Rattle.bd_bson_view.specs.Spelling.{IsDocument};
ghost use Rattle.bd_bson_view.specs.Sound.{IsAt};
ghost use Rattle.bd_bson_view.specs.declared.views.At.{At};

/// Bytes spell at most one document.
pub fn spells_one_document()
    ensures { (bytes : List ℕ) (c d : Doc) → IsDocument c bytes → IsDocument d bytes → c ≡ d }
{}

/// At most one value of a type is at an offset of bytes.
pub fn one_value_is_at()
    ensures { (bytes : List ℕ) (at : At) (t u : Tree) →
        IsAt bytes at t → IsAt bytes at u → t ≡ u }
{}
