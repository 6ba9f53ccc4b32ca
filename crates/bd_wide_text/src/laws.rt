//! Laws of the texts of numbers. The body of each is empty: its contract is the law.

ghost use Rattle.std.specs.Prelude.{◌≡◌, ◌<◌, ◌^◌, List, ℕ, Some};
ghost use Rattle.std.specs.Float.{binary64};
ghost use Rattle.std.specs.Float.Ieee.{of_bits};
ghost use Rattle.std.specs.Float.Parse.{parse_float};
ghost use Rattle.bd_wide_text.specs.Double.{IsDoubleText};

/// The text of each double is read back as the double.
pub fn double_text_reads_back()
    ensures { (bits : ℕ) (text : List ℕ) → bits < 2 ^ 64 → IsDoubleText bits text
        → parse_float binary64 text ≡ Some (of_bits binary64 bits) }
{}
