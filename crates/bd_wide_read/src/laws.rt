//! Laws of the texts of numbers. The body of each is empty: its contract is the law.

ghost use Rattle.std.specs.Prelude.{◌≡◌, ◌<◌, ◌^◌, List, ℕ, Ok, Result};
ghost use Rattle.std.specs.Float.{binary64, nan, NotNan};
ghost use Rattle.std.specs.Float.Ieee.{of_bits};
ghost use Rattle.bd_wide_text.specs.Double.{IsDoubleText};
ghost use Rattle.bd_wide_text.specs.Decimal128.{decimal128_text};
ghost use Rattle.bd_wide_read.specs.DecimalText.{IsCanonical, IsRead, numeric_of};
ghost use Rattle.bd_wide_read.specs.DoubleText.{double_bits};
ghost use Rattle.bd_wide_read.specs.declared.fault.TextFault.{TextFault};

/// The text of each double is read as the double, and that of each NaN as the canonical NaN.
pub fn double_text_is_read()
    ensures same { (bits : ℕ) (text : List ℕ) → bits < 2 ^ 64 → NotNan (of_bits binary64 bits)
        → IsDoubleText bits text → double_bits text ≡ Ok bits }
    ensures nan { (bits : ℕ) (text : List ℕ) → of_bits binary64 bits ≡ nan
        → IsDoubleText bits text → double_bits text ≡ Ok 0x7FF8_0000_0000_0000 }
{}

/// The text of each decimal128 in its one form is read as it, and as nothing else.
pub fn decimal128_text_is_read()
    ensures read { (low high : ℕ) → low < 2 ^ 64 → high < 2 ^ 64 → IsCanonical low high
        → IsRead (numeric_of (decimal128_text low high)) (Ok (low, high)) }
    ensures once { (low high : ℕ) (r : Result (ℕ × ℕ) TextFault) → low < 2 ^ 64 → high < 2 ^ 64
        → IsCanonical low high → IsRead (numeric_of (decimal128_text low high)) r
        → r ≡ Ok (low, high) }
{}
