//! The law of codes. Its body is empty: its contract is the law.

ghost use Rattle.std.specs.Prelude.{◌<ℤ◌, IsTrue, List, ℤ};
ghost use Rattle.bd_wide_rank.specs.Rank.{code, is_among};

/// A number that is among others has a code in order beside the code of any number, also of one that is not among them.
pub fn codes_keep_order()
    ensures { (worths : List ℤ) (m n : ℤ) → IsTrue (is_among worths m) →
        (m <ℤ n → code worths m <ℤ code worths n) × (n <ℤ m → code worths n <ℤ code worths m) }
{}
