//! A copy of a document, with an int32 or an int64 in place of each number.

ghost use Rattle.std.specs.Prelude.{◌≡◌, ◌≤◌, ◌++◌, ◌∷◌, ℕ, ℤ, FitsSigned, List, length, drop, OnErr, OnOk};
ghost use Rattle.std.specs.Int.{w32, w64, cast_unsigned};
ghost use Rattle.std.specs.Io.{StartsWith};
ghost use Rattle.bd_bson_view.specs.Spelling.{long as long_bytes, number as number_bytes};
ghost use Rattle.bd_bson_view.specs.declared.raw_parts.ElementType as element_type;
ghost use Rattle.bd_wide.specs.Rewritten.{Adds, least};
ghost use Rattle.bd_wide_copy.specs.Copy.{IsCodeIn, IsCopy};

use crate::longs::Longs;
use bd_bson_view::ElementType;
use bd_value::NoMemory;
use bd_wide::{NumberWriter, append_long, append_number, write_rewritten};

/// Codes of numbers: each is that of what the number is worth.
pub trait Codes {
    /// What a number is worth, by its type and the bytes of its value.
    ghost worth_of: { Self → element_type.ElementType → List ℕ → ℤ };
    /// The code of a number that is worth this.
    ghost code_of: { Self → ℤ → ℤ };

    /// The code of a number, by its type and the bytes of its value.
    fn code(&self, typed: ElementType, value: &[u8]) -> i32
        requires { least typed ≤ length value.now }
        ensures { result ≡ code_of self.now (worth_of self.now typed value.now) };
}

/// Writes the code of each number.
#[derive(Drop)]
struct Copier<'a, C> {
    codes: &'a C,
    longs: Longs,
}

impl<'a, C: Codes> NumberWriter for Copier<'a, C> {
    ghost is_written = { λ copier. IsCodeIn copier.longs (C.worth_of copier.codes.now)
        (C.code_of copier.codes.now) };

    #[tactic(auto, using(bd_value::proofs::PrefixLemmas::prefixes))]
    fn element(
        &self,
        typed: ElementType,
        head: &[u8],
        value: &[u8],
        out: &mut Vec<u8>,
    ) -> Result<(), NoMemory> {
        let code = self.codes.code(typed, value);
        if self.longs.is_long(typed) {
            put_int64(head, code as i64, out)
        } else {
            put_int32(head, code, out)
        }
    }
}

/// Appends an element with an int32, under the name of an element: BSON 1.1, element 0x10.
#[tactic(auto, using(bd_value::proofs::PrefixLemmas::prefixes))]
fn put_int32(head: &[u8], z: i32, out: &mut Vec<u8>) -> Result<(), NoMemory>
    requires { 2 ≤ length head.now }
    ensures ok { OnOk result (out.new.items ≡ out.old.items
        ++ 16 ∷ (drop 1 head.now ++ number_bytes (cast_unsigned w32 z))) }
    ensures prefix { OnErr result (StartsWith out.new.items out.old.items) }
{
    let (_, name) = head.split_at(1);
    out.extend_from_slice(&[0x10])?;
    out.extend_from_slice(name)?;
    append_number(z.cast_unsigned() as u64, out)
}

/// Appends an element with an int64, under the name of an element: BSON 1.1, element 0x12.
#[tactic(auto, using(bd_value::proofs::PrefixLemmas::prefixes))]
fn put_int64(head: &[u8], z: i64, out: &mut Vec<u8>) -> Result<(), NoMemory>
    requires { 2 ≤ length head.now }
    ensures ok { OnOk result (out.new.items ≡ out.old.items
        ++ 18 ∷ (drop 1 head.now ++ long_bytes (cast_unsigned w64 z))) }
    ensures prefix { OnErr result (StartsWith out.new.items out.old.items) }
{
    let (_, name) = head.split_at(1);
    out.extend_from_slice(&[0x12])?;
    out.extend_from_slice(name)?;
    append_long(z.cast_unsigned(), out)
}

/// Appends a copy of a document of all types, with the code of each number in its place, as an int64 or an int32 by its type.
///
/// # Errors
/// On `NoMemory`, `out` is unchanged.
pub fn write_copy<C: Codes>(
    codes: &C,
    longs: Longs,
    document: &[u8],
    out: &mut Vec<u8>,
) -> Result<(), NoMemory>
    requires { (z : ℤ) → FitsSigned w32 (C.code_of codes.now z) }
    ensures ok { OnOk result (Adds (IsCopy longs (C.worth_of codes.now)
        (C.code_of codes.now) document.now) out.old.items out.new.items) }
    ensures err { OnErr result (out.new.items ≡ out.old.items) }
{
    write_rewritten(&Copier { codes, longs }, document, out)
}
