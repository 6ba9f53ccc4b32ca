//! A document with a double, an array with an int64, and code with scope with an int32.

ghost use Rattle.std.specs.Prelude.{pos};

use bd_bson_view::ElementType;
use bd_wide_copy::{Codes, Longs, collect_numbers, write_copy};
use bd_wide_number::Number;
use std::test::Fail;

/// {"d":1.0,"s":"a","a":[int64 1],"c":code "x" with {"n":int32 1}}
pub(crate) const DOCUMENT: &[u8] =
    b"\x45\0\0\0\x01d\0\0\0\0\0\0\0\xf0\x3f\x02s\0\x02\0\0\0a\0\x04a\0\x10\0\0\0\x120\0\x01\0\0\0\0\0\0\0\0\x0fc\0\x16\0\0\0\x02\0\0\0x\0\x0c\0\0\0\x10n\0\x01\0\0\0\0\0";

/// The same with an int32 7 in place of each number.
pub(crate) const COPY: &[u8] =
    b"\x3d\0\0\0\x10d\0\x07\0\0\0\x02s\0\x02\0\0\0a\0\x04a\0\x0c\0\0\0\x100\0\x07\0\0\0\0\x0fc\0\x16\0\0\0\x02\0\0\0x\0\x0c\0\0\0\x10n\0\x07\0\0\0\0\0";

/// Each number has the code 7.
pub(crate) struct Seven;

impl Codes for Seven {
    ghost worth_of = { λ _ typed value. pos 0 };

    ghost code_of = { λ _ z. pos 7 };

    fn code(&self, _typed: ElementType, _value: &[u8]) -> i32 {
        7
    }
}

#[test]
fn all_types(rt: HostRuntime) -> Result<(), Fail> {
    let alloc = rt.alloc();
    let mut out = Vec::new(alloc);
    write_copy(&Seven, Longs::none(), DOCUMENT, &mut out)?;
    assert!(rt; out.as_slice() == COPY);
    Ok(())
}

#[test]
fn two_classes(rt: HostRuntime) -> Result<(), Fail> {
    let alloc = rt.alloc();
    // The double is an int64, and so is the int64 of the array; the int32 in the scope is none.
    let wanted =
        b"\x45\0\0\0\x12d\0\x07\0\0\0\0\0\0\0\x02s\0\x02\0\0\0a\0\x04a\0\x10\0\0\0\x120\0\x07\0\0\0\0\0\0\0\0\x0fc\0\x16\0\0\0\x02\0\0\0x\0\x0c\0\0\0\x10n\0\x07\0\0\0\0\0";
    let longs = Longs {
        double: true,
        int64: true,
        decimal128: false,
    };
    let mut out = Vec::new(alloc);
    write_copy(&Seven, longs, DOCUMENT, &mut out)?;
    assert!(rt; out.as_slice() == wanted.as_slice());
    Ok(())
}

#[test]
fn numbers(rt: HostRuntime) -> Result<(), Fail> {
    let mut numbers = Vec::new(rt.alloc());
    collect_numbers(DOCUMENT, &mut numbers)?;
    let all = numbers.as_slice();
    assert!(rt;
        matches!(
            all,
            [
                Number::Double(0x3ff0_0000_0000_0000),
                Number::Whole(1),
                Number::Whole(1)
            ]
        )
    );
    Ok(())
}

#[test]
fn decimal128(rt: HostRuntime) -> Result<(), Fail> {
    let alloc = rt.alloc();
    // {"d":1.5}, a decimal128: the coefficient 15, and the exponent -1, which is 6175 with its bias, before the 48 bits below it
    let document = b"\x18\0\0\0\x13d\0\x0f\0\0\0\0\0\0\0\0\0\0\0\0\0\x3e\x30\0";
    let mut out = Vec::new(alloc);
    write_copy(&Seven, Longs::none(), document, &mut out)?;
    assert!(rt; out.as_slice() == b"\x0c\0\0\0\x10d\0\x07\0\0\0\0".as_slice());
    let mut numbers = Vec::new(alloc);
    collect_numbers(document, &mut numbers)?;
    let all = numbers.as_slice();
    assert!(rt; matches!(all, [Number::Decimal128(15, 0x303e_0000_0000_0000)]));
    Ok(())
}
