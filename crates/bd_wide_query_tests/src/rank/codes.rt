//! Tables, and the codes of numbers.
use crate::rank::rising::{COUNT, rising};
use bd_bson_view::ElementType;
use bd_value::Kind;
use bd_wide_number::Number;
use bd_wide_rank::{Numbers, codes_keep_order};
use std::test::Fail;

#[test]
fn all_numbers(rt: HostRuntime) -> Result<(), Fail> {
    let mut numbers = Numbers::new(rt.alloc());
    let all = rising();
    for i in 0..COUNT {
        numbers.push(all[COUNT - 1 - i])?;
        numbers.push(all[i])?;
    }
    let table = numbers.into_table().expect(&rt, "few numbers");
    table.codes_fit();
    codes_keep_order();
    assert!(rt; table.len() == COUNT);
    for i in 0..COUNT {
        assert!(rt; table.code(all[i]) == 2 * i as i32 + 1);
    }
    // 0.2 is between 0.1, which is a double, and 0.3, which is another; -1e300 is between the fourth and the fifth.
    assert!(rt; table.code(Number::Decimal128(2, 0x303e_0000_0000_0000)) == 26);
    assert!(rt; table.code(Number::Double(0xfe37_e43c_8800_759c)) == 8);
    Ok(())
}

#[test]
fn not_a_number(rt: HostRuntime) -> Result<(), Fail> {
    let mut numbers = Numbers::new(rt.alloc());
    numbers.push(Number::Whole(-2))?;
    let table = numbers.into_table().expect(&rt, "few numbers");
    assert!(rt; table.code(Number::Double(0x7ff8_0000_0000_0000)) == -1);
    assert!(rt; table.code(Number::Double(0xfff0_0000_0000_0000)) == 0);
    assert!(rt; table.code(Number::Whole(-3)) == 0);
    assert!(rt; table.code(Number::Whole(-2)) == 1);
    assert!(rt; table.code(Number::Whole(-1)) == 2);
    Ok(())
}

/// The codes of the numbers of a table: first of those that are doubles.
#[test]
fn codes_of_a_table(rt: HostRuntime) -> Result<(), Fail> {
    let mut numbers = Numbers::new(rt.alloc());
    numbers.push(Number::Whole(2))?;
    numbers.push(Number::Decimal128(1, 0x303e_0000_0000_0000))?;
    numbers.push(Number::Double(0x7ff8_0000_0000_0000))?;
    numbers.push(Number::Whole(1))?;
    let table = numbers.into_table().expect(&rt, "few numbers");
    table.nan_has_its_code_alone();
    let codes = table.codes(rt.alloc())?;
    assert_eq!(rt; codes.as_slice(), [1, 5, 7, 3].as_slice());
    Ok(())
}

/// Numbers that repeat: 300 whole numbers, and 300 tenths, none of which is a double.
#[test]
fn repeated_numbers(rt: HostRuntime) -> Result<(), Fail> {
    let mut numbers = Numbers::new(rt.alloc());
    for i in 0u64..6000 {
        let n = i * 7 % 300;
        numbers.push(Number::Whole(n as i64))?;
        numbers.push(Number::Decimal128(n * 10 + 1, 0x303e_0000_0000_0000))?;
    }
    let table = numbers.into_table().expect(&rt, "few numbers");
    assert!(rt; table.len() == 600);
    for i in 0u64..300 {
        let code = 4 * i as i32 + 1;
        assert!(rt; table.code(Number::Whole(i as i64)) == code);
        assert!(rt; table.code(Number::Decimal128(i * 10 + 1, 0x303e_0000_0000_0000)) == code + 2);
        assert!(rt; table.code(Number::Decimal128(i * 10 + 2, 0x303e_0000_0000_0000)) == code + 3);
    }
    Ok(())
}

/// Each type of number, by its bytes.
#[test]
#[tactic(auto, unfolding(bd_wide::specs::Rewritten::least))]
fn values(rt: HostRuntime) -> Result<(), Fail> {
    let mut numbers = Numbers::new(rt.alloc());
    numbers.push(Number::Whole(1))?;
    numbers.push(Number::Whole(2))?;
    let table = numbers.into_table().expect(&rt, "few numbers");
    assert!(rt; table.code_of_value(ElementType::Kept(Kind::Int32), b"\x01\0\0\0") == 1);
    let two = b"\x02\0\0\0\0\0\0\0";
    assert!(rt; table.code_of_value(ElementType::Kept(Kind::Int64), two) == 3);
    let half = b"\0\0\0\0\0\0\xf8\x3f";
    assert!(rt; table.code_of_value(ElementType::Double, half) == 2);
    let decimal = b"\x14\0\0\0\0\0\0\0\0\0\0\0\0\0\x3e\x30";
    assert!(rt; table.code_of_value(ElementType::Decimal128, decimal) == 3);
    assert!(rt; table.code_of_value(ElementType::Kept(Kind::Bool), b"\x01") == 0);
    Ok(())
}
