//! The order of two numbers.
use crate::rank::rising::{COUNT, rising};
use bd_wide_number::Number;
use bd_wide_rank::{compare_numbers, worths_are_in_order};
use std::cmp::Ordering;

#[test]
fn all_pairs(rt: HostRuntime) {
    let numbers = rising();
    for i in 0..COUNT {
        for j in 0..COUNT {
            assert!(rt; compare_numbers(numbers[i], numbers[j]) == i.cmp(&j));
            worths_are_in_order(numbers[i], numbers[j]);
        }
    }
}

#[test]
fn equal_numbers(rt: HostRuntime) {
    let tenth_of_ten = Number::Decimal128(0xa, 0x303e_0000_0000_0000);
    assert!(rt; compare_numbers(tenth_of_ten, Number::Whole(1)) == Ordering::Equal);
    let one = Number::Double(0x3ff0_0000_0000_0000);
    assert!(rt; compare_numbers(one, tenth_of_ten) == Ordering::Equal);
    let negative_zero = Number::Double(0x8000_0000_0000_0000);
    let zero = Number::Decimal128(0, 0x303a_0000_0000_0000);
    assert!(rt; compare_numbers(negative_zero, zero) == Ordering::Equal);
    let half_of_five = Number::Decimal128(0x19, 0x303e_0000_0000_0000);
    let same = Number::Double(0x4004_0000_0000_0000);
    assert!(rt; compare_numbers(half_of_five, same) == Ordering::Equal);
    let quiet = Number::Double(0x7ff8_0000_0000_0000);
    let decimal = Number::Decimal128(7, 0xfc00_0000_0000_0000);
    assert!(rt; compare_numbers(quiet, decimal) == Ordering::Equal);
}
