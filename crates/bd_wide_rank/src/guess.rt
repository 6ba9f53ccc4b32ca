//! A guess at the next lower double: nearly always right, and nothing rests on it.

use crate::key::ZERO;
use crate::size::Size;

/// About a number: top * 2 ^ exponent.
#[derive(Clone, Copy)]
struct About {
    top: u64,
    exponent: i64,
}

/// 5 ^ 27, the greatest power of five of 64 bits.
const FIVES: u64 = 7_450_580_596_923_828_125;

/// The bits of the greatest finite double.
const GREATEST: u64 = 0x7FEF_FFFF_FFFF_FFFF;

/// A number with more tens than this is above all doubles, and one with more tens below is nearly 0.
const MOST_TENS: u64 = 400;

/// A power of two of 52 bits.
const UNIT: u64 = 0x0010_0000_0000_0000;

/// A guess at the key of the greatest double that is not above a number, or of the one after it.
pub(crate) fn guess(negative: bool, size: Size) -> u64 {
    let bits = bits_about(size);
    if negative {
        ZERO - bits % ZERO
    } else {
        ZERO + bits % ZERO
    }
}

/// About the bits of the double that is next to a size.
fn bits_about(size: Size) -> u64 {
    if size.number == 0 || size.fives < 6176 - MOST_TENS {
        return 0;
    }
    if size.fives > 6176 + MOST_TENS {
        return GREATEST;
    }
    let start = shifted(size.number, (size.twos % 0x1_0000) as i64 - 6176);
    if size.fives < 6176 {
        bits_of_about(divided(start, 6176 - size.fives))
    } else {
        bits_of_about(multiplied(start, size.fives - 6176))
    }
}

/// About a number times 2 ^ exponent.
fn shifted(number: u128, exponent: i64) -> About {
    let zeros = number.leading_zeros() % 128;
    About {
        top: ((number << zeros) / 0x0001_0000_0000_0000_0000) as u64,
        exponent: exponent.wrapping_add(64 - zeros as i64),
    }
}

/// About a number times 5 ^ fives.
fn multiplied(start: About, fives: u64) -> About {
    let mut about = start;
    for _ in 0..fives / 27 {
        about = shifted(about.top as u128 * FIVES as u128, about.exponent);
    }
    let last = 5u64.pow((fives % 27) as u32);
    shifted(about.top as u128 * last as u128, about.exponent)
}

/// About 1 / 5 ^ n for each n up to 27, times 2 ^ 62 and the power of two above 5 ^ n: a product takes less time than a quotient.
const INVERSES: [u64; 28] = [
    0x8000_0000_0000_0000,
    0x6666_6666_6666_6666,
    0x51EB_851E_B851_EB85,
    0x4189_374B_C6A7_EF9D,
    0x68DB_8BAC_710C_B295,
    0x53E2_D623_8DA3_C211,
    0x431B_DE82_D7B6_34DA,
    0x6B5F_CA6A_F2BD_215E,
    0x55E6_3B88_C230_E77E,
    0x44B8_2FA0_9B5A_52CB,
    0x6DF3_7F67_5EF6_EADF,
    0x57F5_FF85_E592_557F,
    0x465E_6604_B7A8_4465,
    0x7097_09A1_25DA_0709,
    0x5A12_6E1A_84AE_6C07,
    0x480E_BE7B_9D58_566C,
    0x734A_CA5F_6226_F0AD,
    0x5C3B_D519_1B52_5A24,
    0x49C9_7747_490E_AE83,
    0x760F_253E_DB4A_B0D2,
    0x5E72_8432_4908_8D75,
    0x4B8E_D028_3A6D_3DF7,
    0x78E4_8040_5D7B_9658,
    0x60B6_CD00_4AC9_4513,
    0x4D5F_0A66_A23A_9DA9,
    0x7BCB_43D7_69F7_62A8,
    0x6309_0312_BB2C_4EED,
    0x4F3A_68DB_C8F0_3F24,
];

/// About a number divided by 5 ^ fives.
fn divided(start: About, fives: u64) -> About {
    let mut about = start;
    for _ in 0..fives / 27 {
        about = quotient(about, 27);
    }
    quotient(about, fives % 27)
}

/// About a number divided by 5 ^ fives, of at most 27 fives.
fn quotient(about: About, fives: u64) -> About {
    let fives = fives.min(27);
    let product = about.top as u128 * INVERSES[fives as usize] as u128;
    let bits = fives * 1_217_359 / 524_288 + 1;
    shifted(product, about.exponent.wrapping_sub(62 + bits as i64))
}

/// More than a number is too small by. So a number that is just above a double is not taken for one below it.
const LACK: u64 = 64;

/// The bits of the double that is about a number.
fn bits_of_about(about: About) -> u64 {
    let number = about.top.saturating_add(LACK) / 2048;
    let exponent = about.exponent.wrapping_add(63 + 1023);
    if exponent >= 2047 {
        GREATEST
    } else if exponent > 0 {
        exponent as u64 * UNIT + number % UNIT
    } else if exponent > -52 {
        number >> (1 - exponent) as u32
    } else {
        0
    }
}
