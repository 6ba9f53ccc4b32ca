//! Numbers as bytes, least byte first.

ghost use Rattle.std.specs.Prelude.{◌≡◌, ◌≤◌, ◌+◌, ◌-◌, ◌++◌, length, take, drop, vec_len, OnErr, OnOk};
ghost use Rattle.bd_bson_view.specs.Sizes.{long_of};
ghost use Rattle.bd_bson_view.specs.Spelling.{long as long_bytes, number};

use bd_value::NoMemory;

/// The first eight bytes as a number.
#[inline(always)]
pub fn long(bytes: &[u8]) -> u64
    requires { 8 ≤ length bytes.now }
    ensures { result ≡ long_of bytes.now }
{
    let (prefix, _) = bytes.split_at(8);
    u64::from_le_bytes([
        prefix[0], prefix[1], prefix[2], prefix[3], prefix[4], prefix[5], prefix[6], prefix[7],
    ])
}

/// Appends the four lowest bytes of a number: BSON 1.1, `int32`.
///
/// # Errors
/// On `NoMemory`, `out` is unchanged.
#[inline(always)]
pub fn append_number(n: u64, out: &mut Vec<u8>) -> Result<(), NoMemory>
    ensures ok { OnOk result (out.new.items ≡ out.old.items ++ number n) }
    ensures err { OnErr result (out.new.items ≡ out.old.items) }
{
    out.extend_from_slice(&low_bytes(n))
}

/// Appends the eight bytes of a number: BSON 1.1, `int64`.
///
/// # Errors
/// On `NoMemory`, `out` is unchanged.
#[inline(always)]
#[tactic(auto, unfolding(bd_bson_view::specs::Spelling::long))]
pub fn append_long(n: u64, out: &mut Vec<u8>) -> Result<(), NoMemory>
    ensures ok { OnOk result (out.new.items ≡ out.old.items ++ long_bytes n) }
    ensures err { OnErr result (out.new.items ≡ out.old.items) }
{
    out.extend_from_slice(&n.to_le_bytes())
}

/// Puts the count of the bytes from an offset on into the four bytes at that offset.
pub fn seal(at: usize, out: &mut Vec<u8>)
    requires { at + 4 ≤ vec_len out.old }
    ensures { out.new.items ≡ take at out.old.items
        ++ (number (length out.old.items - at) ++ drop (at + 4) out.old.items) }
{
    let count = low_bytes((out.len() - at) as u64);
    let bytes: &mut [u8] = out;
    bytes[at..at + 4].copy_from_slice(&count);
}

/// The four lowest bytes of a number.
#[tactic(auto, unfolding(bd_bson_view::specs::Spelling::number))]
fn low_bytes(n: u64) -> [u8; 4]
    ensures { result ≡ number n }
{
    let bytes = n.to_le_bytes();
    [bytes[0], bytes[1], bytes[2], bytes[3]]
}
