//! Sessions by value over a dump without doubles and decimal128. The expected texts are worked by hand.

use crate::service::talk::replies;
use std::alloc::AllocError;

/// {"a":1}, {"a":2}, {"a":1}
const DUMP: &[u8] =
    b"\x0c\0\0\0\x10a\0\x01\0\0\0\0\x0c\0\0\0\x10a\0\x02\0\0\0\0\x0c\0\0\0\x10a\0\x01\0\0\0\0";

/// A command may have a double.
#[test]
fn served_by_value(rt: HostRuntime) -> Result<(), AllocError> {
    let below = b"{\"find\":{\"a\":{\"$lt\":1.5}}}\n{\"getMore\":1,\"batch\":1}\n";
    let printed = replies(rt.alloc(), true, DUMP, below)?;
    let wanted = b"{\"ok\":true,\"cursor\":{\"$numberLong\":\"1\"}}
{\"ok\":true,\"documents\":[{\"a\":{\"$numberInt\":\"1\"}}],\"end\":false,\"token\":\"";
    assert!(rt; printed.as_slice().starts_with(wanted));
    Ok(())
}
