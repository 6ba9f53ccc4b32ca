//! The field `places` of `getMore`. The expected texts are worked by hand.

use crate::service::talk::replies;
use std::alloc::AllocError;

/// {"a":1}, {"a":2}, {"a":1}
const PLAIN: &[u8] =
    b"\x0c\0\0\0\x10a\0\x01\0\0\0\0\x0c\0\0\0\x10a\0\x02\0\0\0\0\x0c\0\0\0\x10a\0\x01\0\0\0\0";

/// {"a":1.5}, {"a":2}
const WIDE: &[u8] = b"\x10\0\0\0\x01a\0\0\0\0\0\0\0\xf8\x3f\0\x0c\0\0\0\x10a\0\x02\0\0\0\0";

/// Numbers are counted from 0, in the order of the answer.
#[test]
fn numbers_of_documents(rt: HostRuntime) -> Result<(), AllocError> {
    let ones = b"{\"find\":{\"a\":1}}\n{\"getMore\":1,\"batch\":5,\"places\":true}\n";
    let printed = replies(rt.alloc(), false, PLAIN, ones)?;
    let wanted = b"{\"ok\":true,\"cursor\":{\"$numberLong\":\"1\"}}
{\"ok\":true,\"places\":[{\"$numberInt\":\"0\"},{\"$numberInt\":\"2\"}],\"end\":true,\"token\":\"";
    assert!(rt; printed.as_slice().starts_with(wanted));
    let largest =
        b"{\"find\":{},\"sort\":{\"a\":-1}}\n{\"places\":true,\"getMore\":1,\"batch\":1}\n";
    let printed = replies(rt.alloc(), false, WIDE, largest)?;
    let wanted = b"{\"ok\":true,\"cursor\":{\"$numberLong\":\"1\"}}
{\"ok\":true,\"places\":[{\"$numberInt\":\"1\"}],\"end\":false,\"token\":\"";
    assert!(rt; printed.as_slice().starts_with(wanted));
    Ok(())
}

/// With `false` the reply has documents.
#[test]
fn documents(rt: HostRuntime) -> Result<(), AllocError> {
    let commands = b"{\"find\":{}}\n{\"getMore\":1,\"batch\":1,\"places\":false}\n";
    let printed = replies(rt.alloc(), false, WIDE, commands)?;
    let wanted = b"{\"ok\":true,\"cursor\":{\"$numberLong\":\"1\"}}
{\"ok\":true,\"documents\":[{\"a\":{\"$numberDouble\":\"1.5\"}}],\"end\":false,";
    assert!(rt; printed.as_slice().starts_with(wanted));
    let printed = replies(rt.alloc(), false, PLAIN, commands)?;
    let wanted = b"{\"ok\":true,\"cursor\":{\"$numberLong\":\"1\"}}
{\"ok\":true,\"documents\":[{\"a\":{\"$numberInt\":\"1\"}}],\"end\":false,";
    assert!(rt; printed.as_slice().starts_with(wanted));
    Ok(())
}

/// The field is a boolean of `getMore`, and is there once; other faults come first.
#[test]
fn refused(rt: HostRuntime) -> Result<(), AllocError> {
    for (command, wanted) in [
        (
            b"{\"getMore\":1,\"batch\":1,\"places\":1}".as_slice(),
            b"\"text\":\"bad field\"}\n".as_slice(),
        ),
        (
            b"{\"getMore\":1,\"places\":true,\"batch\":1,\"places\":true}".as_slice(),
            b"\"text\":\"repeated field\"}\n".as_slice(),
        ),
        (
            b"{\"killCursor\":1,\"places\":true}".as_slice(),
            b"\"text\":\"unknown field\"}\n".as_slice(),
        ),
        (
            b"{\"getMore\":1,\"places\":true}".as_slice(),
            b"\"text\":\"missing field\"}\n".as_slice(),
        ),
        (
            b"{\"getMore\":1,\"batch\":1,\"places\":true}".as_slice(),
            b"\"text\":\"no such cursor\"}\n".as_slice(),
        ),
    ] {
        let printed = replies(rt.alloc(), false, PLAIN, command)?;
        assert!(rt; printed.as_slice().ends_with(wanted));
        let printed = replies(rt.alloc(), false, WIDE, command)?;
        assert!(rt; printed.as_slice().ends_with(wanted));
    }
    Ok(())
}
