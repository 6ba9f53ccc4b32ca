//! Commands by value, and commands that are refused. The expected texts are worked by hand.

use crate::service::talk::replies;
use std::alloc::AllocError;

/// {"a":1.5}, {"a":2}, {"a":NaN}
const DUMP: &[u8] =
    b"\x10\0\0\0\x01a\0\0\0\0\0\0\0\xf8\x3f\0\x0c\0\0\0\x10a\0\x02\0\0\0\0\x10\0\0\0\x01a\0\0\0\0\0\0\0\xf8\x7f\0";

/// A number is equal to one of another type with its value; NaN is equal to NaN alone, and neither below nor above a number.
#[test]
fn numbers_by_value(rt: HostRuntime) -> Result<(), AllocError> {
    for (command, wanted) in [
        (
            b"{\"explain\":{\"a\":2.0}}".as_slice(),
            b"\"matches\":{\"$numberLong\":\"1\"}}\n".as_slice(),
        ),
        (
            b"{\"explain\":{\"a\":{\"$in\":[{\"$numberDecimal\":\"1.50\"},3]}}}".as_slice(),
            b"\"matches\":{\"$numberLong\":\"1\"}}\n".as_slice(),
        ),
        (
            b"{\"explain\":{\"a\":{\"$lte\":2}}}".as_slice(),
            b"\"matches\":{\"$numberLong\":\"2\"}}\n".as_slice(),
        ),
        (
            b"{\"explain\":{\"a\":{\"$gte\":{\"$numberDouble\":\"NaN\"}}}}".as_slice(),
            b"\"matches\":{\"$numberLong\":\"1\"}}\n".as_slice(),
        ),
        (
            b"{\"explain\":{\"a\":{\"$gt\":{\"$numberDouble\":\"NaN\"}}}}".as_slice(),
            b"\"matches\":{\"$numberLong\":\"0\"}}\n".as_slice(),
        ),
    ] {
        let printed = replies(rt.alloc(), false, DUMP, command)?;
        assert!(rt; printed.as_slice().ends_with(wanted));
    }
    Ok(())
}

/// NaN comes first, and then the others by value.
#[test]
fn sorted_by_value(rt: HostRuntime) -> Result<(), AllocError> {
    let commands = b"{\"find\":{},\"sort\":{\"a\":1}}\n{\"getMore\":1,\"batch\":3}\n";
    let wanted = b"{\"ok\":true,\"cursor\":{\"$numberLong\":\"1\"}}
{\"ok\":true,\"documents\":[{\"a\":{\"$numberDouble\":\"NaN\"}},{\"a\":{\"$numberDouble\":\"1.5\"}},{\"a\":{\"$numberInt\":\"2\"}}],\"end\":true,";
    let printed = replies(rt.alloc(), false, DUMP, commands)?;
    assert!(rt; printed.as_slice().starts_with(wanted));
    Ok(())
}

/// An index finds a number by its value.
#[test]
fn index_by_value(rt: HostRuntime) -> Result<(), AllocError> {
    let commands =
        b"{\"createIndex\":\"a\"}\n{\"find\":{\"a\":2.0},\"use\":{\"index\":\"a\"}}\n{\"getMore\":1,\"batch\":3}\n";
    let wanted = b"{\"ok\":true,\"entries\":{\"$numberLong\":\"3\"},\"multikey\":false}
{\"ok\":true,\"cursor\":{\"$numberLong\":\"1\"}}
{\"ok\":true,\"documents\":[{\"a\":{\"$numberInt\":\"2\"}}],\"end\":true,";
    let printed = replies(rt.alloc(), false, DUMP, commands)?;
    assert!(rt; printed.as_slice().starts_with(wanted));
    Ok(())
}

/// A double is neither a text nor a count of a command. A token is checked before the filter.
#[test]
fn refused_in_turn(rt: HostRuntime) -> Result<(), AllocError> {
    let bad_field =
        b"{\"ok\":false,\"layer\":\"command\",\"number\":{\"$numberInt\":\"5\"},\"text\":\"bad field\"}\n";
    for (command, wanted) in [
        (b"{\"createIndex\":1.5}".as_slice(), bad_field.as_slice()),
        (
            b"{\"find\":{},\"skip\":2.0}".as_slice(),
            bad_field.as_slice(),
        ),
        (
            b"{\"resume\":\"x\",\"filter\":{\"a\":{\"$type\":1}}}".as_slice(),
            b"{\"ok\":false,\"layer\":\"session\",\"number\":{\"$numberInt\":\"7\"},\"text\":\"not a token\"}\n".as_slice(),
        ),
    ] {
        let printed = replies(rt.alloc(), false, DUMP, command)?;
        assert!(rt; printed.as_slice() == wanted);
    }
    Ok(())
}
