//! The examples of use in the roots of `bd_wide_read`, `bd_wide_substitute` and `bd_wide_pack`.
use bd_wide_pack::WidePacker;
use bd_wide_read::{TextFault, read_decimal128, read_double};
use bd_wide_substitute::{Substituted, substitute};
use std::test::Fail;

#[test]
fn packed(rt: HostRuntime) -> Result<(), Fail> {
    let alloc = rt.alloc();
    let mut packer = WidePacker::new(alloc);
    let mut out = Vec::new(alloc);
    let fault = packer.pack_line(b"{\"d\":1.5}", &mut out)?;
    assert!(rt; fault.is_none());
    let wanted = b"\x10\0\0\0\x01d\0\0\0\0\0\0\0\xf8\x3f\0";
    assert!(rt; out.as_slice() == wanted.as_slice());
    Ok(())
}

#[test]
fn read(rt: HostRuntime) {
    assert!(rt; read_double(b"1.5") == Ok(0x3ff8_0000_0000_0000));
    assert!(rt; read_double(b"1e999") == Err(TextFault::OutOfRange));
    assert!(rt; read_decimal128(b"1.5") == Ok((15, 0x303e_0000_0000_0000)));
    assert!(rt; read_decimal128(b"abc") == Err(TextFault::BadText));
}

#[test]
fn substituted(rt: HostRuntime) -> Result<(), Fail> {
    let alloc = rt.alloc();
    let mut made = Substituted::new(alloc);
    assert!(rt; substitute(b"[1.5,2]", &mut made)?);
    assert!(rt; made.wholes.as_slice() == b"[0  ,2]".as_slice());
    assert!(rt; made.texts.as_slice() == b"[\"\" ,2]".as_slice());
    assert!(rt; made.numbers.len() == 1);
    Ok(())
}
