//! Documents in bytes, worked by hand.

/// {"d":1.5,"e":decimal128 1.5,"s":"a,b","o":{"x":7}}
pub(crate) const DOCUMENT: &[u8] = b"\
    \x3d\0\0\0\x01d\0\0\0\0\0\0\0\xf8\x3f\x13e\0\x0f\0\0\0\0\0\0\0\0\0\0\0\0\0\x3e\x30\
    \x02s\0\x04\0\0\0a,b\0\x03o\0\x0c\0\0\0\x10x\0\x07\0\0\0\0\0";

/// {"a":1.5}, {"a":2} and {"a":NaN}
pub(crate) const THREE: &[u8] = b"\
    \x10\0\0\0\x01a\0\0\0\0\0\0\0\xf8\x3f\0\
    \x0c\0\0\0\x10a\0\x02\0\0\0\0\
    \x10\0\0\0\x01a\0\0\0\0\0\0\0\xf8\x7f\0";
