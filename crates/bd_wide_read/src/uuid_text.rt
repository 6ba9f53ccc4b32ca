//! The UUID that a text means.

ghost use Rattle.std.specs.Prelude.{◌≡◌};
ghost use Rattle.uuid.specs.Text.{parsed_hyphenated};

use uuid::Uuid;

/// The bytes of a UUID: 32 hexadecimal digits of either case in groups of 8, 4, 4, 4 and 12 (RFC 9562, section 4). None for any other
/// text.
pub fn read_uuid(text: &[u8]) -> Option<[u8; 16]>
    ensures { result ≡ parsed_hyphenated text.now }
{
    if text.len() != 36 {
        return None;
    }
    match Uuid::try_parse_ascii(text) {
        Ok(uuid) => Some(uuid.into_bytes()),
        Err(_) => None,
    }
}
